//! Files of messages, and their lines.

ghost use Rattle.std.specs.Prelude.{◌≡◌, IfOk, map};
ghost use Rattle.std.specs.Str.Lines.{lines};
ghost use Rattle.catalogue.specs.Files.{as_line, as_page, lines_of, numbered, page_of};
ghost use Rattle.words.specs.{Items.texts_of, Programs.without_mark};

use std::alloc::{AllocError, Global};
use words::program::without_mark;

/// A file of messages: its name, and what it holds.
#[derive(Drop)]
pub struct File {
    pub name: String,
    pub text: String,
}

/// The texts of the lines of a file.
#[derive(Drop)]
pub struct Page<'a> {
    /// The name of the file.
    pub file: &'a str,
    pub texts: Vec<&'a str>,
}

/// A line of a file.
#[derive(Clone, Copy)]
pub struct Line<'p, 'a> {
    /// The name of the file.
    pub file: &'a str,
    /// Counted from 1.
    pub number: usize,
    pub text: &'a str,
    /// The texts of the lines after it.
    pub rest: &'p [&'a str],
}

/// The texts of the lines of a text.
fn texts_in(alloc: Global, text: &str) -> Result<Vec<&str>, AllocError>
    ensures { IfOk result (λ texts. texts_of texts.items ≡ lines (without_mark text.now)) }
{
    without_mark(text).lines().collect(alloc)
}

/// The texts of the lines of a file.
pub fn page_of(alloc: Global, file: &File) -> Result<Page<'_>, AllocError>
    ensures { IfOk result (λ page. as_page page ≡ page_of file.now) }
{
    let texts = texts_in(alloc, file.text.as_str())?;
    Ok(Page {
        file: file.name.as_str(),
        texts,
    })
}

/// Those of each file.
pub fn pages_of(alloc: Global, files: &[File]) -> Result<Vec<Page<'_>>, AllocError>
    ensures { IfOk result (λ pages. map as_page pages.items ≡ map page_of files.now) }
{
    let mut pages = Vec::with_capacity(alloc, files.len())?;
    for file in files {
        pages.push(page_of(alloc, file)?)?;
    }
    Ok(pages)
}

/// The lines of a file with these texts.
fn numbered<'p, 'a>(
    alloc: Global,
    file: &'a str,
    texts: &'p [&'a str],
) -> Result<Vec<Line<'p, 'a>>, AllocError>
    ensures { IfOk result (λ lines.
        map as_line lines.items ≡ numbered file.now 1 (texts_of texts.now)) }
{
    let mut lines = Vec::with_capacity(alloc, texts.len())?;
    let mut number = 0usize;
    for text in texts {
        number += 1;
        let (_, rest) = texts.split_at(number);
        lines.push(Line {
            file,
            number,
            text,
            rest,
        })?;
    }
    Ok(lines)
}

/// The lines of a file.
pub fn lines_of<'p, 'a>(alloc: Global, page: &'p Page<'a>) -> Result<Vec<Line<'p, 'a>>, AllocError>
    ensures { IfOk result (λ lines. map as_line lines.items ≡ lines_of (as_page page.now)) }
{
    numbered(alloc, page.file, page.texts.as_slice())
}
