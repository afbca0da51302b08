//! Texts of a kibibyte, written escaped.

use crate::failure::Failure;
use interpolator::{
    Error, Escape, EscapedTemplate, Formattable, Interpolate, Pairs, Template, TextBuffer,
};
use std::alloc::Global;

/// How many bytes are escaped at least.
const LEAST: usize = 1024;

/// Which text is escaped.
#[derive(Clone, Copy)]
pub enum Text {
    /// One with nothing to escape.
    Plain,
    /// One in which six of some eighty characters are escaped.
    Prose,
}

/// Eighty bytes that no escape changes.
const PLAIN: &str =
    "Prose of eighty bytes in which nothing is escaped, over and over and over again ";

/// Some eighty bytes, of which six are escaped.
fn prose(escape: Escape) -> &'static str {
    match escape {
        Escape::Line => {
            "A path C:\\one\\two and a tab\tor two\twith a bell\u{7} and a path D:\\ once more, and so on"
        }
        Escape::Html => {
            "Tom & Ann said \"no\" to a < b and to b > a, and then they went home, it's late now "
        }
        Escape::Csv => {
            "He said \"no\", she said \"yes\", and \"so on\" is what they all said to each other then "
        }
        Escape::Json => {
            "He said \"no\" and she said \"yes\", by a path C:\\one\\two, which is where they were then "
        }
        Escape::Shell => {
            "It's late, isn't it, and that's all that's said of what he's done and she's not done "
        }
    }
}

/// A format with one value in a place of the escape.
fn format_of(escape: Escape) -> &'static str {
    match escape {
        Escape::Line => "{text}",
        Escape::Html => "<p>{text}</p>",
        Escape::Csv => "\"{text}\"",
        Escape::Json => "\"{text}\"",
        Escape::Shell => "echo '{text}'",
    }
}

/// Copies of a text, until they are a kibibyte.
fn copies(alloc: Global, piece: &str) -> Result<String, Failure> {
    let mut text = String::new(alloc);
    let count = LEAST.div_ceil(piece.len().max(1));
    for _ in 0..count {
        text.push_str(piece)?;
    }
    Ok(text)
}

/// Writes a text escaped, again and again, into a buffer that keeps its room.
pub fn escaped(alloc: Global, escape: Escape, text: Text, repeats: u32) -> Result<String, Failure> {
    let piece = match text {
        Text::Plain => PLAIN,
        Text::Prose => prose(escape),
    };
    let long = copies(alloc, piece)?;
    match Template::parse(alloc, format_of(escape))?.escaped(alloc, escape) {
        Ok(page) => repeat_page(alloc, &page, &long, repeats),
        Err(_) => Err(Failure::Usage),
    }
}

/// Writes a page anew in the same buffer.
fn repeat_page(
    alloc: Global,
    page: &EscapedTemplate,
    text: &String,
    repeats: u32,
) -> Result<String, Failure> {
    let mut out = TextBuffer::new(alloc);
    for _ in 0..repeats {
        out.clear();
        put(alloc, &mut out, page, text)?;
    }
    Ok(out.into_string())
}

/// Appends a page with one value.
fn put(
    alloc: Global,
    out: &mut TextBuffer,
    page: &EscapedTemplate,
    text: &String,
) -> Result<(), Error> {
    Pairs(&[("text", Formattable::display(text))]).write_page_to(alloc, out, page)
}
