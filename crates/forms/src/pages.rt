//! Letters in pages: names and items are what strangers wrote, and none of them leaves its place.

use interpolator::{
    Error, Escape, EscapedTemplate, Interpolate, PlaceError, Source, Template, TextBuffer,
    explain_place, list, places_of, values,
};
use interpolator_table::{Table, lend};
use std::alloc::Global;

/// A letter: who it goes to, and a picture and a caption for each item.
#[derive(Drop)]
pub struct Letter {
    name: String,
    items: Table,
}

impl Letter {
    /// A letter from a line of CSV like `Ann,tea.png,Tea`: a name, then pictures and captions.
    pub fn read(alloc: Global, line: &str) -> Result<Letter, Error> {
        let (name, rest) = line.split_once(',').unwrap_or((line, ""));
        let mut items = Table::new(alloc);
        let mut fields = rest.split(',');
        while let (Some(picture), Some(caption)) = (fields.next(), fields.next()) {
            items.row(&list![picture, caption])?;
        }
        Ok(Letter {
            name: String::from_str(alloc, name)?,
            items,
        })
    }

    /// The first fault of a template for such letters.
    pub fn check(&self, alloc: Global, template: &Template) -> Result<(), Error> {
        lend!(rows = self.items);
        values!(name = &self.name, items:i = rows).check_template(alloc, template)
    }

    /// Writes the letter as a page.
    pub fn write(
        &self,
        alloc: Global,
        out: &mut TextBuffer,
        page: &EscapedTemplate,
    ) -> Result<(), Error> {
        lend!(rows = self.items);
        values!(name = &self.name, items:i = rows).write_page_to(alloc, out, page)
    }
}

/// A page for each line, or a picture of the value that is out of place.
fn pages(alloc: Global, text: &str, lines: &[&str]) -> Result<String, Error> {
    let template = Template::parse(alloc, text)?;
    Letter::read(alloc, "Ann,tea.png,Tea")?.check(alloc, &template)?;
    match template.escaped(alloc, Escape::Html) {
        Ok(page) => written(alloc, &page, lines),
        Err(error) => reported(alloc, text, &error),
    }
}

/// A page for each line.
fn written(alloc: Global, page: &EscapedTemplate, lines: &[&str]) -> Result<String, Error> {
    let mut out = TextBuffer::new(alloc);
    for line in lines {
        Letter::read(alloc, line)?.write(alloc, &mut out, page)?;
    }
    Ok(out.into_string())
}

/// The value that is out of place, as a compiler shows it.
fn reported(alloc: Global, text: &str, error: &PlaceError) -> Result<String, Error> {
    let PlaceError::Misplaced(misplaced) = error else {
        return Err(Error::NoMemory);
    };
    let source = Source {
        name: "page.html",
        first_line: 1,
        text,
        start: 0,
        format: text,
    };
    let places = places_of(Escape::Html);
    let what = format!(in alloc; "{}; a value may stand {places}", misplaced.why)?;
    let mut reported = explain_place(alloc, &source, misplaced.place, what.as_str())?;
    reported.push('\n')?;
    Ok(reported)
}

const PAGE: &str = "<h1>{name}</h1>\n{items:i#(<img src=\"/{:i0({})}\" alt=\"{:i1({})}\">\n)#}";

/// Two letters, one by somebody who would rather write the page; and a page that is refused.
pub fn shown(alloc: Global) -> Result<String, Error> {
    let lines = [
        "Zoë,tea.png,Tea & milk",
        "<script>alert(1)</script>,x\" onerror=\"alert(2),\"><b>",
    ];
    let mut text = pages(alloc, PAGE, &lines)?;
    let refused = pages(alloc, "<p class={name}>Dear {name}</p>", &lines)?;
    text.push_str(refused.as_str())?;
    Ok(text)
}
