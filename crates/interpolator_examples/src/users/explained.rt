//! Faults as a compiler shows them: in a format alone, and in a format on a line of a file.

use crate::page::Page;
use interpolator::{
    Error, Formattable, Interpolate, Pairs, Source, Template, check, explain, explain_in,
    explain_with_names,
};
use std::alloc::Global;

/// What is wrong with a greeting; empty if nothing is.
fn greeting_fault(alloc: Global, greeting: &str) -> Result<String, Error> {
    match check(alloc, greeting) {
        Ok(()) => Ok(String::new(alloc)),
        Err(error) => explain(alloc, "greeting.txt", greeting, &error),
    }
}

/// What is wrong with a letter that may use the names `name` and `city`; empty if nothing is. If a
/// name is missing, these names are listed.
fn letter_fault(alloc: Global, letter: &str) -> Result<String, Error> {
    let template = Template::parse(alloc, letter)?;
    let sample = Pairs(&[
        ("name", Formattable::display(&"Ann")),
        ("city", Formattable::display(&"Oslo")),
    ]);
    match sample.check_template(alloc, &template) {
        Ok(()) => Ok(String::new(alloc)),
        Err(error) => {
            let source = Source {
                name: "letter.txt",
                first_line: 1,
                text: letter,
                start: 0,
                format: letter,
            };
            explain_with_names(alloc, &source, &error, &["name", "city"])
        }
    }
}

/// Appends what is wrong with the format in a line `key = format` of a file, if anything is.
fn push_fault(
    alloc: Global,
    reported: &mut String,
    number: usize,
    line: &str,
) -> Result<(), Error> {
    let (_, format) = line.split_once(" = ").unwrap_or(("", line));
    let Err(error) = check(alloc, format) else {
        return Ok(());
    };
    let source = Source {
        name: "messages.txt",
        first_line: number,
        text: line,
        start: line.len().saturating_sub(format.len()),
        format,
    };
    reported.push_str(explain_in(alloc, &source, &error)?.as_str())?;
    reported.push('\n')?;
    Ok(())
}

/// What is wrong with the lines of a file.
fn file_faults(alloc: Global, file: &str) -> Result<String, Error> {
    let mut reported = String::new(alloc);
    for (index, line) in file.lines().enumerate() {
        push_fault(alloc, &mut reported, index.saturating_add(1), line)?;
    }
    Ok(reported)
}

/// A file of three lines: the first and the last have faults.
const FILE: &str = "hello = Hello {name\nask = How is {city}?\nbye = Bye {name:5s}\n";

pub fn show(page: &mut Page) {
    let alloc = page.alloc;
    let letter = letter_fault(alloc, "Hello {name},\nhow is {town}?");
    page.put_made("letter_fault", letter);
    page.put_made("letter_fault", letter_fault(alloc, "Hello {naem}"));
    page.put_made("explain", greeting_fault(alloc, "Hello {name"));
    page.put_made("file_faults", file_faults(alloc, FILE));
}
