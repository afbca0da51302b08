//! Messages in two languages, the second of which stands in for what the first lacks.

use interpolator::{Error, Interpolate, Source, Template, explain_in, items_of, list, values};
use std::alloc::Global;

/// Why a message cannot be shown, or a language not be read.
#[derive(Debug, Drop)]
pub enum Fault {
    /// A picture of each broken line.
    Broken(String),
    /// Memory is refused.
    Format(Error),
}

impl From<Error> for Fault {
    fn from(error: Error) -> Fault {
        Fault::Format(error)
    }
}

/// A text under a key.
#[derive(Drop)]
struct Message {
    key: String,
    template: Template,
}

/// The messages of one language.
#[derive(Drop)]
pub struct Language {
    messages: Vec<Message>,
}

impl Language {
    /// Reads lines `key = format`, each of which is checked by itself.
    pub fn read(alloc: Global, text: &str) -> Result<Language, Fault> {
        let mut language = Language {
            messages: Vec::new(alloc),
        };
        for line in text.lines() {
            if let Some((key, format)) = line.split_once(" = ") {
                language.add(alloc, line, key, format)?;
            }
        }
        Ok(language)
    }

    /// Adds a message.
    fn add(&mut self, alloc: Global, line: &str, key: &str, format: &str) -> Result<(), Fault> {
        let message = read_message(alloc, key, format)?;
        if let Err(error) = message.template.check() {
            return Err(Fault::Broken(picture(alloc, line, format, &error)?));
        }
        match self.messages.push(message) {
            Ok(()) => Ok(()),
            Err(_) => Err(Fault::Format(Error::NoMemory)),
        }
    }

    fn find(&self, key: &str) -> Option<&Template> {
        self.messages
            .iter()
            .find(|message| message.key.as_str() == key)
            .map(|message| &message.template)
    }
}

/// A message, read once.
fn read_message(alloc: Global, key: &str, format: &str) -> Result<Message, Error> {
    Ok(Message {
        key: String::from_str(alloc, key)?,
        template: Template::parse(alloc, format)?,
    })
}

/// The fault of a line.
fn picture(alloc: Global, line: &str, format: &str, error: &Error) -> Result<String, Error> {
    let source = Source {
        name: "messages",
        first_line: 1,
        text: line,
        start: line.len().saturating_sub(format.len()),
        format,
    };
    explain_in(alloc, &source, error)
}

/// The message under a key in the first language that has it.
pub fn show<C: Interpolate>(
    alloc: Global,
    languages: &[Language],
    key: &str,
    values: &C,
) -> Result<String, Error> {
    for language in languages {
        if let Some(template) = language.find(key) {
            return values.format_template(alloc, template);
        }
    }
    Ok(String::from_str(alloc, key)?)
}

/// Reads the languages, or returns what is wrong.
fn languages(alloc: Global, german: &str) -> Result<[Language; 2], Fault> {
    Ok([
        Language::read(alloc, german)?,
        Language::read(
            alloc,
            "greeting = Hello {name}\nbye = Bye {name}\ncart = {n} things: {items:i({})(, )}",
        )?,
    ])
}

/// Three messages.
fn reported(alloc: Global, languages: &[Language]) -> Result<String, Error> {
    let cells = list!["tea", "milk"];
    let items = items_of(alloc, &cells)?;
    let values = values!(name = "Zoë", n:integer = 2u8, items:i = &items);
    let mut text = String::new(alloc);
    for key in ["greeting", "cart", "bye"] {
        text.push_str(show(alloc, languages, key, &values)?.as_str())?;
        text.push('\n')?;
    }
    Ok(text)
}

/// A language that lacks a message, and one with a broken line.
pub fn shown(alloc: Global) -> Result<String, Error> {
    let mut text = String::new(alloc);
    for german in [
        "greeting = Hallo {name}\nbye = Tschüss {name}",
        "bye = Tschüss {name",
    ] {
        match languages(alloc, german) {
            Ok(languages) => text.push_str(reported(alloc, &languages)?.as_str())?,
            Err(Fault::Broken(picture)) => text.push_str(picture.as_str())?,
            Err(Fault::Format(error)) => return Err(error),
        }
    }
    text.push('\n')?;
    Ok(text)
}
