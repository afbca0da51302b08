//! The ways to write a format and to make its text. Every row is run by each way that fits it.
//!
//! To add a way, add a variant of `Way` with its call, and an entry in a list.

use crate::cells::Cell;
use crate::limited::Limited;
use crate::sizes::parts_fit;
use interpolator::{
    Bounded, ContextMap, Error, Interpolate, Template, TextBuffer, TextWrite, format, iwriteln,
    write, write_parts,
};
use std::alloc::Global;

/// A way to write.
#[derive(Clone, Copy)]
pub enum Way {
    Write,
    WriteTo,
    Template,
    WriteTemplateTo,
    WriteParts,
    Line,
    WriteLineTo,
}

/// Ways, by the names of their calls.
pub type Ways = &'static [(&'static str, Way)];

/// The ways to write a format.
pub const WAYS: [(&str, Way); 5] = [
    ("write", Way::Write),
    ("write_to", Way::WriteTo),
    ("Template::write", Way::Template),
    ("write_template_to", Way::WriteTemplateTo),
    ("write_parts", Way::WriteParts),
];

/// The ways to write parts.
pub const PART_WAYS: [(&str, Way); 1] = [("write_parts", Way::WriteParts)];

/// The ways to write a line.
pub const LINE_WAYS: [(&str, Way); 2] = [
    ("iwriteln", Way::Line),
    ("write_line_to", Way::WriteLineTo),
];

impl Way {
    /// Writes the parts, or the format that is the only one.
    fn write<W: TextWrite>(
        self,
        alloc: Global,
        out: &mut W,
        parts: &[&str],
        context: &ContextMap<'_, Cell>,
    ) -> Result<(), Error> {
        let text = parts.first().copied().unwrap_or("");
        match self {
            Way::Write => write(alloc, out, text, context),
            Way::WriteTo => context.write_to(alloc, out, text),
            Way::Template => Template::parse(alloc, text)?.write(alloc, out, context),
            Way::WriteTemplateTo => {
                let template = Template::parse(alloc, text)?;
                context.write_template_to(alloc, out, &template)
            }
            Way::WriteParts if parts_fit(parts) => { write_parts(alloc, out, parts, context) }
            Way::WriteParts => Err(Error::NoMemory),
            Way::Line => iwriteln(alloc, out, text, context),
            Way::WriteLineTo => context.write_line_to(alloc, out, text),
        }
    }
}

/// A way to make a text.
#[derive(Clone, Copy)]
pub enum Making {
    Format,
    FormatMethod,
    FormatTemplate,
}

/// The ways to make a text, by the names of their calls.
pub const MAKINGS: [(&str, Making); 3] = [
    ("format", Making::Format),
    ("the method format", Making::FormatMethod),
    ("format_template", Making::FormatTemplate),
];

impl Making {
    /// The text of a format.
    pub fn make(
        self,
        alloc: Global,
        text: &str,
        context: &ContextMap<'_, Cell>,
    ) -> Result<String, Error> {
        match self {
            Making::Format => format(alloc, text, context),
            Making::FormatMethod => context.format(alloc, text),
            Making::FormatTemplate => {
                let template = Template::parse(alloc, text)?;
                context.format_template(alloc, &template)
            }
        }
    }
}

/// What a writer takes.
#[derive(Clone, Copy, Debug)]
pub enum Room {
    /// Everything.
    All,
    /// This many characters.
    Characters(usize),
    /// This many bytes; it reports how many are left.
    Bytes(usize),
}

impl Room {
    /// The beginning of a text that a writer takes that counts characters.
    pub fn beginning(self, text: &str) -> &str {
        match self {
            Room::Characters(count) => first(text, count),
            _ => text,
        }
    }
}

/// What is written, and the fault that is returned, if one is.
#[derive(Debug, Drop, PartialEq)]
pub struct Outcome {
    pub text: String,
    pub fault: Option<Error>,
}

impl Outcome {
    pub fn new(text: String, answer: Result<(), Error>) -> Outcome {
        Outcome {
            text,
            fault: answer.err(),
        }
    }

    /// What a call returned that makes a text: nothing is written if there is a fault.
    pub fn made(alloc: Global, made: Result<String, Error>) -> Outcome {
        match made {
            Ok(text) => Outcome { text, fault: None },
            Err(fault) => Outcome {
                text: String::new(alloc),
                fault: Some(fault),
            },
        }
    }

    /// Whether a call that makes a text returned this.
    pub fn is_made(&self, made: &Outcome) -> bool {
        made.fault == self.fault && (made.fault.is_some() || made.text == self.text)
    }

    /// Whether it is the fault `Fmt` at a place that is not past `end`, after this text.
    pub fn is_refused(&self, text: &str, end: usize) -> bool {
        match &self.fault {
            Some(Error::Fmt(_, place)) => *place <= end && self.text.as_str() == text,
            _ => false,
        }
    }

    /// The place of the fault, or 0.
    pub fn place(&self) -> usize {
        match &self.fault {
            Some(fault) => fault.place().unwrap_or(0),
            None => 0,
        }
    }
}

/// The first characters of a text.
pub fn first(text: &str, count: usize) -> &str {
    match text.char_indices().nth(count) {
        Some((byte, _)) if text.is_char_boundary(byte) => text.split_at(byte).0,
        _ => text,
    }
}

/// The outcome of a way with a writer.
pub fn came_by(
    alloc: Global,
    way: Way,
    room: Room,
    parts: &[&str],
    context: &ContextMap<'_, Cell>,
) -> Outcome {
    match room {
        Room::All => {
            let mut out = TextBuffer::new(alloc);
            let answer = way.write(alloc, &mut out, parts, context);
            Outcome::new(out.into_string(), answer)
        }
        Room::Characters(count) => {
            let Ok(mut out) = Limited::new(alloc, count) else {
                return Outcome::new(String::new(alloc), Err(Error::NoMemory));
            };
            let answer = way.write(alloc, &mut out, parts, context);
            Outcome::new(out.into_string(), answer)
        }
        Room::Bytes(count) => {
            let mut out = Bounded::new(alloc, count);
            let answer = way.write(alloc, &mut out, parts, context);
            Outcome::new(out.into_string(), answer)
        }
    }
}
