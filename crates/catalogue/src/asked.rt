//! What a command line asks for.

use interpolator::Escape;
use words::flags::{Flags, after_flags};

/// What a command line asks for.
#[derive(Clone, Copy)]
pub(crate) struct Asked<'a> {
    /// Files are checked, and no message is written.
    pub(crate) is_check: bool,
    /// How values are escaped, if they are.
    pub(crate) escape: Option<Escape>,
    /// A file for the messages that the file lacks.
    pub(crate) second: Option<&'a str>,
    /// Files are PO files.
    pub(crate) is_po: bool,
    /// The context of the key in a PO file.
    pub(crate) context: Option<&'a str>,
    /// The files, or a file, a key and values.
    pub(crate) words: &'a [String],
}

/// The message under a key of a file, or else of a second file, with the values of words.
#[derive(Clone, Copy)]
pub(crate) struct Wanted<'a> {
    pub(crate) file: &'a str,
    pub(crate) second: Option<&'a str>,
    pub(crate) key: &'a str,
    pub(crate) values: &'a [String],
    pub(crate) escape: Option<Escape>,
}

impl<'a> Flags<'a> for Asked<'a> {
    fn take_word(&mut self, flag: &str) -> Option<()> {
        match flag {
            "--check" if !self.is_check => self.is_check = true,
            "--po" if !self.is_po => self.is_po = true,
            "--line" if self.escape.is_none() => self.escape = Some(Escape::Line),
            "--html" if self.escape.is_none() => self.escape = Some(Escape::Html),
            _ => return None,
        }
        Some(())
    }

    fn take_value(&mut self, flag: &str, value: &'a str) -> Option<()> {
        match flag {
            "--fallback" => self.second = Some(value),
            "--context" => self.context = Some(value),
            _ => return None,
        }
        Some(())
    }
}

/// What a command line asks for, if its flags are known.
pub(crate) fn asked_by(line: &[String]) -> Option<Asked<'_>> {
    let mut asked = Asked {
        is_check: false,
        escape: None,
        second: None,
        is_po: false,
        context: None,
        words: line,
    };
    asked.words = match after_flags(&mut asked, line) {
        [end, words @ ..] if end.as_str() == "--" => words,
        [flag, ..] if flag.starts_with("--") => return None,
        words => words,
    };
    Some(asked)
}

/// The message that is asked for, if one is.
pub(crate) fn wanted_by<'a>(asked: &Asked<'a>) -> Option<Wanted<'a>> {
    let [file, key, values @ ..] = asked.words else {
        return None;
    };
    Some(Wanted {
        file: file.as_str(),
        second: asked.second,
        key: key.as_str(),
        values,
        escape: asked.escape,
    })
}

/// Whether a message of a file of messages is asked for.
pub(crate) fn is_po_free(asked: &Asked<'_>) -> bool {
    !asked.is_po && !asked.is_check && asked.context.is_none()
}
