//! What is written for the characters of a text.

ghost use Rattle.std.specs.Prelude.{◌≡◌, ◌++◌, ◌-◌, IfOk, length, string_bytes};
ghost use Rattle.folds.specs.Spellings.{Reads, begin_of, byte_after, bytes_of_one, escape, is_open};
ghost use Rattle.folds.specs.Spellings.{passed, place_in, plain, start_of, step};

use std::alloc::{AllocError, Global};

/// What a text so far ends with.
#[derive(Clone, Copy)]
pub(crate) enum After {
    /// A line end that is written, or nothing.
    Start,
    /// Another character.
    Text,
    /// A backslash, which is not read yet.
    Slash,
}

/// How far a text is read.
#[derive(Clone, Copy)]
pub(crate) struct At {
    pub(crate) after: After,
    /// How many bytes are left at the beginning of what writes a character.
    pub(crate) begin: usize,
    /// How many bytes are left.
    pub(crate) left: usize,
}

/// Why there is no text.
#[derive(Clone, Copy)]
pub enum ReadError {
    /// The backslash at this byte is neither `\n` nor `\\`.
    Broken(usize),
    /// Memory ran out.
    NoMemory,
}

impl From<AllocError> for ReadError {
    ghost use Rattle.folds.specs.declared.spelling.ReadError.TheVariants.{NoMemory};

    ghost from_gives = { λ _ error. error ≡ NoMemory };

    fn from(_error: AllocError) -> Self {
        ReadError::NoMemory
    }
}

/// What a letter behind a backslash means, if anything.
fn escape(c: char) -> Option<(After, Option<char>)>
    ensures { result ≡ escape c }
{
    match c {
        'n' => Some((After::Start, Some('\n'))),
        '\\' => Some((After::Text, Some('\\'))),
        _ => None,
    }
}

/// What a character means that is behind none: a backslash nothing yet, and a line end this.
fn plain(after: After, end: Option<char>, c: char) -> Option<(After, Option<char>)>
    ensures { result ≡ plain after end c }
{
    match c {
        '\\' => Some((After::Slash, None)),
        '\n' => Some((after, end)),
        _ => Some((After::Text, Some(c))),
    }
}

/// What the text ends with after a character, and the character that it means, if it means one;
/// none, if it is wrong.
fn step(after: After, c: char) -> Option<(After, Option<char>)>
    ensures { result ≡ step after c }
{
    match after {
        After::Slash => escape(c),
        After::Start => plain(after, None, c),
        After::Text => plain(after, Some(' '), c),
    }
}

/// How many bytes are left at the beginning of what writes the next character.
fn begin_of(at: At) -> usize
    ensures { result ≡ begin_of at }
{
    match at.after {
        After::Slash => at.begin,
        _ => at.left,
    }
}

/// How far a text is read after one more character.
fn passed(at: At, after: After, c: char) -> At
    ensures { result ≡ passed at after c }
{
    At {
        after,
        begin: begin_of(at),
        left: at.left.saturating_sub(c.len_utf8()),
    }
}

/// Nothing of a text is read.
fn start_of(written: &str) -> At
    ensures { result ≡ start_of written.now }
{
    At {
        after: After::Start,
        begin: written.len(),
        left: written.len(),
    }
}

/// Appends a character, if there is one.
fn push(text: &mut String, meant: Option<char>) -> Result<(), AllocError>
    ensures { IfOk result (λ _.
        string_bytes text.new ≡ string_bytes text.old ++ bytes_of_one meant) }
{
    match meant {
        Some(c) => text.push(c),
        None => Ok(()),
    }
}

/// Whether a backslash is read, and nothing behind it.
fn is_open(at: At) -> bool
    ensures { result ≡ is_open at }
{
    match at.after {
        After::Slash => true,
        _ => false,
    }
}

/// The text that is written so.
///
/// `a\nb` writes `a`, a line end and `b`, and `a\\b` a backslash between them. A line end is read
/// as a blank, and as nothing where the text begins or a line end is written before it.
pub fn read(alloc: Global, written: &str) -> Result<String, ReadError>
    ensures { Reads written.now result }
{
    let mut text = String::new(alloc);
    let mut at = start_of(written);
    for c in written.chars() {
        let Some((after, meant)) = step(at.after, c) else {
            return Err(ReadError::Broken(place_by(written, begin_of(at))));
        };
        push(&mut text, meant)?;
        at = passed(at, after, c);
    }
    if is_open(at) {
        return Err(ReadError::Broken(place_by(written, begin_of(at))));
    }
    Ok(text)
}

/// The byte of a text at which so many are left.
fn place_by(written: &str, left: usize) -> usize
    ensures { result ≡ length written.now - left }
{
    written.len().saturating_sub(left)
}

/// How many bytes of a text are left to pass after a character that is meant; none, if it has the
/// byte that is looked for.
fn byte_after(byte: usize, meant: Option<char>) -> Option<usize>
    ensures { result ≡ byte_after byte meant }
{
    let Some(c) = meant else {
        return Some(byte);
    };
    if byte < c.len_utf8() {
        return None;
    }
    Some(byte.saturating_sub(c.len_utf8()))
}

/// The byte at which a byte of the text that is written so is written: of an escape, that of its
/// backslash.
pub fn place_of(written: &str, byte: usize) -> usize
    ensures { result ≡ place_in written.now byte }
{
    let mut byte = byte;
    let mut at = start_of(written);
    for c in written.chars() {
        let Some((after, meant)) = step(at.after, c) else {
            return written.len();
        };
        let Some(next) = byte_after(byte, meant) else {
            return place_by(written, begin_of(at));
        };
        byte = next;
        at = passed(at, after, c);
    }
    written.len()
}
