//! The tokens of a file: notes, words and strings.

ghost use Rattle.std.specs.Prelude.{◌≡◌, ◌≢◌, ◌<◌, ◌==◌, ◌∷◌, ◌++◌, [], IfOk, IfSome, length, map};
ghost use Rattle.std.specs.List.{after_first, before_first, slice_split};
ghost use Rattle.po.specs.Marks.{line_feed};
ghost use Rattle.po.specs.Tokens.{ReadsNext, ReadsToken, ReadsTokens, as_spot, has_fuzzy, note_of};
ghost use Rattle.po.specs.Tokens.{texts_of};

use crate::fault::{Fault, Problem, ReadError};
use crate::scan::{At, split_word, strip};
use crate::string::take_string;
use std::alloc::{AllocError, Global};

/// What a comment says of the entry that comes next.
#[derive(Clone, Copy, Debug, PartialEq, Eq)]
pub enum Note {
    /// `#, fuzzy`: its translation is a guess.
    Fuzzy,
    /// `#~`: here stands an entry that counts no more, with the comments before.
    Obsolete,
    /// Anything else.
    Plain,
}

/// What a token is.
#[derive(Debug, Drop)]
pub enum Token {
    /// A comment.
    Note(Note),
    /// A keyword, or what stands for one.
    Word(String),
    /// The text of a string.
    Text(String),
}

/// A token, and where it begins.
#[derive(Debug, Drop)]
pub struct Placed {
    /// The byte of the file.
    pub place: usize,
    pub token: Token,
}

/// The flags between commas.
fn flags_of(alloc: Global, flags: &str) -> Result<Vec<&str>, AllocError>
    ensures { IfOk result (λ all. texts_of all.items ≡ slice_split (λ b. b == 44) flags.now) }
{
    flags.split(',').collect(alloc)
}

/// Whether one of the flags between commas is `fuzzy`.
fn has_fuzzy(alloc: Global, flags: &str) -> Result<bool, AllocError>
    ensures { IfOk result (λ has. has ≡ has_fuzzy (slice_split (λ b. b == 44) flags.now)) }
{
    let all = flags_of(alloc, flags)?;
    for flag in &all {
        if flag.trim() == "fuzzy" {
            return Ok(true);
        }
    }
    Ok(false)
}

/// What a comment says, of which this stands behind the `#`.
fn note_of(alloc: Global, line: &str) -> Result<Note, AllocError>
    ensures { IfOk result (λ note. note ≡ note_of line.now) }
{
    if line.starts_with('~') {
        return Ok(Note::Obsolete);
    }
    match line.strip_prefix(",") {
        Some(flags) if has_fuzzy(alloc, flags)? => Ok(Note::Fuzzy),
        _ => Ok(Note::Plain),
    }
}

/// The first line of a text, and the text after it.
fn split_line(text: &str) -> (&str, &str)
    ensures line { result.0.now ≡ before_first (λ b. b == line_feed) text.now }
    ensures rest { result.1.now ≡ after_first (λ b. b == line_feed) text.now }
{
    match text.split_once('\n') {
        Some((line, rest)) => (line, rest),
        None => (text, ""),
    }
}

/// The token that a text begins with, and the text after it.
fn token_at<'a>(alloc: Global, at: At<'a>) -> Result<(Token, &'a str), ReadError>
    requires some { at.text.now ≢ [] }
    ensures token { ReadsToken at.entry.end at.entry.text.now result }
    ensures shorter { IfOk result (λ r. length r.1.now < length at.entry.text.now) }
{
    if let Some(more) = strip(at.text, b'#') {
        let (line, rest) = split_line(more);
        let note = note_of(alloc, line)?;
        return Ok((Token::Note(note), rest));
    }
    if let Some(text) = strip(at.text, b'"') {
        return match take_string(alloc, At { text, end: at.end }) {
            Ok((text, rest)) => Ok((Token::Text(text), rest)),
            Err(error) => Err(error),
        };
    }
    let (word, rest) = split_word(at.text);
    if word.is_empty() {
        let place = at.end.saturating_sub(at.text.len());
        let problem = Problem::Key;
        return Err(ReadError::Broken(Fault { place, problem }));
    }
    let word = String::from_str(alloc, word)?;
    Ok((Token::Word(word), rest))
}

/// The token behind the white space of a text, and what is left after it; none at the end.
fn next<'a>(alloc: Global, from: At<'a>) -> Result<Option<(Placed, At<'a>)>, ReadError>
    ensures next { ReadsNext from.entry.end from.entry.text.now result }
    ensures end { IfOk result (λ next. IfSome next (λ n. n.1.end ≡ from.entry.end)) }
    ensures shorter { IfOk result (λ next. IfSome next (λ n.
        length n.1.text.now < length from.entry.text.now)) }
{
    let text = from.text.trim_start();
    if text.is_empty() {
        return Ok(None);
    }
    let place = from.end.saturating_sub(text.len());
    match token_at(
        alloc,
        At {
            text,
            end: from.end,
        },
    ) {
        Ok((token, text)) => {
            let end = from.end;
            Ok(Some((Placed { place, token }, At { text, end })))
        }
        Err(error) => Err(error),
    }
}

/// Appends a token.
fn push_token(tokens: &mut Vec<Placed>, token: Placed) -> Result<(), AllocError>
    ensures { IfOk result (λ _. map as_spot tokens.new.items
        ≡ map as_spot tokens.old.items ++ (as_spot token ∷ [])) }
{
    tokens.push(token)?;
    Ok(())
}

/// The tokens of a file, from its beginning to its end.
///
/// `msgid "a" # b` has a word, a string and a comment.
///
/// # Errors
///
/// The first fault, or `NoMemory`.
pub fn tokens_of(alloc: Global, text: &str) -> Result<Vec<Placed>, ReadError>
    ensures { ReadsTokens text.now result }
{
    let mut tokens = Vec::new(alloc);
    let mut at = At {
        text,
        end: text.len(),
    };
    'tokens: loop {
        match next(alloc, at) {
            Err(error) => return Err(error),
            Ok(None) => return Ok(tokens),
            Ok(Some((token, after))) => {
                push_token(&mut tokens, token)?;
                at = after;
            }
        }
    }
}
