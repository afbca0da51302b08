//! A keyword and the strings behind it.

ghost use Rattle.std.specs.Prelude.{◌≡◌, ◌≤◌, ◌<◌, IfOk, false, length, string_bytes};
ghost use Rattle.std.specs.List.{position, position_or_len};
ghost use Rattle.po.specs.Sections.{after_front, as_taken, fault_at, front, fuzzy_by, is_fuzzy};
ghost use Rattle.po.specs.Sections.{is_key, is_not_of, is_of, optional, section, seen};
ghost use Rattle.po.specs.Sections.{some_strings, text_of};

use crate::fault::{Fault, Problem};
use crate::token::{Note, Placed, Token};
use std::alloc::{AllocError, Global};

/// Tokens that were taken, and those after them.
pub(crate) type Taken<'t> = (&'t [Placed], &'t [Placed]);

/// Whether a token is a comment, or else whether it is a string.
fn is_of(notes: bool, one: &Placed) -> bool
    ensures { result ≡ is_of notes one.now }
{
    match one.token {
        Token::Note(_) => notes,
        Token::Text(_) => !notes,
        Token::Word(_) => false,
    }
}

/// Whether a token is this word.
fn is_key(key: &str, token: &Placed) -> bool
    ensures { result ≡ is_key key.now token.now }
{
    match &token.token {
        Token::Word(word) => word.as_str() == key,
        _ => false,
    }
}

/// The index of the first token that is no comment, or else no string.
fn end_of(notes: bool, tokens: &[Placed]) -> Option<usize>
    ensures { result ≡ position (is_not_of notes) tokens.now }
{
    tokens.iter().position(|one| !is_of(notes, one))
}

/// How many comments, or else strings, tokens begin with.
#[tactic(auto, using(crate::proofs::ScanLemmas::first_or_all))]
fn count_of(notes: bool, tokens: &[Placed]) -> usize
    ensures { result ≡ position_or_len (is_not_of notes) tokens.now }
{
    end_of(notes, tokens).unwrap_or(tokens.len())
}

/// Splits tokens after the comments, or else the strings, that they begin with.
pub(crate) fn split_of<'t>(notes: bool, tokens: &'t [Placed]) -> Taken<'t>
    ensures front { result.0.now ≡ front notes tokens.now }
    ensures after { result.1.now ≡ after_front notes tokens.now }
    ensures within { length result.1.now ≤ length tokens.now }
{
    tokens.split_at(count_of(notes, tokens))
}

/// Whether comments say that what follows them is fuzzy: one of them does, after the last obsolete
/// entry.
pub(crate) fn is_fuzzy(notes: &[Placed]) -> bool
    ensures { result ≡ is_fuzzy false notes.now }
{
    let mut fuzzy = false;
    for one in notes {
        fuzzy = fuzzy_by(fuzzy, one);
    }
    fuzzy
}

/// Whether comments say so, of which this is the next.
fn fuzzy_by(so_far: bool, one: &Placed) -> bool
    ensures { result ≡ fuzzy_by so_far one.now.token }
{
    match one.token {
        Token::Note(Note::Fuzzy) => true,
        Token::Note(Note::Obsolete) => false,
        _ => so_far,
    }
}

/// A problem at the next token, or at the end.
pub(crate) fn fault_at(end: usize, problem: Problem, tokens: &[Placed]) -> Fault
    ensures { result ≡ fault_at end problem tokens.now }
{
    match tokens {
        [one, ..] => Fault {
            place: one.place,
            problem,
        },
        [] => Fault {
            place: end,
            problem,
        },
    }
}

/// The strings that tokens begin with, at least one.
fn some_strings<'t>(end: usize, tokens: &'t [Placed]) -> Result<Taken<'t>, Fault>
    ensures taken { seen as_taken result ≡ some_strings end tokens.now }
    ensures within { IfOk result (λ taken. length taken.1.now ≤ length tokens.now) }
{
    match tokens {
        [one, ..] if is_of(false, one) => Ok(split_of(false, tokens)),
        _ => Err(fault_at(end, Problem::Text, tokens)),
    }
}

/// The strings behind this keyword, if tokens begin with it.
pub(crate) fn optional<'t>(end: usize, key: &str, tokens: &'t [Placed]) -> Result<Taken<'t>, Fault>
    ensures taken { seen as_taken result ≡ optional end key.now tokens.now }
    ensures within { IfOk result (λ taken. length taken.1.now ≤ length tokens.now) }
{
    match tokens {
        [one, more @ ..] if is_key(key, one) => some_strings(end, more),
        _ => Ok(tokens.split_at(0)),
    }
}

/// The strings behind this keyword, with which tokens begin.
pub(crate) fn section<'t>(end: usize, key: &str, tokens: &'t [Placed]) -> Result<Taken<'t>, Fault>
    ensures taken { seen as_taken result ≡ section end key.now tokens.now }
    ensures shorter { IfOk result (λ taken. length taken.1.now < length tokens.now) }
{
    match tokens {
        [one, more @ ..] if is_key(key, one) => some_strings(end, more),
        _ => Err(fault_at(end, Problem::Key, tokens)),
    }
}

/// The text that strings make.
///
/// # Errors
///
/// Memory ran out.
pub fn text_of(alloc: Global, strings: &[Placed]) -> Result<String, AllocError>
    ensures { IfOk result (λ text. string_bytes text ≡ text_of strings.now) }
{
    let mut text = String::new(alloc);
    for one in strings {
        if let Token::Text(part) = &one.token {
            text.push_str(part.as_str())?;
        }
    }
    Ok(text)
}
