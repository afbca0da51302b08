//! The messages that tokens are.

ghost use Rattle.std.specs.Prelude.{◌≡◌, ◌≤◌, ◌<◌, ◌++◌, ◌∷◌, [], IfOk, length, map, true};
ghost use Rattle.po.specs.Entries.{ReadsEntries, as_entry, as_forms, as_read, entry_at, form_keys};
ghost use Rattle.po.specs.Entries.{Gives, forms_by, lists_of, one_form, some_forms, texts};
ghost use Rattle.po.specs.{Sections.after_front, Tokens.texts_of};

use crate::fault::{Problem, ReadError};
use crate::section::{fault_at, is_fuzzy, optional, section, split_of};
use crate::token::Placed;
use std::alloc::{AllocError, Global};

/// A message, by the strings of its parts. A part that it has has a string; one that it has not is
/// empty.
#[derive(Drop)]
pub struct Entry<'t> {
    /// Its translation is a guess: a comment says so.
    pub is_fuzzy: bool,
    /// `msgctxt`, which tells it from others with the same text.
    pub context: &'t [Placed],
    /// `msgid`: its text.
    pub id: &'t [Placed],
    /// `msgid_plural`.
    pub plural: &'t [Placed],
    /// `msgstr`, its translation, or `msgstr[0]`, `msgstr[1]`..
    pub texts: Vec<&'t [Placed]>,
}

/// The strings of forms, and the tokens after them.
type Forms<'t> = (Vec<&'t [Placed]>, &'t [Placed]);

/// The keywords of forms.
const FORMS: [&str; 10] = [
    "msgstr[0]",
    "msgstr[1]",
    "msgstr[2]",
    "msgstr[3]",
    "msgstr[4]",
    "msgstr[5]",
    "msgstr[6]",
    "msgstr[7]",
    "msgstr[8]",
    "msgstr[9]",
];

/// Appends a form.
fn push_form<'t>(forms: &mut Vec<&'t [Placed]>, form: &'t [Placed]) -> Result<(), AllocError>
    ensures { IfOk result (λ _. lists_of forms.new.items
        ≡ lists_of forms.old.items ++ (form.now ∷ [])) }
{
    forms.push(form)?;
    Ok(())
}

/// The strings behind these keywords, as far as they come one after the other.
fn forms_by<'t>(
    alloc: Global,
    end: usize,
    keys: &[&str],
    tokens: &'t [Placed],
) -> Result<Forms<'t>, ReadError>
    ensures forms { Gives as_forms result (forms_by end (texts_of keys.now) tokens.now) }
    ensures within { IfOk result (λ forms. length forms.1.now ≤ length tokens.now) }
{
    let mut forms = Vec::new(alloc);
    let mut rest = tokens;
    for key in keys {
        let (form, after) = optional(end, key, rest)?;
        if form.is_empty() {
            return Ok((forms, after));
        }
        push_form(&mut forms, form)?;
        rest = after;
    }
    Ok((forms, rest))
}

/// The strings of `msgstr`, as one form.
fn one_form<'t>(alloc: Global, end: usize, tokens: &'t [Placed]) -> Result<Forms<'t>, ReadError>
    ensures forms { Gives as_forms result (one_form end tokens.now) }
    ensures within { IfOk result (λ forms. length forms.1.now ≤ length tokens.now) }
{
    let (form, rest) = section(end, "msgstr", tokens)?;
    let mut forms = Vec::new(alloc);
    push_form(&mut forms, form)?;
    Ok((forms, rest))
}

/// The strings of `msgstr[0]`, `msgstr[1]`..
fn some_forms<'t>(alloc: Global, end: usize, tokens: &'t [Placed]) -> Result<Forms<'t>, ReadError>
    ensures forms { Gives as_forms result (some_forms end tokens.now) }
    ensures within { IfOk result (λ forms. length forms.1.now ≤ length tokens.now) }
{
    let (forms, rest) = forms_by(alloc, end, &FORMS, tokens)?;
    if forms.is_empty() {
        return Err(ReadError::Broken(fault_at(end, Problem::Key, tokens)));
    }
    Ok((forms, rest))
}

/// The translation of a message, whose `msgid_plural` this is.
fn texts<'t>(
    alloc: Global,
    end: usize,
    plural: &[Placed],
    tokens: &'t [Placed],
) -> Result<Forms<'t>, ReadError>
    ensures forms { Gives as_forms result (texts end plural.now tokens.now) }
    ensures within { IfOk result (λ forms. length forms.1.now ≤ length tokens.now) }
{
    if plural.is_empty() {
        one_form(alloc, end, tokens)
    } else {
        some_forms(alloc, end, tokens)
    }
}

/// The message behind the comments with which tokens begin, and the tokens after it.
fn entry_at<'t>(
    alloc: Global,
    end: usize,
    tokens: &'t [Placed],
) -> Result<(Entry<'t>, &'t [Placed]), ReadError>
    ensures entry { Gives as_read result (entry_at end tokens.now) }
    ensures shorter { IfOk result (λ read. length read.1.now < length tokens.now) }
{
    let (notes, rest) = split_of(true, tokens);
    let (context, rest) = optional(end, "msgctxt", rest)?;
    let (id, rest) = section(end, "msgid", rest)?;
    let (plural, rest) = optional(end, "msgid_plural", rest)?;
    let (texts, rest) = texts(alloc, end, plural, rest)?;
    let entry = Entry {
        is_fuzzy: is_fuzzy(notes),
        context,
        id,
        plural,
        texts,
    };
    Ok((entry, rest))
}

/// Appends a message.
fn push_entry<'t>(entries: &mut Vec<Entry<'t>>, entry: Entry<'t>) -> Result<(), AllocError>
    ensures { IfOk result (λ _. map as_entry entries.new.items
        ≡ map as_entry entries.old.items ++ (as_entry entry.entry ∷ [])) }
{
    entries.push(entry)?;
    Ok(())
}

/// The messages that the tokens of a file are, which ends at this byte: all, in their order.
///
/// The first is the head of the file, if its text is empty.
///
/// # Errors
///
/// The first fault, or `NoMemory`.
pub fn entries_of<'t>(
    alloc: Global,
    end: usize,
    tokens: &'t [Placed],
) -> Result<Vec<Entry<'t>>, ReadError>
    ensures { ReadsEntries end tokens.now result }
{
    let mut entries = Vec::new(alloc);
    let mut rest = tokens;
    'entries: loop {
        let (_, after) = split_of(true, rest);
        if after.is_empty() {
            return Ok(entries);
        }
        let (entry, next) = entry_at(alloc, end, rest)?;
        push_entry(&mut entries, entry)?;
        rest = next;
    }
}
