//! The lines of a file, and the key that is looked up in them.

ghost use Rattle.std.specs.Prelude.{◌≡◌, IfOk, IfSome, MatchOption, is_some};
ghost use Rattle.std.specs.{Option.option_map, Str.bytes_eq};
ghost use Rattle.words.specs.{Items.texts_of, Words.HasEquals};
ghost use Rattle.catalogue.specs.Forms.{as_choice, as_sought};
ghost use Rattle.catalogue.specs.Lines.{has_message, head_of, is_comment, is_passed_over, is_under};
ghost use Rattle.catalogue.specs.Lines.{opens};
ghost use Rattle.catalogue.specs.Sought.{choice_for, has_key, sought};

use crate::declarations::key_in;
use crate::entries::Object;
use crate::forms::{Choice, Sought, choice_in, key_by};
use crate::rules::rule_in;
use folds::{goes_on, is_blank};
use std::alloc::{AllocError, Global};

/// The head of a line, before its first `=`, if it has one.
pub fn head_of(text: &str) -> Option<&str>
    ensures none { MatchOption result (¬ HasEquals text.now) (λ _. HasEquals text.now) }
    ensures head { IfSome result (λ head. head.now ≡ head_of text.now) }
{
    let (head, _) = text.split_once('=')?;
    Some(head)
}

/// Whether a line's key is the one that is looked up.
pub fn is_key(its_key: &str, key: &str) -> bool
    ensures { result ≡ bytes_eq its_key.now key.now }
{
    its_key == key
}

/// Whether a line is a comment.
fn is_comment(line: &str) -> bool
    ensures { result ≡ is_comment line.now }
{
    line.starts_with('#')
}

/// Whether a line is blank, a comment, or goes on with the one before it.
pub fn is_passed_over(line: &str) -> bool
    ensures { result ≡ is_passed_over line.now }
{
    is_blank(line) || is_comment(line) || goes_on(line)
}

/// Whether the line after this one may go on with a message, as the one before this one may have:
/// blank lines and those that go on leave that as it is.
pub fn opens(is_open: bool, line: &str) -> bool
    ensures { result ≡ opens is_open line.now }
{
    if is_blank(line) || goes_on(line) {
        return is_open;
    }
    !is_comment(line) && rule_in(line).is_none()
}

/// The head of a line that has a message.
pub fn message_of(line: &str) -> Option<&str>
    ensures some { is_some result ≡ has_message line.now }
    ensures head { IfSome result (λ head. head.now ≡ head_of line.now) }
{
    if is_passed_over(line) || rule_in(line).is_some() {
        return None;
    }
    head_of(line)
}

/// Whether a line has a message under a key.
fn is_under(key: &str, line: &str) -> bool
    ensures { result ≡ is_under key.now line.now }
{
    match message_of(line) {
        Some(head) => is_key(key_in(head), key),
        None => false,
    }
}

/// Whether one of some lines has a message under a key.
fn has_key(key: &str, lines: &[&str]) -> bool
    ensures { result ≡ has_key key.now (texts_of lines.now) }
{
    for line in lines {
        if is_under(key, line) {
            return true;
        }
    }
    false
}

/// The form of a key that is looked up in some lines, if none of them has the key itself.
fn choice_for<'a>(
    alloc: Global,
    objects: &[Object<'_>],
    key: &str,
    lines: &[&'a str],
) -> Result<Option<Choice<'a>>, AllocError>
    ensures { IfOk result (λ choice.
        option_map as_choice choice ≡ choice_for objects.now key.now (texts_of lines.now)) }
{
    if has_key(key, lines) {
        return Ok(None);
    }
    choice_in(alloc, objects, lines)
}

/// The key that is looked up in some lines: the key itself, or its form that their rule chooses by
/// objects.
pub fn sought<'a>(
    alloc: Global,
    objects: &[Object<'_>],
    key: &str,
    lines: &[&'a str],
) -> Result<Sought<'a>, AllocError>
    ensures { IfOk result (λ found.
        as_sought found ≡ sought objects.now key.now (texts_of lines.now)) }
{
    let choice = choice_for(alloc, objects, key, lines)?;
    key_by(alloc, key, choice)
}
