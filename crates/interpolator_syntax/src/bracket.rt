//! Texts in round brackets, which may be guarded by signs `#`.
ghost use Rattle.std.specs.Prelude.{◌≡◌, ◌≤◌, ◌++◌, length, List, ℕ, option_map, IfSome};
ghost use Rattle.std.specs.Str.{chars};
ghost use Rattle.interpolator_syntax.specs.Places.{at, after};
ghost use Rattle.interpolator_syntax.specs.Classes.{in_class, front_of};
ghost use Rattle.interpolator_syntax.specs.Groups.{after_hashes, close_from, next_close, group_at};
ghost use Rattle.interpolator_syntax.specs.Groups.{group_if, text_read, group_read, group_if_read};
ghost use Rattle.interpolator_syntax.specs.Groups.{ReachesNext, group_of, inside};
ghost use Rattle.interpolator_syntax.specs.declared.class.Class.TheVariants.{Hash};

use crate::argument_fault::ArgumentFault;
use crate::class::Class;
use crate::cursor::Cursor;
use crate::error::ParseError;
use crate::group::Group;

/// Counts the signs here, and returns the text after them.
fn take_hashes(here: Cursor<'_>) -> (usize, Cursor<'_>)
    ensures count { result.0 ≡ length (front_of (in_class Hash) (at here.entry).text) }
    ensures after { at result.1 ≡ after (in_class Hash) (at here.entry) }
{
    let (signs, rest) = here.take_class(Class::Hash);
    (signs.len(), rest)
}

/// Goes past `count` signs, if there are as many here.
fn skip_hashes(start: Cursor<'_>, count: usize) -> Option<Cursor<'_>>
    ensures { option_map (λ c. at c) result
        ≡ after_hashes count start.entry.place (chars start.entry.rest.now) }
{
    let mut here = start;
    for _ in 0..count {
        here = here.strip(b'#')?;
    }
    Some(here)
}

/// Returns the next `)`, and the text after it.
#[inline(always)]
fn find_bracket(here: Cursor<'_>) -> Option<(Cursor<'_>, Cursor<'_>)>
    ensures { option_map (λ r. (at r.0, at r.1)) result ≡ next_close (at here.entry) }
{
    let (_, close) = here.take_class(Class::Enclosed);
    let after = close.strip(b')')?;
    Some((close, after))
}

/// From how many signs on the bracket after a bracket is looked for first.
const MANY_HASHES: usize = 4;

/// Returns the next `)` that may have `count` signs after it, and the text after it. One that has
/// another within `count` bytes has not: in a format of many levels most are such, and to count the
/// signs after each would cost more.
fn next_candidate(here: Cursor<'_>, count: usize) -> Option<(Cursor<'_>, Cursor<'_>)>
    ensures { ReachesNext count (at here.entry) (option_map (λ r. (at r.0, at r.1)) result) }
{
    let Some((mut bracket, mut rest)) = find_bracket(here) else {
        return None;
    };
    while let Some((next, behind)) = find_bracket(rest) {
        if next.place - rest.place >= count {
            break;
        }
        bracket = next;
        rest = behind;
    }
    Some((bracket, rest))
}

/// Returns the text in front of the rest that ends it.
fn text_before<'a>(text: &'a str, rest: &str) -> &'a str
    requires { (front : List ℕ) × (chars text.now ≡ front ++ chars rest.now) }
    ensures chars { chars result.now ++ chars rest.now ≡ chars text.now }
    ensures len { length result.now ≤ length text.now }
{
    let (front, _) = text.split_at(text.len() - rest.len());
    front
}

/// As [`find_close`], for many signs.
#[cold]
#[inline(never)]
fn find_guarded_close(start: Cursor<'_>, count: usize) -> Option<(&str, Cursor<'_>)>
    ensures found { option_map text_read result
        ≡ close_from count start.entry.place (chars start.entry.rest.now) }
    ensures len { IfSome result (λ r. length r.0.now ≤ length start.entry.rest.now) }
{
    let mut here = start;
    while let Some((close, after)) = next_candidate(here, count) {
        if let Some(end) = skip_hashes(after, count) {
            return Some((text_before(start.rest, close.rest), end));
        }
        here = after;
    }
    None
}

/// Returns the text up to the first `)` that has `count` signs after it, and the text after those.
fn find_close(start: Cursor<'_>, count: usize) -> Option<(&str, Cursor<'_>)>
    ensures found { option_map text_read result
        ≡ close_from count start.entry.place (chars start.entry.rest.now) }
    ensures len { IfSome result (λ r. length r.0.now ≤ length start.entry.rest.now) }
{
    if count >= MANY_HASHES {
        return find_guarded_close(start, count);
    }
    let mut here = start;
    while let Some((close, after)) = find_bracket(here) {
        if let Some(end) = skip_hashes(after, count) {
            return Some((text_before(start.rest, close.rest), end));
        }
        here = after;
    }
    None
}

/// Reads the group here, in the argument that begins at `start`.
#[tactic(auto, unfolding(crate::specs::Groups::group_at))]
#[inline(never)]
fn take_group<'a>(here: &mut Cursor<'a>, start: usize) -> Result<Group<'a>, ArgumentFault>
    ensures { group_read result (at here.new) ≡ group_at start (at here.old) }
{
    let (count, bracket) = take_hashes(*here);
    let Some(inner) = bracket.strip(b'(') else {
        if bracket.is_at_end() {
            return Err(ArgumentFault::Text(ParseError::FormatSpecUnclosed(start)));
        }
        return Err(ArgumentFault::Text(ParseError::Expected("(", bracket.place)));
    };
    let Some((text, end)) = find_close(inner, count) else {
        return Err(ArgumentFault::Text(ParseError::FormatSpecUnclosed(start)));
    };
    *here = end;
    Ok(Group {
        text,
        place: inner.place,
    })
}

/// Reads the group here, if there is one, in the argument that begins at `start`.
#[inline(always)]
pub(crate) fn take_group_if<'a>(
    here: &mut Cursor<'a>,
    start: usize,
) -> Result<Option<Group<'a>>, ArgumentFault>
    ensures { group_if_read result (at here.new) ≡ group_if start (at here.old) }
{
    match here.byte() {
        Some(b'(' | b'#') => match take_group(here, start) {
            Ok(group) => Ok(Some(group)),
            Err(broken) => Err(broken),
        },
        _ => Ok(None),
    }
}

/// Returns a cursor at the beginning of a group's text.
pub fn inside(group: Group<'_>) -> Cursor<'_>
    ensures { at result ≡ inside (group_of group.entry) }
{
    Cursor {
        place: group.place,
        rest: group.text,
    }
}
