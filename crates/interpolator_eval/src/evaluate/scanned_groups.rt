//! Groups of a list in a text: what is read of them once, before the items are written.
ghost use Rattle.std.specs.Prelude.{◌≡◌, ℕ, IfSome, option_map};
ghost use Rattle.interpolator_syntax.specs.Nodes.{group_branch, no_nodes, nodes, token_node};
ghost use Rattle.interpolator_syntax.specs.{Places.at, Groups.group_of, Pieces.argument_from};
ghost use Rattle.interpolator_syntax.specs.Tokens.{argument as argument_token};
ghost use Rattle.interpolator_eval.specs.Meaning.ScannedLists.{text_forest};
ghost use Rattle.interpolator_eval.specs.Meaning.Sources.{IsBare, IsBareFirst, IsFramed, IsText};
ghost use Rattle.interpolator_eval.specs.Meaning.Sources.{RunFirst, branch_of};

use crate::evaluate::plain_item::PlainItem;
use interpolator_syntax::{Cursor, Group, Token, inside, next_token, take_name};

/// Returns a cursor at the beginning of a group's text, if there is a group.
#[inline(always)]
pub fn group_start(group: Option<Group<'_>>) -> Option<Cursor<'_>>
    ensures { branch_of (λ c. text_forest (at c)) result
        ≡ group_branch nodes (option_map group_of group.entry) }
{
    match group {
        Some(group) => Some(inside(group)),
        None => None,
    }
}

/// Returns how a group displays an item plainly: if it is `{}`, with or without a text before it
/// and one after it.
#[inline(never)]
pub fn plain_group(group: Group<'_>) -> Option<PlainItem<'_>>
    ensures { IfSome result (λ p. IsFramed (option_map group_of p.before) p.place
        (option_map group_of p.after) (group_branch nodes (Some (group_of group.entry)))) }
{
    let here = inside(group);
    let (token, rest) = next_token(here)?;
    match token {
        Token::Literals(run) => {
            let before = Group {
                text: run,
                place: here.place,
            };
            bare_from(rest, Some(before))
        }
        Token::Argument => bare_from(here, None),
        _ => None,
    }
}

/// Returns the format whose text `before` has been read, if an argument without name and spec
/// begins here and nothing but a text follows it.
#[inline(always)]
fn bare_from<'t>(here: Cursor<'t>, before: Option<Group<'t>>) -> Option<PlainItem<'t>>
    ensures bare { IfSome result (λ p. IsBareFirst p.place (option_map group_of p.after)
        (text_forest (at here.entry))) }
    ensures before { IfSome result (λ p. p.before ≡ before.entry) }
{
    let (token, rest) = next_token(here)?;
    match token {
        Token::Argument => {
            let (place, after) = bare_rest(rest)?;
            Some(PlainItem {
                before,
                place,
                after: text_or_end(after)?,
            })
        }
        _ => None,
    }
}

/// Returns the place of the closing brace of the argument that begins here, after its brace, and
/// the text after it, if the argument has neither name nor spec.
#[inline(always)]
fn bare_rest(here: Cursor<'_>) -> Option<(usize, Cursor<'_>)>
    ensures bare { IfSome result (λ r. (p : ℕ)
        → IsBare r.0 (token_node nodes p argument_token (at here.entry))) }
    ensures rest { IfSome result (λ r. (argument_from here.entry.place (at here.entry)).rest
        ≡ at r.1) }
{
    let named = take_name(here);
    let after = named.end.strip(b'}')?;
    if named.name.is_empty() {
        Some((named.end.place, after))
    } else {
        None
    }
}

/// Returns the text here, if it has no brace: none at the end of the text.
#[inline(always)]
fn text_or_end(here: Cursor<'_>) -> Option<Option<Group<'_>>>
    ensures { IfSome result (λ run. RunFirst (option_map group_of run) no_nodes
        (text_forest (at here.entry))) }
{
    let Some((token, rest)) = next_token(here) else {
        return Some(None);
    };
    match token {
        Token::Literals(run) if rest.is_at_end() => Some(Some(Group {
            text: run,
            place: here.place,
        })),
        _ => None,
    }
}

/// Returns the text of a group, if it is not empty and has no brace.
#[inline(never)]
pub fn text_group(group: Group<'_>) -> Option<Group<'_>>
    ensures { IfSome result (λ g. IsText (group_of g)
        (group_branch nodes (Some (group_of group.entry)))) }
{
    text_or_end(inside(group))?
}
