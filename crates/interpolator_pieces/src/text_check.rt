//! The first fault that a text has by itself, found while it is read. Callers come before what they
//! call.
ghost use Rattle.std.specs.Prelude.{◌≡◌, ℕ, IfOk, None, Some, option_map};
ghost use Rattle.interpolator_syntax.specs.Arguments.{argument_at, argument_after, plain_argument};
ghost use Rattle.interpolator_syntax.specs.Arguments.{list_of};
ghost use Rattle.interpolator_syntax.specs.Nodes.{group_branch, nodes, token_node};
ghost use Rattle.interpolator_syntax.specs.{Places.at, Places.strip, Classes.close_brace};
ghost use Rattle.interpolator_syntax.specs.{Faults.fault};
ghost use Rattle.interpolator_syntax.specs.{Faults.result_answer, Groups.group_of};
ghost use Rattle.interpolator_syntax.specs.{Pieces.argument_from, Tokens.argument};
ghost use Rattle.interpolator_pieces.specs.NodeChecks.{brace_faults, branch_faults, first_fault};
ghost use Rattle.interpolator_pieces.specs.NodeChecks.{list_faults, node_faults, text_faults};

use interpolator_eval::forbids_list;
use interpolator_render::Trait;
use interpolator_syntax::{
    ArgumentName, Cursor, Error, Group, ParseError, Request, Token, inside, next_token, take_name,
    take_request,
};

/// Returns the first fault that a text has by itself, at any depth of its groups.
#[cycle(check)]
pub fn check_text(text: Cursor<'_>) -> Result<(), Error>
    ensures first { result_answer result
        ≡ option_map fault (first_fault (text_faults (at text.entry))) }
{
    let mut here = text;
    while let Some((token, rest)) = next_token(here) {
        here = match token {
            Token::Literals(_) => rest,
            Token::Doubled(_) => rest,
            Token::LoneClose => rest,
            Token::Argument => check_argument(rest)?,
        };
    }
    Ok(())
}

/// Returns the text after the argument that begins here, after its brace, or its first fault.
#[cycle(check)]
fn check_argument(here: Cursor<'_>) -> Result<Cursor<'_>, Error>
    ensures first { (p : ℕ) → result_answer result ≡ option_map fault
        (first_fault (node_faults (token_node nodes p argument (at here.entry)))) }
    ensures rest { IfOk result (λ r. at r ≡ (argument_from here.entry.place (at here.entry)).rest) }
{
    let named = take_name(here);
    match named.end.strip(b'}') {
        Some(after) => Ok(after),
        None => check_asked(here, named),
    }
}

/// Returns the text after the argument that begins here and has this name, with more after the
/// name, or its first fault.
#[cycle(check)]
fn check_asked<'t>(here: Cursor<'t>, named: ArgumentName<'t>) -> Result<Cursor<'t>, Error>
    requires open { strip close_brace (at named.end) ≡ None }
    requires named { argument_at (at here)
        ≡ argument_after here.place (plain_argument named) (at named.end) }
    ensures first { (p : ℕ) → result_answer result ≡ option_map fault
        (first_fault (node_faults (token_node nodes p argument (at here.entry)))) }
    ensures rest { IfOk result (λ r. at r ≡ (argument_from here.entry.place (at here.entry)).rest) }
{
    let mut end = named.end;
    let mut asked = Request::plain();
    match take_request(&mut end, &mut asked, here.place) {
        Ok(()) => {}
        Err(fault) => return Err(Error::from(fault)),
    }
    match asked.slot {
        Trait::Iter => {
            check_list(&asked, end.place)?;
            require_brace(end)
        }
        _ => require_brace(end),
    }
}

/// Returns the text after the closing brace, which belongs here; or that it is missing.
#[inline(always)]
fn require_brace(end: Cursor<'_>) -> Result<Cursor<'_>, Error>
    ensures first { result_answer result ≡ option_map fault
        (first_fault (brace_faults end.entry.place (strip close_brace (at end.entry)))) }
    ensures rest { IfOk result (λ r. strip close_brace (at end.entry) ≡ Some (at r)) }
{
    match end.strip(b'}') {
        Some(after) => Ok(after),
        None => Err(Error::Parse(ParseError::Expected("}", end.place))),
    }
}

/// Returns the first fault of a list whose spec ends at a byte: that its spec has what it may not
/// have, or one of its groups.
#[cycle(check)]
#[inline(never)]
fn check_list(asked: &Request<'_>, end: usize) -> Result<(), Error>
    ensures first { result_answer result ≡ option_map fault
        (first_fault (list_faults asked.now.spec end (list_of asked.now.list))) }
{
    if forbids_list(&asked.spec) {
        return Err(Error::Parse(ParseError::Iter(end)));
    }
    check_group(asked.list.item)?;
    check_group(asked.list.join)
}

/// Returns the first fault of a group, if there is one.
#[cycle(check)]
fn check_group(group: Option<Group<'_>>) -> Result<(), Error>
    ensures first { result_answer result ≡ option_map fault (first_fault
        (branch_faults (group_branch nodes (option_map group_of group.entry)))) }
{
    match group {
        Some(group) => check_text(inside(group)),
        None => Ok(()),
    }
}
