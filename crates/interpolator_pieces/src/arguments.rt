//! The arguments of a text, with those of its groups.
ghost use Rattle.std.specs.Prelude.{◌≡◌, ◌++◌, map, option_map, IfOk};
ghost use Rattle.interpolator_syntax.specs.Arguments.{argument_of, kind_of};
ghost use Rattle.interpolator_syntax.specs.{Places.at, Groups.group_of, Pieces.argument_from};
ghost use Rattle.interpolator_pieces.specs.AllArguments.{arguments_of, group_arguments};
ghost use Rattle.interpolator_pieces.specs.AllArguments.{kind_arguments, piece_arguments};

use crate::parse::{ending, skip_all};
use interpolator_syntax::{
    Argument, Cursor, Group, Kind, Token, argument_of, inside, next_token, take_argument,
};
use std::alloc::{AllocError, Global};

/// Adds the arguments of a text, in order.
#[cycle(arguments)]
pub fn push_arguments<'t>(
    alloc: Global,
    arguments: &mut Vec<Argument<'t>>,
    text: Cursor<'t>,
) -> Result<(), AllocError>
    ensures { IfOk result (λ _. map argument_of arguments.new.items
        ≡ map argument_of arguments.old.items ++ arguments_of (at text.entry)) }
{
    let mut here = text;
    while let Some((token, rest)) = next_token(here) {
        here = match token {
            Token::Argument => push_argument(alloc, arguments, rest)?,
            _ => rest,
        };
    }
    Ok(())
}

/// Adds the argument that begins here, after its brace, and those of its groups. Returns what
/// follows it.
#[cycle(arguments)]
fn push_argument<'t>(
    alloc: Global,
    arguments: &mut Vec<Argument<'t>>,
    here: Cursor<'t>,
) -> Result<Cursor<'t>, AllocError>
    ensures rest { IfOk result (λ r. at r ≡ (argument_from here.entry.place (at here.entry)).rest) }
    ensures pushed { IfOk result (λ _. map argument_of arguments.new.items
        ≡ map argument_of arguments.old.items ++ piece_arguments arguments_of
        (argument_from here.entry.place (at here.entry)).piece.kind) }
{
    match take_argument(here) {
        Ok(taken) => {
            let argument = argument_of(&taken);
            arguments.push(argument)?;
            push_groups(alloc, arguments, argument.kind)?;
            let (_, rest) = ending(taken.end);
            Ok(rest)
        }
        Err(_) => Ok(skip_all(here)),
    }
}

/// Adds the arguments of the item format and of the join, if the argument has these groups.
#[cycle(arguments)]
fn push_groups<'t>(
    alloc: Global,
    arguments: &mut Vec<Argument<'t>>,
    kind: Kind<'t>,
) -> Result<(), AllocError>
    ensures { IfOk result (λ _. map argument_of arguments.new.items
        ≡ map argument_of arguments.old.items ++ kind_arguments arguments_of (kind_of kind.entry)) }
{
    match kind {
        Kind::Value(_) => Ok(()),
        Kind::List {
            range: _,
            item,
            join,
        } => {
            push_group(alloc, arguments, item)?;
            push_group(alloc, arguments, join)
        }
    }
}

/// Adds the arguments of a group, if there is one.
#[cycle(arguments)]
fn push_group<'t>(
    alloc: Global,
    arguments: &mut Vec<Argument<'t>>,
    group: Option<Group<'t>>,
) -> Result<(), AllocError>
    ensures { IfOk result (λ _. map argument_of arguments.new.items
        ≡ map argument_of arguments.old.items
        ++ group_arguments arguments_of (option_map group_of group.entry)) }
{
    match group {
        None => Ok(()),
        Some(group) => push_arguments(alloc, arguments, inside(group)),
    }
}
