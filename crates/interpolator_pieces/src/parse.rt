//! Reads a format into its pieces.
ghost use Rattle.std.specs.Prelude.{◌≡◌, ◌<◌, ◌≤◌, ◌+◌, ◌^◌, ℕ, List, [], ◌∷◌, ◌++◌, IfOk, None};
ghost use Rattle.std.specs.Prelude.{Ok, option_map, vec_capacity};
ghost use Rattle.std.specs.Str.{chars};
ghost use Rattle.interpolator_syntax.specs.Places.{at, size, strip, all_after};
ghost use Rattle.interpolator_syntax.specs.Arguments.{argument_at, argument_after, plain_argument};
ghost use Rattle.interpolator_syntax.specs.Arguments.{named_argument, request_of, kind_of_request};
ghost use Rattle.interpolator_syntax.specs.Arguments.{list_of};
ghost use Rattle.interpolator_syntax.specs.Pieces.{argument_from, broken};
ghost use Rattle.interpolator_syntax.specs.SpecTexts.{of_value, of_list, plain_spec};
ghost use Rattle.interpolator_syntax.specs.Nodes.{nodes, node, no_branch, text_content, piece_node};
ghost use Rattle.interpolator_syntax.specs.Nodes.{token_node};
ghost use Rattle.interpolator_syntax.specs.{Classes.close_brace, Faults.argument_fault_of};
ghost use Rattle.interpolator_syntax.specs.{Groups.group_of, Tokens.argument};
ghost use Rattle.interpolator_pieces.specs.Stored.{StandFor, Pushed, GroupStands, part, node_of};
ghost use Rattle.interpolator_pieces.specs.Stored.{stored_content};
ghost use Rattle.interpolator_pieces.specs.declared.piece.Form.TheVariants as forms;
ghost use Rattle.interpolator_pieces.specs.Reading.{ending_kind, ending_rest};

use crate::piece::{Bounds, Detail, Form, Groups, Piece, bare_piece, detailed_piece, no_groups};
use interpolator_render::{Spec, Trait};
use interpolator_syntax::{
    ArgumentFault, ArgumentName, Cursor, Group, PieceKind, Range, Request, Token, inside,
    next_token, take_name, take_request,
};
use std::alloc::{AllocError, Global};

/// The beginning of an argument.
#[derive(Clone, Copy)]
struct Opening<'t> {
    /// The place of its brace.
    place: usize,
    /// The text after the brace.
    here: Cursor<'t>,
    /// Its name, and the text after that.
    named: ArgumentName<'t>,
}

/// An argument that is a name alone, with white space before the name.
#[cold]
#[inline(never)]
fn spaced_name(
    alloc: Global,
    place: usize,
    end: usize,
    named: ArgumentName<'_>,
) -> Result<Piece, AllocError>
    ensures node { IfOk result (λ x. (bs : List ℕ) → node_of bs x
        ≡ node place end PieceKind.Closed (stored_content bs place named.entry.place
        named.entry.end.place named.entry.end.place plain_spec forms.Plain) no_branch no_branch) }
{
    let detail = Detail {
        from: named.place,
        to: named.end.place,
        spec_end: named.end.place,
        spec: Spec::default(),
        form: Form::Plain,
    };
    let bounds = Bounds {
        place,
        end,
        kind: PieceKind::Closed,
    };
    detailed_piece(alloc, bounds, detail, no_groups())
}

/// Adds a piece.
#[inline(always)]
fn push_piece(pieces: &mut Vec<Piece>, piece: Piece) -> Result<(), AllocError>
    ensures { IfOk result (λ _. pieces.new.items ≡ pieces.old.items ++ (piece ∷ [])) }
{
    pieces.reserve(1)?;
    pieces.push_reserved(piece);
    Ok(())
}

/// What follows the whole text: nothing.
pub fn skip_all(here: Cursor<'_>) -> Cursor<'_>
    ensures { at result ≡ all_after (at here.entry) }
{
    let (_, rest) = here.rest.split_at(here.rest.len());
    Cursor {
        place: here.place + here.rest.len(),
        rest,
    }
}

/// How an argument whose spec ends here ends itself, and what follows it.
pub fn ending(end: Cursor<'_>) -> (PieceKind, Cursor<'_>)
    ensures kind { result.0 ≡ ending_kind (strip close_brace (at end.entry)) }
    ensures rest { at result.1 ≡ ending_rest (at end.entry) (strip close_brace (at end.entry)) }
{
    match end.strip(b'}') {
        Some(rest) => (PieceKind::Closed, rest),
        None => (PieceKind::Unclosed, skip_all(end)),
    }
}

/// The most pieces of a format for which room is made at the beginning.
const MOST_ROOM: usize = 32;

/// The number of pieces of a group for which room is made: most groups have few.
const MOST_GROUP_ROOM: usize = 4;

/// The number of pieces for which room is made at the beginning: most have at least two bytes.
fn room_for(text: Cursor<'_>) -> usize
    ensures most { result ≤ 32 }
    ensures group { ¬ (text.entry.place ≡ 0) → result ≤ 4 }
{
    let most = if text.place == 0 {
        MOST_ROOM
    } else {
        MOST_GROUP_ROOM
    };
    (text.rest.len() / 2 + 1).min(most)
}

/// No pieces yet, with room for some.
fn no_pieces(alloc: Global, text: Cursor<'_>) -> Result<Vec<Piece>, AllocError>
    ensures none { IfOk result (λ pieces. pieces.items ≡ []) }
    ensures most { IfOk result (λ pieces. vec_capacity pieces ≤ 32) }
    ensures group { ¬ (text.entry.place ≡ 0) → IfOk result (λ pieces. vec_capacity pieces ≤ 4) }
{
    Vec::with_capacity(alloc, room_for(text))
}

/// The pieces of a text.
#[cycle(parse)]
pub fn parse_pieces(alloc: Global, text: Cursor<'_>) -> Result<Vec<Piece>, AllocError>
    ensures stand { IfOk result (λ pieces. StandFor pieces.items (at text.entry)) }
{
    let mut pieces = no_pieces(alloc, text)?;
    let mut here = text;
    while let Some((token, rest)) = next_token(here) {
        here = match token {
            Token::Literals(_) => {
                let piece = bare_piece(here.place, rest.place, PieceKind::Literal);
                push_piece(&mut pieces, piece)?;
                rest
            }
            Token::Doubled(_) => {
                let piece = bare_piece(here.place, rest.place, PieceKind::Doubled);
                push_piece(&mut pieces, piece)?;
                rest
            }
            Token::LoneClose => {
                let piece = bare_piece(here.place, rest.place, PieceKind::LoneClose);
                push_piece(&mut pieces, piece)?;
                rest
            }
            Token::Argument => push_argument_piece(alloc, &mut pieces, here.place, rest)?,
        };
    }
    Ok(pieces)
}

/// Adds the argument that begins here, after its brace at `place`, or its fault. Returns what
/// follows it.
#[cycle(parse)]
fn push_argument_piece<'t>(
    alloc: Global,
    pieces: &mut Vec<Piece>,
    place: usize,
    here: Cursor<'t>,
) -> Result<Cursor<'t>, AllocError>
    requires start { here.place ≡ place + 1 }
    ensures rest { IfOk result (λ r. at r ≡ (argument_from here.entry.place (at here.entry)).rest) }
    ensures pushed { IfOk result (λ _. Pushed pieces.old.items pieces.new.items
        (token_node nodes place argument (at here.entry)) (at here.entry)) }
{
    let named = take_name(here);
    match named.end.strip(b'}') {
        Some(after) => {
            if named.place == here.place {
                let piece = bare_piece(place, after.place, PieceKind::Closed);
                push_piece(pieces, piece)?;
                return Ok(after);
            }
            let piece = spaced_name(alloc, place, after.place, named)?;
            push_piece(pieces, piece)?;
            Ok(after)
        }
        None => push_asked(alloc, pieces, Opening { place, here, named }),
    }
}

/// Adds the argument that begins so, with a spec after its name, or its fault.
#[cycle(parse)]
fn push_asked<'t>(
    alloc: Global,
    pieces: &mut Vec<Piece>,
    opening: Opening<'t>,
) -> Result<Cursor<'t>, AllocError>
    requires start { opening.here.place ≡ opening.place + 1 }
    requires named { argument_at (at opening.here)
        ≡ argument_after opening.here.place (plain_argument opening.named) (at opening.named.end) }
    requires open { strip close_brace (at opening.named.end) ≡ None }
    requires name_end { opening.named.end.place
        ≡ opening.named.place + size (chars opening.named.name.now) }
    ensures rest { IfOk result (λ r. at r
        ≡ (argument_from opening.entry.here.place (at opening.entry.here)).rest) }
    ensures pushed { IfOk result (λ _. Pushed pieces.old.items pieces.new.items
        (token_node nodes opening.entry.place argument (at opening.entry.here))
        (at opening.entry.here)) }
{
    let mut end = opening.named.end;
    let mut asked = Request::plain();
    match take_request(&mut end, &mut asked, opening.here.place) {
        Ok(()) => push_taken(alloc, pieces, opening, &asked, end),
        Err(fault) => push_broken(alloc, pieces, opening.place, opening.here, fault),
    }
}

/// Adds the argument that begins so and asks for this, up to `end`.
#[cycle(parse)]
fn push_taken<'t>(
    alloc: Global,
    pieces: &mut Vec<Piece>,
    opening: Opening<'t>,
    asked: &Request<'t>,
    end: Cursor<'t>,
) -> Result<Cursor<'t>, AllocError>
    requires start { opening.here.place ≡ opening.place + 1 }
    requires read { argument_at (at opening.here)
        ≡ Ok (named_argument opening.named (request_of asked.now), at end) }
    requires name_end { opening.named.end.place
        ≡ opening.named.place + size (chars opening.named.name.now) }
    ensures rest { IfOk result (λ r. at r
        ≡ (argument_from opening.entry.here.place (at opening.entry.here)).rest) }
    ensures pushed { IfOk result (λ _. Pushed pieces.old.items pieces.new.items
        (token_node nodes opening.entry.place argument (at opening.entry.here))
        (at opening.entry.here)) }
{
    match asked.slot {
        Trait::Iter => push_list(alloc, pieces, opening, asked, end),
        _ => push_value(alloc, pieces, opening, asked, end),
    }
}

/// Adds an argument that asks for a value under a trait.
fn push_value<'t>(
    alloc: Global,
    pieces: &mut Vec<Piece>,
    opening: Opening<'t>,
    asked: &Request<'t>,
    end: Cursor<'t>,
) -> Result<Cursor<'t>, AllocError>
    requires start { opening.here.place ≡ opening.place + 1 }
    requires read { argument_at (at opening.here)
        ≡ Ok (named_argument opening.named (request_of asked.now), at end) }
    requires name_end { opening.named.end.place
        ≡ opening.named.place + size (chars opening.named.name.now) }
    requires asked { kind_of_request asked.now ≡ of_value asked.now.slot }
    ensures rest { IfOk result (λ r. at r
        ≡ (argument_from opening.entry.here.place (at opening.entry.here)).rest) }
    ensures pushed { IfOk result (λ _. Pushed pieces.old.items pieces.new.items
        (token_node nodes opening.entry.place argument (at opening.entry.here))
        (at opening.entry.here)) }
{
    let (kind, rest) = ending(end);
    let detail = Detail {
        from: opening.named.place,
        to: opening.named.end.place,
        spec_end: end.place,
        spec: asked.spec,
        form: Form::Value(asked.slot),
    };
    let bounds = Bounds {
        place: opening.place,
        end: rest.place,
        kind,
    };
    let piece = detailed_piece(alloc, bounds, detail, no_groups())?;
    push_piece(pieces, piece)?;
    Ok(rest)
}

/// Adds an argument that asks for a list, and the pieces of its groups.
#[cycle(parse)]
#[inline(never)]
fn push_list<'t>(
    alloc: Global,
    pieces: &mut Vec<Piece>,
    opening: Opening<'t>,
    asked: &Request<'t>,
    end: Cursor<'t>,
) -> Result<Cursor<'t>, AllocError>
    requires start { opening.here.place ≡ opening.place + 1 }
    requires read { argument_at (at opening.here)
        ≡ Ok (named_argument opening.named (request_of asked.now), at end) }
    requires name_end { opening.named.end.place
        ≡ opening.named.place + size (chars opening.named.name.now) }
    requires asked { kind_of_request asked.now ≡ of_list (list_of asked.now.list) }
    ensures rest { IfOk result (λ r. at r
        ≡ (argument_from opening.entry.here.place (at opening.entry.here)).rest) }
    ensures pushed { IfOk result (λ _. Pushed pieces.old.items pieces.new.items
        (token_node nodes opening.entry.place argument (at opening.entry.here))
        (at opening.entry.here)) }
{
    let item = parse_group(alloc, asked.list.item)?;
    let join = parse_group(alloc, asked.list.join)?;
    let (kind, rest) = ending(end);
    let detail = Detail {
        from: opening.named.place,
        to: opening.named.end.place,
        spec_end: end.place,
        spec: asked.spec,
        form: Form::List(asked.list.range),
    };
    let bounds = Bounds {
        place: opening.place,
        end: rest.place,
        kind,
    };
    let piece = detailed_piece(alloc, bounds, detail, Groups { item, join })?;
    push_piece(pieces, piece)?;
    Ok(rest)
}

/// The pieces of a group, if there is one.
#[cycle(parse)]
fn parse_group(alloc: Global, group: Option<Group<'_>>) -> Result<Option<Vec<Piece>>, AllocError>
    ensures stands { IfOk result (λ xs. GroupStands xs (option_map group_of group.entry)) }
{
    match group {
        None => Ok(None),
        Some(group) => Ok(Some(parse_pieces(alloc, inside(group))?)),
    }
}

/// Adds the fault of an argument that cannot be read, whose text begins here.
#[cold]
#[inline(never)]
fn push_broken<'t>(
    alloc: Global,
    pieces: &mut Vec<Piece>,
    place: usize,
    here: Cursor<'t>,
    fault: ArgumentFault,
) -> Result<Cursor<'t>, AllocError>
    ensures rest { IfOk result (λ r. at r ≡ all_after (at here.entry)) }
    ensures pushed { IfOk result (λ _. Pushed pieces.old.items pieces.new.items
        (piece_node nodes place (all_after (at here.entry)).place
        (broken (argument_fault_of fault))) (at here.entry)) }
{
    let rest = skip_all(here);
    let detail = Detail {
        from: place,
        to: place,
        spec_end: place,
        spec: Spec::default(),
        form: Form::Broken(fault),
    };
    let bounds = Bounds {
        place,
        end: rest.place,
        kind: PieceKind::Broken,
    };
    let piece = detailed_piece(alloc, bounds, detail, no_groups())?;
    push_piece(pieces, piece)?;
    Ok(rest)
}
