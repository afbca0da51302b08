//! The pieces of a format that was read once.
ghost use Rattle.std.specs.Prelude.{◌≡◌, ◌<◌, ◌^◌, ℕ, List, None, IfOk, IsSome, true};
ghost use Rattle.interpolator_syntax.specs.Nodes.{node, no_branch};
ghost use Rattle.interpolator_pieces.specs.Stored.{bare_detail, bare_form, bare_from, bare_to};
ghost use Rattle.interpolator_pieces.specs.Stored.{branch_of, detail_content, detail_of, node_of};
ghost use Rattle.interpolator_pieces.specs.{StoredLists.is_list_form, StoredMeanings.stored_part};

use interpolator_render::{Spec, Trait};
use interpolator_syntax::{ArgumentFault, PieceKind, Range};
use std::alloc::{AllocError, Global};

/// How a piece is written.
#[derive(Clone, Copy)]
pub enum Form {
    /// As its part of the text.
    Text,
    /// The value under its name, displayed plainly.
    Plain,
    /// The value under its name, under a trait and its spec.
    Value(Trait),
    /// The list under its name, or some of its items.
    List(Option<Range>),
    /// Not at all: it has a fault.
    Broken(ArgumentFault),
}

/// What is written of a piece, and how.
#[derive(Clone, Copy)]
pub struct Detail {
    /// The first byte of the text that is written, or of the name.
    pub from: usize,
    /// The byte after its last.
    pub to: usize,
    /// The byte after the argument's spec.
    pub spec_end: usize,
    /// How a value is written.
    pub spec: Spec,
    /// Whether it is text, a value or a list.
    pub form: Form,
}

/// A piece of a format: its place and its kind, and for a list argument the pieces of its groups.
///
/// Places count bytes from the beginning of the format, also those of pieces in groups.
///
/// # Example
///
/// ```text
/// // of the template of `a}}{h:i({z)}`
/// let pieces = template.pieces();
/// // pieces[0]: Literal from 0 to 1; pieces[1]: Doubled from 1 to 3;
/// // pieces[2]: Closed from 3 to 12, with the item format's piece: Broken from 8 to 10
/// ```
#[derive(Drop)]
pub struct Piece {
    /// Its first byte.
    pub place: usize,
    /// The byte after its last.
    pub end: usize,
    /// What it is.
    pub kind: PieceKind,
    /// The pieces of a list's item format; none if no such group was read.
    pub item: Option<Vec<Piece>>,
    /// The pieces of a list's join; none if no such group was read.
    pub join: Option<Vec<Piece>>,
    // none for text, and for a name with nothing beside it in its braces: the places and the kind
    // of these tell all, and formats have many
    pub detail: Option<Box<Detail>>,
}

/// A piece without a detail: text, or a name with nothing beside it.
#[tactic(auto, using(crate::proofs::StoredLemmas::made_bare))]
#[inline(always)]
pub fn bare_piece(place: usize, end: usize, kind: PieceKind) -> Piece
    ensures node { (bs : List ℕ) → node_of bs result
        ≡ node place end kind (detail_content bs place (bare_detail place end kind))
        no_branch no_branch }
{
    Piece {
        place,
        end,
        kind,
        item: None,
        join: None,
        detail: None,
    }
}

/// The pieces of the groups of an argument, if it has them.
#[derive(Drop)]
pub struct Groups {
    pub item: Option<Vec<Piece>>,
    pub join: Option<Vec<Piece>>,
}

/// No groups.
pub fn no_groups() -> Groups
    ensures { result ≡ record { item = None; join = None } }
{
    Groups {
        item: None,
        join: None,
    }
}

/// Which bytes of a format a piece is, and what it is.
#[derive(Clone, Copy)]
pub struct Bounds {
    pub place: usize,
    pub end: usize,
    pub kind: PieceKind,
}

/// A piece that has this detail and these groups.
#[tactic(auto, using(crate::proofs::StoredLemmas::made_detailed))]
#[inline(always)]
pub fn detailed_piece(
    alloc: Global,
    bounds: Bounds,
    detail: Detail,
    groups: Groups,
) -> Result<Piece, AllocError>
    ensures node { IfOk result (λ x. (bs : List ℕ) → node_of bs x
        ≡ node bounds.place bounds.end bounds.kind (detail_content bs bounds.place detail)
        (branch_of bs groups.item) (branch_of bs groups.join)) }
{
    Ok(Piece {
        place: bounds.place,
        end: bounds.end,
        kind: bounds.kind,
        item: groups.item,
        join: groups.join,
        detail: Some(Box::new(alloc, detail)?),
    })
}

/// How a piece without a detail is written.
fn bare_form(kind: PieceKind) -> Form
    ensures { result ≡ bare_form kind }
{
    match kind {
        PieceKind::Closed => Form::Plain,
        _ => Form::Text,
    }
}

/// Where the text or the name of a piece without a detail begins.
fn bare_from(place: usize, kind: PieceKind) -> usize
    requires fits { bare_from place kind < 2 ^ 64 }
    ensures { result ≡ bare_from place kind }
{
    match kind {
        PieceKind::Closed => place + 1,
        _ => place,
    }
}

/// Where the text or the name of a piece without a detail ends.
fn bare_to(end: usize, kind: PieceKind) -> usize
    ensures { result ≡ bare_to end kind }
{
    match kind {
        PieceKind::Closed => end.saturating_sub(1),
        PieceKind::Doubled => end.saturating_sub(1),
        _ => end,
    }
}

/// How a piece is written.
#[tactic(auto, unfolding(crate::specs::Stored::detail_or_bare))]
pub fn form_of(piece: &Piece) -> Form
    ensures { result ≡ (detail_of piece.now).form }
{
    match &piece.detail {
        Some(detail) => detail.form,
        None => bare_form(piece.kind),
    }
}

/// How the value of a piece is written.
#[tactic(auto, unfolding(crate::specs::Stored::detail_or_bare))]
pub fn spec_of(piece: &Piece) -> Spec
    ensures { result ≡ (detail_of piece.now).spec }
{
    match &piece.detail {
        Some(detail) => detail.spec,
        None => Spec::default(),
    }
}

/// The byte after the spec of an argument.
#[tactic(auto, using(crate::proofs::StoredLemmas::detail_kept, crate::proofs::StoredLemmas::detail_bare))]
pub fn spec_end_of(piece: &Piece) -> usize
    ensures { result ≡ (detail_of piece.now).spec_end }
{
    match &piece.detail {
        Some(detail) => detail.spec_end,
        None => bare_to(piece.end, piece.kind),
    }
}

/// Which part of its text is written for a piece, or is its name: the first byte, and the byte
/// after the last.
#[tactic(auto, using(crate::proofs::StoredLemmas::detail_kept, crate::proofs::StoredLemmas::detail_bare))]
pub fn part_of(_text: &str, piece: &Piece) -> (usize, usize)
    requires fits { IsSome (stored_part _text.now piece.now) }
    ensures from { result.0 ≡ (detail_of piece.now).from }
    ensures to { result.1 ≡ (detail_of piece.now).to }
{
    match &piece.detail {
        Some(detail) => (detail.from, detail.to),
        None => (
            bare_from(piece.place, piece.kind),
            bare_to(piece.end, piece.kind),
        ),
    }
}

/// The detail of a piece that asks for a list, which has one.
#[tactic(auto, using(crate::proofs::StoredLemmas::detail_kept, crate::proofs::StoredLemmas::no_bare_list))]
pub fn list_detail(piece: &Piece) -> &Detail
    requires list { is_list_form (detail_of piece.now).form ≡ true }
    ensures { result.now ≡ detail_of piece.now }
{
    match &piece.detail {
        Some(detail) => detail,
        None => unreachable!(),
    }
}
