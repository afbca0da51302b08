//! What pieces can cost at most, if the values that they are written with are within limits.
ghost use Rattle.std.specs.Prelude.{◌≡◌, ◌+◌, ◌*◌, ◌-◌, length, option_map, Some, true};
ghost use Rattle.std.specs.Str.{chars};
ghost use Rattle.interpolator_render.specs.Lengths.{usize_count};
ghost use Rattle.interpolator_eval.specs.Meaning.Limits.{most_chosen, most_from_end};
ghost use Rattle.interpolator_syntax.specs.Nodes.{as_forest};
ghost use Rattle.interpolator_pieces.specs.NodeCosts.{no_cost, piece_cost, then_cost, item_cost};
ghost use Rattle.interpolator_pieces.specs.NodeCosts.{items_cost, padded_cost, list_cost};
ghost use Rattle.interpolator_pieces.specs.NodeCosts.{value_cost, content_cost, node_cost};
ghost use Rattle.interpolator_pieces.specs.NodeCosts.{item_branch_cost, join_branch_cost};
ghost use Rattle.interpolator_pieces.specs.NodeCosts.{forest_cost, usize_cost};
ghost use Rattle.interpolator_pieces.specs.Stored.{node_of, nodes_of, node_whole, forest_whole};
ghost use Rattle.interpolator_pieces.specs.Stored.{branch_of, content_of};
ghost use Rattle.interpolator_pieces.specs.declared.piece.Piece.TheViews.{out-Piece};

use crate::piece::{Form, Piece, form_of, spec_of};
use crate::piece_text::text_of;
use interpolator_eval::chosen;
use interpolator_render::{Spec, Trait, char_count, most_written};
use interpolator_syntax::Range;

/// How large the values that a format is written with may be, at any depth of their lists.
///
/// ```text
/// Limits { text: 100, items: 20 }
/// ```
#[derive(Clone, Copy, Debug, PartialEq, Eq)]
pub struct Limits {
    /// The most characters of a text that a value shows.
    pub text: usize,
    /// The most items of a list.
    pub items: usize,
}

/// What a format can cost at most. For each count, the greatest `usize` means that many or more.
#[derive(Clone, Copy, Debug, PartialEq, Eq)]
pub struct Cost {
    /// The most characters that are written.
    pub characters: usize,
    /// The most pieces that are gone through: literals in a row, braces, arguments, and items that
    /// are displayed plainly or whose format is empty.
    pub pieces: usize,
    /// The most characters that lists under a width hold in buffers at one time: 0 if there is no
    /// such list, and else at least 1.
    pub buffered: usize,
}

/// The cost of nothing.
fn no_cost() -> Cost
    ensures { result ≡ no_cost }
{
    Cost {
        characters: 0,
        pieces: 0,
        buffered: 0,
    }
}

/// The cost of one piece that has these characters.
fn piece_cost(characters: usize) -> Cost
    ensures { result ≡ piece_cost characters }
{
    Cost {
        characters,
        pieces: 1,
        buffered: 0,
    }
}

/// The cost of one after the other.
fn then_cost(first: Cost, next: Cost) -> Cost
    ensures { result ≡ usize_cost (then_cost first next) }
{
    Cost {
        characters: first.characters.saturating_add(next.characters),
        pieces: first.pieces.saturating_add(next.pieces),
        buffered: first.buffered.max(next.buffered),
    }
}

/// The cost of an item by its format, which counts as at least one piece.
fn item_cost(format: Cost) -> Cost
    ensures { result ≡ item_cost format }
{
    Cost {
        characters: format.characters,
        pieces: format.pieces.max(1),
        buffered: format.buffered,
    }
}

/// A count for `count` items, with the join between each two.
fn repeated(count: usize, item: usize, join: usize) -> usize
    ensures { result ≡ usize_count (count * item + (count - 1) * join) }
{
    let joins = count.saturating_sub(1).saturating_mul(join);
    count.saturating_mul(item).saturating_add(joins)
}

/// The cost of the items of a list, with the join between each two.
fn items_cost(count: usize, item: Cost, join: Cost) -> Cost
    ensures { result ≡ usize_cost (items_cost count item join) }
{
    Cost {
        characters: repeated(count, item.characters, join.characters),
        pieces: repeated(count, item.pieces, join.pieces),
        buffered: item.buffered.max(join.buffered),
    }
}

/// The cost of the items of a list under its spec: with a width they are collected in a buffer, and
/// padded.
fn padded_cost(width: Option<usize>, items: Cost) -> Cost
    ensures { result ≡ usize_cost (padded_cost width items) }
{
    match width {
        Some(width) => Cost {
            characters: items.characters.max(width),
            pieces: items.pieces,
            buffered: items.characters.max(1).saturating_add(items.buffered),
        },
        None => items,
    }
}

/// The most items from the one that is `first` items before a list's end up to a bound.
fn most_from_end(most: usize, first: usize, inclusive: bool, upper: Option<isize>) -> usize
    ensures { result ≡ most_from_end most first inclusive upper }
{
    match upper {
        Some(upper) if upper < 0 => {
            let more = if inclusive { 1 } else { 0 };
            most.min(
                first
                    .saturating_sub(upper.unsigned_abs())
                    .saturating_add(more),
            )
        }
        _ => most.min(first),
    }
}

/// The most items that a range chooses from a list of at most `most` items.
fn most_chosen(most: usize, range: Option<Range>) -> usize
    ensures { result ≡ most_chosen most range }
{
    let Some(bounds) = range else {
        return most;
    };
    match bounds.lower {
        Some(lower) if lower < 0 => {
            most_from_end(most, lower.unsigned_abs(), bounds.inclusive, bounds.upper)
        }
        _ => {
            let (start, end) = chosen(most, range);
            end - start
        }
    }
}

/// The cost of a value under a trait and a spec.
fn value_cost(limits: &Limits, t: Trait, spec: &Spec) -> Cost
    ensures { result ≡ usize_cost (value_cost limits.now t spec.now) }
{
    piece_cost(most_written(t, spec, limits.text))
}

/// The cost of a list, whose items a range chooses: the argument itself, and the items.
fn list_cost(limits: &Limits, range: Option<Range>, spec: &Spec, item: Cost, join: Cost) -> Cost
    ensures { result ≡ usize_cost (list_cost limits.now range spec.now item join) }
{
    let items = items_cost(most_chosen(limits.items, range), item, join);
    then_cost(piece_cost(0), padded_cost(spec.width, items))
}

/// The cost of what a piece holds, by the costs of an item and of the join.
fn content_cost(text: &str, piece: &Piece, limits: &Limits, item: Cost, join: Cost) -> Cost
    requires whole { node_whole (node_of text.now piece.now) ≡ true }
    ensures { option_map (λ held. usize_cost (content_cost limits.now held item join))
        (content_of text.now piece.now) ≡ Some result }
{
    match form_of(piece) {
        Form::Text => piece_cost(char_count(text_of(text, piece))),
        Form::Plain => value_cost(limits, Trait::Display, &Spec::default()),
        Form::Value(t) => value_cost(limits, t, &spec_of(piece)),
        Form::List(range) => list_cost(limits, range, &spec_of(piece), item, join),
        Form::Broken(_) => piece_cost(0),
    }
}

/// The cost of pieces of a text, in order.
#[cycle(cost)]
pub fn cost_of(text: &str, pieces: &[Piece], limits: &Limits) -> Cost
    requires whole { forest_whole (as_forest (nodes_of text.now pieces.now)) ≡ true }
    ensures { result
        ≡ usize_cost (forest_cost limits.now (as_forest (nodes_of text.now pieces.now))) }
{
    let mut cost = no_cost();
    for piece in pieces {
        cost = then_cost(cost, cost_of_piece(text, piece, limits));
    }
    cost
}

/// The cost of a piece, with its groups.
#[cycle(cost)]
fn cost_of_piece(text: &str, piece: &Piece, limits: &Limits) -> Cost
    requires whole { node_whole (node_of text.now piece.now) ≡ true }
    ensures { result ≡ usize_cost (node_cost limits.now (node_of text.now piece.now)) }
{
    let item = cost_of_item(text, piece, limits);
    let join = cost_of_join(text, piece, limits);
    content_cost(text, piece, limits, item, join)
}

/// The cost of an item of a piece, by its format or displayed plainly.
#[cycle(cost)]
fn cost_of_item(text: &str, piece: &Piece, limits: &Limits) -> Cost
    requires whole { node_whole (node_of text.now piece.now) ≡ true }
    ensures { result ≡ usize_cost
        (item_branch_cost limits.now (branch_of text.now (out-Piece piece.now).item)) }
{
    match &piece.item {
        Some(pieces) => item_cost(cost_of(text, pieces, limits)),
        None => value_cost(limits, Trait::Display, &Spec::default()),
    }
}

/// The cost of what comes between two items of a piece.
#[cycle(cost)]
fn cost_of_join(text: &str, piece: &Piece, limits: &Limits) -> Cost
    requires whole { node_whole (node_of text.now piece.now) ≡ true }
    ensures { result ≡ usize_cost
        (join_branch_cost limits.now (branch_of text.now (out-Piece piece.now).join)) }
{
    match &piece.join {
        Some(pieces) => cost_of(text, pieces, limits),
        None => no_cost(),
    }
}
