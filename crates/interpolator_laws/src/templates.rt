//! Laws of the tree of a text, which a template keeps, each the contract of a small function.

ghost use Rattle.std.specs.Prelude.{◌≡◌, ◌↔◌, ◌+◌, [], ◌∷◌, ◌++◌, drop, true};
ghost use Rattle.std.specs.Prelude.{List, None, Some, Ok, IsTrue, codes};
ghost use Rattle.interpolator_render.specs.declared.view.Trait.TheVariants as traits;
ghost use Rattle.std.specs.Str.{chars};
ghost use Rattle.interpolator_syntax.specs.{Places.At, Places.size, Places.outermost};
ghost use Rattle.interpolator_syntax.specs.{Faults.result_answer};
ghost use Rattle.interpolator_syntax.specs.{Groups.Group, SpecTexts.plain_spec};
ghost use Rattle.interpolator_eval.specs.Meaning.Environments as environments;
ghost use Rattle.interpolator_eval.specs.Meaning.Environments.{environment};
ghost use Rattle.interpolator_eval.specs.Meaning.Meanings.{chain, means, forest_means};
ghost use Rattle.interpolator_syntax.specs.Groups.{inside};
ghost use Rattle.interpolator_eval.specs.Meaning.Outcomes.{Outcome};
ghost use Rattle.interpolator_syntax.specs.Nodes.{Node, node, branch, as_forest, argument_content};
ghost use Rattle.interpolator_syntax.specs.Nodes.{target_value, target_list, no_branch, text_node};
ghost use Rattle.interpolator_syntax.specs.Nodes.{group_branch, nodes};
ghost use Rattle.interpolator_pieces.specs.Stored.{forest_whole};
ghost use Rattle.interpolator_syntax.specs.Splits.{nodes_alone, join_literals, split_again};
ghost use Rattle.interpolator_syntax.specs.Splits.{NoTwoLiterals, Contiguous};
ghost use Rattle.interpolator_syntax.specs.declared.piece_kind.PieceKind.TheVariants.{Literal};
ghost use Rattle.interpolator_syntax.specs.declared.piece_kind.PieceKind.TheVariants.{Doubled};
ghost use Rattle.interpolator_syntax.specs.declared.piece_kind.PieceKind.TheVariants.{Closed};

use interpolator::Template;
use interpolator_eval::{Context, Environment, Sink, Unescaped, write_uncounted};
use interpolator_pieces::{Piece, Stored};
use interpolator_render::{TextWrite, Value};
use interpolator_syntax::{Error, PieceKind};
use std::alloc::{AllocError, Global};

/// The nodes of a text are its pieces, but neighbouring literals are one node. If these are split
/// into characters again, the nodes are the pieces: each has its place and its kind; an argument
/// has its name, its spec, what it asks for and its end, and a broken one its fault. Under an
/// argument are the trees of the texts of its groups, so that all this holds at every depth.
///
/// So the four pieces of `ab{{{x}` are three nodes: the literals `ab`, a doubled brace and an
/// argument; and `{l:i(c{d})}` is one node, under which are the literal `c` and an argument.
pub fn nodes_are_the_pieces()
    ensures merged { (a : At) → nodes a ≡ join_literals (nodes_alone a) }
    ensures split { (a : At) → split_again (nodes a) ≡ nodes_alone a }
    ensures value { nodes (outermost (codes "ab{{{x}"))
        ≡ text_node 0 2 Literal (codes "ab") ∷ text_node 2 4 Doubled (codes "{")
        ∷ node 4 7 Closed (Some (argument_content 5 (codes "x") plain_spec (target_value traits.Display) 6))
        no_branch no_branch ∷ [] }
    ensures depth { nodes (outermost (codes "{l:i(c{d})}"))
        ≡ node 0 11 Closed (Some (argument_content 1 (codes "l") plain_spec (target_list None) 10))
        (branch (as_forest (text_node 5 6 Literal (codes "c")
        ∷ node 6 9 Closed (Some (argument_content 7 (codes "d") plain_spec (target_value traits.Display) 8))
        no_branch no_branch ∷ []))) no_branch ∷ [] }
{}

/// No two neighbours in the tree of a text are both literals.
///
/// So `ab}c` has three nodes: the literals `ab`, a lone brace and the literal `c`.
pub fn no_two_literals_are_neighbours()
    ensures { (a : At) → NoTwoLiterals (nodes a) }
{}

/// The first node of a text begins where the text begins, each of the others where the one before
/// it ends, and the last ends where the text ends; each has at least one byte. The nodes of a group
/// do so in the text of the group. Only a closed or an unclosed argument has groups, and the text
/// of each lies between the first byte of the argument and its last. This holds at every depth.
///
/// So in `ab{l:i(c{d})}` the nodes are from byte 0 to 2 and from there to 13, and those of the item
/// format from 7 to 8 and from there to 11.
pub fn nodes_stand_one_after_the_other()
    ensures places { (a : At)
        → Contiguous a.place (as_forest (nodes a)) (a.place + size a.text) }
    ensures groups { (g : Group)
        → (group_branch nodes (Some g) ≡ branch (as_forest (nodes (inside g))))
        × Contiguous g.place (as_forest (nodes (inside g))) (g.place + size g.text) }
{}

/// Writing may begin at any piece: if pieces fit their text, so do the last of them. Together they
/// mean what the first ones mean, followed by what the rest means, at its places.
///
/// So the pieces of `a{x}b` from the second on mean what the text `{x}b` means at byte 1.
pub fn rest_of_the_pieces_follows<V: Value>()
    ensures fits { (xs ys : List Node) → forest_whole (as_forest (xs ++ ys)) ≡ true
        → forest_whole (as_forest ys) ≡ true }
    ensures means { (e : environments.Environment V) (xs ys : List Node)
        → forest_means V.shows e (as_forest (xs ++ ys))
        ≡ chain (forest_means V.shows e (as_forest xs)) (forest_means V.shows e (as_forest ys)) }
    ensures value { (e : environments.Environment V)
        → forest_means V.shows e (as_forest (drop 1 (nodes (outermost (codes "a{x}b")))))
        ≡ means V.shows e (record { place = 1; text = codes "{x}b" }) }
{}

/// The pieces after the first `skipped`; none if there are fewer.
fn pieces_after(pieces: &[Piece], skipped: usize) -> &[Piece]
    ensures { result.now ≡ drop skipped pieces.now }
{
    if skipped < pieces.len() {
        &pieces[skipped..]
    } else {
        &[]
    }
}

/// Writes what the pieces of a template after the first `skipped` mean, in order, up to the first
/// fault; nothing if there are no more than `skipped`. Places are those in the format.
///
/// # Errors
///
/// Those of [`Template::write`], for these pieces alone.
///
/// # Example
///
/// ```text
/// let template = Template::parse(alloc, "a{x}b")?;
/// rest_of_the_pieces_is_written(alloc, &mut out, &template, 1, &context)?;
/// // with 1 under `x`: 1b
/// ```
#[tactic(auto, using(interpolator_eval::proofs::MeaningLemmas::SinkLemmas::writer_stays))]
pub fn rest_of_the_pieces_is_written<W: TextWrite, C: Context>(
    alloc: Global,
    out: &mut W,
    template: &Template,
    skipped: usize,
    context: &C,
) -> Result<(), Error>
    ensures outcome { Outcome
        (forest_means C.Object.shows (environment (C.finds context.now))
        (as_forest (drop skipped (nodes (outermost (chars template.now))))))
        (W.written out.old) (W.written out.new) (result_answer result) }
{
    let rest = pieces_after(template.pieces(), skipped);
    let mut sink = Sink::Writer(out);
    let environment = Environment::outermost(alloc, context);
    let source = Stored {
        text: template.text(),
        pieces: rest,
    };
    let answer = write_uncounted::<W, C, Unescaped, Stored<'_>>(&mut sink, &environment, source);
    sink.into_writer();
    answer
}

/// Two kinds of pieces are equal exactly when they are the same variant.
pub fn equal_piece_kinds(left: PieceKind, right: PieceKind) -> bool
    ensures { IsTrue result ↔ (left ≡ right) }
{
    left == right
}

/// The clone of a kind of pieces is the same variant.
pub fn clone_of_piece_kind(original: &PieceKind) -> Result<PieceKind, AllocError>
    ensures { result ≡ Ok original.now }
{
    original.clone()
}
