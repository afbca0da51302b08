//! Laws of what a text and a list mean, each the contract of a small function.

ghost use Rattle.std.specs.Prelude.{◌≡◌, ℕ, List, [], ◌∷◌, None, Some, false, if◌then◌else◌, ◌++◌};
ghost use Rattle.std.specs.Prelude.{codes, length, max, replicate, unwrap_or};
ghost use Rattle.interpolator_render.specs.Padding.{fill_of, padded_text};
ghost use Rattle.interpolator_syntax.specs.Places.{At, outermost, placed_at, text_of};
ghost use Rattle.interpolator_syntax.specs.Faults.{Fault, expected, iter, parse};
ghost use Rattle.interpolator_syntax.specs.Groups.{Group, inside};
ghost use Rattle.interpolator_syntax.specs.Pieces.{Piece, closed, pieces, unclosed};
ghost use Rattle.interpolator_syntax.specs.{Arguments.Argument, Lists.ListRequest};
ghost use Rattle.interpolator_syntax.specs.{Grammar.from_place, Moved.moved_at};
ghost use Rattle.interpolator_eval.specs.Meaning.Environments.{Environment, bind};
ghost use Rattle.interpolator_eval.specs.Meaning.ListArguments.{FindsList, argument_meaning};
ghost use Rattle.interpolator_eval.specs.Meaning.ListArguments.{items_alone, join_of, item_of};
ghost use Rattle.interpolator_eval.specs.Meaning.ListArguments.{AllFinish, joined_texts};
ghost use Rattle.interpolator_eval.specs.Meaning.ListArguments.{FirstFault};
ghost use Rattle.interpolator_eval.specs.Meaning.Meanings.{fault_alone, forbids_list, chain};
ghost use Rattle.interpolator_eval.specs.Meaning.Meanings.{item_means, join_means, means};
ghost use Rattle.interpolator_eval.specs.Meaning.Meanings.{pieces_mean};
ghost use Rattle.interpolator_eval.specs.{Slots.Slots, Meaning.Choices.chosen_items};
ghost use Rattle.interpolator_eval.specs.Meaning.Moves.{moved_meaning};

use interpolator_render::Value;

/// A text means what its pieces mean, one after the other, up to the first fault: a literal or a
/// brace means the character that is written; an argument, what is written for the value or the
/// list under its name; and a broken argument, its fault. After an unclosed argument, which is the
/// last piece, a `}` is expected. The text of a group means what it means as a text of its own, at
/// its place.
///
/// So what the laws of lists say about an argument is also true of a text that contains it:
/// `a{l:i({})}b` writes `a`, then what the list writes and, if that has no fault, `b`.
pub fn text_means_what_its_pieces_mean<V: Value>()
    ensures pieces { (e : Environment V) (a : At)
        → means V.shows e a ≡ pieces_mean V.shows e (pieces a) }
    ensures closed { (e : Environment V) (a : At) (before after : List Piece) (piece : Piece)
        (start q : ℕ) (x : Argument) → pieces a ≡ before ++ (piece ∷ after)
        → piece.kind ≡ closed start x q
        → means V.shows e a ≡ chain (pieces_mean V.shows e before)
        (chain (argument_meaning V.shows e start x q) (pieces_mean V.shows e after)) }
    ensures unclosed { (e : Environment V) (a : At) (before : List Piece) (piece : Piece)
        (start q : ℕ) (x : Argument) → pieces a ≡ before ++ (piece ∷ [])
        → piece.kind ≡ unclosed start x q
        → means V.shows e a ≡ chain (pieces_mean V.shows e before)
        (chain (argument_meaning V.shows e start x q) (fault_alone (parse (expected (codes "}") q)))) }
    ensures item { (e : Environment V) (q : ℕ) (g : Group) (item : Slots V)
        → item_means V.shows e q (Some g) item ≡ means V.shows (bind e item) (inside g) }
    ensures join { (e : Environment V) (g : Group)
        → join_means V.shows e (Some g) ≡ means V.shows e (inside g) }
{}

/// What a text means does not depend on where it is. At a base that is `by` bytes further on, it
/// means the same characters and the same fault, with every place moved by `by` bytes, and memory
/// is needed at the same points. So a text at a place means what it means by itself, moved by the
/// place.
///
/// So in `{q}`, with nothing under `q`, the value is missing at byte 1, and in `ab{q}` at byte 3.
pub fn meaning_moves_with_the_text<V: Value>()
    ensures moves { (by : ℕ) (e : Environment V) (a : At)
        → means V.shows e (moved_at by a) ≡ moved_meaning by (means V.shows e a) }
    ensures from { (e : Environment V) (p : ℕ) (text : List ℕ)
        → means V.shows e (from_place p text)
        ≡ moved_meaning p (means V.shows e (outermost text)) }
{}

/// Before it is padded, a list means its chosen items in order, with the join between two of them,
/// up to the first fault. If no item has a fault, nor the join if there are two items, all of them
/// are written; else what comes before the first fault is written, and that fault is the list's.
///
/// So `{l:i({})(, )}` with the items 1, 2 and 3 writes `1, 2, 3`, and if the second item cannot be
/// displayed, `1, `.
pub fn list_is_its_items_and_joins<V: Value>()
    ensures text { (e : Environment V) (q : ℕ) (l : ListRequest) (ts : List (Slots V))
        → (items_alone V.shows e l q ts).fault ≡ None
        → (items_alone V.shows e l q ts).text
        ≡ joined_texts (join_of V.shows e l) (item_of V.shows e l q) (chosen_items l.range ts) }
    ensures all { (e : Environment V) (q : ℕ) (l : ListRequest) (ts : List (Slots V))
        → (items_alone V.shows e l q ts).fault ≡ None
        → AllFinish (join_of V.shows e l) (item_of V.shows e l q) (chosen_items l.range ts) }
    ensures join { (e : Environment V) (q : ℕ) (l : ListRequest) (ts : List (Slots V))
        (x y : Slots V) (more : List (Slots V)) → chosen_items l.range ts ≡ x ∷ y ∷ more
        → (items_alone V.shows e l q ts).fault ≡ None → (join_of V.shows e l).fault ≡ None }
    ensures first { (e : Environment V) (q : ℕ) (l : ListRequest) (ts : List (Slots V)) (f : Fault)
        → (items_alone V.shows e l q ts).fault ≡ Some f
        → FirstFault (join_of V.shows e l) (item_of V.shows e l q) (chosen_items l.range ts) f
        (items_alone V.shows e l q ts).text }
{}

/// A list argument that chooses no item writes as many copies of its fill, or spaces, as its width
/// says, and nothing without a width. Its groups are not read, so a fault in them is not found: the
/// only fault that it can have is that of a spec that no list may have.
///
/// So `{l:i2..({q})}` with a list of two items writes nothing, whatever `q` is, `{l:4i2..}` writes
/// four spaces, and `{l:*>4i2..}` writes `****`.
pub fn list_of_no_item_is_its_padding<V: Value>()
    ensures text { (e : Environment V) (start q : ℕ) (x : Argument) (l : ListRequest)
        (ts : List (Slots V)) → FindsList e x l ts → chosen_items l.range ts ≡ []
        → (argument_meaning V.shows e start x q).fault ≡ None
        → (argument_meaning V.shows e start x q).text
        ≡ placed_at q (replicate (unwrap_or x.spec.width 0) (fill_of x.spec)) }
    ensures fault { (e : Environment V) (start q : ℕ) (x : Argument) (l : ListRequest)
        (ts : List (Slots V)) → FindsList e x l ts → chosen_items l.range ts ≡ []
        → (argument_meaning V.shows e start x q).fault
        ≡ (if forbids_list x.spec then Some (parse (iter q)) else None) }
{}

/// A list argument that has a width and no fault writes the characters of its chosen items and of
/// the joins between them, with copies of its fill, or spaces, before and after them: as many
/// characters in all as the width says, or more if the items and joins have more. Each character is
/// at the byte after the argument's spec.
///
/// So `{l:>4i}` with the items 1 and 2 writes `  12`, and `{l:2i(item)}` writes `itemitem`.
pub fn padded_list_fills_its_width<V: Value>()
    ensures count { (e : Environment V) (start q width : ℕ) (x : Argument) (l : ListRequest)
        (ts : List (Slots V)) → FindsList e x l ts → x.spec.width ≡ Some width
        → (argument_meaning V.shows e start x q).fault ≡ None
        → length (argument_meaning V.shows e start x q).text
        ≡ max width (length (items_alone V.shows e l q ts).text) }
    ensures text { (e : Environment V) (start q width : ℕ) (x : Argument) (l : ListRequest)
        (ts : List (Slots V)) → FindsList e x l ts → x.spec.width ≡ Some width
        → (argument_meaning V.shows e start x q).fault ≡ None
        → (argument_meaning V.shows e start x q).text
        ≡ placed_at q (padded_text x.spec (text_of (items_alone V.shows e l q ts).text)) }
{}

/// If a chosen item or a join has a fault, that is the fault of the list. A list with a width then
/// writes nothing, and one without a width writes what comes before the fault.
///
/// So `{l:i(a{q})}`, with nothing under `q`, writes `a` for the first item and ends there, and
/// `{l:4i(a{q})}` writes nothing.
pub fn fault_ends_a_list<V: Value>()
    ensures padded { (e : Environment V) (start q width : ℕ) (x : Argument) (l : ListRequest)
        (ts : List (Slots V)) (f : Fault) → FindsList e x l ts → forbids_list x.spec ≡ false
        → x.spec.width ≡ Some width → (items_alone V.shows e l q ts).fault ≡ Some f
        → ((argument_meaning V.shows e start x q).text ≡ [])
        × ((argument_meaning V.shows e start x q).fault ≡ Some f) }
    ensures unpadded { (e : Environment V) (start q : ℕ) (x : Argument) (l : ListRequest)
        (ts : List (Slots V)) → FindsList e x l ts → forbids_list x.spec ≡ false
        → x.spec.width ≡ None → argument_meaning V.shows e start x q ≡ items_alone V.shows e l q ts }
{}
