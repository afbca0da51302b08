//! Sources of a format: a text, or pieces that were read before.
ghost use Rattle.std.specs.Prelude.{◌≡◌, ◌+◌, ◌≤◌, Option, IfOk, IfSome, MatchBool, MatchResult};
ghost use Rattle.std.specs.Prelude.{false, is_some, map, option_map, true};
ghost use Rattle.interpolator_syntax.specs.Nodes.{Forest, no_nodes};
ghost use Rattle.interpolator_syntax.specs.{Faults.result_answer, Groups.group_of};
ghost use Rattle.interpolator_eval.specs.Meaning.Lists.{IsChosen, IsNotChosen, ChosenUnder};
ghost use Rattle.interpolator_eval.specs.Meaning.Meanings.{forbids_list, forest_means};
ghost use Rattle.interpolator_eval.specs.Meaning.Sources.{ListArgument, Met, before_list};
ghost use Rattle.interpolator_eval.specs.Meaning.Sources.{from_list, IsPlainItem, IsText};
ghost use Rattle.interpolator_eval.specs.Meaning.Sources.{branch_of, first_holds, met_pieces};
ghost use Rattle.interpolator_eval.specs.{Escaping.shows_by, Slots.slots_of};
ghost use Rattle.interpolator_eval.specs.Meaning.CodeEnvironments.{environment_of};
ghost use Rattle.interpolator_eval.specs.{Meaning.Sinks.Writes, Meaning.Work.forest_work};

use crate::context::Context;
use crate::escaper::Escaper;
use crate::evaluate::environment::Environment;
use crate::evaluate::plain_item::PlainItem;
use crate::evaluate::sink::Sink;
use crate::piece_count::PieceCount;
use crate::slots::Formattable;
use interpolator_render::{Spec, TextWrite};
use interpolator_syntax::{Error, Group};
use std::sync::ledger::Ledger;

/// What is left of a format, wherever it comes from: a text that is still to be read, or pieces
/// that were read before.
///
/// A source itself writes text and values, up to the first list. Lists are written by
/// [`write_source`](crate::write_source), which is the same for every source:
///
/// ```text
/// while here.write_to_list::<W, C, E, L>(sink, environment, &mut list, count)? {
///     ..                      // the items, by S::item(&list) and S::join(&list)
///     here = S::rest(&list)   // after the closing brace
/// }
/// ```
pub trait FormatSource: Copy {
    /// An argument that is a list.
    type List: Copy;

    /// The pieces that are left.
    ghost tree: { Self → Forest };

    /// A list was met.
    ghost is_met: { Self.List → Type 0 };

    /// The list argument that was met.
    ghost asks: { Self.List → ListArgument };

    /// The pieces after its argument, if that is closed.
    ghost follows: { Self.List → Option Forest };

    /// Returns whether nothing is left.
    fn is_empty(&self) -> bool
        ensures { MatchBool result (tree self.now ≡ no_nodes) (first_holds (tree self.now)
            ≡ true) };

    /// Returns a list argument that [`write_to_list`](FormatSource::write_to_list) may overwrite.
    fn scratch_list(&self) -> Self::List;

    /// Writes everything up to the first list, and returns whether there is one. Counts the pieces
    /// that it reaches, the list as one.
    fn write_to_list<'a, W: TextWrite, C: Context, E: Escaper, L: Ledger>(
        &self,
        sink: &mut Sink<'_, W>,
        environment: &Environment<'a, C, C::Object>,
        list: &mut Self::List,
        count: &mut PieceCount<L>,
    ) -> Result<bool, Error>
        ensures writes { Writes W.written
            (forest_means (shows_by E.shown C.Object.shows) (environment_of C.finds environment.now)
            (before_list (tree self.now)))
            sink.old sink.new (result_answer result) }
        ensures met { IfOk result (λ met. Met met (is_met list.new) (asks list.new)
            (follows list.new)
            (from_list (tree self.now))) }
        ensures visited { count.new ≤ count.old + ((forest_work (shows_by E.shown C.Object.shows)
            (environment_of C.finds environment.now) (before_list (tree self.now))).pieces
            + met_pieces result) }
        ensures exact { IfOk result (λ _. count.new ≡ count.old + ((forest_work
            (shows_by E.shown C.Object.shows)
            (environment_of C.finds environment.now) (before_list (tree self.now))).pieces
            + met_pieces result)) };

    /// Returns the chosen items of a list that was met.
    fn items<'a, C: Context>(
        list: &Self::List,
        environment: &Environment<'a, C, C::Object>,
    ) -> Result<&'a [Formattable<'a, C::Object>], Error>
        requires met { is_met list.now }
        ensures chosen { let x = asks list.now in MatchResult result
            (λ items. IsChosen (environment_of C.finds environment.now) x.name x.start x.range
            x.spec
            x.end (map slots_of items.now))
            (λ error. IsNotChosen (environment_of C.finds environment.now) x.name x.start x.range
            x.spec x.end error) }
        ensures under { let x = asks list.now in IfOk result
            (λ items. ChosenUnder (environment_of C.finds environment.now) x.name x.range
            (map slots_of items.now)) }
        ensures allowed { IfOk result (λ _. forbids_list (asks list.now).spec ≡ false) };

    /// Returns whether its text is padded to a width.
    fn has_width(list: &Self::List) -> bool
        requires met { is_met list.now }
        ensures { result ≡ is_some (asks list.now).spec.width };

    /// Returns the spec of its argument.
    fn spec(list: &Self::List) -> Spec
        requires met { is_met list.now }
        ensures { result ≡ (asks list.now).spec };

    /// Returns the place of the byte after its spec.
    fn end(list: &Self::List) -> usize
        requires met { is_met list.now }
        ensures { result ≡ (asks list.now).end };

    /// Returns the format of an item, in which the empty name is the item. Without one, each item
    /// is displayed plainly.
    fn item(list: &Self::List) -> Option<Self>
        requires met { is_met list.now }
        ensures { branch_of tree result ≡ (asks list.now).item };

    /// Returns the format of what comes between two items. Without one, nothing does.
    fn join(list: &Self::List) -> Option<Self>
        requires met { is_met list.now }
        ensures { branch_of tree result ≡ (asks list.now).join };

    /// Returns the format of an item, if each item is displayed plainly: if there is no item
    /// format, or that is `{}`, with or without a text before it and one after it. A source may
    /// return `None` all the same.
    fn plain_item<'l>(list: &'l Self::List) -> Option<PlainItem<'l>>
        requires met { is_met list.now }
        ensures { IfSome result (λ p. IsPlainItem p (asks list.now)) };

    /// Returns the text of its join, if that is text without a brace. A source may return `None`
    /// all the same.
    fn text_join(list: &Self::List) -> Option<Group<'_>>
        requires met { is_met list.now }
        ensures { IfSome result (λ g. IsText (group_of g) (asks list.now).join) };

    /// Returns what follows the closing brace, if there is one.
    fn rest(list: &Self::List) -> Option<Self>
        requires met { is_met list.now }
        ensures { option_map tree result ≡ follows list.now };
}
