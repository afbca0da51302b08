//! Writes the items of a list and what comes between them. Callers come before what they call.
ghost use Rattle.std.specs.Prelude.{◌≡◌, ◌+◌, ◌-◌, ◌<◌, ◌≤◌, ◌⊎◌, IfOk, IfSome, None, Some, map};
ghost use Rattle.std.specs.Prelude.{true};
ghost use Rattle.interpolator_syntax.specs.{Faults.result_answer, Groups.group_of, Nodes.no_nodes};
ghost use Rattle.interpolator_eval.specs.Meaning.Sources.{IsPlainItem, IsText, empty_counts};
ghost use Rattle.interpolator_eval.specs.Meaning.Sources.{first_holds, list_item, list_item_work};
ghost use Rattle.interpolator_eval.specs.Meaning.Sources.{list_items, list_items_work, list_join};
ghost use Rattle.interpolator_eval.specs.Meaning.Sources.{list_join_work};
ghost use Rattle.interpolator_eval.specs.Meaning.{CodeEnvironments.environment_of, Sinks.Writes};
ghost use Rattle.interpolator_eval.specs.{Escaping.shows_by, Slots.slots_of};

use crate::context::Context;
use crate::escaper::Escaper;
use crate::evaluate::environment::Environment;
use crate::evaluate::evaluator::write_source;
use crate::evaluate::plain_item::{PlainItem, write_by_plain_format};
use crate::evaluate::sink::Sink;
use crate::evaluate::source::FormatSource;
use crate::evaluate::value::write_plain_item;
use crate::piece_count::PieceCount;
use crate::slots::Formattable;
use interpolator_render::TextWrite;
use interpolator_syntax::{Error, Group};
use std::sync::ledger::Ledger;

/// Writes items of a list, with the join between two of them.
#[cycle(evaluate)]
pub(super) fn write_items<'a, W: TextWrite, C: Context, E: Escaper, S: FormatSource, L: Ledger>(
    sink: &mut Sink<'_, W>,
    environment: &Environment<'a, C, C::Object>,
    list: &S::List,
    items: &'a [Formattable<'a, C::Object>],
    count: &mut PieceCount<L>,
) -> Result<(), Error>
    requires met { S.is_met list.now }
    ensures writes { Writes W.written
        (list_items (shows_by E.shown C.Object.shows) (environment_of C.finds environment.now)
        (S.asks list.now)
        (map slots_of items.now))
        sink.old sink.new (result_answer result) }
    ensures visited { count.new ≤ count.old + (list_items_work (shows_by E.shown C.Object.shows)
        (environment_of C.finds environment.now) (S.asks list.now)
        (map slots_of items.now)).pieces }
    ensures exact { IfOk result (λ _. count.new ≡ count.old + (list_items_work
        (shows_by E.shown C.Object.shows)
        (environment_of C.finds environment.now) (S.asks list.now)
        (map slots_of items.now)).pieces) }
{
    write_each::<W, C, E, S, L>(sink, environment, list, items, None, None, count)
}

/// Writes several items of a list: if each is displayed plainly, by a loop of their own. It is
/// called, so that a list of one item makes no room for what is read here.
#[cycle(evaluate)]
#[inline(never)]
pub(super) fn write_several<'a, W: TextWrite, C: Context, E: Escaper, S: FormatSource, L: Ledger>(
    sink: &mut Sink<'_, W>,
    environment: &Environment<'a, C, C::Object>,
    list: &S::List,
    items: &'a [Formattable<'a, C::Object>],
    count: &mut PieceCount<L>,
) -> Result<(), Error>
    requires met { S.is_met list.now }
    ensures writes { Writes W.written
        (list_items (shows_by E.shown C.Object.shows) (environment_of C.finds environment.now)
        (S.asks list.now)
        (map slots_of items.now))
        sink.old sink.new (result_answer result) }
    ensures visited { count.new ≤ count.old + (list_items_work (shows_by E.shown C.Object.shows)
        (environment_of C.finds environment.now) (S.asks list.now)
        (map slots_of items.now)).pieces }
    ensures exact { IfOk result (λ _. count.new ≡ count.old + (list_items_work
        (shows_by E.shown C.Object.shows)
        (environment_of C.finds environment.now) (S.asks list.now)
        (map slots_of items.now)).pieces) }
{
    match S::plain_item(list) {
        Some(plain) => {
            write_plain_items::<W, C, E, S, L>(sink, environment, list, items, plain, count)
        }
        None => write_items::<W, C, E, S, L>(sink, environment, list, items, count),
    }
}

/// Writes items of a list, each displayed plainly, with the join between two of them. Items without
/// texts beside them have a loop of their own.
#[cycle(evaluate)]
#[inline(always)]
fn write_plain_items<'a, W: TextWrite, C: Context, E: Escaper, S: FormatSource, L: Ledger>(
    sink: &mut Sink<'_, W>,
    environment: &Environment<'a, C, C::Object>,
    list: &S::List,
    items: &'a [Formattable<'a, C::Object>],
    plain: PlainItem<'_>,
    count: &mut PieceCount<L>,
) -> Result<(), Error>
    requires met { S.is_met list.now }
    requires plain { IsPlainItem plain (S.asks list.now) }
    ensures writes { Writes W.written
        (list_items (shows_by E.shown C.Object.shows) (environment_of C.finds environment.now)
        (S.asks list.now)
        (map slots_of items.now))
        sink.old sink.new (result_answer result) }
    ensures visited { count.new ≤ count.old + (list_items_work (shows_by E.shown C.Object.shows)
        (environment_of C.finds environment.now) (S.asks list.now)
        (map slots_of items.now)).pieces }
    ensures exact { IfOk result (λ _. count.new ≡ count.old + (list_items_work
        (shows_by E.shown C.Object.shows)
        (environment_of C.finds environment.now) (S.asks list.now)
        (map slots_of items.now)).pieces) }
{
    let text = S::text_join(list);
    match (plain.before, plain.after) {
        (None, None) => {
            let alone = Some(PlainItem::alone(plain.place));
            write_each::<W, C, E, S, L>(sink, environment, list, items, alone, text, count)
        }
        _ => write_each::<W, C, E, S, L>(sink, environment, list, items, Some(plain), text, count),
    }
}

/// Writes items of a list, each displayed plainly if `plain` is given, with the join between two of
/// them, which is `text`, if that is given. It is inlined, so that each call has a loop of its own.
#[cycle(evaluate)]
#[inline(always)]
fn write_each<'a, W: TextWrite, C: Context, E: Escaper, S: FormatSource, L: Ledger>(
    sink: &mut Sink<'_, W>,
    environment: &Environment<'a, C, C::Object>,
    list: &S::List,
    items: &'a [Formattable<'a, C::Object>],
    plain: Option<PlainItem<'_>>,
    text: Option<Group<'_>>,
    count: &mut PieceCount<L>,
) -> Result<(), Error>
    requires met { S.is_met list.now }
    requires plain { IfSome plain (λ p. IsPlainItem p (S.asks list.now)) }
    requires text { IfSome text (λ g. IsText (group_of g) (S.asks list.now).join) }
    ensures writes { Writes W.written
        (list_items (shows_by E.shown C.Object.shows) (environment_of C.finds environment.now)
        (S.asks list.now)
        (map slots_of items.now))
        sink.old sink.new (result_answer result) }
    ensures visited { count.new ≤ count.old + (list_items_work (shows_by E.shown C.Object.shows)
        (environment_of C.finds environment.now) (S.asks list.now)
        (map slots_of items.now)).pieces }
    ensures exact { IfOk result (λ _. count.new ≡ count.old + (list_items_work
        (shows_by E.shown C.Object.shows)
        (environment_of C.finds environment.now) (S.asks list.now)
        (map slots_of items.now)).pieces) }
{
    let Some((first, rest)) = items.split_first() else {
        return Ok(());
    };
    let mut scratch = *list;
    write_item::<W, C, E, S, L>(sink, environment, list, first, plain, &mut scratch, count)?;
    for item in rest {
        write_join::<W, C, E, S, L>(sink, environment, list, text, &mut scratch, count)?;
        write_item::<W, C, E, S, L>(sink, environment, list, item, plain, &mut scratch, count)?;
    }
    Ok(())
}

/// Writes one item of a list: displayed plainly, if `plain` is given.
#[cycle(evaluate)]
#[inline(always)]
fn write_item<'a, W: TextWrite, C: Context, E: Escaper, S: FormatSource, L: Ledger>(
    sink: &mut Sink<'_, W>,
    environment: &Environment<'a, C, C::Object>,
    list: &S::List,
    item: &'a Formattable<'a, C::Object>,
    plain: Option<PlainItem<'_>>,
    scratch: &mut S::List,
    count: &mut PieceCount<L>,
) -> Result<(), Error>
    requires met { S.is_met list.now }
    requires plain { IfSome plain (λ p. IsPlainItem p (S.asks list.now)) }
    ensures writes { Writes W.written
        (list_item (shows_by E.shown C.Object.shows) (environment_of C.finds environment.now)
        (S.asks list.now)
        (slots_of item.now))
        sink.old sink.new (result_answer result) }
    ensures visited { count.new ≤ count.old + (list_item_work (shows_by E.shown C.Object.shows)
        (environment_of C.finds environment.now) (S.asks list.now) (slots_of item.now)).pieces }
    ensures exact { IfOk result (λ _. count.new ≡ count.old + (list_item_work
        (shows_by E.shown C.Object.shows)
        (environment_of C.finds environment.now) (S.asks list.now) (slots_of item.now)).pieces) }
{
    match plain {
        Some(plain) => write_by_plain_format::<W, C::Object, E, L>(sink, item, plain, count),
        None => write_formatted::<W, C, E, S, L>(sink, environment, list, item, scratch, count),
    }
}

/// Writes one item of a list by its format. `scratch` is for lists in that.
#[cycle(evaluate)]
pub(super) fn write_formatted<'a, W: TextWrite, C: Context, E: Escaper, S: FormatSource, L: Ledger>(
    sink: &mut Sink<'_, W>,
    environment: &Environment<'a, C, C::Object>,
    list: &S::List,
    item: &'a Formattable<'a, C::Object>,
    scratch: &mut S::List,
    count: &mut PieceCount<L>,
) -> Result<(), Error>
    requires met { S.is_met list.now }
    ensures writes { Writes W.written
        (list_item (shows_by E.shown C.Object.shows) (environment_of C.finds environment.now)
        (S.asks list.now)
        (slots_of item.now))
        sink.old sink.new (result_answer result) }
    ensures visited { count.new ≤ count.old + (list_item_work (shows_by E.shown C.Object.shows)
        (environment_of C.finds environment.now) (S.asks list.now) (slots_of item.now)).pieces }
    ensures exact { IfOk result (λ _. count.new ≡ count.old + (list_item_work
        (shows_by E.shown C.Object.shows)
        (environment_of C.finds environment.now) (S.asks list.now) (slots_of item.now)).pieces) }
{
    match S::item(list) {
        Some(format) => {
            count_empty(format, count);
            write_source::<W, C, E, S, L>(sink, &environment.bind(item), format, scratch, count)
        }
        None => {
            count.tick();
            write_plain_item::<W, C::Object, E>(sink, item, S::end(list))
        }
    }
}

/// Counts an item whose format is empty as one piece.
#[inline(always)]
fn count_empty<S: FormatSource, L: Ledger>(format: S, count: &mut PieceCount<L>)
    ensures exact { count.new ≡ count.old + empty_counts (S.tree format) }
    ensures holds { (S.tree format ≡ no_nodes) ⊎ (first_holds (S.tree format) ≡ true) }
{
    if format.is_empty() {
        count.tick();
    }
}

/// Writes what comes between two items: `text`, if that is given.
#[cycle(evaluate)]
#[inline(always)]
fn write_join<'a, W: TextWrite, C: Context, E: Escaper, S: FormatSource, L: Ledger>(
    sink: &mut Sink<'_, W>,
    environment: &Environment<'a, C, C::Object>,
    list: &S::List,
    text: Option<Group<'_>>,
    scratch: &mut S::List,
    count: &mut PieceCount<L>,
) -> Result<(), Error>
    requires met { S.is_met list.now }
    requires text { IfSome text (λ g. IsText (group_of g) (S.asks list.now).join) }
    ensures writes { Writes W.written
        (list_join (shows_by E.shown C.Object.shows) (environment_of C.finds environment.now)
        (S.asks list.now))
        sink.old sink.new (result_answer result) }
    ensures visited { count.new ≤ count.old + (list_join_work (shows_by E.shown C.Object.shows)
        (environment_of C.finds environment.now) (S.asks list.now)).pieces }
    ensures exact { IfOk result (λ _. count.new ≡ count.old + (list_join_work
        (shows_by E.shown C.Object.shows)
        (environment_of C.finds environment.now) (S.asks list.now)).pieces) }
{
    match text {
        Some(run) => {
            count.tick();
            sink.put_run(run.text, run.place)?;
            Ok(())
        }
        None => write_formatted_join::<W, C, E, S, L>(sink, environment, list, scratch, count),
    }
}

/// Writes what comes between two items by its format. `scratch` is for lists in that.
#[cycle(evaluate)]
fn write_formatted_join<'a, W: TextWrite, C: Context, E: Escaper, S: FormatSource, L: Ledger>(
    sink: &mut Sink<'_, W>,
    environment: &Environment<'a, C, C::Object>,
    list: &S::List,
    scratch: &mut S::List,
    count: &mut PieceCount<L>,
) -> Result<(), Error>
    requires met { S.is_met list.now }
    ensures writes { Writes W.written
        (list_join (shows_by E.shown C.Object.shows) (environment_of C.finds environment.now)
        (S.asks list.now))
        sink.old sink.new (result_answer result) }
    ensures visited { count.new ≤ count.old + (list_join_work (shows_by E.shown C.Object.shows)
        (environment_of C.finds environment.now) (S.asks list.now)).pieces }
    ensures exact { IfOk result (λ _. count.new ≡ count.old + (list_join_work
        (shows_by E.shown C.Object.shows)
        (environment_of C.finds environment.now) (S.asks list.now)).pieces) }
{
    match S::join(list) {
        Some(format) => { write_source::<W, C, E, S, L>(sink, environment, format, scratch, count) }
        None => Ok(()),
    }
}
