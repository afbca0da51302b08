//! Items of a list that are displayed plainly, with a text before each and one after it.
ghost use Rattle.std.specs.Prelude.{◌≡◌, ◌+◌, ◌≤◌, IfOk, None, option_map};
ghost use Rattle.interpolator_render.specs.Bounds.{bounded_writer};
ghost use Rattle.interpolator_syntax.specs.{Faults.result_answer, Groups.group_of};
ghost use Rattle.interpolator_eval.specs.Meaning.Meanings.{chain, plain_item_means};
ghost use Rattle.interpolator_eval.specs.Meaning.Sinks.{Writes, write_answered};
ghost use Rattle.interpolator_eval.specs.Meaning.Sources.{framed_means, framed_pieces, run_means};
ghost use Rattle.interpolator_eval.specs.Meaning.Sources.{run_pieces};
ghost use Rattle.interpolator_eval.specs.{Escaping.shows_by, Meaning.Outcomes.Outcome};
ghost use Rattle.interpolator_eval.specs.Slots.{slots_of};

use crate::escaper::Escaper;
use crate::evaluate::sink::{Sink, WriteFault, write_plain, write_run};
use crate::evaluate::value::write_plain_item;
use crate::piece_count::PieceCount;
use crate::slots::Formattable;
use interpolator_render::{Bounded, TextWrite, Trait, Value};
use interpolator_syntax::{Error, Group};
use std::sync::ledger::Ledger;

/// An item's format that displays the item plainly.
#[derive(Clone, Copy)]
pub struct PlainItem<'t> {
    /// The text before the item, if there is one.
    pub before: Option<Group<'t>>,
    /// The place of the item's text.
    pub place: usize,
    /// The text after the item, if there is one.
    pub after: Option<Group<'t>>,
}

impl<'t> PlainItem<'t> {
    /// The format of an item that has its text at a place, and nothing beside it.
    #[inline(always)]
    pub fn alone(place: usize) -> Self
        ensures place { result.place ≡ place }
        ensures before { result.before ≡ None }
        ensures after { result.after ≡ None }
    {
        PlainItem {
            before: None,
            place,
            after: None,
        }
    }
}

/// Writes an item displayed plainly, with the texts before and after it, if there are any.
#[inline(always)]
pub fn write_by_plain_format<'a, W: TextWrite, V: Value, E: Escaper, L: Ledger>(
    sink: &mut Sink<'_, W>,
    item: &'a Formattable<'a, V>,
    plain: PlainItem<'_>,
    count: &mut PieceCount<L>,
) -> Result<(), Error>
    ensures writes { Writes W.written
        (framed_means (option_map group_of plain.entry.before)
        (option_map group_of plain.entry.after)
        (plain_item_means (shows_by E.shown V.shows) plain.entry.place (slots_of item.now)))
        sink.old sink.new (result_answer result) }
    ensures visited { count.new ≤ count.old + framed_pieces (option_map group_of plain.entry.before)
        (option_map group_of plain.entry.after)
        (plain_item_means (shows_by E.shown V.shows) plain.entry.place (slots_of item.now)).fault }
    ensures exact { IfOk result (λ _. count.new ≡ count.old
        + framed_pieces (option_map group_of plain.entry.before)
        (option_map group_of plain.entry.after)
        (plain_item_means (shows_by E.shown V.shows) plain.entry.place (slots_of item.now)).fault) }
{
    match (plain.before, plain.after) {
        (None, None) => {
            count.tick();
            write_plain_item::<W, V, E>(sink, item, plain.place)
        }
        _ => write_framed::<W, V, E, L>(sink, item, plain, count),
    }
}

/// Does what [`write_by_plain_format`] does, by a call: a loop over items in which this were
/// inlined would not be inlined itself.
#[inline(never)]
fn write_framed<'a, W: TextWrite, V: Value, E: Escaper, L: Ledger>(
    sink: &mut Sink<'_, W>,
    item: &'a Formattable<'a, V>,
    plain: PlainItem<'_>,
    count: &mut PieceCount<L>,
) -> Result<(), Error>
    ensures writes { Writes W.written
        (framed_means (option_map group_of plain.entry.before)
        (option_map group_of plain.entry.after)
        (plain_item_means (shows_by E.shown V.shows) plain.entry.place (slots_of item.now)))
        sink.old sink.new (result_answer result) }
    ensures visited { count.new ≤ count.old + framed_pieces (option_map group_of plain.entry.before)
        (option_map group_of plain.entry.after)
        (plain_item_means (shows_by E.shown V.shows) plain.entry.place (slots_of item.now)).fault }
    ensures exact { IfOk result (λ _. count.new ≡ count.old
        + framed_pieces (option_map group_of plain.entry.before)
        (option_map group_of plain.entry.after)
        (plain_item_means (shows_by E.shown V.shows) plain.entry.place (slots_of item.now)).fault) }
{
    match sink {
        Sink::Writer(out) => write_framed_to::<W, V, E, L>(&mut **out, item, plain, count)?,
        Sink::Buffer(buffer) => {
            write_framed_apart::<V, E, L>(&mut **buffer, item, plain, count)?;
        }
    }
    Ok(())
}

/// As [`write_framed_to`], by a call. A buffer is for lists under a width alone, and the code for
/// it would make that of each other list longer.
#[inline(never)]
fn write_framed_apart<'a, V: Value, E: Escaper, L: Ledger>(
    buffer: &mut Bounded,
    item: &'a Formattable<'a, V>,
    plain: PlainItem<'_>,
    count: &mut PieceCount<L>,
) -> Result<(), WriteFault>
    ensures outcome { Outcome
        (framed_means (option_map group_of plain.entry.before)
        (option_map group_of plain.entry.after)
        (plain_item_means (shows_by E.shown V.shows) plain.entry.place (slots_of item.now)))
        (bounded_writer buffer.old) (bounded_writer buffer.new) (write_answered result) }
    ensures visited { count.new ≤ count.old + framed_pieces (option_map group_of plain.entry.before)
        (option_map group_of plain.entry.after)
        (plain_item_means (shows_by E.shown V.shows) plain.entry.place (slots_of item.now)).fault }
    ensures exact { IfOk result (λ _. count.new ≡ count.old
        + framed_pieces (option_map group_of plain.entry.before)
        (option_map group_of plain.entry.after)
        (plain_item_means (shows_by E.shown V.shows) plain.entry.place (slots_of item.now)).fault) }
{
    write_framed_to::<Bounded, V, E, L>(buffer, item, plain, count)
}

/// Writes an item displayed plainly, with the texts before and after it, to a writer.
#[inline(always)]
fn write_framed_to<'a, W: TextWrite, V: Value, E: Escaper, L: Ledger>(
    out: &mut W,
    item: &'a Formattable<'a, V>,
    plain: PlainItem<'_>,
    count: &mut PieceCount<L>,
) -> Result<(), WriteFault>
    ensures outcome { Outcome
        (framed_means (option_map group_of plain.entry.before)
        (option_map group_of plain.entry.after)
        (plain_item_means (shows_by E.shown V.shows) plain.entry.place (slots_of item.now)))
        (W.written out.old) (W.written out.new) (write_answered result) }
    ensures visited { count.new ≤ count.old + framed_pieces (option_map group_of plain.entry.before)
        (option_map group_of plain.entry.after)
        (plain_item_means (shows_by E.shown V.shows) plain.entry.place (slots_of item.now)).fault }
    ensures exact { IfOk result (λ _. count.new ≡ count.old
        + framed_pieces (option_map group_of plain.entry.before)
        (option_map group_of plain.entry.after)
        (plain_item_means (shows_by E.shown V.shows) plain.entry.place (slots_of item.now)).fault) }
{
    write_run_if(out, plain.before, count)?;
    write_then_run::<W, V, E, L>(out, item, plain.place, plain.after, count)
}

/// Writes an item displayed plainly, with its text at a place, and the text after it.
#[inline(always)]
fn write_then_run<'a, W: TextWrite, V: Value, E: Escaper, L: Ledger>(
    out: &mut W,
    item: &'a Formattable<'a, V>,
    place: usize,
    after: Option<Group<'_>>,
    count: &mut PieceCount<L>,
) -> Result<(), WriteFault>
    ensures outcome { Outcome
        (chain (plain_item_means (shows_by E.shown V.shows) place (slots_of item.now))
        (run_means (option_map group_of after.entry)))
        (W.written out.old) (W.written out.new) (write_answered result) }
    ensures visited { count.new ≤ count.old + framed_pieces None (option_map group_of after.entry)
        (plain_item_means (shows_by E.shown V.shows) place (slots_of item.now)).fault }
    ensures exact { IfOk result (λ _. count.new ≡ count.old
        + framed_pieces None (option_map group_of after.entry)
        (plain_item_means (shows_by E.shown V.shows) place (slots_of item.now)).fault) }
{
    count.tick();
    write_plain::<W, V, E>(out, item.slot(Trait::Display), place)?;
    write_run_if(out, after, count)
}

/// Writes a text of the format, if there is one.
#[inline(always)]
fn write_run_if<W: TextWrite, L: Ledger>(
    out: &mut W,
    text: Option<Group<'_>>,
    count: &mut PieceCount<L>,
) -> Result<(), WriteFault>
    ensures outcome { Outcome (run_means (option_map group_of text.entry))
        (W.written out.old) (W.written out.new) (write_answered result) }
    ensures visited { count.new ≡ count.old + run_pieces (option_map group_of text.entry) }
{
    match text {
        Some(run) => {
            count.tick();
            write_run(out, run.text, run.place)
        }
        None => Ok(()),
    }
}
