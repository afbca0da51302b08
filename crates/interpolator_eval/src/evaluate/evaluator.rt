//! Writes what a format means, up to the first fault. Callers come before what they call.
ghost use Rattle.std.specs.Prelude.{◌≡◌, ◌+◌, ◌-◌, ◌<◌, ◌≤◌, IfOk, None, Some, map};
ghost use Rattle.interpolator_syntax.specs.Faults.{result_answer};
ghost use Rattle.interpolator_eval.specs.Meaning.Sources.{list_with_brace, list_items};
ghost use Rattle.interpolator_eval.specs.Meaning.Sources.{list_items_work, list_meaning, list_work};
ghost use Rattle.interpolator_eval.specs.Meaning.CodeEnvironments.{environment_of};
ghost use Rattle.interpolator_eval.specs.Meaning.{Lists.padded_list_means, Meanings.forest_means};
ghost use Rattle.interpolator_eval.specs.Meaning.{Sinks.Writes, Work.forest_work};
ghost use Rattle.interpolator_eval.specs.{Escaping.shows_by, Slots.slots_of};

use crate::context::Context;
use crate::escaper::Escaper;
use crate::evaluate::environment::Environment;
use crate::evaluate::items::{write_formatted, write_items, write_several};
use crate::evaluate::sink::Sink;
use crate::evaluate::source::FormatSource;
use crate::evaluate::value::list_buffer;
use crate::piece_count::PieceCount;
use crate::slots::Formattable;
use interpolator_render::TextWrite;
use interpolator_syntax::{Error, ParseError};
use std::sync::ledger::Ledger;

/// Writes what the pieces of a source mean, in order, and counts those that it goes through. Each
/// list that is met is stored in `scratch`, which is made once for all items of a list, since
/// making it zeroes it.
#[cycle(evaluate)]
pub fn write_source<'a, W: TextWrite, C: Context, E: Escaper, S: FormatSource, L: Ledger>(
    sink: &mut Sink<'_, W>,
    environment: &Environment<'a, C, C::Object>,
    source: S,
    scratch: &mut S::List,
    count: &mut PieceCount<L>,
) -> Result<(), Error>
    ensures writes { Writes W.written
        (forest_means (shows_by E.shown C.Object.shows) (environment_of C.finds environment.now)
        (S.tree source))
        sink.old sink.new (result_answer result) }
    ensures visited { count.new ≤ count.old + (forest_work (shows_by E.shown C.Object.shows)
        (environment_of C.finds environment.now) (S.tree source)).pieces }
    ensures exact { IfOk result (λ _. count.new ≡ count.old + (forest_work
        (shows_by E.shown C.Object.shows)
        (environment_of C.finds environment.now) (S.tree source)).pieces) }
{
    let mut here = source;
    while here.write_to_list::<W, C, E, L>(sink, environment, scratch, count)? {
        here = write_argument::<W, C, E, S, L>(sink, environment, scratch, count)?;
    }
    Ok(())
}

/// Writes the list that was met, and returns what follows the closing brace of its argument.
#[cycle(evaluate)]
#[inline(always)]
fn write_argument<'a, W: TextWrite, C: Context, E: Escaper, S: FormatSource, L: Ledger>(
    sink: &mut Sink<'_, W>,
    environment: &Environment<'a, C, C::Object>,
    list: &S::List,
    count: &mut PieceCount<L>,
) -> Result<S, Error>
    requires met { S.is_met list.now }
    ensures writes { Writes W.written
        (list_with_brace (shows_by E.shown C.Object.shows) (environment_of C.finds environment.now)
        (S.asks list.now)
        (S.follows list.now))
        sink.old sink.new (result_answer result) }
    ensures rest { IfOk result (λ rest. S.follows list.now ≡ Some (S.tree rest)) }
    ensures visited { count.new ≤ count.old + (list_work (shows_by E.shown C.Object.shows)
        (environment_of C.finds environment.now) (S.asks list.now)).pieces }
    ensures exact { IfOk result (λ _. count.new ≡ count.old + (list_work
        (shows_by E.shown C.Object.shows)
        (environment_of C.finds environment.now) (S.asks list.now)).pieces) }
{
    write_list::<W, C, E, S, L>(sink, environment, list, count)?;
    match S::rest(list) {
        Some(rest) => Ok(rest),
        None => Err(Error::Parse(ParseError::Expected("}", S::end(list)))),
    }
}

/// Writes the list that was met.
#[cycle(evaluate)]
#[inline(never)]
fn write_list<'a, W: TextWrite, C: Context, E: Escaper, S: FormatSource, L: Ledger>(
    sink: &mut Sink<'_, W>,
    environment: &Environment<'a, C, C::Object>,
    list: &S::List,
    count: &mut PieceCount<L>,
) -> Result<(), Error>
    requires met { S.is_met list.now }
    ensures writes { Writes W.written
        (list_meaning (shows_by E.shown C.Object.shows) (environment_of C.finds environment.now)
        (S.asks list.now))
        sink.old sink.new (result_answer result) }
    ensures visited { count.new ≤ count.old + (list_work (shows_by E.shown C.Object.shows)
        (environment_of C.finds environment.now) (S.asks list.now)).pieces }
    ensures exact { IfOk result (λ _. count.new ≡ count.old + (list_work
        (shows_by E.shown C.Object.shows)
        (environment_of C.finds environment.now) (S.asks list.now)).pieces) }
{
    let items = S::items(list, environment)?;
    if S::has_width(list) {
        return write_padded_list::<W, C, E, S, L>(sink, environment, list, items, count);
    }
    match items {
        [] => Ok(()),
        [item] => {
            let mut scratch = *list;
            write_formatted::<W, C, E, S, L>(sink, environment, list, item, &mut scratch, count)
        }
        _ => write_several::<W, C, E, S, L>(sink, environment, list, items, count),
    }
}

/// Makes the text of the items in a buffer, and then writes it padded to the width.
#[cycle(evaluate)]
fn write_padded_list<'a, W: TextWrite, C: Context, E: Escaper, S: FormatSource, L: Ledger>(
    sink: &mut Sink<'_, W>,
    environment: &Environment<'a, C, C::Object>,
    list: &S::List,
    items: &'a [Formattable<'a, C::Object>],
    count: &mut PieceCount<L>,
) -> Result<(), Error>
    requires met { S.is_met list.now }
    requires no_precision { (S.asks list.now).spec.precision ≡ None }
    ensures writes { Writes W.written
        (padded_list_means (S.asks list.now).spec (S.asks list.now).end
        (list_items (shows_by E.shown C.Object.shows) (environment_of C.finds environment.now)
        (S.asks list.now)
        (map slots_of items.now)))
        sink.old sink.new (result_answer result) }
    ensures visited { count.new ≤ count.old + (list_items_work (shows_by E.shown C.Object.shows)
        (environment_of C.finds environment.now) (S.asks list.now)
        (map slots_of items.now)).pieces }
    ensures exact { IfOk result (λ _. count.new ≡ count.old + (list_items_work
        (shows_by E.shown C.Object.shows)
        (environment_of C.finds environment.now) (S.asks list.now)
        (map slots_of items.now)).pieces) }
{
    let mut made = list_buffer(sink, environment);
    let mut inner: Sink<'_, W> = Sink::Buffer(&mut made);
    let answer = write_items::<W, C, E, S, L>(&mut inner, environment, list, items, count);
    match inner {
        Sink::Writer(_) => unreachable!(),
        Sink::Buffer(buffer) => {
            if buffer.refused() {
                return Err(Error::NoMemory);
            }
            answer?;
            sink.put_padded(buffer.as_str(), &S::spec(list), S::end(list))?;
            Ok(())
        }
    }
}
