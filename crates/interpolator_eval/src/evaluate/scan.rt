//! A text as a source: it is written while it is read. Callers come before what they call.
ghost use Rattle.std.specs.Prelude.{◌≡◌, ◌+◌, ◌<◌, ◌≤◌, ⊤, IfOk, None, Some};
ghost use Rattle.interpolator_render.specs.Bounds.{bounded_writer};
ghost use Rattle.interpolator_syntax.specs.{Places.at, Places.strip, Faults.result_answer};
ghost use Rattle.interpolator_eval.specs.Meaning.ScannedLists.{ListPlace, scanned_list};
ghost use Rattle.interpolator_eval.specs.Meaning.ScannedLists.{scanned_rest, text_forest};
ghost use Rattle.interpolator_eval.specs.Meaning.Sources.{Met, before_list, from_list, met_pieces};
ghost use Rattle.interpolator_eval.specs.Escaping.{shows_by};
ghost use Rattle.interpolator_eval.specs.Meaning.CodeEnvironments.{environment_of};
ghost use Rattle.interpolator_eval.specs.{Meaning.Meanings.forest_means, Meaning.Outcomes.Outcome};
ghost use Rattle.interpolator_eval.specs.{Meaning.Sinks.Writes, Meaning.Work.forest_work};

use crate::context::Context;
use crate::escaper::Escaper;
use crate::evaluate::environment::Environment;
use crate::evaluate::plain_item::PlainItem;
use crate::evaluate::scanned_argument::write_argument;
use crate::evaluate::scanned_groups::{group_start, plain_group, text_group};
use crate::evaluate::sink::{Sink, write_char, write_run};
use crate::evaluate::source::FormatSource;
use crate::evaluate::value::{LookUp, chosen_list};
use crate::piece_count::PieceCount;
use crate::slots::Formattable;
use interpolator_render::{Bounded, Spec, TextWrite};
use interpolator_syntax::{Cursor, Error, Group, Request, Token, next_token};
use std::marker::Brand;
use std::sync::ledger::{Blank, Ledger};

/// The loop over all tokens of a text. Each loop has a copy of what it calls, by a type parameter,
/// since a function with one caller is inlined: a call for each argument costs a fifth more.
struct WholeText;

/// The loop over the tokens before the first list.
struct BeforeList;

/// The loop over the tokens of a text that is written to a buffer.
struct BufferedText;

/// A list argument that the scan has met.
#[derive(Clone, Copy)]
pub struct ScannedList<'t> {
    pub(super) start: usize,
    pub(super) name: &'t str,
    pub(super) asked: Request<'t>,
    pub(super) end: Cursor<'t>,
}

impl<'t> FormatSource for Cursor<'t> {
    type List = ScannedList<'t>;

    ghost tree = { λ c. text_forest (at c) };

    ghost is_met = { λ l. ⊤ };

    ghost asks = { λ l. scanned_list l };

    ghost follows = { λ l. scanned_rest l };

    #[inline(always)]
    fn is_empty(&self) -> bool {
        self.is_at_end()
    }

    #[inline(always)]
    fn scratch_list(&self) -> ScannedList<'t> {
        ScannedList {
            start: self.place,
            name: "",
            asked: Request::plain(),
            end: *self,
        }
    }

    #[inline(always)]
    fn write_to_list<'a, W: TextWrite, C: Context, E: Escaper, L: Ledger>(
        &self,
        sink: &mut Sink<'_, W>,
        environment: &Environment<'a, C, C::Object>,
        list: &mut ScannedList<'t>,
        count: &mut PieceCount<L>,
    ) -> Result<bool, Error> {
        write_to_sink::<W, C, E, L, WholeText>(sink, environment, *self, list, count)
    }

    #[inline(always)]
    fn items<'a, C: Context>(
        list: &ScannedList<'t>,
        environment: &Environment<'a, C, C::Object>,
    ) -> Result<&'a [Formattable<'a, C::Object>], Error> {
        let look_up = LookUp {
            start: list.start,
            name: list.name,
            end: list.end.place,
        };
        chosen_list(
            environment,
            look_up,
            list.asked.list.range,
            &list.asked.spec,
        )
    }

    #[inline(always)]
    fn has_width(list: &ScannedList<'t>) -> bool {
        list.asked.spec.width.is_some()
    }

    #[inline(always)]
    fn spec(list: &ScannedList<'t>) -> Spec {
        list.asked.spec
    }

    #[inline(always)]
    fn end(list: &ScannedList<'t>) -> usize {
        list.end.place
    }

    #[inline(always)]
    fn item(list: &ScannedList<'t>) -> Option<Cursor<'t>> {
        group_start(list.asked.list.item)
    }

    #[inline(always)]
    fn join(list: &ScannedList<'t>) -> Option<Cursor<'t>> {
        group_start(list.asked.list.join)
    }

    fn plain_item<'l>(list: &'l ScannedList<'t>) -> Option<PlainItem<'l>> {
        match list.asked.list.item {
            Some(group) => plain_group(group),
            None => Some(PlainItem::alone(list.end.place)),
        }
    }

    fn text_join<'l>(list: &'l ScannedList<'t>) -> Option<Group<'l>> {
        match list.asked.list.join {
            Some(group) => text_group(group),
            None => None,
        }
    }

    #[inline(always)]
    fn rest(list: &ScannedList<'t>) -> Option<Cursor<'t>> {
        list.end.strip(b'}')
    }
}

/// Writes what a text means up to its first list, and returns the place where that begins, if there
/// is one.
pub fn write_before_list<'a, W: TextWrite, C: Context, E: Escaper>(
    sink: &mut Sink<'_, W>,
    environment: &Environment<'a, C, C::Object>,
    text: Cursor<'_>,
) -> Result<Option<usize>, Error>
    ensures writes { Writes W.written
        (forest_means (shows_by E.shown C.Object.shows) (environment_of C.finds environment.now)
        (before_list (text_forest (at text.entry))))
        sink.old sink.new (result_answer result) }
    ensures list { IfOk result (λ place. ListPlace (at text.entry) place) }
{
    write_before_list_on::<W, C, E, Brand>(sink, environment, text, Blank::new(1))
}

/// Does what [`write_before_list`] does, and counts from a blank ledger.
#[inline(always)]
fn write_before_list_on<'a, W: TextWrite, C: Context, E: Escaper, L: Ledger>(
    sink: &mut Sink<'_, W>,
    environment: &Environment<'a, C, C::Object>,
    text: Cursor<'_>,
    blank: Blank,
) -> Result<Option<usize>, Error>
    requires name { blank.name ≡ L.name }
    requires parts { blank.parts ≡ L.parts }
    requires some { 0 < blank.parts }
    ensures writes { Writes W.written
        (forest_means (shows_by E.shown C.Object.shows) (environment_of C.finds environment.now)
        (before_list (text_forest (at text.entry))))
        sink.old sink.new (result_answer result) }
    ensures list { IfOk result (λ place. ListPlace (at text.entry) place) }
{
    let mut count = PieceCount::<L>::open(blank);
    let mut list = text.scratch_list();
    if write_to_sink::<W, C, E, L, BeforeList>(sink, environment, text, &mut list, &mut count)? {
        return Ok(Some(list.start - 1));
    }
    Ok(None)
}

/// Writes what a text means up to its first list, and returns whether there is one. Whether it goes
/// to a writer or into a buffer is asked here, once for all tokens.
#[inline(always)]
fn write_to_sink<'t, 'a, W: TextWrite, C: Context, E: Escaper, L: Ledger, Loop>(
    sink: &mut Sink<'_, W>,
    environment: &Environment<'a, C, C::Object>,
    text: Cursor<'t>,
    list: &mut ScannedList<'t>,
    count: &mut PieceCount<L>,
) -> Result<bool, Error>
    ensures writes { Writes W.written
        (forest_means (shows_by E.shown C.Object.shows) (environment_of C.finds environment.now)
        (before_list (text_forest (at text.entry))))
        sink.old sink.new (result_answer result) }
    ensures met { IfOk result (λ met. Met met ⊤ (scanned_list list.new) (scanned_rest list.new)
        (from_list (text_forest (at text.entry)))) }
    ensures visited { count.new ≤ count.old + ((forest_work (shows_by E.shown C.Object.shows)
        (environment_of C.finds environment.now) (before_list (text_forest (at text.entry)))).pieces
        + met_pieces result) }
    ensures exact { IfOk result (λ _. count.new ≡ count.old + ((forest_work
        (shows_by E.shown C.Object.shows)
        (environment_of C.finds environment.now) (before_list (text_forest (at text.entry)))).pieces
        + met_pieces result)) }
{
    match sink {
        Sink::Writer(out) => {
            write_tokens::<W, C, E, L, Loop>(&mut **out, environment, text, list, count)
        }
        Sink::Buffer(buffer) => {
            write_to_buffer::<C, E, L>(&mut **buffer, environment, text, list, count)
        }
    }
}

/// Writes what a text means up to its first list into a buffer, and returns whether there is one.
/// This stands between, since a function zeroes its error slot on entry: only a buffer takes that.
#[inline(always)]
fn write_to_buffer<'t, 'a, C: Context, E: Escaper, L: Ledger>(
    buffer: &mut Bounded,
    environment: &Environment<'a, C, C::Object>,
    text: Cursor<'t>,
    list: &mut ScannedList<'t>,
    count: &mut PieceCount<L>,
) -> Result<bool, Error>
    ensures outcome { Outcome
        (forest_means (shows_by E.shown C.Object.shows) (environment_of C.finds environment.now)
        (before_list (text_forest (at text.entry))))
        (bounded_writer buffer.old) (bounded_writer buffer.new) (result_answer result) }
    ensures met { IfOk result (λ met. Met met ⊤ (scanned_list list.new) (scanned_rest list.new)
        (from_list (text_forest (at text.entry)))) }
    ensures visited { count.new ≤ count.old + ((forest_work (shows_by E.shown C.Object.shows)
        (environment_of C.finds environment.now) (before_list (text_forest (at text.entry)))).pieces
        + met_pieces result) }
    ensures exact { IfOk result (λ _. count.new ≡ count.old + ((forest_work
        (shows_by E.shown C.Object.shows)
        (environment_of C.finds environment.now) (before_list (text_forest (at text.entry)))).pieces
        + met_pieces result)) }
{
    write_apart::<C, E, L>(buffer, environment, text, list, count)
}

/// Does what [`write_to_buffer`] does, by a call. A buffer is for lists under a width alone, and
/// the code for it would make the loop over each other text dearer.
#[inline(never)]
fn write_apart<'t, 'a, C: Context, E: Escaper, L: Ledger>(
    buffer: &mut Bounded,
    environment: &Environment<'a, C, C::Object>,
    text: Cursor<'t>,
    list: &mut ScannedList<'t>,
    count: &mut PieceCount<L>,
) -> Result<bool, Error>
    ensures outcome { Outcome
        (forest_means (shows_by E.shown C.Object.shows) (environment_of C.finds environment.now)
        (before_list (text_forest (at text.entry))))
        (bounded_writer buffer.old) (bounded_writer buffer.new) (result_answer result) }
    ensures met { IfOk result (λ met. Met met ⊤ (scanned_list list.new) (scanned_rest list.new)
        (from_list (text_forest (at text.entry)))) }
    ensures visited { count.new ≤ count.old + ((forest_work (shows_by E.shown C.Object.shows)
        (environment_of C.finds environment.now) (before_list (text_forest (at text.entry)))).pieces
        + met_pieces result) }
    ensures exact { IfOk result (λ _. count.new ≡ count.old + ((forest_work
        (shows_by E.shown C.Object.shows)
        (environment_of C.finds environment.now) (before_list (text_forest (at text.entry)))).pieces
        + met_pieces result)) }
{
    write_tokens::<Bounded, C, E, L, BufferedText>(buffer, environment, text, list, count)
}

/// Writes what a text means up to its first list, token by token, and returns whether there is one.
#[inline(always)]
fn write_tokens<'t, 'a, W: TextWrite, C: Context, E: Escaper, L: Ledger, Loop>(
    out: &mut W,
    environment: &Environment<'a, C, C::Object>,
    text: Cursor<'t>,
    list: &mut ScannedList<'t>,
    count: &mut PieceCount<L>,
) -> Result<bool, Error>
    ensures outcome { Outcome
        (forest_means (shows_by E.shown C.Object.shows) (environment_of C.finds environment.now)
        (before_list (text_forest (at text.entry))))
        (W.written out.old) (W.written out.new) (result_answer result) }
    ensures met { IfOk result (λ met. Met met ⊤ (scanned_list list.new) (scanned_rest list.new)
        (from_list (text_forest (at text.entry)))) }
    ensures visited { count.new ≤ count.old + ((forest_work (shows_by E.shown C.Object.shows)
        (environment_of C.finds environment.now) (before_list (text_forest (at text.entry)))).pieces
        + met_pieces result) }
    ensures exact { IfOk result (λ _. count.new ≡ count.old + ((forest_work
        (shows_by E.shown C.Object.shows)
        (environment_of C.finds environment.now) (before_list (text_forest (at text.entry)))).pieces
        + met_pieces result)) }
{
    let mut here = text;
    while let Some((token, rest)) = next_token(here) {
        count.tick();
        here = match token {
            Token::Literals(run) => {
                write_run(out, run, here.place)?;
                rest
            }
            Token::Doubled(brace) => {
                write_char(out, brace, here.place)?;
                rest
            }
            Token::LoneClose => {
                write_char(out, '}', here.place)?;
                rest
            }
            Token::Argument => match write_argument::<W, C, E, Loop>(
                out,
                environment,
                rest,
                list,
            )? {
                Some(after) => after,
                None => return Ok(true),
            },
        };
    }
    Ok(false)
}
