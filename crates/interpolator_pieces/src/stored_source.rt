//! Stored pieces as the source of a format. Callers come before what they call.
ghost use Rattle.std.specs.Prelude.{◌≡◌, ◌+◌, ◌<◌, ◌≤◌, IfOk, Some, false, option_map, true};
ghost use Rattle.interpolator_render.specs.Bounds.{bounded_writer};
ghost use Rattle.interpolator_syntax.specs.Faults.{result_answer, fault, argument_fault_of};
ghost use Rattle.interpolator_syntax.specs.Nodes.{as_forest};
ghost use Rattle.interpolator_eval.specs.Meaning.Sources.{Met, before_list, from_list, met_pieces};
ghost use Rattle.interpolator_eval.specs.Meaning.Sources.{unlisted_means};
ghost use Rattle.interpolator_eval.specs.Escaping.{shows_by};
ghost use Rattle.interpolator_eval.specs.Meaning.CodeEnvironments.{environment_of};
ghost use Rattle.interpolator_eval.specs.{Meaning.Meanings.forest_means, Meaning.Outcomes.Outcome};
ghost use Rattle.interpolator_eval.specs.Meaning.Work.{forest_work};
ghost use Rattle.interpolator_pieces.specs.Stored.{node_of, nodes_of, node_whole, forest_whole};
ghost use Rattle.interpolator_pieces.specs.Stored.{detail_of};
ghost use Rattle.interpolator_pieces.specs.StoredLists.{begins_list, is_list_form, range_asked};
ghost use Rattle.interpolator_pieces.specs.StoredLists.{stored_list, stored_rest};
ghost use Rattle.interpolator_pieces.specs.StoredMeanings.{unclosed_fault};
ghost use Rattle.interpolator_pieces.specs.declared.piece.Piece.TheViews.{out-Piece};

use crate::piece::{Detail, Form, Piece, list_detail, spec_end_of};
use crate::piece_text::{name_of, require_closed, text_of};
use crate::stored_groups::{plain_pieces, text_pieces};
use interpolator_eval::{
    Context, Environment, Escaper, FormatSource, Formattable, LookUp, PieceCount, PlainItem, Sink,
    chosen_list, write_plain_value, write_run, write_value,
};
use interpolator_render::{Bounded, Spec, TextWrite};
use interpolator_syntax::{ArgumentFault, Error, Group, PieceKind, Range};
use std::sync::ledger::Ledger;

/// Pieces that are still to be written: all those of a text, or any others that fit it.
#[derive(Clone, Copy)]
pub struct Stored<'t> {
    pub text: &'t str,
    pub pieces: &'t [Piece],
    ghost fits: { forest_whole (as_forest (nodes_of text.now pieces.now)) ≡ true },
}

impl<'t> FormatSource for Stored<'t> {
    /// The list that comes next, and what follows it.
    type List = Stored<'t>;

    ghost tree = { λ s. as_forest (nodes_of s.text.now s.pieces.now) };

    ghost is_met = { λ s. begins_list s.pieces.now ≡ true };

    ghost asks = { λ s. stored_list s.text.now s.pieces.now };

    ghost follows = { λ s. stored_rest s.text.now s.pieces.now };

    #[inline(always)]
    fn is_empty(&self) -> bool {
        self.pieces.is_empty()
    }

    #[inline(always)]
    fn scratch_list(&self) -> Stored<'t> {
        *self
    }

    #[inline(always)]
    fn write_to_list<'a, W: TextWrite, C: Context, E: Escaper, L: Ledger>(
        &self,
        sink: &mut Sink<'_, W>,
        environment: &Environment<'a, C, C::Object>,
        list: &mut Stored<'t>,
        count: &mut PieceCount<L>,
    ) -> Result<bool, Error> {
        match sink {
            Sink::Writer(out) => {
                run_pieces::<W, C, E, L>(&mut **out, environment, *self, list, count)
            }
            Sink::Buffer(buffer) => {
                run_to_buffer::<C, E, L>(&mut **buffer, environment, *self, list, count)
            }
        }
    }

    #[inline(always)]
    fn items<'a, C: Context>(
        list: &Stored<'t>,
        environment: &Environment<'a, C, C::Object>,
    ) -> Result<&'a [Formattable<'a, C::Object>], Error> {
        let piece = &list.pieces[0];
        let (start, name) = name_of(list.text, piece);
        let detail = list_detail(piece);
        let look_up = LookUp {
            start,
            name,
            end: detail.spec_end,
        };
        chosen_list(
            environment,
            look_up,
            range_asked(&detail.form),
            &detail.spec,
        )
    }

    #[inline(always)]
    fn has_width(list: &Stored<'t>) -> bool {
        list_detail(&list.pieces[0]).spec.width.is_some()
    }

    #[inline(always)]
    fn spec(list: &Stored<'t>) -> Spec {
        list_detail(&list.pieces[0]).spec
    }

    #[inline(always)]
    fn end(list: &Stored<'t>) -> usize {
        list_detail(&list.pieces[0]).spec_end
    }

    #[inline(always)]
    fn item(list: &Stored<'t>) -> Option<Stored<'t>> {
        let pieces = list.pieces;
        match &pieces[0].item {
            Some(item) => Some(Stored {
                text: list.text,
                pieces: item,
            }),
            None => None,
        }
    }

    #[inline(always)]
    fn join(list: &Stored<'t>) -> Option<Stored<'t>> {
        let pieces = list.pieces;
        match &pieces[0].join {
            Some(join) => Some(Stored {
                text: list.text,
                pieces: join,
            }),
            None => None,
        }
    }

    fn plain_item<'l>(list: &'l Stored<'t>) -> Option<PlainItem<'l>> {
        let piece = &list.pieces[0];
        match &piece.item {
            Some(item) => plain_pieces(list.text, item),
            None => Some(PlainItem::alone(list_detail(piece).spec_end)),
        }
    }

    fn text_join<'l>(list: &'l Stored<'t>) -> Option<Group<'l>> {
        match &list.pieces[0].join {
            Some(join) => text_pieces(list.text, join),
            None => None,
        }
    }

    #[inline(always)]
    fn rest(list: &Stored<'t>) -> Option<Stored<'t>> {
        let pieces = list.pieces;
        match pieces[0].kind {
            PieceKind::Unclosed => None,
            _ => Some(Stored {
                text: list.text,
                pieces: &pieces[1..],
            }),
        }
    }
}

/// Which items of a list are written: all, unless its form has a range.
#[inline(always)]
fn range_asked(form: &Form) -> Option<Range>
    ensures { result ≡ range_asked form.now }
{
    match form {
        Form::List(range) => *range,
        _ => None,
    }
}

/// Writes what pieces mean up to the first list into a buffer, and returns whether there is one.
/// This stands between, since a function zeroes its error slot on entry: only a buffer takes that.
#[inline(always)]
fn run_to_buffer<'t, 'a, C: Context, E: Escaper, L: Ledger>(
    buffer: &mut Bounded,
    environment: &Environment<'a, C, C::Object>,
    source: Stored<'t>,
    list: &mut Stored<'t>,
    count: &mut PieceCount<L>,
) -> Result<bool, Error>
    ensures outcome { Outcome
        (forest_means (shows_by E.shown C.Object.shows) (environment_of C.finds environment.now)
        (before_list (as_forest (nodes_of source.entry.text.now source.entry.pieces.now))))
        (bounded_writer buffer.old) (bounded_writer buffer.new) (result_answer result) }
    ensures met { IfOk result (λ met. Met met (begins_list list.new.pieces.now ≡ true)
        (stored_list list.new.text.now list.new.pieces.now)
        (stored_rest list.new.text.now list.new.pieces.now)
        (from_list (as_forest (nodes_of source.entry.text.now source.entry.pieces.now)))) }
    ensures visited { count.new ≤ count.old + ((forest_work (shows_by E.shown C.Object.shows)
        (environment_of C.finds environment.now)
        (before_list (as_forest (nodes_of source.entry.text.now source.entry.pieces.now)))).pieces
        + met_pieces result) }
    ensures exact { IfOk result (λ _. count.new ≡ count.old + ((forest_work
        (shows_by E.shown C.Object.shows)
        (environment_of C.finds environment.now)
        (before_list (as_forest (nodes_of source.entry.text.now source.entry.pieces.now)))).pieces
        + met_pieces result)) }
{
    run_apart::<C, E, L>(buffer, environment, source, list, count)
}

/// Does what [`run_to_buffer`] does, by a call. A buffer is for lists under a width alone, and the
/// code for it would make the loop over all other pieces dearer.
#[inline(never)]
fn run_apart<'t, 'a, C: Context, E: Escaper, L: Ledger>(
    buffer: &mut Bounded,
    environment: &Environment<'a, C, C::Object>,
    source: Stored<'t>,
    list: &mut Stored<'t>,
    count: &mut PieceCount<L>,
) -> Result<bool, Error>
    ensures outcome { Outcome
        (forest_means (shows_by E.shown C.Object.shows) (environment_of C.finds environment.now)
        (before_list (as_forest (nodes_of source.entry.text.now source.entry.pieces.now))))
        (bounded_writer buffer.old) (bounded_writer buffer.new) (result_answer result) }
    ensures met { IfOk result (λ met. Met met (begins_list list.new.pieces.now ≡ true)
        (stored_list list.new.text.now list.new.pieces.now)
        (stored_rest list.new.text.now list.new.pieces.now)
        (from_list (as_forest (nodes_of source.entry.text.now source.entry.pieces.now)))) }
    ensures visited { count.new ≤ count.old + ((forest_work (shows_by E.shown C.Object.shows)
        (environment_of C.finds environment.now)
        (before_list (as_forest (nodes_of source.entry.text.now source.entry.pieces.now)))).pieces
        + met_pieces result) }
    ensures exact { IfOk result (λ _. count.new ≡ count.old + ((forest_work
        (shows_by E.shown C.Object.shows)
        (environment_of C.finds environment.now)
        (before_list (as_forest (nodes_of source.entry.text.now source.entry.pieces.now)))).pieces
        + met_pieces result)) }
{
    run_pieces::<Bounded, C, E, L>(buffer, environment, source, list, count)
}

/// Writes what pieces mean up to the first list, in order, and returns whether there is one.
#[inline(always)]
fn run_pieces<'t, 'a, W: TextWrite, C: Context, E: Escaper, L: Ledger>(
    out: &mut W,
    environment: &Environment<'a, C, C::Object>,
    source: Stored<'t>,
    list: &mut Stored<'t>,
    count: &mut PieceCount<L>,
) -> Result<bool, Error>
    ensures outcome { Outcome
        (forest_means (shows_by E.shown C.Object.shows) (environment_of C.finds environment.now)
        (before_list (as_forest (nodes_of source.entry.text.now source.entry.pieces.now))))
        (W.written out.old) (W.written out.new) (result_answer result) }
    ensures met { IfOk result (λ met. Met met (begins_list list.new.pieces.now ≡ true)
        (stored_list list.new.text.now list.new.pieces.now)
        (stored_rest list.new.text.now list.new.pieces.now)
        (from_list (as_forest (nodes_of source.entry.text.now source.entry.pieces.now)))) }
    ensures visited { count.new ≤ count.old + ((forest_work (shows_by E.shown C.Object.shows)
        (environment_of C.finds environment.now)
        (before_list (as_forest (nodes_of source.entry.text.now source.entry.pieces.now)))).pieces
        + met_pieces result) }
    ensures exact { IfOk result (λ _. count.new ≡ count.old + ((forest_work
        (shows_by E.shown C.Object.shows)
        (environment_of C.finds environment.now)
        (before_list (as_forest (nodes_of source.entry.text.now source.entry.pieces.now)))).pieces
        + met_pieces result)) }
{
    let text = source.text;
    let mut rest = source.pieces;
    while let Some((piece, after)) = rest.split_first() {
        count.tick();
        if run_piece::<W, C, E>(out, environment, text, piece)? {
            *list = Stored { text, pieces: rest };
            return Ok(true);
        }
        rest = after;
    }
    Ok(false)
}

/// Writes what a piece means, unless it asks for a list; returns whether it does.
#[tactic(auto, using(crate::proofs::StoredLemmas::detail_kept))]
#[inline(always)]
fn run_piece<'a, W: TextWrite, C: Context, E: Escaper>(
    out: &mut W,
    environment: &Environment<'a, C, C::Object>,
    text: &str,
    piece: &Piece,
) -> Result<bool, Error>
    requires whole { node_whole (node_of text.now piece.now) ≡ true }
    ensures outcome { Outcome
        (unlisted_means (shows_by E.shown C.Object.shows) (environment_of C.finds environment.now)
        (node_of text.now piece.now))
        (W.written out.old) (W.written out.new) (result_answer result) }
    ensures list { IfOk result (λ list. is_list_form (detail_of piece.now).form ≡ list) }
{
    match &piece.detail {
        Some(detail) => run_detailed::<W, C, E>(out, environment, text, piece, detail),
        None => run_bare::<W, C, E>(out, environment, text, piece),
    }
}

/// Writes what a piece without a detail means; it asks for no list.
#[inline(always)]
fn run_bare<'a, W: TextWrite, C: Context, E: Escaper>(
    out: &mut W,
    environment: &Environment<'a, C, C::Object>,
    text: &str,
    piece: &Piece,
) -> Result<bool, Error>
    requires whole { node_whole (node_of text.now piece.now) ≡ true }
    requires bare { (out-Piece piece.now).detail ≡ None }
    ensures outcome { Outcome
        (unlisted_means (shows_by E.shown C.Object.shows) (environment_of C.finds environment.now)
        (node_of text.now piece.now))
        (W.written out.old) (W.written out.new) (result_answer result) }
    ensures list { IfOk result (λ list. is_list_form (detail_of piece.now).form ≡ list) }
{
    match piece.kind {
        PieceKind::Closed => {
            let (start, name) = name_of(text, piece);
            write_plain_value::<W, C, E>(out, environment, start, name, spec_end_of(piece))?;
            Ok(false)
        }
        _ => {
            write_run(out, text_of(text, piece), piece.place)?;
            Ok(false)
        }
    }
}

/// Writes what a piece with a detail means, unless it asks for a list; returns whether it does.
#[inline(always)]
fn run_detailed<'a, W: TextWrite, C: Context, E: Escaper>(
    out: &mut W,
    environment: &Environment<'a, C, C::Object>,
    text: &str,
    piece: &Piece,
    detail: &Detail,
) -> Result<bool, Error>
    requires whole { node_whole (node_of text.now piece.now) ≡ true }
    requires detail { detail_of piece.now ≡ detail.now }
    ensures outcome { Outcome
        (unlisted_means (shows_by E.shown C.Object.shows) (environment_of C.finds environment.now)
        (node_of text.now piece.now))
        (W.written out.old) (W.written out.new) (result_answer result) }
    ensures list { IfOk result (λ list. is_list_form (detail_of piece.now).form ≡ list) }
{
    match &detail.form {
        Form::Text => {
            write_run(out, text_of(text, piece), detail.from)?;
            Ok(false)
        }
        Form::Plain => {
            let (start, name) = name_of(text, piece);
            write_plain_value::<W, C, E>(out, environment, start, name, detail.spec_end)?;
            value_done(piece)
        }
        Form::Value(t) => {
            let (start, name) = name_of(text, piece);
            let look_up = LookUp {
                start,
                name,
                end: detail.spec_end,
            };
            write_value::<W, C, E>(out, environment, look_up, *t, &detail.spec)?;
            value_done(piece)
        }
        Form::List(_) => Ok(true),
        Form::Broken(fault) => broken_argument(fault),
    }
}

/// `false`, for a value that was written, since it is no list; or the fault of an argument that is
/// not closed.
#[inline(always)]
fn value_done(piece: &Piece) -> Result<bool, Error>
    ensures closed { result_answer result ≡ option_map fault (unclosed_fault piece.now) }
    ensures value { IfOk result (λ list. list ≡ false) }
{
    require_closed(piece)?;
    Ok(false)
}

/// The fault of a broken argument. This is a function of its own, since a function zeroes its error
/// slot on entry.
#[inline(always)]
fn broken_argument(broken: &ArgumentFault) -> Result<bool, Error>
    ensures { result_answer result ≡ Some (fault (argument_fault_of broken.now)) }
{
    Err(Error::from(*broken))
}
