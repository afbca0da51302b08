//! Writes the steps of a prepared format with a row.
ghost use Rattle.std.specs.Prelude.{◌≡◌, ℕ, IsSome, Option, true};
ghost use Rattle.std.specs.List.{All};
ghost use Rattle.interpolator_syntax.specs.Faults.{result_answer};
ghost use Rattle.interpolator_eval.specs.Meaning.{Environments.environment, Outcomes.Outcome};
ghost use Rattle.interpolator_eval.specs.Meaning.{CodeEnvironments.environment_of, Sinks.Writes};
ghost use Rattle.interpolator_eval.specs.{Escaping.shows_by, Slots.Slots};
ghost use Rattle.interpolator_prepared.specs.Rows.{name_bytes};
ghost use Rattle.interpolator_prepared.specs.StoredSteps.{Fit, fitting_means, steps_of};
ghost use Rattle.interpolator_prepared.specs.StoredSteps.{stored_steps_mean, kept_step};
ghost use Rattle.interpolator_pieces.specs.Stored.{node_of, node_whole};
ghost use Rattle.interpolator_pieces.specs.StoredMeanings.{stored_piece_means};

use crate::items::run_list;
use crate::put::put_step;
use crate::row::{NamedRow, PreparedRow};
use crate::step::Step;
use interpolator_eval::{Context, Environment, Escaper, Sink, write_uncounted};
use interpolator_pieces::{Piece, Stored};
use interpolator_render::TextWrite;
use interpolator_syntax::Error;
use std::alloc::Global;
use std::slice;

/// Writes what steps of a format mean, in order.
pub fn run_steps<'a, W: TextWrite, R: PreparedRow, E: Escaper>(
    alloc: Global,
    out: &mut W,
    text: &str,
    named: &NamedRow<'a, R>,
    steps: &[Step],
) -> Result<(), Error>
    requires fit { All (λ step. Fit (steps_of text.now step)) steps.now }
    ensures outcome { Outcome
        (stored_steps_mean (shows_by E.shown R.Object.shows)
        (environment (R.finds_in named.now.row.now (name_bytes named.now.names.now)))
        (R.value_at named.now.row.now) text.now steps.now)
        (W.written out.old) (W.written out.new) (result_answer result) }
{
    // A copy stays in registers.
    let row = *named.row;
    let mut left = steps;
    while let Some((step, rest)) = left.split_first() {
        match step {
            Step::List(list) => run_list::<W, R, E>(alloc, out, text, named, list)?,
            Step::Kept(kept) => run_kept::<W, R, E>(alloc, out, text, named, kept)?,
            _ => put_step::<W, R, E>(out, text, &row, step)?,
        }
        left = rest;
    }
    Ok(())
}

/// Writes what a piece that is kept means.
#[tactic(auto, using(interpolator_eval::proofs::MeaningLemmas::SinkLemmas::writer_stays))]
#[inline(never)]
fn run_kept<'a, W: TextWrite, R: PreparedRow, E: Escaper>(
    alloc: Global,
    out: &mut W,
    text: &str,
    named: &NamedRow<'a, R>,
    kept: &Piece,
) -> Result<(), Error>
    requires fits { IsSome (kept_step (node_of text.now kept.now)) }
    ensures outcome { (value_at : ℕ → Option (Slots R.Object)) → Outcome
        (fitting_means (shows_by E.shown R.Object.shows)
        (environment (R.finds_in named.now.row.now (name_bytes named.now.names.now))) value_at
        (kept_step (node_of text.now kept.now)))
        (W.written out.old) (W.written out.new) (result_answer result) }
{
    let environment = Environment::outermost(alloc, named);
    let mut sink = Sink::Writer(out);
    let answer = write_kept::<W, NamedRow<'_, R>, E>(&mut sink, &environment, text, kept);
    sink.into_writer();
    answer
}

/// Writes what a piece of a text means, as the evaluator does.
fn write_kept<'a, W: TextWrite, C: Context, E: Escaper>(
    sink: &mut Sink<'_, W>,
    environment: &Environment<'a, C, C::Object>,
    text: &str,
    piece: &Piece,
) -> Result<(), Error>
    requires whole { node_whole (node_of text.now piece.now) ≡ true }
    ensures writes { Writes W.written
        (stored_piece_means (shows_by E.shown C.Object.shows)
        (environment_of C.finds environment.now) text.now piece.now)
        sink.old sink.new (result_answer result) }
{
    let pieces = slice::from_ref(piece);
    write_uncounted::<W, C, E, Stored<'_>>(sink, environment, Stored { text, pieces })
}
