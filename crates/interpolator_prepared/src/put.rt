//! Writes the steps of a prepared format that are text or the value at a position.
ghost use Rattle.std.specs.Prelude.{◌≡◌, ℕ, List, IsSome, Some, false};
ghost use Rattle.interpolator_render.specs.declared.view.Trait.TheVariants.{Display};
ghost use Rattle.interpolator_syntax.specs.{Places.placed_from, SpecTexts.plain_spec};
ghost use Rattle.interpolator_eval.specs.{Escaping.shows_by, Meaning.Environments.Environment};
ghost use Rattle.interpolator_eval.specs.{Meaning.Meanings.text_alone, Meaning.Outcomes.Outcome};
ghost use Rattle.interpolator_eval.specs.Meaning.Sinks.{write_answered};
ghost use Rattle.interpolator_prepared.specs.Programs.{position_means};
ghost use Rattle.interpolator_prepared.specs.StoredSteps.{Fit, looks_up, steps_of};
ghost use Rattle.interpolator_prepared.specs.StoredSteps.{stored_step_means};
ghost use Rattle.interpolator_pieces.specs.Stored.{part};

use crate::joined::put_joined;
use crate::row::PreparedRow;
use crate::step::{Step, ValueSpec};
use interpolator_eval::{Escaper, WriteFault, write_plain, write_run, write_shown};
use interpolator_pieces::cut;
use interpolator_render::{TextWrite, Trait};

/// Writes what a step that looks no name up means. It returns a fault in few bytes, since an
/// [`Error`](crate::Error) would be zeroed at each step.
#[inline(always)]
pub fn put_step<W: TextWrite, R: PreparedRow, E: Escaper>(
    out: &mut W,
    text: &str,
    row: &R,
    step: &Step,
) -> Result<(), WriteFault>
    requires fits { Fit (steps_of text.now step.now) }
    requires alone { looks_up step.now ≡ false }
    ensures outcome { (e : Environment R.Object)
        → Outcome (stored_step_means (shows_by E.shown R.Object.shows) e
        (R.value_at row.now) text.now step.now)
        (W.written out.old) (W.written out.new) (write_answered result) }
{
    match step {
        Step::Literal(from, to) => put_literal(out, text, *from, *to),
        Step::Joined(joined) => put_joined(out, joined),
        Step::Plain(position, end) => put_plain::<W, R, E>(out, row, *position, *end),
        Step::Value(position, asked) => { put_at::<W, R, E>(out, row, *position, asked) }
        Step::LiteralPlain(part, position, end) => {
            put_literal(out, text, part.from, part.to)?;
            put_plain::<W, R, E>(out, row, *position, *end)
        }
        Step::LiteralValue(part, position, asked) => {
            put_literal(out, text, part.from, part.to)?;
            put_at::<W, R, E>(out, row, *position, asked)
        }
        Step::JoinedPlain(joined, position, end) => {
            put_joined(out, joined)?;
            put_plain::<W, R, E>(out, row, *position, *end)
        }
        Step::List(_) => unreachable!(),
        Step::Kept(_) => unreachable!(),
    }
}

/// Writes bytes of the format.
#[inline(always)]
fn put_literal<W: TextWrite>(
    out: &mut W,
    text: &str,
    from: usize,
    to: usize,
) -> Result<(), WriteFault>
    requires fits { IsSome (part text.now from to) }
    ensures outcome { (cs : List ℕ) → part text.now from to ≡ Some cs
        → Outcome (text_alone (placed_from from cs))
        (W.written out.old) (W.written out.new) (write_answered result) }
{
    write_run(out, cut(text, from, to), from)
}

/// Writes the value at a position of the row, displayed plainly.
#[inline(always)]
fn put_plain<W: TextWrite, R: PreparedRow, E: Escaper>(
    out: &mut W,
    row: &R,
    position: usize,
    end: usize,
) -> Result<(), WriteFault>
    ensures outcome { Outcome
        (position_means (shows_by E.shown R.Object.shows) Display plain_spec end
        (R.value_at row.now position))
        (W.written out.old) (W.written out.new) (write_answered result) }
{
    write_plain::<W, R::Object, E>(out, row.value(position, Trait::Display), end)
}

/// Writes the value at a position of the row.
#[inline(always)]
fn put_at<W: TextWrite, R: PreparedRow, E: Escaper>(
    out: &mut W,
    row: &R,
    position: usize,
    asked: &ValueSpec,
) -> Result<(), WriteFault>
    ensures outcome { Outcome
        (position_means (shows_by E.shown R.Object.shows) asked.now.slot asked.now.spec
        asked.now.end
        (R.value_at row.now position))
        (W.written out.old) (W.written out.new) (write_answered result) }
{
    let value = row.value(position, asked.slot);
    write_shown::<W, R::Object, E>(out, value, asked.slot, &asked.spec, asked.end)
}
