//! Writing what a source means, for a caller that needs no count of its pieces.
ghost use Rattle.std.specs.Prelude.{◌≡◌, ◌<◌};
ghost use Rattle.interpolator_syntax.specs.Faults.{result_answer};
ghost use Rattle.interpolator_eval.specs.Escaping.{shows_by};
ghost use Rattle.interpolator_eval.specs.Meaning.CodeEnvironments.{environment_of};
ghost use Rattle.interpolator_eval.specs.{Meaning.Meanings.forest_means, Meaning.Sinks.Writes};

use crate::context::Context;
use crate::escaper::Escaper;
use crate::evaluate::environment::Environment;
use crate::evaluate::evaluator::write_source;
use crate::evaluate::sink::Sink;
use crate::evaluate::source::FormatSource;
use crate::piece_count::PieceCount;
use interpolator_render::TextWrite;
use interpolator_syntax::Error;
use std::marker::Brand;
use std::sync::ledger::{Blank, Ledger};

/// Writes what the pieces of a source mean, for a caller that needs no count of them.
#[inline(always)]
pub fn write_uncounted<'a, W: TextWrite, C: Context, E: Escaper, S: FormatSource>(
    sink: &mut Sink<'_, W>,
    environment: &Environment<'a, C, C::Object>,
    source: S,
) -> Result<(), Error>
    ensures writes { Writes W.written
        (forest_means (shows_by E.shown C.Object.shows) (environment_of C.finds environment.now)
        (S.tree source))
        sink.old sink.new (result_answer result) }
{
    write_on::<W, C, E, S, Brand>(sink, environment, source, Blank::new(1))
}

/// Writes what the pieces of a source mean, and counts from a blank ledger.
#[inline(always)]
fn write_on<'a, W: TextWrite, C: Context, E: Escaper, S: FormatSource, L: Ledger>(
    sink: &mut Sink<'_, W>,
    environment: &Environment<'a, C, C::Object>,
    source: S,
    blank: Blank,
) -> Result<(), Error>
    requires name { blank.name ≡ L.name }
    requires parts { blank.parts ≡ L.parts }
    requires some { 0 < blank.parts }
    ensures writes { Writes W.written
        (forest_means (shows_by E.shown C.Object.shows) (environment_of C.finds environment.now)
        (S.tree source))
        sink.old sink.new (result_answer result) }
{
    let mut count = PieceCount::<L>::open(blank);
    let mut scratch = source.scratch_list();
    write_source::<W, C, E, S, L>(sink, environment, source, &mut scratch, &mut count)
}
