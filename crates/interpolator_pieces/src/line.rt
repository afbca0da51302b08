//! Formats with a newline after them.
ghost use Rattle.interpolator_syntax.specs.Faults.{result_answer};
ghost use Rattle.interpolator_pieces.specs.{Lines.newline_means, Calls.WritesLine};
ghost use Rattle.interpolator_eval.specs.Meaning.Outcomes.{Outcome};

use crate::functions::write;
use interpolator_eval::{Context, write_char};
use interpolator_render::TextWrite;
use interpolator_syntax::Error;
use std::alloc::Global;

/// Writes a newline, whose place is 0.
pub fn write_newline<W: TextWrite>(out: &mut W) -> Result<(), Error>
    ensures outcome { Outcome newline_means
        (W.written out.old) (W.written out.new) (result_answer result) }
{
    write_char(out, '\n', 0)?;
    Ok(())
}

/// Writes what the format means in the context, as `write` does, and after it a newline if there is
/// no fault.
///
/// # Errors
///
/// Those of `write` with the same format and context; `Fmt` at place 0 if the writer takes the
/// format's text and refuses the newline.
///
/// # Example
///
/// ```text
/// iwriteln(alloc, &mut out, "Hello {name}", &context)?;
/// // with `Ann` under `name`: Hello Ann, and a newline
/// ```
pub fn iwriteln<W: TextWrite, C: Context>(
    alloc: Global,
    out: &mut W,
    format: &str,
    context: &C,
) -> Result<(), Error>
    ensures { WritesLine C.Object.shows (C.finds context.now) format.now
        (W.written out.old) (W.written out.new) (result_answer result) }
{
    match write(alloc, out, format, context) {
        Ok(()) => write_newline(out),
        Err(fault) => Err(fault),
    }
}
