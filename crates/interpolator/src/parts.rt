//! Formats in parts: which may follow which, and what they write.
ghost use Rattle.std.specs.Prelude.{◌≡◌, ◌+◌, ◌^◌, ◌<◌, length, IfOk};
ghost use Rattle.std.specs.Str.{chars};
ghost use Rattle.interpolator_syntax.specs.Places.{at, size, outermost};
ghost use Rattle.interpolator_syntax.specs.{Pieces.pieces, Pieces.argument_from, Tokens.token_of};
ghost use Rattle.interpolator_syntax.specs.{Tokens.past_token, Grammar.from_place};
ghost use Rattle.interpolator_syntax.specs.{Faults.result_answer, Faults.PlaceWithin};
ghost use Rattle.interpolator.specs.Seams.{ending, piece_ending, seam_of, token_ending};
ghost use Rattle.interpolator.specs.Meaning.Parts.{joined_text, texts_of, bytes_of, parts_mean};
ghost use Rattle.interpolator.specs.Meaning.Parts.{Clean, FrontsClose};
ghost use Rattle.interpolator_eval.specs.Meaning.{Environments.environment, Meanings.means};
ghost use Rattle.interpolator_eval.specs.Meaning.Outcomes.{Outcome};
ghost use Rattle.interpolator_eval.specs.Meaning.{CodeEnvironments.environment_of, Sinks.Writes};

use interpolator_eval::{Context, Environment, Sink, Unescaped, write_uncounted};
use interpolator_render::TextWrite;
use interpolator_syntax::{Cursor, Error, Token, next_token, take_argument};
use std::alloc::Global;

/// How a text ends, as far as a text that follows it can change its last piece.
#[derive(Clone, Copy)]
pub(crate) enum Ending {
    /// Nothing that follows can change the last piece, or there is none.
    Settled,
    /// In a lone `}`, which a second one would double.
    LoneClose,
    /// In an argument that is unclosed or broken, which what follows can change.
    Open,
}

/// How the argument that begins here, after its brace, ends, and what follows it.
fn argument_ending(here: Cursor<'_>) -> (Ending, Cursor<'_>)
    ensures ending { result.0
        ≡ piece_ending (argument_from here.entry.place (at here.entry)).piece }
    ensures rest { pieces (at result.1)
        ≡ pieces (argument_from here.entry.place (at here.entry)).rest }
{
    let nothing = Cursor {
        place: here.place,
        rest: "",
    };
    match take_argument(here) {
        Ok(taken) => match taken.rest {
            Some(after) => (Ending::Settled, after),
            None => (Ending::Open, nothing),
        },
        Err(_) => (Ending::Open, nothing),
    }
}

/// How a token that `rest` follows ends, with its argument if it begins one, and what follows that.
fn past_token<'t>(token: Token<'t>, rest: Cursor<'t>) -> (Ending, Cursor<'t>)
    ensures ending { result.0 ≡ token_ending (token_of token.entry) (at rest.entry) }
    ensures rest { pieces (at result.1)
        ≡ pieces (past_token (token_of token.entry) (at rest.entry)) }
{
    match token {
        Token::Literals(_) => (Ending::Settled, rest),
        Token::Doubled(_) => (Ending::Settled, rest),
        Token::LoneClose => (Ending::LoneClose, rest),
        Token::Argument => argument_ending(rest),
    }
}

/// How a text ends.
fn ending_of(text: Cursor<'_>) -> Ending
    ensures { result ≡ ending (at text.entry) }
{
    let mut here = text;
    let mut ending = Ending::Settled;
    while let Some((token, rest)) = next_token(here) {
        (ending, here) = past_token(token, rest);
    }
    ending
}

/// Tests whether no lone `}` at the end of one format is doubled by a `}` at the beginning of the
/// next.
///
/// It is false in one case: `a` ends in a lone `}` and `b` begins with `}`, so that the two would
/// be read as a doubled brace. If it is true, the last piece of `a` stays what it is by itself,
/// unless it is an argument that is unclosed or broken: what follows can change such an argument,
/// as `}` closes `{x`, and `{` doubles a `{` that ends `a`. No memory is taken.
///
/// # Example
///
/// ```text
/// seam("{x}", "}")  // true
/// seam("}", "}")    // false: `}}` is one brace
/// seam("{x:}", "<") // true
/// seam("{x", "}")   // true, but `{x}` is a closed argument
/// ```
pub fn seam(a: &str, b: &str) -> bool
    ensures { result ≡ seam_of (chars a.now) (chars b.now) }
{
    let first = b.chars().next();
    match ending_of(Cursor { place: 0, rest: a }) {
        Ending::LoneClose => first != Some('}'),
        Ending::Settled => true,
        Ending::Open => true,
    }
}

/// Writes what a part means at its place. Returns the place after it.
fn write_part<'a, W: TextWrite, C: Context>(
    sink: &mut Sink<'_, W>,
    environment: &Environment<'a, C, C::Object>,
    part: &str,
    place: usize,
) -> Result<usize, Error>
    requires fits { place + length part.now < 2 ^ 64 }
    ensures writes { Writes W.written
        (means C.Object.shows (environment_of C.finds environment.now)
        (from_place place (chars part.now)))
        sink.old sink.new (result_answer result) }
    ensures after { IfOk result (λ after. after ≡ place + size (chars part.now)) }
    ensures bytes { IfOk result (λ after. after ≡ place + length part.now) }
    ensures place { PlaceWithin (place + length part.now) (result_answer result) }
{
    let text = Cursor { place, rest: part };
    match write_uncounted::<W, C, Unescaped, Cursor<'_>>(sink, environment, text) {
        Ok(()) => Ok(place + part.len()),
        Err(fault) => Err(fault),
    }
}

/// Writes what each part means at its place, one after the other.
fn write_each<'a, W: TextWrite, C: Context>(
    sink: &mut Sink<'_, W>,
    environment: &Environment<'a, C, C::Object>,
    parts: &[&str],
) -> Result<(), Error>
    requires fits { bytes_of parts.now < 2 ^ 64 }
    ensures writes { Writes W.written
        (parts_mean C.Object.shows (environment_of C.finds environment.now) 0 (texts_of parts.now))
        sink.old sink.new (result_answer result) }
    ensures place { PlaceWithin (bytes_of parts.now) (result_answer result) }
{
    let mut place = 0;
    for part in parts {
        match write_part(sink, environment, part, place) {
            Ok(after) => place = after,
            Err(fault) => return Err(fault),
        }
    }
    Ok(())
}

/// Writes the parts one after the other, each as a format by itself, up to the first fault.
///
/// No brace and no argument goes on from one part into the next. A part after the first fault is
/// not read. No part is copied, and memory is taken only as `write` takes it.
///
/// The parts write what `write` writes for the joined text if no part but the last ends in an
/// argument that is unclosed or broken, and if for each part the [`seam`] between the parts before
/// it, joined, and the part is true.
///
/// The joined text must have fewer than 2^64 bytes.
///
/// # Errors
///
/// Those of `write`. Every place counts bytes from the beginning of the first part, in the joined
/// text, and is at most its length.
///
/// # Example
///
/// ```text
/// write_parts(alloc, &mut out, &["{x} ", "{q}"], &context)?;
/// // with 1 under `x` and nothing under `q`: `1 `, and then MissingValue("q", 5)
/// ```
#[tactic(auto, using(interpolator_eval::proofs::MeaningLemmas::SinkLemmas::writer_stays))]
pub fn write_parts<W: TextWrite, C: Context>(
    alloc: Global,
    out: &mut W,
    parts: &[&str],
    context: &C,
) -> Result<(), Error>
    requires fits { bytes_of parts.now < 2 ^ 64 }
    ensures outcome { Outcome
        (parts_mean C.Object.shows (environment (C.finds context.now)) 0 (texts_of parts.now))
        (W.written out.old) (W.written out.new) (result_answer result) }
    ensures composes { Clean (texts_of parts.now) → FrontsClose 0 (texts_of parts.now)
        → parts_mean C.Object.shows (environment (C.finds context.now)) 0 (texts_of parts.now)
        ≡ means C.Object.shows (environment (C.finds context.now))
        (outermost (joined_text (texts_of parts.now))) }
    ensures place { PlaceWithin (bytes_of parts.now) (result_answer result) }
{
    let mut sink = Sink::Writer(out);
    let answer = write_each(&mut sink, &Environment::outermost(alloc, context), parts);
    sink.into_writer();
    answer
}
