//! An argument that the scan meets: its value is written, and a list is handed back.
ghost use Rattle.std.specs.Prelude.{◌≡◌, ◌≢◌, ◌<◌, ℕ, IfOk, None, Some};
ghost use Rattle.interpolator_render.specs.declared.view.Trait.TheVariants.{Iter};
ghost use Rattle.interpolator_syntax.specs.Arguments.{argument_at, argument_after, plain_argument};
ghost use Rattle.interpolator_syntax.specs.Arguments.{named_argument, request_of};
ghost use Rattle.interpolator_syntax.specs.{Places.at, Places.strip, Classes.close_brace};
ghost use Rattle.interpolator_syntax.specs.{Faults.result_answer, Nodes.nodes, Nodes.token_node};
ghost use Rattle.interpolator_syntax.specs.Tokens.{argument as argument_token};
ghost use Rattle.interpolator_eval.specs.Meaning.Sources.{unlisted_means, with_brace};
ghost use Rattle.interpolator_eval.specs.Meaning.CodeEnvironments.{environment_of};
ghost use Rattle.interpolator_eval.specs.Meaning.Meanings.{argument_means};
ghost use Rattle.interpolator_eval.specs.Meaning.{ScannedLists.ArgumentReported, Outcomes.Outcome};
ghost use Rattle.interpolator_eval.specs.Escaping.{shows_by};

use crate::context::Context;
use crate::escaper::Escaper;
use crate::evaluate::environment::Environment;
use crate::evaluate::scan::ScannedList;
use crate::evaluate::value::{LookUp, write_plain_value, write_value};
use interpolator_render::{TextWrite, Trait};
use interpolator_syntax::{
    ArgumentName, Cursor, Error, ParseError, Request, take_name, take_request,
};

/// Writes what the argument means that begins here, after its brace, and returns the text after its
/// closing one. If the argument is a list, nothing is written; it is stored in `list`, and the
/// result is `None`.
///
/// A name alone has a function of its own, in which the compiler knows the trait and the spec.
#[inline(always)]
pub(super) fn write_argument<'t, 'a, W: TextWrite, C: Context, E: Escaper, Loop>(
    out: &mut W,
    environment: &Environment<'a, C, C::Object>,
    here: Cursor<'t>,
    list: &mut ScannedList<'t>,
) -> Result<Option<Cursor<'t>>, Error>
    ensures outcome { (p : ℕ) → Outcome
        (unlisted_means (shows_by E.shown C.Object.shows) (environment_of C.finds environment.now)
        (token_node nodes p argument_token (at here.entry)))
        (W.written out.old) (W.written out.new) (result_answer result) }
    ensures rest { (p : ℕ) → IfOk result (λ reported. ArgumentReported p (at here.entry) list.new reported) }
{
    let named = take_name(here);
    match named.end.strip(b'}') {
        Some(after) => {
            write_plain_value::<W, C, E>(
                out,
                environment,
                here.place,
                named.name,
                named.end.place,
            )?;
            Ok(Some(after))
        }
        None => write_asked::<W, C, E>(out, environment, here, named, list),
    }
}

/// Writes what the argument means that begins here and has this name, with more after the name.
/// Returns the text after its closing brace. If the argument is a list, nothing is written; it is
/// stored in `list`, and the result is `None`.
#[inline(always)]
fn write_asked<'t, 'a, W: TextWrite, C: Context, E: Escaper>(
    out: &mut W,
    environment: &Environment<'a, C, C::Object>,
    here: Cursor<'t>,
    named: ArgumentName<'t>,
    list: &mut ScannedList<'t>,
) -> Result<Option<Cursor<'t>>, Error>
    requires open { strip close_brace (at named.end) ≡ None }
    requires named { argument_at (at here)
        ≡ argument_after here.place (plain_argument named) (at named.end) }
    ensures outcome { (p : ℕ) → Outcome
        (unlisted_means (shows_by E.shown C.Object.shows) (environment_of C.finds environment.now)
        (token_node nodes p argument_token (at here.entry)))
        (W.written out.old) (W.written out.new) (result_answer result) }
    ensures rest { (p : ℕ) → IfOk result (λ reported. ArgumentReported p (at here.entry) list.new reported) }
{
    let mut end = named.end;
    let mut asked = Request::plain();
    match take_request(&mut end, &mut asked, here.place) {
        Ok(()) => {}
        Err(fault) => return Err(Error::from(fault)),
    }
    if let Trait::Iter = asked.slot {
        *list = ScannedList {
            start: here.place,
            name: named.name,
            asked,
            end,
        };
        return Ok(None);
    }
    let read = ArgumentName { end, ..named };
    let after = write_closed::<W, C, E>(out, environment, here.place, read, &asked)?;
    Ok(Some(after))
}

/// Writes the value under a name, for an argument that starts at `start`; `named.end` is the text
/// after its spec. Returns the text after its closing brace.
#[inline(always)]
fn write_closed<'t, 'a, W: TextWrite, C: Context, E: Escaper>(
    out: &mut W,
    environment: &Environment<'a, C, C::Object>,
    start: usize,
    named: ArgumentName<'t>,
    asked: &Request<'t>,
) -> Result<Cursor<'t>, Error>
    requires value { asked.now.slot ≢ Iter }
    ensures outcome { let end = at named.entry.end in Outcome
        (with_brace (strip close_brace end) end.place
        (argument_means (shows_by E.shown C.Object.shows) (environment_of C.finds environment.now)
        start (named_argument named.entry (request_of asked.now)) end.place))
        (W.written out.old) (W.written out.new) (result_answer result) }
    ensures rest { IfOk result (λ r. strip close_brace (at named.entry.end) ≡ Some (at r)) }
{
    let look_up = LookUp {
        start,
        name: named.name,
        end: named.end.place,
    };
    write_value::<W, C, E>(out, environment, look_up, asked.slot, &asked.spec)?;
    match named.end.strip(b'}') {
        Some(after) => Ok(after),
        None => Err(Error::Parse(ParseError::Expected("}", named.end.place))),
    }
}
