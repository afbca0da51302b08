//! The value and the list under a name, for formats as texts and for formats that were parsed.
ghost use Rattle.std.specs.Prelude.{◌≡◌, ◌⊎◌, [], IfOk, MatchResult, Some, false, map};
ghost use Rattle.std.specs.{Str.chars, Option.option_copied};
ghost use Rattle.interpolator_render.specs.{Bounds.bounded_writer, Writers.plain};
ghost use Rattle.interpolator_render.specs.declared.view.Trait.TheVariants.{Display};
ghost use Rattle.interpolator_syntax.specs.Faults.{result_answer, fault, missing_value, no_memory};
ghost use Rattle.interpolator_syntax.specs.SpecTexts.{plain_spec};
ghost use Rattle.interpolator_eval.specs.Meaning.Lists.{IsChosen, IsNotChosen, ChosenUnder};
ghost use Rattle.interpolator_eval.specs.Meaning.Meanings.{under_name, value_means, forbids_list};
ghost use Rattle.interpolator_eval.specs.Meaning.Sinks.{HasRoom, Writes};
ghost use Rattle.interpolator_eval.specs.Slots.{slots_of, slot_at, values_of};
ghost use Rattle.interpolator_eval.specs.{Escaping.shows_by, Meaning.Environments.slots_under};
ghost use Rattle.interpolator_eval.specs.Meaning.CodeEnvironments.{environment_of};
ghost use Rattle.interpolator_eval.specs.Meaning.Outcomes.{Outcome};

use crate::context::Context;
use crate::escaper::Escaper;
use crate::evaluate::environment::Environment;
use crate::evaluate::list::{choose, forbids_list};
use crate::evaluate::sink::{Sink, write_plain, write_shown};
use crate::slots::Formattable;
use interpolator_render::{Bounded, Spec, TextWrite, Trait, Value};
use interpolator_syntax::{Error, ParseError, Range};

/// A name that is looked up for an argument.
#[derive(Clone, Copy)]
pub struct LookUp<'n> {
    /// The byte at which the argument begins: the one after its opening brace.
    pub start: usize,
    /// The name.
    pub name: &'n str,
    /// The byte after the argument's spec.
    pub end: usize,
}

/// Returns the fault of an absent name, for an argument that starts at `start`. It is a function of
/// its own, since a function zeroes its error slot on entry.
#[inline(always)]
fn absent_name<'a, C: Context>(
    environment: &Environment<'a, C, C::Object>,
    start: usize,
    name: &str,
) -> Result<(), Error>
    ensures reported { (result_answer result ≡ Some (fault (missing_value (chars name.now) start)))
        ⊎ (result_answer result ≡ Some no_memory) }
{
    Err(environment.missing(name, start))
}

/// Writes the value under a name.
#[inline(always)]
pub fn write_value<'a, W: TextWrite, C: Context, E: Escaper>(
    out: &mut W,
    environment: &Environment<'a, C, C::Object>,
    look_up: LookUp<'_>,
    wanted: Trait,
    spec: &Spec,
) -> Result<(), Error>
    ensures outcome { let x = look_up.entry in Outcome
        (under_name (chars x.name.now) x.start
        (λ found. value_means (shows_by E.shown C.Object.shows) wanted spec.now x.end
        (slot_at wanted (values_of found)))
        (slots_under (environment_of C.finds environment.now) (chars x.name.now)))
        (W.written out.old) (W.written out.new) (result_answer result) }
{
    let Some(value) = environment.value(look_up.name, wanted) else {
        return absent_name(environment, look_up.start, look_up.name);
    };
    write_shown::<W, C::Object, E>(out, value, wanted, spec, look_up.end)?;
    Ok(())
}

/// Writes the value under a name, displayed plainly, for an argument that starts at `start` and
/// ends at `end`.
#[inline(always)]
pub fn write_plain_value<'a, W: TextWrite, C: Context, E: Escaper>(
    out: &mut W,
    environment: &Environment<'a, C, C::Object>,
    start: usize,
    name: &str,
    end: usize,
) -> Result<(), Error>
    ensures outcome { Outcome
        (under_name (chars name.now) start
        (λ found. value_means (shows_by E.shown C.Object.shows) Display plain_spec end
        (slot_at Display (values_of found)))
        (slots_under (environment_of C.finds environment.now) (chars name.now)))
        (W.written out.old) (W.written out.new) (result_answer result) }
{
    let Some(value) = environment.value(name, Trait::Display) else {
        return absent_name(environment, start, name);
    };
    write_plain::<W, C::Object, E>(out, value, end)?;
    Ok(())
}

/// Writes an item of a list without an item format: displayed plainly, for an argument whose spec
/// ends at `end`.
pub fn write_plain_item<'a, W: TextWrite, V: Value, E: Escaper>(
    sink: &mut Sink<'_, W>,
    item: &'a Formattable<'a, V>,
    end: usize,
) -> Result<(), Error>
    ensures writes { Writes W.written
        (value_means (shows_by E.shown V.shows) Display plain_spec end
        (slot_at Display (values_of (slots_of item.now))))
        sink.old sink.new (result_answer result) }
{
    sink.put_plain::<V, E>(item.slot(Trait::Display), end)?;
    Ok(())
}

/// Returns the value in a slot of an item.
#[inline(always)]
pub fn slot_of<'a, V>(item: &Formattable<'a, V>, wanted: Trait) -> Option<&'a V>
    ensures slot { option_copied result ≡ slot_at wanted (values_of (slots_of item.now)) }
{
    item.slot(wanted)
}

/// Returns the items that a range chooses of the list under a name.
#[inline(always)]
pub fn chosen_list<'a, C: Context>(
    environment: &Environment<'a, C, C::Object>,
    look_up: LookUp<'_>,
    range: Option<Range>,
    spec: &Spec,
) -> Result<&'a [Formattable<'a, C::Object>], Error>
    ensures chosen { let x = look_up.entry in MatchResult result
        (λ items. IsChosen (environment_of C.finds environment.now) (chars x.name.now) x.start range
        spec.now x.end (map slots_of items.now))
        (λ error. IsNotChosen (environment_of C.finds environment.now) (chars x.name.now) x.start
        range spec.now x.end error) }
    ensures items { IfOk result
        (λ items. ChosenUnder (environment_of C.finds environment.now)
        (chars look_up.entry.name.now) range (map slots_of items.now)) }
    ensures allowed { IfOk result (λ _. forbids_list spec.now ≡ false) }
{
    let Some(found) = environment.items(look_up.name) else {
        return Err(environment.missing(look_up.name, look_up.start));
    };
    let Some(items) = found else {
        return Err(Error::MissingTraitImpl(Trait::Iter, look_up.end));
    };
    if forbids_list(spec) {
        return Err(Error::Parse(ParseError::Iter(look_up.end)));
    }
    Ok(choose(items, range))
}

/// Makes an empty buffer for the text of a list that is made whole before it is written. The buffer
/// takes at most as many bytes as the sink has room for.
pub fn list_buffer<'a, W: TextWrite, C: Context>(
    sink: &Sink<'_, W>,
    environment: &Environment<'a, C, C::Object>,
) -> Bounded
    ensures empty { bounded_writer result
        ≡ record { text = []; refused = false; origin = plain } }
    ensures most { HasRoom W.limit sink.now result.most }
{
    Bounded::new(environment.alloc(), sink.room())
}
