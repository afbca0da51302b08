//! The faults that a format has by itself, and with an example of what is declared.

ghost use Rattle.std.specs.Prelude.{◌≡◌, IfOk, IfErr, map};
ghost use Rattle.std.specs.{List.filter, Str.chars};
ghost use Rattle.interpolator.specs.Faults.{answer_of, fault, no_memory};
ghost use Rattle.interpolator.specs.{Places.outermost, Template.NodeChecks.text_faults};
ghost use Rattle.catalogue.specs.Examples.{example_faults, example_of, faults_of, is_own_reply};
ghost use Rattle.catalogue.specs.{Declarations.declared_by, Entries.held_by};
ghost use Rattle.words.specs.Declarations.{as_declaration};

use crate::declarations::Heading;
use crate::entries::{Object, entries_of, pairs_of};
use interpolator::{Bits, Error, Interpolate, Pairs, Template, View};
use interpolator_laws::checks::a_fault_of_its_own_is_that_of_some_piece;
use std::alloc::Global;
use words::{Declaration, Kind};

/// An example of a text: a character, which can be formatted under the same traits as any text.
const TEXT: View<'static> = View::Character('a');

/// An example of a whole number.
const NUMBER: View<'static> = View::Signed(0, Bits::B128);

/// An example of a decimal, and of a float: both can be formatted under the same traits.
const DECIMAL: View<'static> = View::Decimal { units: 0, scale: 0 };

/// An example of a declaration.
fn example_of<'a>(alloc: Global, declared: &Declaration<'a>) -> Result<Object<'a>, Error>
    ensures example { IfOk result (λ object.
        held_by object ≡ example_of (as_declaration declared.now)) }
    ensures refused { IfErr result (λ error. answer_of error ≡ no_memory) }
{
    let mut items = Vec::with_capacity(alloc, 1)?;
    items.push(TEXT)?;
    let value = match declared.kind {
        Kind::Number => NUMBER,
        Kind::Decimal => DECIMAL,
        Kind::Float => DECIMAL,
        Kind::Text => TEXT,
        Kind::List => TEXT,
    };
    Ok(Object {
        name: declared.name,
        kind: declared.kind,
        value,
        items,
    })
}

/// An example of each declaration.
fn examples_of<'a>(alloc: Global, declared: &[Declaration<'a>]) -> Result<Vec<Object<'a>>, Error>
    ensures examples { IfOk result (λ objects.
        map held_by objects.items ≡ map example_of (map as_declaration declared.now)) }
    ensures refused { IfErr result (λ error. answer_of error ≡ no_memory) }
{
    let mut objects = Vec::with_capacity(alloc, declared.len())?;
    for one in declared {
        objects.push(example_of(alloc, one)?)?;
    }
    Ok(objects)
}

/// All faults that a format has, by itself or with an example of each declaration.
fn faults_with(
    alloc: Global,
    template: &Template,
    declared: &[Declaration<'_>],
) -> Result<Vec<Error>, Error>
    ensures all { IfOk result (λ errors. map answer_of errors.items
        ≡ map fault (example_faults (map as_declaration declared.now) template.now)) }
    ensures refused { IfErr result (λ error. answer_of error ≡ no_memory) }
{
    let examples = examples_of(alloc, declared)?;
    let entries = entries_of(alloc, examples.as_slice())?;
    let pairs = pairs_of(alloc, entries.as_slice())?;
    Pairs(&pairs).template_faults(alloc, template)
}

/// Whether a format has a fault by itself, whatever it is given.
fn is_own(error: &Error) -> bool
    ensures { result ≡ is_own_reply (answer_of error.now) }
{
    match error {
        Error::Parse(_) => true,
        Error::UnsupportedOption(_, _, _) => true,
        _ => false,
    }
}

/// Those of some faults that a format has by itself.
fn own_of(errors: Vec<Error>) -> Vec<Error>
    ensures { map answer_of result.items ≡ filter is_own_reply (map answer_of errors.items) }
{
    let mut own = errors;
    own.retain(|error| is_own(error));
    own
}

/// All faults that a format has by itself.
fn own_faults(alloc: Global, template: &Template) -> Result<Vec<Error>, Error>
    ensures all { IfOk result (λ errors. map answer_of errors.items
        ≡ map fault (text_faults (outermost (chars template.now)))) }
    ensures refused { IfErr result (λ error. answer_of error ≡ no_memory) }
{
    a_fault_of_its_own_is_that_of_some_piece();
    let errors = faults_with(alloc, template, &[])?;
    Ok(own_of(errors))
}

/// All faults that a format has: by itself, if its line declares nothing, or else with an example
/// of each declaration, too.
pub fn faults_of(
    alloc: Global,
    template: &Template,
    heading: &Heading<'_>,
) -> Result<Vec<Error>, Error>
    ensures all { IfOk result (λ errors. map answer_of errors.items
        ≡ map fault (faults_of (declared_by heading.now) template.now)) }
    ensures refused { IfErr result (λ error. answer_of error ≡ no_memory) }
{
    match heading {
        Heading::Plain => own_faults(alloc, template),
        Heading::Declares(declared) => faults_with(alloc, template, declared.as_slice()),
        Heading::Broken(_) => Ok(Vec::new(alloc)),
    }
}
