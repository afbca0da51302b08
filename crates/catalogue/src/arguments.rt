//! The arguments of a translation beside those of its message.

ghost use Rattle.std.specs.Prelude.{◌≡◌, ◌↔◌, ◌||◌, IfErr, IfOk, IsTrue, map, string_bytes};
ghost use Rattle.std.specs.Str.{chars};
ghost use Rattle.interpolator.specs.Faults.{answer_of, no_memory};
ghost use Rattle.interpolator_syntax.specs.Arguments.{argument_of};
ghost use Rattle.catalogue.specs.Reported.{Each};
ghost use Rattle.catalogue.specs.Translations.{HasSame, IsKnown, IsPlainItem, IsSame, TellsLacking};
ghost use Rattle.catalogue.specs.Translations.{TellsOther, arguments_in, has_name};
ghost use Rattle.catalogue.specs.Translations.{lacking_name, what_is_other};

use crate::files::File;
use crate::po_reports::reported_in_strings;
use crate::translations::template_of;
use crate::unused::is_name;
use interpolator::{Argument, Error, Kind, Trait};
use po::Placed;
use std::alloc::{AllocError, Global};

/// Whether two arguments write the same under the same trait, or are both lists.
fn is_same(one: &Argument<'_>, other: &Argument<'_>) -> bool
    ensures { IsTrue result ↔ IsSame (argument_of one.now) (argument_of other.now) }
{
    match (&one.kind, &other.kind) {
        (Kind::Value(a), Kind::Value(b)) => is_name(one.name, other.name) && a == b,
        (Kind::List { .. }, Kind::List { .. }) => is_name(one.name, other.name),
        _ => false,
    }
}

/// Whether an argument displays an item of a list, which may always be.
fn is_plain_item(one: &Argument<'_>) -> bool
    ensures { IsTrue result ↔ IsPlainItem (argument_of one.now) }
{
    match &one.kind {
        Kind::Value(way) => is_name(one.name, "") && *way == Trait::Display,
        _ => false,
    }
}

/// Whether one of some arguments is the same as this one.
fn has_same(arguments: &[Argument<'_>], one: &Argument<'_>) -> bool
    ensures { IsTrue result ↔ HasSame (map argument_of arguments.now) (argument_of one.now) }
{
    for other in arguments {
        if is_same(one, other) {
            return true;
        }
    }
    false
}

/// Whether an argument of a translation is one of its message, or displays an item.
fn is_known(id: &[Argument<'_>], plural: &[Argument<'_>], one: &Argument<'_>) -> bool
    ensures { IsTrue result ↔ IsKnown (map argument_of id.now) (map argument_of plural.now)
        (argument_of one.now) }
{
    is_plain_item(one) || has_same(id, one) || has_same(plural, one)
}

/// Whether one of some arguments has a name.
fn has_name(arguments: &[Argument<'_>], name: &str) -> bool
    ensures { result ≡ has_name (map argument_of arguments.now) (chars name.now) }
{
    for one in arguments {
        if is_name(one.name, name) {
            return true;
        }
    }
    false
}

/// Whether one of the arguments of a message has a name.
fn is_named(id: &[Argument<'_>], plural: &[Argument<'_>], name: &str) -> bool
    ensures { result ≡ has_name (map argument_of id.now) (chars name.now)
        || has_name (map argument_of plural.now) (chars name.now) }
{
    has_name(id, name) || has_name(plural, name)
}

/// What is reported of an argument that its message does not have, by whether it has its name.
fn what_is_other(alloc: Global, is_there: bool, name: &str) -> Result<String, AllocError>
    ensures { IfOk result (λ what. string_bytes what ≡ what_is_other is_there (chars name.now)) }
{
    if is_there {
        let what = format!(in alloc; "the message has `{{{name}}}` otherwise")?;
        return Ok(what);
    }
    let what = format!(in alloc; "the message has no `{{{name}}}`")?;
    Ok(what)
}

/// What is reported of a name that a translation lacks.
fn lacking_name(alloc: Global, name: &str) -> Result<String, AllocError>
    ensures { IfOk result (λ what. string_bytes what ≡ lacking_name (chars name.now)) }
{
    let what = format!(in alloc; "the translation lacks `{{{name}}}`")?;
    Ok(what)
}

/// Reports an argument of a translation that neither text of its message has.
fn report_of_other(
    alloc: Global,
    file: &File,
    strings: &[Placed],
    one: &Argument<'_>,
    id: &[Argument<'_>],
    plural: &[Argument<'_>],
) -> Result<String, Error>
    ensures reported { IfOk result (λ reported. TellsOther file.now (map argument_of id.now)
        (map argument_of plural.now) (argument_of one.now) (string_bytes reported)) }
    ensures refused { IfErr result (λ error. answer_of error ≡ no_memory) }
{
    if is_known(id, plural, one) {
        return Ok(String::new(alloc));
    }
    let what = what_is_other(alloc, is_named(id, plural, one.name), one.name)?;
    let reported = reported_in_strings(alloc, file, strings, one.name_place, what.as_str())?;
    Ok(reported)
}

/// Reports the arguments of a translation that neither text of its message has.
pub fn report_of_others(
    alloc: Global,
    file: &File,
    strings: &[Placed],
    found: &[Argument<'_>],
    id: &[Argument<'_>],
    plural: &[Argument<'_>],
) -> Result<String, Error>
    ensures reported { IfOk result (λ reported. Each
        (TellsOther file.now (map argument_of id.now) (map argument_of plural.now))
        (map argument_of found.now) (string_bytes reported)) }
    ensures refused { IfErr result (λ error. answer_of error ≡ no_memory) }
{
    let mut reported = String::new(alloc);
    for one in found {
        let more = report_of_other(alloc, file, strings, one, id, plural)?;
        reported.push_str(more.as_str())?;
    }
    Ok(reported)
}

/// Reports the name of an argument of a message, if its translation, which has these, lacks it.
fn report_of_name(
    alloc: Global,
    file: &File,
    strings: &[Placed],
    found: &[Argument<'_>],
    one: &Argument<'_>,
) -> Result<String, Error>
    ensures reported { IfOk result (λ reported. TellsLacking file.now (map argument_of found.now)
        (argument_of one.now) (string_bytes reported)) }
    ensures refused { IfErr result (λ error. answer_of error ≡ no_memory) }
{
    if has_name(found, one.name) {
        return Ok(String::new(alloc));
    }
    let what = lacking_name(alloc, one.name)?;
    let reported = reported_in_strings(alloc, file, strings, 0, what.as_str())?;
    Ok(reported)
}

/// Reports the names of a message that its translation lacks.
pub fn report_of_lacking_names(
    alloc: Global,
    file: &File,
    strings: &[Placed],
    wanted: &[Argument<'_>],
) -> Result<String, Error>
    ensures reported { IfOk result (λ reported. Each (TellsLacking file.now (arguments_in strings.now))
        (map argument_of wanted.now) (string_bytes reported)) }
    ensures refused { IfErr result (λ error. answer_of error ≡ no_memory) }
{
    let template = template_of(alloc, strings)?;
    let found = template.arguments(alloc)?;
    let mut reported = String::new(alloc);
    for one in wanted {
        let more = report_of_name(alloc, file, strings, found.as_slice(), one)?;
        reported.push_str(more.as_str())?;
    }
    Ok(reported)
}
