//! The values that a format gets: for each name that its line declares, that of the last word.

ghost use Rattle.std.specs.Prelude.{◌≡◌, ◌↔◌, IfOk, IfErr, IsTrue, MatchOption, map, string_bytes};
ghost use Rattle.std.specs.Option.{option_copied};
ghost use Rattle.interpolator.specs.Faults.{answer_of, no_memory};
ghost use Rattle.catalogue.specs.Picks.{HasPick, IsPicked, IsPickedOrLacks, last_named, shape_of};
ghost use Rattle.catalogue.specs.Picks.{report_of_missing_word};
ghost use Rattle.catalogue.specs.{Declarations.declared_by, Declarations.these, Files.as_line};
ghost use Rattle.words.specs.Declarations.{as_declaration};

use crate::declarations::Heading;
use crate::entries::{Entry, Object, entries_of, entry_of};
use crate::files::Line;
use interpolator::Error;
use std::alloc::{AllocError, Global};
use words::{Declaration, Kind};

/// The values that a format gets.
#[derive(Drop)]
pub enum Picked<'a> {
    /// These values, in the order of the declarations.
    Values(Vec<Entry<'a>>),
    /// Under the name of this declaration there is no value, or one of another kind.
    Lacks(Declaration<'a>),
}

/// The last object with a name.
pub fn last_named<'o, 'a>(objects: &'o [Object<'a>], name: &str) -> Option<&'o Object<'a>>
    ensures { option_copied result ≡ last_named objects.now name.now }
{
    objects.iter().rev().find(|object| object.name == name)
}

/// Whether a kind is the one that is wanted.
fn is_kind(kind: Kind, wanted: Kind) -> bool
    ensures { IsTrue result ↔ (kind ≡ wanted) }
{
    kind == wanted
}

/// The object for a declaration: the last one with its name, if it has its kind.
fn pick_for<'o, 'a>(objects: &'o [Object<'a>], declared: &Declaration<'_>) -> Option<&'o Object<'a>>
    ensures { MatchOption result (¬ HasPick objects.now (as_declaration declared.now))
        (λ object. IsPicked objects.now (as_declaration declared.now) object.now) }
{
    let object = last_named(objects, declared.name)?;
    if is_kind(object.kind, declared.kind) {
        Some(object)
    } else {
        None
    }
}

/// The object for each declaration, or the first declaration without one.
fn picks_for<'o>(
    alloc: Global,
    objects: &'o [Object<'o>],
    declared: &[Declaration<'o>],
) -> Result<Picked<'o>, Error>
    ensures picked { IfOk result (λ picked.
        IsPickedOrLacks (these (map as_declaration declared.now)) objects.now picked) }
    ensures refused { IfErr result (λ error. answer_of error ≡ no_memory) }
{
    let mut entries = Vec::with_capacity(alloc, declared.len())?;
    for one in declared {
        match pick_for(objects, one) {
            Some(object) => entries.push(entry_of(alloc, object)?)?,
            None => return Ok(Picked::Lacks(*one)),
        }
    }
    Ok(Picked::Values(entries))
}

/// The values that a format gets: for each declaration of its line the last object with its name,
/// which has to be of its kind; or all objects, if the line declares nothing.
pub fn picks_of<'o>(
    alloc: Global,
    objects: &'o [Object<'o>],
    heading: &Heading<'o>,
) -> Result<Picked<'o>, Error>
    ensures picked { IfOk result (λ picked.
        IsPickedOrLacks (declared_by heading.now) objects.now picked) }
    ensures refused { IfErr result (λ error. answer_of error ≡ no_memory) }
{
    match heading {
        Heading::Declares(declared) => picks_for(alloc, objects, declared.as_slice()),
        Heading::Plain => Ok(Picked::Values(entries_of(alloc, objects)?)),
        Heading::Broken(_) => Ok(Picked::Values(entries_of(alloc, objects)?)),
    }
}

/// What follows the name in a word of a kind.
fn shape_of(kind: Kind) -> &'static str
    ensures { result.now ≡ shape_of kind }
{
    match kind {
        Kind::Text => "=TEXT",
        Kind::Number => ":=NUMBER",
        Kind::Decimal => ":.=DECIMAL",
        Kind::Float => ":~=FLOAT",
        Kind::List => "[]=ITEM,ITEM",
    }
}

/// Reports which word is missing for a declaration of a line.
pub fn report_of_missing_word(
    alloc: Global,
    line: &Line<'_, '_>,
    key: &str,
    lacking: &Declaration<'_>,
) -> Result<String, AllocError>
    ensures { IfOk result (λ reported. string_bytes reported
        ≡ report_of_missing_word (as_line line.now) key.now (as_declaration lacking.now)) }
{
    let file = line.file;
    let number = line.number;
    let name = lacking.name;
    let shape = shape_of(lacking.kind);
    let reported = format!(in alloc; "{file}:{number}: `{key}` wants `{name}{shape}`\n")?;
    Ok(reported)
}
