//! Values under names, and as pairs of a context.

ghost use Rattle.std.specs.Prelude.{◌≡◌, IfOk, IfErr, map};
ghost use Rattle.interpolator.specs.{Faults.answer_of, Faults.no_memory, Slots.slots_of};
ghost use Rattle.catalogue.specs.Entries.{entry_slots, held_by, held_by_entry, held_by_pair};

use interpolator::{Error, Formattable, View};
use std::alloc::Global;
use words::{Kind, as_items};

/// A name, and the views of the value under it.
#[derive(Drop)]
pub struct Object<'a> {
    pub name: &'a str,
    pub kind: Kind,
    /// The view of a text, a whole number, a decimal or a float.
    pub value: View<'a>,
    /// The views of the items of a list.
    pub items: Vec<View<'a>>,
}

/// A name with its value borrowed, and the items of a list with their slots filled.
#[derive(Drop)]
pub struct Entry<'a> {
    pub name: &'a str,
    pub kind: Kind,
    pub value: &'a View<'a>,
    pub items: Vec<Formattable<'a, View<'a>>>,
}

/// An object, borrowed.
pub fn entry_of<'e, 'a>(alloc: Global, object: &'e Object<'a>) -> Result<Entry<'e>, Error>
    ensures entry { IfOk result (λ entry. held_by_entry entry ≡ held_by object.now) }
    ensures refused { IfErr result (λ error. answer_of error ≡ no_memory) }
{
    Ok(Entry {
        name: object.name,
        kind: object.kind,
        value: &object.value,
        items: as_items(alloc, object.items.as_slice())?,
    })
}

/// Each object, borrowed.
pub fn entries_of<'e, 'a>(alloc: Global, objects: &'e [Object<'a>]) -> Result<Vec<Entry<'e>>, Error>
    ensures entries { IfOk result (λ entries.
        map held_by_entry entries.items ≡ map held_by objects.now) }
    ensures refused { IfErr result (λ error. answer_of error ≡ no_memory) }
{
    let mut entries = Vec::with_capacity(alloc, objects.len())?;
    for object in objects {
        entries.push(entry_of(alloc, object)?)?;
    }
    Ok(entries)
}

/// The slots that a value fills, by its kind: a text those of debug and display, a whole number all
/// those of an integer, a decimal or a float those of debug, display and exponents, a list that of
/// its items.
fn slots_by<'p, 'e>(entry: &'p Entry<'e>) -> Formattable<'p, View<'e>>
    ensures { slots_of result ≡ entry_slots entry.now }
{
    match entry.kind {
        Kind::Text => Formattable::debug_display(entry.value),
        Kind::Number => Formattable::integer(entry.value),
        Kind::Decimal => Formattable::float(entry.value),
        Kind::Float => Formattable::float(entry.value),
        Kind::List => Formattable::iter(entry.items.as_slice()),
    }
}

/// Each value under its name, as pairs of a context.
pub fn pairs_of<'p, 'e>(
    alloc: Global,
    entries: &'p [Entry<'e>],
) -> Result<Vec<(&'p str, Formattable<'p, View<'e>>)>, Error>
    ensures pairs { IfOk result (λ pairs.
        map held_by_pair pairs.items ≡ map held_by_entry entries.now) }
    ensures refused { IfErr result (λ error. answer_of error ≡ no_memory) }
{
    let mut pairs = Vec::with_capacity(alloc, entries.len())?;
    for entry in entries {
        pairs.push((entry.name, slots_by(entry)))?;
    }
    Ok(pairs)
}
