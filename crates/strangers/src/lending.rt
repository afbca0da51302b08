//! The values of words, borrowed by the pairs of a context.
ghost use Rattle.std.specs.Prelude.{◌≡◌, IfErr, IfOk, map};
ghost use Rattle.interpolator.specs.{Slots.slots_of, declared.Error.TheVariants.NoMemory};
ghost use Rattle.strangers.specs.Values.{given_slots, lent_slots, word_named, entry_named};
ghost use Rattle.strangers.specs.Values.{pair_named};

use crate::values::{Datum, Given, Word};
use interpolator::{Error, Formattable, items_of};
use std::alloc::Global;

/// The value of a word, borrowed.
#[derive(Drop)]
pub enum Lent<'a> {
    /// One value.
    One(&'a Datum<'a>),
    /// The items of a list.
    Many(Vec<Formattable<'a, Datum<'a>>>),
}

/// A name, and the value under it, borrowed.
#[derive(Drop)]
pub struct Entry<'a> {
    name: &'a str,
    lent: Lent<'a>,
}

/// Borrows the value of a word.
fn lent_of<'e, 'a>(alloc: Global, given: &'e Given<'a>) -> Result<Lent<'e>, Error>
    ensures ok { IfOk result (λ lent. lent_slots lent ≡ given_slots given.now) }
    ensures err { IfErr result (λ error. error ≡ NoMemory) }
{
    match given {
        Given::One(value) => Ok(Lent::One(value)),
        Given::Many(values) => Ok(Lent::Many(items_of(alloc, values.as_slice())?)),
    }
}

/// Borrows the values of the words.
///
/// # Errors
///
/// `NoMemory`.
pub fn entries_of<'e, 'a>(alloc: Global, words: &'e [Word<'a>]) -> Result<Vec<Entry<'e>>, Error>
    ensures ok { IfOk result (λ entries. map entry_named entries.items ≡ map word_named words.now) }
    ensures err { IfErr result (λ error. error ≡ NoMemory) }
{
    let mut entries = Vec::with_capacity(alloc, words.len())?;
    for word in words {
        entries.push(Entry {
            name: word.name,
            lent: lent_of(alloc, &word.given)?,
        })?;
    }
    Ok(entries)
}

/// One value, or a list.
fn formattable_of<'e, 'a>(lent: &'e Lent<'a>) -> Formattable<'e, Datum<'e>>
    ensures { slots_of result ≡ lent_slots lent.now }
{
    match lent {
        Lent::One(value) => Formattable::integer(value),
        Lent::Many(items) => Formattable::iter(items.as_slice()),
    }
}

/// The borrowed values as pairs of a context.
///
/// # Errors
///
/// `NoMemory`.
pub fn pairs_of<'e, 'a>(
    alloc: Global,
    entries: &'e [Entry<'a>],
) -> Result<Vec<(&'e str, Formattable<'e, Datum<'e>>)>, Error>
    ensures ok { IfOk result (λ pairs. map pair_named pairs.items ≡ map entry_named entries.now) }
    ensures err { IfErr result (λ error. error ≡ NoMemory) }
{
    let mut pairs = Vec::with_capacity(alloc, entries.len())?;
    for entry in entries {
        pairs.push((entry.name, formattable_of(&entry.lent)))?;
    }
    Ok(pairs)
}
