//! Names that lend what they stand for, and the map that is filled with them.
ghost use Rattle.std.specs.Prelude.{◌≡◌, ℕ, List, map, None, Err, OnOk, IfOk, IfErr, IsOkAnd, ⊤};
ghost use Rattle.std.specs.Str.{chars};
ghost use Rattle.interpolator_eval.specs.NameMaps.{stored_slots};
ghost use Rattle.interpolator_eval.specs.Slots.{slots_of, with_iter, Slots};
ghost use Rattle.interpolator_syntax.specs.Faults.{answer_of, no_memory};
ghost use Rattle.interpolator.specs.Lent.{lent_name, with_added, with_lent};
ghost use Rattle.interpolator.specs.NamedValues.{with_traits};

use crate::values::and_slots;
use interpolator_eval::{ContextMap, Formattable};
use interpolator_render::Trait;
use interpolator_syntax::Error;
use std::alloc::{AllocError, Global};

/// A name that lends a value in the slots of some traits, or a list.
pub struct Lent<'a, V> {
    name: &'a str,
    value: Option<&'a V>,
    traits: &'a [Trait],
    items: Option<&'a [Formattable<'a, V>]>,
}

impl<'a, V> Clone for Lent<'a, V> {
    ghost is_clone = { λ old new. new ≡ old };

    ghost is_infallible = { λ _. ⊤ };

    fn clone(&self) -> Result<Self, AllocError> {
        Ok(*self)
    }
}

impl<'a, V> Copy for Lent<'a, V> {}

/// A name that lends a value in the slots of these traits.
#[inline(always)]
pub fn lent_value<'a, V>(name: &'a str, value: &'a V, traits: &'a [Trait]) -> Lent<'a, V>
    ensures name { lent_name result ≡ chars name.now }
    ensures slots { (tree : Slots V) →
        with_lent result tree ≡ with_traits traits.now tree value.now }
{
    Lent {
        name,
        value: Some(value),
        traits,
        items: None,
    }
}

/// A name that lends a list.
#[inline(always)]
pub fn lent_list<'a, V>(name: &'a str, items: &'a [Formattable<'a, V>]) -> Lent<'a, V>
    ensures name { lent_name result ≡ chars name.now }
    ensures slots { (tree : Slots V) →
        with_lent result tree ≡ with_iter tree (map slots_of items.now) }
{
    Lent {
        name,
        value: None,
        traits: &[],
        items: Some(items),
    }
}

/// Fills the slots of what is lent too.
fn and_slots_of<'a, V>(before: Formattable<'a, V>, lent: &Lent<'a, V>) -> Formattable<'a, V>
    ensures { slots_of result ≡ with_lent lent.now (slots_of before.entry) }
{
    match lent.items {
        Some(items) => before.and_iter(items),
        None => match lent.value {
            Some(value) => and_slots(before, lent.traits, value),
            None => before,
        },
    }
}

/// Adds the slots of a name to those that it has in the map.
#[tactic(auto, using(crate::proofs::LentLemmas::entry_added))]
fn add_lent<'a, V>(map: &mut ContextMap<'a, V>, lent: &Lent<'a, V>) -> Result<(), Error>
    ensures added { OnOk result ((name : List ℕ) →
        stored_slots map.new name ≡ with_added name lent.now (stored_slots map.old name)) }
    ensures refused { IfErr result (λ error. answer_of error ≡ no_memory) }
{
    let slots = map.entry(lent.name)?;
    *slots = and_slots_of(*slots, lent);
    Ok(())
}

/// A map without names.
pub fn no_names<'a, V>(alloc: Global) -> Result<ContextMap<'a, V>, Error>
    ensures { IsOkAnd result (λ made. (name : List ℕ) → stored_slots made name ≡ None) }
{
    Ok(ContextMap::new(alloc))
}

/// The map with this name too; its slots are added to those of the same name. An error stays.
pub fn and_lent<'a, V>(
    map: Result<ContextMap<'a, V>, Error>,
    lent: Lent<'a, V>,
) -> Result<ContextMap<'a, V>, Error>
    ensures names { IfOk map.entry (λ before. IfOk result (λ made. (name : List ℕ) →
        stored_slots made name ≡ with_added name lent.entry (stored_slots before name))) }
    ensures refused { IfOk map.entry (λ _.
        IfErr result (λ error. answer_of error ≡ no_memory)) }
    ensures error { IfErr map.entry (λ error. result ≡ Err error) }
{
    match map {
        Err(error) => Err(error),
        Ok(mut map) => {
            add_lent(&mut map, &lent)?;
            Ok(map)
        }
    }
}
