//! Contexts, in which a format finds its values.
ghost use Rattle.std.specs.Prelude.{◌≡◌, ℕ, List, Option};
ghost use Rattle.std.specs.{Option.option_copied, Option.option_map, Str.chars};
ghost use Rattle.interpolator_eval.specs.Slots.{Slots, slots_of};
ghost use Rattle.interpolator_eval.specs.Contexts.{found_by_str, found_by_text};

use crate::slots::Formattable;
use interpolator_render::Value;
use std::collections::HashMap;
use std::marker::PhantomData;

/// Finds what the names of a format stand for.
///
/// What a name stands for depends on the context and on the characters of the name alone.
pub trait Context {
    /// The type of the values that are written.
    type Object: Value;

    // the tree of what is under a name
    ghost finds: { Self → List ℕ → Option (Slots Self.Object) };

    /// Returns what a name stands for, or `None` if it stands for nothing. It allocates nothing.
    ///
    /// ```text
    /// let context = Pairs(&[("n", Formattable::display(&n))]);
    /// context.get("n").is_some()    // true
    /// context.get("m").is_some()    // false
    /// ```
    fn get(&self, key: &str) -> Option<Formattable<'_, Self::Object>>
        ensures found { option_map slots_of result ≡ finds self.now (chars key.now) };
}

// Copies what a map lends, inlined where it is used.
#[inline(always)]
pub(crate) fn copied<'a, V>(lent: Option<&Formattable<'a, V>>) -> Option<Formattable<'a, V>>
    ensures { result ≡ option_copied lent.entry }
{
    match lent {
        Some(found) => Some(*found),
        None => None,
    }
}

impl<'k, 'a, V: Value> Context for HashMap<&'k str, Formattable<'a, V>> {
    type Object = V;

    ghost finds = { λ map name. found_by_str map name };

    #[inline(always)]
    fn get(&self, key: &str) -> Option<Formattable<'_, V>> {
        copied(HashMap::get(self, key))
    }
}

impl<'a, V: Value> Context for HashMap<String, Formattable<'a, V>> {
    type Object = V;

    ghost finds = { λ map name. found_by_text map name };

    #[inline(always)]
    fn get(&self, key: &str) -> Option<Formattable<'_, V>> {
        let found = HashMap::get(self, key);
        copied(found)
    }
}

/// A map with `&str` keys, in a type that names one lifetime, although that of the map names two.
#[derive(Drop)]
pub struct ByNames<'m, V> {
    map: &'m HashMap<&'m str, Formattable<'m, V>>,
    of: PhantomData<&'m V>,
}

impl<'m, V> ByNames<'m, V> {
    /// Wraps a map.
    #[inline(always)]
    pub fn new(map: &'m HashMap<&'m str, Formattable<'m, V>>) -> Self
        ensures { result.map.now ≡ map.now }
    {
        ByNames {
            map,
            of: PhantomData,
        }
    }
}

impl<'m, V: Value> Context for ByNames<'m, V> {
    type Object = V;

    ghost finds = { λ names name. found_by_str names.map.now name };

    #[inline(always)]
    fn get(&self, key: &str) -> Option<Formattable<'_, V>> {
        copied(HashMap::get(self.map, key))
    }
}
