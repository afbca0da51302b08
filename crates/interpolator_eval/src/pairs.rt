//! A context made of pairs of a name and its value.
ghost use Rattle.std.specs.Prelude.{◌≡◌, ◌≤◌, ◌+◌, ⊤, length, option_map, true};
ghost use Rattle.std.specs.Option.{option_copied};
ghost use Rattle.interpolator_eval.specs.Contexts.{found_by_pairs, last_under};
ghost use Rattle.interpolator_eval.specs.Names.{AreEnds, is_word_size};

use crate::context::Context;
use crate::names::{SHORT, back_of, front_of, has_ends};
use crate::slots::Formattable;
use interpolator_render::Value;
use std::alloc::AllocError;

/// A context made of pairs: a name, and the [`Formattable`] that it stands for.
///
/// If a name occurs more than once, its last pair counts. Names are compared by their characters,
/// from the last pair to the first, which costs less than a map if there are few names. Making a
/// `Pairs` allocates nothing.
///
/// ```text
/// struct Guest<'a> { name: &'a str, city: &'a str }
///
/// for guest in guests {
///     Pairs(&[
///         ("name", Formattable::display(&guest.name)),
///         ("city", Formattable::display(&guest.city)),
///     ])
///     .write_to(alloc, &mut out, "Hello {name}, how is {city}?\n")?;
/// }
/// ```
pub struct Pairs<'a, V>(pub &'a [(&'a str, Formattable<'a, V>)]);

impl<'a, V> Clone for Pairs<'a, V> {
    ghost is_clone = { λ old new. new ≡ old };

    ghost is_infallible = { λ _. ⊤ };

    fn clone(&self) -> Result<Self, AllocError> {
        Ok(*self)
    }
}

impl<'a, V> Copy for Pairs<'a, V> {}

// Returns the last of a few pairs of a name with these ends.
#[inline(always)]
fn last_of_few<'s, 'k, T, const N: usize>(
    pairs: &'s [(&'k str, T)],
    name: &[u8],
    front: u64,
    back: u64,
) -> Option<&'s (&'k str, T)>
    requires ends { AreEnds N name.now front back }
    ensures { option_map (λ pair. pair.1) (option_copied result) ≡ last_under pairs.now name.now }
{
    let mut left = pairs.len();
    while left > 0 {
        left -= 1;
        if has_ends::<N>(pairs[left].0.as_bytes(), name, front, back) {
            return Some(&pairs[left]);
        }
    }
    None
}

// Returns the last of four pairs of a name with these ends.
#[inline(always)]
fn last_of_four<'s, 'k, T, const N: usize>(
    four: &'s [(&'k str, T)],
    name: &[u8],
    front: u64,
    back: u64,
) -> Option<&'s (&'k str, T)>
    requires four { length four.now ≡ 4 }
    requires ends { AreEnds N name.now front back }
    ensures { option_map (λ pair. pair.1) (option_copied result) ≡ last_under four.now name.now }
{
    let [first, second, third, last] = four else {
        return None;
    };
    if has_ends::<N>(last.0.as_bytes(), name, front, back) {
        Some(last)
    } else if has_ends::<N>(third.0.as_bytes(), name, front, back) {
        Some(third)
    } else if has_ends::<N>(second.0.as_bytes(), name, front, back) {
        Some(second)
    } else if has_ends::<N>(first.0.as_bytes(), name, front, back) {
        Some(first)
    } else {
        None
    }
}

// Returns the last pair of a name with these ends. Four pairs at a time take one test for the end.
#[inline(always)]
fn last_of_many<'s, 'k, T, const N: usize>(
    pairs: &'s [(&'k str, T)],
    name: &[u8],
    front: u64,
    back: u64,
) -> Option<&'s (&'k str, T)>
    requires ends { AreEnds N name.now front back }
    ensures { option_map (λ pair. pair.1) (option_copied result) ≡ last_under pairs.now name.now }
{
    let mut left = pairs.len();
    while left >= 4 {
        left -= 4;
        if let Some(pair) = last_of_four::<T, N>(&pairs[left..left + 4], name, front, back) {
            return Some(pair);
        }
    }
    last_of_few::<T, N>(&pairs[..left], name, front, back)
}

// Returns the last pair of a name of `N` to twice `N` bytes.
#[tactic(auto, unfolding(crate::specs::Names::AreEnds))]
#[inline(always)]
fn last_by_ends<'s, 'k, T, const N: usize>(
    pairs: &'s [(&'k str, T)],
    name: &[u8],
) -> Option<&'s (&'k str, T)>
    requires size { is_word_size N ≡ true }
    requires least { N ≤ length name.now }
    requires most { length name.now ≤ N + N }
    ensures { option_map (λ pair. pair.1) (option_copied result) ≡ last_under pairs.now name.now }
{
    last_of_many::<T, N>(pairs, name, front_of::<N>(name), back_of::<N>(name))
}

// Returns the last pair of a name of any length.
#[inline(never)]
fn last_of_any<'s, 'k, T>(pairs: &'s [(&'k str, T)], name: &str) -> Option<&'s (&'k str, T)>
    ensures { option_map (λ pair. pair.1) (option_copied result) ≡ last_under pairs.now name.now }
{
    pairs.iter().rev().find(|pair| pair.0 == name)
}

// Returns the last pair of this name. It is not inlined, so that its few words stay in registers.
#[inline(never)]
fn last_pair<'s, 'k, T>(pairs: &'s [(&'k str, T)], name: &str) -> Option<&'s (&'k str, T)>
    ensures { option_map (λ pair. pair.1) (option_copied result) ≡ last_under pairs.now name.now }
{
    let count = name.len();
    if count == 0 || count > SHORT {
        last_of_any(pairs, name)
    } else if count <= 2 {
        last_by_ends::<T, 1>(pairs, name.as_bytes())
    } else if count <= 4 {
        last_by_ends::<T, 2>(pairs, name.as_bytes())
    } else if count <= 8 {
        last_by_ends::<T, 4>(pairs, name.as_bytes())
    } else {
        last_by_ends::<T, 8>(pairs, name.as_bytes())
    }
}

impl<'a, V: Value> Context for Pairs<'a, V> {
    type Object = V;

    ghost finds = { λ pairs name. found_by_pairs pairs.0.now name };

    #[inline(always)]
    fn get(&self, key: &str) -> Option<Formattable<'_, V>> {
        match last_pair(self.0, key) {
            Some(pair) => Some(pair.1),
            None => None,
        }
    }
}
