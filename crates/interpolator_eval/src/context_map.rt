//! A map from names, filled name by name.
ghost use Rattle.std.specs.Prelude.{◌≡◌, ◌↔◌, ℕ, List, None, Some, IsTrue, ◌<◌, ◌≤◌, ◌+◌, length};
ghost use Rattle.std.specs.Prelude.{slice_get, true, false, IfOk, IfErr, OnOk, OnErr};
ghost use Rattle.std.specs.Option.{option_copied, option_copied_mut};
ghost use Rattle.std.specs.{Str.chars, String.string_bytes, Borrow.sem};
ghost use Rattle.interpolator_eval.specs.NameMaps.{under, under_bytes, name_count, stored_slots};
ghost use Rattle.interpolator_eval.specs.NameMaps.{HasPut, IsSame, HasAdded, HasNew, IsEntry};
ghost use Rattle.interpolator_eval.specs.NameMaps.{LendsUnder, LendsEntry};
ghost use Rattle.interpolator_eval.specs.NameNumbers.{ends_number, guess_for, is_of, name_number};
ghost use Rattle.interpolator_eval.specs.NameNumbers.{passes, remade};
ghost use Rattle.interpolator_eval.specs.Names.{AreEnds, is_word_size};

use crate::context::{Context, copied};
use crate::names::{SHORT, back_of, front_of};
use crate::numbered::{
    GUESSES, Numbered, index_of_guess, is_guessed_by, number_by, number_of, place_of,
    searched_place,
};
use crate::slots::Formattable;
use interpolator_render::Value;
use interpolator_syntax::Error;
use std::alloc::{AllocError, Global};
use std::collections::HashMap;
use std::marker::PhantomData;

/// A context that is filled name by name: each name stands for a [`Formattable`].
///
/// ```text
/// let name = View::from("Ann");
/// let words = View::from(12u32);
/// let mut map = ContextMap::new(alloc);
/// map.put("name", Formattable::debug_display(&name))?;
/// map.put("words", Formattable::integer(&words))?;
/// map.format(alloc, "{name:?}: {words} words")?    // "Ann": 12 words
/// ```
pub type ContextMap<'a, V> = NameMap<Formattable<'a, V>>;

// How many names are found by their numbers; further ones are in a map.
const FEW: usize = 32;

/// A map from names, which are compared by their characters. It keeps the allocator that `new`
/// takes, and copies each name that is put in. The first 32 names are found by numbers made of
/// their ends and lengths, further ones by a `HashMap`.
#[derive(Drop)]
pub struct NameMap<T> {
    few: Vec<Numbered<T>>,
    // where the name of a number may be among the few
    guesses: [u8; GUESSES],
    rest: HashMap<String, T>,
    alloc: Global,
    of: PhantomData<T>,
}

impl<T> NameMap<T> {
    /// Makes a map with no names. It allocates nothing.
    pub fn new(alloc: Global) -> NameMap<T>
        ensures names { (name : List ℕ) → under result name ≡ None }
        ensures count { name_count result ≡ 0 }
    {
        NameMap {
            few: Vec::new(alloc),
            guesses: [u8::MAX; GUESSES],
            rest: HashMap::new(alloc),
            alloc,
            of: PhantomData,
        }
    }

    /// Returns how many names the map has: 2 after `put` of `a`, `b` and `a` again.
    pub fn len(&self) -> usize
        ensures { result ≡ name_count self.now }
    {
        self.few.len() + self.rest.len()
    }

    /// Returns whether the map has no names.
    pub fn is_empty(&self) -> bool
        ensures { IsTrue result ↔ (name_count self.now ≡ 0) }
    {
        self.few.is_empty() && self.rest.is_empty()
    }

    // Finds the value under a name. It is not inlined, so that each use of a name is a short call.
    #[inline(never)]
    fn find(&self, name: &str) -> Option<&T>
        ensures { option_copied result ≡ under self.now (chars name.now) }
    {
        let count = name.len();
        if count == 0 || count > SHORT {
            self.find_any(name)
        } else if count <= 2 {
            self.find_by_ends::<1>(name)
        } else if count <= 4 {
            self.find_by_ends::<2>(name)
        } else if count <= 8 {
            self.find_by_ends::<4>(name)
        } else {
            self.find_by_ends::<8>(name)
        }
    }

    // Finds the value under a name of `N` to twice `N` bytes.
    #[tactic(auto, unfolding(crate::specs::Names::AreEnds))]
    #[inline(always)]
    fn find_by_ends<const N: usize>(&self, name: &str) -> Option<&T>
        requires size { is_word_size N ≡ true }
        requires least { N ≤ length name.now }
        requires most { length name.now ≤ N + N }
        requires number { name_number name.now ≡ ends_number N name.now }
        ensures { option_copied result ≡ under_bytes self.now name.now }
    {
        let bytes = name.as_bytes();
        self.find_from::<N>(name, front_of::<N>(bytes), back_of::<N>(bytes))
    }

    // Finds the value under a name of these ends: at the guessed place, or by a search.
    #[inline(always)]
    fn find_from<const N: usize>(&self, name: &str, front: u64, back: u64) -> Option<&T>
        requires ends { AreEnds N name.now front back }
        requires number { name_number name.now ≡ ends_number N name.now }
        ensures { option_copied result ≡ under_bytes self.now name.now }
    {
        let number = number_by::<N>(name.as_bytes(), front, back);
        let guess = usize::from(self.guesses[index_of_guess(number)]);
        if is_guessed_by::<T, N>(&self.few, guess, number, name.as_bytes(), front, back) {
            return Some(&self.few[guess].value);
        }
        self.search(number, name)
    }

    // Finds the value under a name that is not where it is guessed.
    #[inline(never)]
    fn search(&self, number: u64, name: &str) -> Option<&T>
        requires number { number ≡ name_number name.now }
        requires elsewhere { passes (is_of name.now) (slice_get self.now.few.items
            (guess_for self.now.guesses name.now)) ≡ false }
        ensures { option_copied result ≡ under_bytes self.now name.now }
    {
        let place = searched_place(&self.few, number, name);
        if place < self.few.len() {
            return Some(&self.few[place].value);
        }
        self.rest.get(name)
    }

    // Finds the value under a name of any length.
    #[inline(never)]
    fn find_any(&self, name: &str) -> Option<&T>
        ensures { option_copied result ≡ under_bytes self.now name.now }
    {
        let place = place_of(&self.few, &self.guesses, name);
        if place < self.few.len() {
            return Some(&self.few[place].value);
        }
        self.rest.get(name)
    }

    // Lends the value under a name, to be changed.
    fn lend(&mut self, name: &str) -> Option<&mut T>
        ensures* writes_back { sem 𝓛 (LendsUnder T.row self.entry (chars name.now) result) }
        ensures value { option_copied_mut result ≡ under self.old (chars name.now) }
    {
        let place = place_of(&self.few, &self.guesses, name);
        if place < self.few.len() {
            return Some(&mut self.few[place].value);
        }
        self.rest.get_mut(name)
    }
}

impl<T: Default + Drop> NameMap<T> {
    // Guesses that a name is at a place, unless an earlier name has this guess.
    fn guess(&mut self, index: usize, place: usize)
        requires index { index < 128 }
        ensures entries { self.new.few ≡ self.old.few }
        ensures rest { self.new.rest ≡ self.old.rest }
        ensures guesses { self.new.guesses ≡ remade self.old.guesses index place }
    {
        if usize::from(self.guesses[index]) >= place {
            self.guesses[index] = place as u8;
        }
    }

    // Puts an absent name in among the few, with a default value.
    fn add_few(&mut self, name: String) -> Result<(), AllocError>
        requires room { length self.now.few.items < 32 }
        requires absent { under_bytes self.now (string_bytes name) ≡ None }
        ensures ok { OnOk result (HasNew T.is_default self.old (string_bytes name) self.new) }
        ensures err { OnErr result (IsSame self.old self.new) }
    {
        let number = number_of(name.as_bytes());
        let place = self.few.len();
        self.few.push(Numbered {
            number,
            name,
            value: T::default(),
        })?;
        self.guess(index_of_guess(number), place);
        Ok(())
    }

    // Puts an absent name in among the rest, with a default value.
    fn add_rest(&mut self, name: String) -> Result<(), AllocError>
        requires absent { under_bytes self.now (string_bytes name) ≡ None }
        ensures ok { OnOk result (HasNew T.is_default self.old (string_bytes name) self.new) }
        ensures err { OnErr result (IsSame self.old self.new) }
    {
        self.rest.insert(name, T::default())?;
        Ok(())
    }

    // Puts an absent name in, among the few as long as there is room.
    fn add_new(&mut self, name: String) -> Result<(), AllocError>
        requires absent { under_bytes self.now (string_bytes name) ≡ None }
        ensures ok { OnOk result (HasNew T.is_default self.old (string_bytes name) self.new) }
        ensures err { OnErr result (IsSame self.old self.new) }
    {
        if self.few.len() < FEW {
            self.add_few(name)
        } else {
            self.add_rest(name)
        }
    }

    // Puts a name in, with a default value, if it is absent.
    #[tactic(auto, using(crate::proofs::LoanLemmas::absent_name))]
    fn add(&mut self, name: &str) -> Result<(), AllocError>
        ensures ok { OnOk result (HasAdded T.is_default self.old (chars name.now) self.new) }
        ensures err { OnErr result (IsSame self.old self.new) }
        ensures absent { OnErr result (under self.old (chars name.now) ≡ None) }
    {
        if self.find(name).is_some() {
            return Ok(());
        }
        let key = String::from_str(self.alloc, name)?;
        self.add_new(key)
    }

    // Lends the value under a name, which is put in first if it is absent.
    fn lend_or_add(&mut self, name: &str) -> Result<&mut T, AllocError>
        ensures* writes_back { sem 𝓛 (LendsEntry T.row self.entry (chars name.now) result) }
        ensures value { IfOk result (λ lent.
            IsEntry T.is_default self.old (chars name.now) lent.now) }
        ensures absent { OnErr result (under self.old (chars name.now) ≡ None) }
    {
        self.add(name)?;
        match self.lend(name) {
            Some(lent) => Ok(lent),
            None => unreachable!(),
        }
    }

    /// Lends the value under a name, to be changed; an absent name is put in first, with a default
    /// value (a [`Formattable`] with no slot filled). The other names stay as they were.
    ///
    /// # Errors
    ///
    /// `NoMemory`, only for an absent name. The map is then as it was.
    ///
    /// ```text
    /// let mut map: ContextMap<'_, u64> = ContextMap::new(alloc);
    /// map.entry("n")?.set_display(&7);
    /// map.entry("n")?.set_binary(&7);    // both slots are filled now
    /// ```
    pub fn entry(&mut self, name: &str) -> Result<&mut T, Error>
        ensures* writes_back { sem 𝓛 (LendsEntry T.row self.entry (chars name.now) result) }
        ensures value { IfOk result (λ lent.
            IsEntry T.is_default self.old (chars name.now) lent.now) }
        ensures kind { IfErr result (λ error. error ≡ Error.NoMemory) }
        ensures absent { OnErr result (under self.old (chars name.now) ≡ None) }
    {
        match self.lend_or_add(name) {
            Ok(lent) => Ok(lent),
            Err(_) => Err(Error::NoMemory),
        }
    }

    /// Puts a value under a name, and replaces the one that was there. The other names stay as they
    /// were.
    ///
    /// A list is put in the same way: `map.put("l", Formattable::iter(&items))?`.
    ///
    /// # Errors
    ///
    /// `AllocError`, which `?` converts to `NoMemory`, and only for an absent name. The map is then
    /// as it was.
    pub fn put(&mut self, name: &str, value: T) -> Result<(), AllocError>
        ensures ok { OnOk result (HasPut self.old (chars name.now) value self.new) }
        ensures err { OnErr result (IsSame self.old self.new) }
        ensures absent { OnErr result (under self.old (chars name.now) ≡ None) }
    {
        *self.lend_or_add(name)? = value;
        Ok(())
    }
}

impl<'a, V: Value> Context for NameMap<Formattable<'a, V>> {
    type Object = V;

    ghost finds = { λ map name. stored_slots map name };

    #[inline(always)]
    fn get(&self, key: &str) -> Option<Formattable<'_, V>> {
        copied(self.find(key))
    }
}
