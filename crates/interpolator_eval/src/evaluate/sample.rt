//! What the names of a format may stand for in a sample, and what those values lack.
ghost use Rattle.std.specs.Prelude.{◌≡◌, ◌+◌, ◌≤◌, ◌<◌, ◌^◌, ◌⊎◌, ⊤, [], option_map, Some};
ghost use Rattle.std.specs.Prelude.{MatchOption, IfSome, unwrap_or};
ghost use Rattle.std.specs.{List.list_any, Str.chars};
ghost use Rattle.interpolator_syntax.specs.Faults.{answer_of, fault, missing_value, no_memory};
ghost use Rattle.interpolator_eval.specs.Slots.{lent_slots};
ghost use Rattle.interpolator_eval.specs.Meaning.Samples.{sample, sample_of, bind_each, level_in};
ghost use Rattle.interpolator_eval.specs.Meaning.Samples.{candidates_under, items_of_all};
ghost use Rattle.interpolator_eval.specs.Meaning.Samples.{items_below, candidates_of, lacks, alone};
ghost use Rattle.interpolator_eval.specs.Meaning.Samples.{level_of_candidates, level_of_items};
ghost use Rattle.interpolator_eval.specs.Meaning.Samples.{all_shown};

use crate::context::Context;
use crate::evaluate::environment::Environment;
use crate::evaluate::need::{Need, any_lacks, lacks_below, lacks_one, slot_hides};
use crate::slots::Formattable;
use interpolator_render::{Spec, Trait, Value};
use interpolator_syntax::Error;
use std::alloc::{AllocError, Global};

/// Items of lists: all values that are `level` levels below some items.
pub struct Items<'a, V> {
    items: &'a [Formattable<'a, V>],
    level: usize,
}

impl<'a, V> Clone for Items<'a, V> {
    ghost is_clone = { λ old new. new ≡ old };

    ghost is_infallible = { λ _. ⊤ };

    fn clone(&self) -> Result<Self, AllocError> {
        Ok(*self)
    }
}

impl<'a, V> Copy for Items<'a, V> {}

impl<'a, V: Value> Items<'a, V> {
    /// Returns no items.
    pub fn none() -> Self
        ensures items { items_below result ≡ [] }
        ensures level { level_of_items result ≡ 0 }
    {
        Items {
            items: &[],
            level: 0,
        }
    }

    /// Returns the items of a list, or none if there is no list.
    fn of_list(list: Option<&'a [Formattable<'a, V>]>) -> Self
        ensures items { items_below result ≡ unwrap_or (lent_slots list.entry) [] }
        ensures level { level_of_items result ≡ 0 }
    {
        let Some(items) = list else {
            return Items::none();
        };
        Items { items, level: 0 }
    }

    /// Returns whether any of them lacks what is needed.
    pub fn any_lacks(&self, need: Need<'_>) -> bool
        ensures { result ≡ list_any (lacks V.shows need.entry) (items_below self.now) }
    {
        if self.level == 0 {
            return any_lacks(self.items, need);
        }
        lacks_below(self.items, self.level, need)
    }
}

/// What a name may stand for: what a context finds, or any of the items that there may be.
pub enum Candidates<'a, V> {
    One(Formattable<'a, V>),
    Each(Items<'a, V>),
}

impl<'a, V> Clone for Candidates<'a, V> {
    ghost is_clone = { λ old new. new ≡ old };

    ghost is_infallible = { λ _. ⊤ };

    fn clone(&self) -> Result<Self, AllocError> {
        Ok(*self)
    }
}

impl<'a, V> Copy for Candidates<'a, V> {}

impl<'a, V: Value> Candidates<'a, V> {
    /// Returns whether any of them lacks what is needed.
    pub fn any_lacks(&self, need: Need<'_>) -> bool
        ensures { result ≡ list_any (lacks V.shows need.entry) (candidates_of self.now) }
    {
        match self {
            Candidates::One(found) => lacks_one(found, need),
            Candidates::Each(below) => below.any_lacks(need),
        }
    }

    /// Returns the items of all of them.
    #[tactic(auto, using(crate::proofs::MeaningLemmas::SampleLemmas::items_of_one))]
    pub fn items(&self) -> Items<'a, V>
        requires { level_of_candidates self.now + 1 < 2 ^ 64 }
        ensures items { items_below result ≡ items_of_all (candidates_of self.now) }
        ensures level { level_of_items result ≤ level_of_candidates self.now + 1 }
    {
        match self {
            Candidates::One(found) => Items::of_list(found.list()),
            Candidates::Each(below) => Items {
                items: below.items,
                level: below.level + 1,
            },
        }
    }
}

/// Where names are looked up in a sample: a context and, in an item format, whatever the item may
/// be, which has the empty name.
pub struct SampleEnvironment<'a, C, V> {
    alloc: Global,
    context: &'a C,
    each: Option<Items<'a, V>>,
}

impl<'a, C, V> Clone for SampleEnvironment<'a, C, V> {
    ghost is_clone = { λ old new. new ≡ old };

    ghost is_infallible = { λ _. ⊤ };

    fn clone(&self) -> Result<Self, AllocError> {
        Ok(*self)
    }
}

impl<'a, C, V> Copy for SampleEnvironment<'a, C, V> {}

impl<'a, C: Context> SampleEnvironment<'a, C, C::Object> {
    /// Makes a sample of a context alone. `alloc` has the memory for a missing name.
    pub fn outermost(alloc: Global, context: &'a C) -> Self
        ensures sample { sample_of C.finds result ≡ sample (C.finds context.now) }
        ensures level { level_in result ≡ 0 }
    {
        SampleEnvironment {
            alloc,
            context,
            each: None,
        }
    }

    /// Returns this sample for an item format in which the item may be any of these.
    pub fn bind_each(&self, items: Items<'a, C::Object>) -> Self
        ensures sample { sample_of C.finds result
            ≡ bind_each (sample_of C.finds self.now) (items_below items.entry) }
        ensures level { level_in result ≡ level_of_items items.entry }
    {
        SampleEnvironment {
            alloc: self.alloc,
            context: self.context,
            each: Some(items),
        }
    }

    /// Returns what the item may be, if the name is empty. Any other name means what the context
    /// finds.
    fn each(&self, name: &str) -> Option<Items<'a, C::Object>>
        ensures each { MatchOption result
            (candidates_under (sample_of C.finds self.now) (chars name.now)
            ≡ option_map alone (C.finds self.now.context.now (chars name.now)))
            (λ items. candidates_under (sample_of C.finds self.now) (chars name.now)
            ≡ Some (items_below items)) }
        ensures level { IfSome result (λ items. level_of_items items ≡ level_in self.now) }
    {
        if name.is_empty() { self.each } else { None }
    }

    /// Returns what a name may stand for, if it stands for anything.
    pub fn candidates(&self, name: &str) -> Option<Candidates<'a, C::Object>>
        ensures found { option_map candidates_of result
            ≡ candidates_under (sample_of C.finds self.now) (chars name.now) }
        ensures level { IfSome result (λ found. level_of_candidates found ≤ level_in self.now) }
    {
        if let Some(items) = self.each(name) {
            return Some(Candidates::Each(items));
        }
        match self.context.get(name) {
            Some(found) => Some(Candidates::One(found)),
            None => None,
        }
    }

    /// Returns whether a name stands for something, and everything that it may stand for has a
    /// text under a trait and a spec, and does not fail.
    pub fn shows(&self, name: &str, wanted: Trait, spec: &Spec) -> bool
        ensures { result ≡ all_shown C.Object.shows wanted spec.now
            (candidates_under (sample_of C.finds self.now) (chars name.now)) }
    {
        if let Some(items) = self.each(name) {
            return !items.any_lacks(Need::Shown(wanted, spec));
        }
        match self.context.get(name) {
            Some(found) => !slot_hides(found.slot(wanted), wanted, spec),
            None => false,
        }
    }

    /// Returns the items of everything that a name may stand for.
    pub fn items(&self, name: &str) -> Items<'a, C::Object>
        requires { level_in self.now + 1 < 2 ^ 64 }
        ensures items { items_below result
            ≡ items_of_all
            (unwrap_or (candidates_under (sample_of C.finds self.now) (chars name.now)) []) }
        ensures level { level_of_items result ≤ level_in self.now + 1 }
    {
        let Some(found) = self.candidates(name) else {
            return Items::none();
        };
        found.items()
    }

    /// Returns the fault of an absent name, which is copied; `NoMemory` if it cannot be.
    pub fn missing(&self, name: &str, start: usize) -> Error
        ensures reported { (answer_of result ≡ fault (missing_value (chars name.now) start))
            ⊎ (answer_of result ≡ no_memory) }
    {
        Environment::outermost(self.alloc, self.context).missing(name, start)
    }
}
