//! Looks up names while a format is written.
ghost use Rattle.std.specs.Prelude.{◌≡◌, ◌⊎◌, ⊤, Some, MatchOption, option_map};
ghost use Rattle.std.specs.{Str.chars, Option.option_copied};
ghost use Rattle.interpolator_syntax.specs.Faults.{answer_of, fault, missing_value, no_memory};
ghost use Rattle.interpolator_eval.specs.Slots.{slots_of, slot_at, values_of, items, lent_slots};
ghost use Rattle.interpolator_eval.specs.Meaning.Environments.{environment, bind, slots_under};
ghost use Rattle.interpolator_eval.specs.Meaning.CodeEnvironments.{environment_of};

use crate::context::Context;
use crate::slots::Formattable;
use interpolator_render::Trait;
use interpolator_syntax::Error;
use std::alloc::{AllocError, Global};

/// Where names are looked up: a context, and at most one inner value, which has the empty name.
pub struct Environment<'a, C, V> {
    alloc: Global,
    context: &'a C,
    inner: Option<&'a Formattable<'a, V>>,
}

impl<'a, C, V> Clone for Environment<'a, C, V> {
    ghost is_clone = { λ old new. new ≡ old };

    ghost is_infallible = { λ _. ⊤ };

    fn clone(&self) -> Result<Self, AllocError> {
        Ok(*self)
    }
}

impl<'a, C, V> Copy for Environment<'a, C, V> {}

impl<'a, C: Context> Environment<'a, C, C::Object> {
    /// Makes an environment of a context alone. `alloc` has the memory for a missing name.
    pub fn outermost(alloc: Global, context: &'a C) -> Self
        ensures { environment_of C.finds result ≡ environment (C.finds context.now) }
    {
        Environment {
            alloc,
            context,
            inner: None,
        }
    }

    // Returns the allocator.
    pub(crate) fn alloc(&self) -> Global {
        self.alloc
    }

    /// Returns this environment with an inner value.
    #[inline(always)]
    pub fn bind(&self, item: &'a Formattable<'a, C::Object>) -> Self
        ensures { environment_of C.finds result
            ≡ bind (environment_of C.finds self.now) (slots_of item.now) }
    {
        Environment {
            alloc: self.alloc,
            context: self.context,
            inner: Some(item),
        }
    }

    /// Returns the inner value, if there is one and the name is empty. Any other name means what
    /// the context finds.
    #[inline(always)]
    fn inner(&self, name: &str) -> Option<&'a Formattable<'a, C::Object>>
        ensures { MatchOption result
            (slots_under (environment_of C.finds self.now) (chars name.now)
            ≡ C.finds self.now.context.now (chars name.now))
            (λ item. slots_under (environment_of C.finds self.now) (chars name.now)
            ≡ Some (slots_of item.now)) }
    {
        if name.is_empty() { self.inner } else { None }
    }

    /// Returns the value that the name has in the slot of a trait; `None` if it means nothing.
    #[inline(always)]
    pub fn value(&self, name: &str, wanted: Trait) -> Option<Option<&'a C::Object>>
        ensures { option_map (λ v. option_copied v) result
            ≡ option_map (λ found. slot_at wanted (values_of found))
            (slots_under (environment_of C.finds self.now) (chars name.now)) }
    {
        if let Some(item) = self.inner(name) {
            return Some(item.slot(wanted));
        }
        match self.context.get(name) {
            Some(found) => Some(found.slot(wanted)),
            None => None,
        }
    }

    /// Returns the items that the name has; `None` if it means nothing.
    #[inline(always)]
    pub fn items(&self, name: &str) -> Option<Option<&'a [Formattable<'a, C::Object>]>>
        ensures { option_map lent_slots result
            ≡ option_map items (slots_under (environment_of C.finds self.now) (chars name.now)) }
    {
        if let Some(item) = self.inner(name) {
            return Some(item.list());
        }
        match self.context.get(name) {
            Some(found) => Some(found.list()),
            None => None,
        }
    }

    /// Returns the fault of an absent name, which is copied; `NoMemory` if it cannot be.
    #[inline(never)]
    pub fn missing(&self, name: &str, start: usize) -> Error
        ensures reported { (answer_of result ≡ fault (missing_value (chars name.now) start))
            ⊎ (answer_of result ≡ no_memory) }
    {
        match String::from_str(self.alloc, name) {
            Ok(name) => Error::MissingValue(name, start),
            Err(_) => Error::NoMemory,
        }
    }
}
