//! The slots of a name: the values that a format may write through each trait.
ghost use Rattle.std.specs.Prelude.{◌≡◌, map, ⊤};
ghost use Rattle.std.specs.Option.{option_copied};
ghost use Rattle.interpolator_eval.specs.Slots.{slots_of, empty_slots};
ghost use Rattle.interpolator_eval.specs.Slots.{values_of, items, slot_at, lent_slots};
ghost use Rattle.interpolator_eval.specs.Slots.{with_debug_display, with_debug, with_display};
ghost use Rattle.interpolator_eval.specs.Slots.{with_integer, with_float, with_binary, with_iter};
ghost use Rattle.interpolator_eval.specs.Slots.{with_lower_exp, with_lower_hex, with_octal};
ghost use Rattle.interpolator_eval.specs.Slots.{with_upper_exp, with_upper_hex};

use interpolator_render::Trait;
use std::alloc::AllocError;

/// What a name in a format stands for: a value for each trait that may write it, and a list of
/// items.
///
/// There are nine slots, each empty or filled: one for each formatting trait, which borrows a `V`,
/// and `iter`, which borrows a slice of `Formattable`s. A format that uses an empty slot fails with
/// `MissingTraitImpl`. The values are borrowed, so a `Formattable` is `Copy` and owns no memory.
///
/// ```text
/// let name = Formattable::debug_display(&"Ann");    // for {name} and {name:?}
/// let count = Formattable::integer(&3);             // for {count:x}, {count:o}, {count:e} too
/// let parts = [Formattable::display(&1), Formattable::display(&2)];
/// let list = Formattable::iter(&parts);             // for {list:i}
/// ```
pub struct Formattable<'a, V> {
    debug: Option<&'a V>,
    display: Option<&'a V>,
    binary: Option<&'a V>,
    lower_exp: Option<&'a V>,
    lower_hex: Option<&'a V>,
    octal: Option<&'a V>,
    upper_exp: Option<&'a V>,
    upper_hex: Option<&'a V>,
    iter: Option<&'a [Formattable<'a, V>]>,
}

impl<'a, V> Clone for Formattable<'a, V> {
    ghost is_clone = { λ old new. new ≡ old };

    ghost is_infallible = { λ _. ⊤ };

    fn clone(&self) -> Result<Self, AllocError> {
        Ok(*self)
    }
}

impl<'a, V> Copy for Formattable<'a, V> {}

#[tactic(auto, using(crate::proofs::SlotLemmas::slots_layers))]
impl<'a, V> Default for Formattable<'a, V> {
    ghost is_default = { λ formattable. slots_of formattable ≡ empty_slots };

    /// Returns a value with no slot filled.
    fn default() -> Self {
        Formattable {
            debug: None,
            display: None,
            binary: None,
            lower_exp: None,
            lower_hex: None,
            octal: None,
            upper_exp: None,
            upper_hex: None,
            iter: None,
        }
    }
}

/// Each `set_` call fills the slots of its name, and leaves the others as they were.
#[tactic(auto, using(crate::proofs::SlotLemmas::slots_layers))]
impl<'a, V> Formattable<'a, V> {
    /// Fills the debug and display slots.
    ///
    /// After `slots.set_debug_display(&n)` of 255: `{n} {n:?}` is `255 255`.
    pub fn set_debug_display(&mut self, value: &'a V)
        ensures { slots_of self.new ≡ with_debug_display (slots_of self.old) value.now }
    {
        *self = Formattable {
            debug: Some(value),
            display: Some(value),
            ..*self
        };
    }

    /// Fills the debug slot.
    ///
    /// After `slots.set_debug(&n)` of 255: `{n:?}` is `255`.
    pub fn set_debug(&mut self, value: &'a V)
        ensures { slots_of self.new ≡ with_debug (slots_of self.old) value.now }
    {
        self.debug = Some(value);
    }

    /// Fills the display slot.
    ///
    /// After `slots.set_display(&n)` of 255: `{n:>5}` is `  255`.
    pub fn set_display(&mut self, value: &'a V)
        ensures { slots_of self.new ≡ with_display (slots_of self.old) value.now }
    {
        self.display = Some(value);
    }

    /// Fills the eight slots of the formatting traits.
    ///
    /// After `slots.set_integer(&n)` of 255: `{n:#x}` is `0xff`.
    pub fn set_integer(&mut self, value: &'a V)
        ensures { slots_of self.new ≡ with_integer (slots_of self.old) value.now }
    {
        *self = Formattable {
            debug: Some(value),
            display: Some(value),
            binary: Some(value),
            lower_exp: Some(value),
            lower_hex: Some(value),
            octal: Some(value),
            upper_exp: Some(value),
            upper_hex: Some(value),
            iter: self.iter,
        };
    }

    /// Fills the debug, display, lower_exp and upper_exp slots.
    ///
    /// After `slots.set_float(&n)` of 255: `{n:.1e}` is `2.6e2`.
    pub fn set_float(&mut self, value: &'a V)
        ensures { slots_of self.new ≡ with_float (slots_of self.old) value.now }
    {
        *self = Formattable {
            debug: Some(value),
            display: Some(value),
            lower_exp: Some(value),
            upper_exp: Some(value),
            ..*self
        };
    }

    /// Fills the binary slot.
    ///
    /// After `slots.set_binary(&n)` of 255: `{n:b}` is `11111111`.
    pub fn set_binary(&mut self, value: &'a V)
        ensures { slots_of self.new ≡ with_binary (slots_of self.old) value.now }
    {
        self.binary = Some(value);
    }

    /// Fills the lower_exp slot.
    ///
    /// After `slots.set_lower_exp(&n)` of 255: `{n:e}` is `2.55e2`.
    pub fn set_lower_exp(&mut self, value: &'a V)
        ensures { slots_of self.new ≡ with_lower_exp (slots_of self.old) value.now }
    {
        self.lower_exp = Some(value);
    }

    /// Fills the lower_hex slot.
    ///
    /// After `slots.set_lower_hex(&n)` of 255: `{n:x}` is `ff`.
    pub fn set_lower_hex(&mut self, value: &'a V)
        ensures { slots_of self.new ≡ with_lower_hex (slots_of self.old) value.now }
    {
        self.lower_hex = Some(value);
    }

    /// Fills the octal slot.
    ///
    /// After `slots.set_octal(&n)` of 255: `{n:o}` is `377`.
    pub fn set_octal(&mut self, value: &'a V)
        ensures { slots_of self.new ≡ with_octal (slots_of self.old) value.now }
    {
        self.octal = Some(value);
    }

    /// Fills the upper_exp slot.
    ///
    /// After `slots.set_upper_exp(&n)` of 255: `{n:E}` is `2.55E2`.
    pub fn set_upper_exp(&mut self, value: &'a V)
        ensures { slots_of self.new ≡ with_upper_exp (slots_of self.old) value.now }
    {
        self.upper_exp = Some(value);
    }

    /// Fills the upper_hex slot.
    ///
    /// After `slots.set_upper_hex(&n)` of 255: `{n:X}` is `FF`.
    pub fn set_upper_hex(&mut self, value: &'a V)
        ensures { slots_of self.new ≡ with_upper_hex (slots_of self.old) value.now }
    {
        self.upper_hex = Some(value);
    }

    /// Fills the iter slot: the items of a list.
    ///
    /// After `slots.set_iter(&items)` of 255 twice: `{n:i({})(, )}` is `255, 255`.
    pub fn set_iter(&mut self, value: &'a [Formattable<'a, V>])
        ensures { slots_of self.new ≡ with_iter (slots_of self.old) (map slots_of value.now) }
    {
        self.iter = Some(value);
    }
}

#[tactic(auto, using(crate::proofs::SlotLemmas::slots_layers))]
impl<'a, V> Formattable<'a, V> {
    // Returns the value in the slot of a trait; the iter slot has no value.
    #[inline(always)]
    pub(crate) fn slot(self, wanted: Trait) -> Option<&'a V>
        ensures { option_copied result ≡ slot_at wanted (values_of (slots_of self.entry)) }
    {
        match wanted {
            Trait::Binary => self.binary,
            Trait::Debug => self.debug,
            Trait::Display => self.display,
            Trait::LowerExp => self.lower_exp,
            Trait::LowerHex => self.lower_hex,
            Trait::Octal => self.octal,
            Trait::UpperExp => self.upper_exp,
            Trait::UpperHex => self.upper_hex,
            Trait::Iter => None,
        }
    }

    // Returns the items, if the iter slot is filled.
    #[inline(always)]
    pub(crate) fn list(self) -> Option<&'a [Formattable<'a, V>]>
        ensures { lent_slots result ≡ items (slots_of self.entry) }
    {
        self.iter
    }
}
