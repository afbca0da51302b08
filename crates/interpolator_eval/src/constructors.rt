//! Constructors of `Formattable`, and calls that fill more slots in a chain.
ghost use Rattle.std.specs.Prelude.{◌≡◌, map};
ghost use Rattle.interpolator_eval.specs.Slots.{slots_of, empty_slots};
ghost use Rattle.interpolator_eval.specs.Slots.{with_debug_display, with_debug, with_display};
ghost use Rattle.interpolator_eval.specs.Slots.{with_integer, with_float, with_binary, with_iter};
ghost use Rattle.interpolator_eval.specs.Slots.{with_lower_exp, with_lower_hex, with_octal};
ghost use Rattle.interpolator_eval.specs.Slots.{with_trait, with_upper_exp, with_upper_hex};

use crate::slots::Formattable;
use interpolator_render::Trait;

/// Each constructor fills the slots of its name, and no others.
impl<'a, V> Formattable<'a, V> {
    /// Makes a value with only the debug and display slots filled.
    ///
    /// `Formattable::debug_display(&n)` of 255: `{n} {n:?}` is `255 255`.
    pub fn debug_display(value: &'a V) -> Self
        ensures { slots_of result ≡ with_debug_display empty_slots value.now }
    {
        Formattable::default().and_debug_display(value)
    }

    /// Makes a value with only the debug slot filled.
    ///
    /// `Formattable::debug(&n)` of 255: `{n:?}` is `255`.
    pub fn debug(value: &'a V) -> Self
        ensures { slots_of result ≡ with_debug empty_slots value.now }
    {
        Formattable::default().and_debug(value)
    }

    /// Makes a value with only the display slot filled.
    ///
    /// `Formattable::display(&n)` of 255: `{n:>5}` is `  255`.
    pub fn display(value: &'a V) -> Self
        ensures { slots_of result ≡ with_display empty_slots value.now }
    {
        Formattable::default().and_display(value)
    }

    /// Makes a value with only the eight slots of the formatting traits filled.
    ///
    /// `Formattable::integer(&n)` of 255: `{n:#x}` is `0xff`.
    pub fn integer(value: &'a V) -> Self
        ensures { slots_of result ≡ with_integer empty_slots value.now }
    {
        Formattable::default().and_integer(value)
    }

    /// Makes a value with only the debug, display, lower_exp and upper_exp slots filled.
    ///
    /// `Formattable::float(&n)` of 255: `{n:.1e}` is `2.6e2`.
    pub fn float(value: &'a V) -> Self
        ensures { slots_of result ≡ with_float empty_slots value.now }
    {
        Formattable::default().and_float(value)
    }

    /// Makes a value with only the binary slot filled.
    ///
    /// `Formattable::binary(&n)` of 255: `{n:b}` is `11111111`.
    pub fn binary(value: &'a V) -> Self
        ensures { slots_of result ≡ with_binary empty_slots value.now }
    {
        Formattable::default().and_binary(value)
    }

    /// Makes a value with only the lower_exp slot filled.
    ///
    /// `Formattable::lower_exp(&n)` of 255: `{n:e}` is `2.55e2`.
    pub fn lower_exp(value: &'a V) -> Self
        ensures { slots_of result ≡ with_lower_exp empty_slots value.now }
    {
        Formattable::default().and_lower_exp(value)
    }

    /// Makes a value with only the lower_hex slot filled.
    ///
    /// `Formattable::lower_hex(&n)` of 255: `{n:x}` is `ff`.
    pub fn lower_hex(value: &'a V) -> Self
        ensures { slots_of result ≡ with_lower_hex empty_slots value.now }
    {
        Formattable::default().and_lower_hex(value)
    }

    /// Makes a value with only the octal slot filled.
    ///
    /// `Formattable::octal(&n)` of 255: `{n:o}` is `377`.
    pub fn octal(value: &'a V) -> Self
        ensures { slots_of result ≡ with_octal empty_slots value.now }
    {
        Formattable::default().and_octal(value)
    }

    /// Makes a value with only the upper_exp slot filled.
    ///
    /// `Formattable::upper_exp(&n)` of 255: `{n:E}` is `2.55E2`.
    pub fn upper_exp(value: &'a V) -> Self
        ensures { slots_of result ≡ with_upper_exp empty_slots value.now }
    {
        Formattable::default().and_upper_exp(value)
    }

    /// Makes a value with only the upper_hex slot filled.
    ///
    /// `Formattable::upper_hex(&n)` of 255: `{n:X}` is `FF`.
    pub fn upper_hex(value: &'a V) -> Self
        ensures { slots_of result ≡ with_upper_hex empty_slots value.now }
    {
        Formattable::default().and_upper_hex(value)
    }

    /// Makes a value with only the iter slot filled: the items of a list.
    ///
    /// `Formattable::iter(&items)` of 255 twice: `{n:i({})(, )}` is `255, 255`.
    pub fn iter(value: &'a [Formattable<'a, V>]) -> Self
        ensures { slots_of result ≡ with_iter empty_slots (map slots_of value.now) }
    {
        Formattable::default().and_iter(value)
    }
}

/// Each `and_` call fills the slots of its name too, and leaves the others as they were.
impl<'a, V> Formattable<'a, V> {
    /// Fills the debug and display slots too.
    ///
    /// `Formattable::octal(&n).and_debug_display(&n)` of 255: `{n} {n:?}` is `255 255`.
    pub fn and_debug_display(mut self, value: &'a V) -> Self
        ensures { slots_of result ≡ with_debug_display (slots_of self.entry) value.now }
    {
        self.set_debug_display(value);
        self
    }

    /// Fills the debug slot too.
    ///
    /// `Formattable::display(&n).and_debug(&n)` of 255: `{n:?}` is `255`.
    pub fn and_debug(mut self, value: &'a V) -> Self
        ensures { slots_of result ≡ with_debug (slots_of self.entry) value.now }
    {
        self.set_debug(value);
        self
    }

    /// Fills the display slot too.
    ///
    /// `Formattable::debug(&n).and_display(&n)` of 255: `{n:>5}` is `  255`.
    pub fn and_display(mut self, value: &'a V) -> Self
        ensures { slots_of result ≡ with_display (slots_of self.entry) value.now }
    {
        self.set_display(value);
        self
    }

    /// Fills the slot of a trait too. A value fills no list: for [`Trait::Iter`] nothing changes.
    ///
    /// `Formattable::display(&n).and_slot(Trait::LowerHex, &n)` of 255: `{n:x}` is `ff`.
    #[inline(always)]
    pub fn and_slot(self, filled: Trait, value: &'a V) -> Self
        ensures { slots_of result ≡ with_trait filled (slots_of self.entry) value.now }
    {
        match filled {
            Trait::Binary => self.and_binary(value),
            Trait::Debug => self.and_debug(value),
            Trait::Display => self.and_display(value),
            Trait::LowerExp => self.and_lower_exp(value),
            Trait::LowerHex => self.and_lower_hex(value),
            Trait::Octal => self.and_octal(value),
            Trait::UpperExp => self.and_upper_exp(value),
            Trait::UpperHex => self.and_upper_hex(value),
            Trait::Iter => self,
        }
    }

    /// Fills the eight slots of the formatting traits too.
    ///
    /// `Formattable::display(&n).and_integer(&n)` of 255: `{n:#x}` is `0xff`.
    pub fn and_integer(mut self, value: &'a V) -> Self
        ensures { slots_of result ≡ with_integer (slots_of self.entry) value.now }
    {
        self.set_integer(value);
        self
    }

    /// Fills the debug, display, lower_exp and upper_exp slots too.
    ///
    /// `Formattable::display(&n).and_float(&n)` of 255: `{n:.1e}` is `2.6e2`.
    pub fn and_float(mut self, value: &'a V) -> Self
        ensures { slots_of result ≡ with_float (slots_of self.entry) value.now }
    {
        self.set_float(value);
        self
    }

    /// Fills the binary slot too.
    ///
    /// `Formattable::display(&n).and_binary(&n)` of 255: `{n:b}` is `11111111`.
    pub fn and_binary(mut self, value: &'a V) -> Self
        ensures { slots_of result ≡ with_binary (slots_of self.entry) value.now }
    {
        self.set_binary(value);
        self
    }

    /// Fills the lower_exp slot too.
    ///
    /// `Formattable::display(&n).and_lower_exp(&n)` of 255: `{n:e}` is `2.55e2`.
    pub fn and_lower_exp(mut self, value: &'a V) -> Self
        ensures { slots_of result ≡ with_lower_exp (slots_of self.entry) value.now }
    {
        self.set_lower_exp(value);
        self
    }

    /// Fills the lower_hex slot too.
    ///
    /// `Formattable::display(&n).and_lower_hex(&n)` of 255: `{n:x}` is `ff`.
    pub fn and_lower_hex(mut self, value: &'a V) -> Self
        ensures { slots_of result ≡ with_lower_hex (slots_of self.entry) value.now }
    {
        self.set_lower_hex(value);
        self
    }

    /// Fills the octal slot too.
    ///
    /// `Formattable::display(&n).and_octal(&n)` of 255: `{n:o}` is `377`.
    pub fn and_octal(mut self, value: &'a V) -> Self
        ensures { slots_of result ≡ with_octal (slots_of self.entry) value.now }
    {
        self.set_octal(value);
        self
    }

    /// Fills the upper_exp slot too.
    ///
    /// `Formattable::display(&n).and_upper_exp(&n)` of 255: `{n:E}` is `2.55E2`.
    pub fn and_upper_exp(mut self, value: &'a V) -> Self
        ensures { slots_of result ≡ with_upper_exp (slots_of self.entry) value.now }
    {
        self.set_upper_exp(value);
        self
    }

    /// Fills the upper_hex slot too.
    ///
    /// `Formattable::display(&n).and_upper_hex(&n)` of 255: `{n:X}` is `FF`.
    pub fn and_upper_hex(mut self, value: &'a V) -> Self
        ensures { slots_of result ≡ with_upper_hex (slots_of self.entry) value.now }
    {
        self.set_upper_hex(value);
        self
    }

    /// Fills the iter slot too, with the items of a list.
    ///
    /// `Formattable::display(&n).and_iter(&items)` of 255 twice: `{n:i({})(, )}` is `255, 255`.
    pub fn and_iter(mut self, value: &'a [Formattable<'a, V>]) -> Self
        ensures { slots_of result ≡ with_iter (slots_of self.entry) (map slots_of value.now) }
    {
        self.set_iter(value);
        self
    }
}
