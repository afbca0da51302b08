//! The debug text of a `Formattable`: the names of its filled slots.
ghost use Rattle.std.specs.Prelude.{◌≡◌, Some};
ghost use Rattle.std.specs.Fmt.{WritesOnOk, WritesStyledOnOk};
ghost use Rattle.interpolator_eval.specs.Slots.{slots_of};
ghost use Rattle.interpolator_eval.specs.SlotNames.{slot_name, is_filled, name_after, debug_text};

use crate::slots::Formattable;
use interpolator_render::Trait;
use interpolator_syntax::write_unstyled;
use std::fmt;

// The traits whose slots are named, in this order.
const SLOTS: [Trait; 9] = [
    Trait::Debug,
    Trait::Display,
    Trait::Binary,
    Trait::LowerExp,
    Trait::LowerHex,
    Trait::Octal,
    Trait::UpperExp,
    Trait::UpperHex,
    Trait::Iter,
];

// Returns the name of a trait's slot.
fn name_of(wanted: Trait) -> &'static str
    ensures { result.now ≡ slot_name wanted }
{
    match wanted {
        Trait::Debug => "debug",
        Trait::Display => "display",
        Trait::Binary => "binary",
        Trait::LowerExp => "lower_exp",
        Trait::LowerHex => "lower_hex",
        Trait::Octal => "octal",
        Trait::UpperExp => "upper_exp",
        Trait::UpperHex => "upper_hex",
        Trait::Iter => "iter",
    }
}

impl<'a, V> Formattable<'a, V> {
    // Returns whether the slot is filled.
    fn has(&self, wanted: Trait) -> bool
        ensures { result ≡ is_filled (slots_of self.now) wanted }
    {
        match wanted {
            Trait::Iter => self.list().is_some(),
            _ => self.slot(wanted).is_some(),
        }
    }
}

// Writes a name, with a parenthesis before the first and a comma before each other.
fn write_name<W: fmt::Write>(f: &mut fmt::Formatter<W>, is_first: bool, name: &str) -> fmt::Result
    ensures { WritesStyledOnOk W.write_str_gives f.old result
        (name_after is_first name.now) f.new }
{
    if is_first {
        write_unstyled(f, format_args!("({name}"))
    } else {
        write_unstyled(f, format_args!(", {name}"))
    }
}

impl<'a, V> fmt::Debug for Formattable<'a, V> {
    ghost debug_output = { λ formattable. Some (debug_text (slots_of formattable)) };

    fn fmt<W: fmt::Write>(&self, f: &mut fmt::Formatter<W>) -> fmt::Result
        ensures writes { WritesOnOk W.write_str_gives f.old result
            (debug_text (slots_of self.now)) f.new }
        ensures styled { WritesStyledOnOk W.write_str_gives f.old result
            (debug_text (slots_of self.now)) f.new }
    {
        f.write_str("Formattable")?;
        let mut is_first = true;
        for slot in SLOTS {
            if self.has(slot) {
                write_name(f, is_first, name_of(slot))?;
                is_first = false;
            }
        }
        if is_first { Ok(()) } else { f.write_str(")") }
    }
}
