//! A row of fields, as a context.
ghost use Rattle.std.specs.Prelude.{◌≡◌, map};
ghost use Rattle.std.specs.Option.{option_copied};
ghost use Rattle.interpolator_eval.specs.Slots.{slots_of};
ghost use Rattle.interpolator_border.specs.Fields.{found_in, last_named};

use crate::field::Field;
use crate::slots::field_slots;
use interpolator::{Context, Formattable};
use interpolator_eval::same_bytes;

/// The most bytes of a name that is compared without a call.
const SHORT: usize = 16;

/// A row: its fields, and the items of the lists among them.
#[derive(Clone, Copy)]
pub struct FieldRow<'a> {
    /// The values under their names.
    pub fields: &'a [Field<'a>],
    /// The items, in which each list names its own.
    pub items: &'a [Field<'a>],
}

/// The fields of a row, and what the items of its lists stand for.
#[derive(Clone, Copy)]
pub(crate) struct Row<'a> {
    pub(crate) fields: &'a [Field<'a>],
    pub(crate) items: &'a [Formattable<'a, Field<'a>>],
}

/// The last field of a long name.
#[inline(never)]
fn last_of_long<'s, 'a>(fields: &'s [Field<'a>], name: &str) -> Option<&'s Field<'a>>
    ensures { option_copied result ≡ last_named fields.now name.now }
{
    fields
        .iter()
        .rev()
        .find(|field| field.name == name.as_bytes())
}

/// The last field of that name. A short name is compared without a call, so that the few words of
/// the search stay in registers.
#[inline(always)]
fn last_field<'s, 'a>(fields: &'s [Field<'a>], name: &str) -> Option<&'s Field<'a>>
    ensures { option_copied result ≡ last_named fields.now name.now }
{
    if name.len() > SHORT {
        return last_of_long(fields, name);
    }
    let mut left = fields.len();
    while left > 0 {
        left -= 1;
        if same_bytes(fields[left].name, name.as_bytes()) {
            return Some(&fields[left]);
        }
    }
    None
}

impl<'a> Context for Row<'a> {
    type Object = Field<'a>;

    ghost finds = { λ row name. found_in row.fields.now (map slots_of row.items.now) name };

    #[tactic(auto, using(interpolator_eval::proofs::FieldNameLemmas::name_bytes))]
    #[inline(always)]
    fn get(&self, key: &str) -> Option<Formattable<'_, Field<'a>>> {
        match last_field(self.fields, key) {
            Some(field) => Some(field_slots(self.items, field)),
            None => None,
        }
    }
}
