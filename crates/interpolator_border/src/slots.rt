//! Which slots a field fills.
ghost use Rattle.std.specs.Prelude.{◌≡◌, map, drop, take};
ghost use Rattle.interpolator_eval.specs.Slots.{slots_of, with_iter, with_trait};
ghost use Rattle.interpolator_border.specs.Fields.{field_slots, kind_slots, masked_slots};
ghost use Rattle.interpolator_border.specs.Fields.{value_slots, when};

use crate::field::{CHARACTER, DOUBLE, Field, LIST};
use interpolator::{Formattable, Trait};

/// The slots of a kind.
#[inline(always)]
pub(crate) fn kind_slots<'a>(field: &'a Field<'a>) -> Formattable<'a, Field<'a>>
    ensures { slots_of result ≡ kind_slots field.now }
{
    if field.kind <= CHARACTER {
        Formattable::debug_display(field)
    } else if field.kind < DOUBLE {
        Formattable::integer(field)
    } else {
        Formattable::float(field)
    }
}

/// The slot of a trait too, if the mask has its bit.
#[inline(always)]
fn and_masked<'a>(
    slots: Formattable<'a, Field<'a>>,
    mask: u32,
    bit: u32,
    filled: Trait,
    field: &'a Field<'a>,
) -> Formattable<'a, Field<'a>>
    ensures { slots_of result ≡ when mask bit (with_trait filled) (slots_of slots.entry) field.now }
{
    if mask & bit == 0 {
        slots
    } else {
        slots.and_slot(filled, field)
    }
}

/// The slots of a mask.
#[inline(always)]
fn masked_slots<'a>(mask: u32, field: &'a Field<'a>) -> Formattable<'a, Field<'a>>
    ensures { slots_of result ≡ masked_slots mask field.now }
{
    let slots = and_masked(Formattable::default(), mask, 1, Trait::Display, field);
    let slots = and_masked(slots, mask, 2, Trait::Debug, field);
    let slots = and_masked(slots, mask, 4, Trait::Binary, field);
    let slots = and_masked(slots, mask, 8, Trait::Octal, field);
    let slots = and_masked(slots, mask, 16, Trait::LowerHex, field);
    let slots = and_masked(slots, mask, 32, Trait::UpperHex, field);
    let slots = and_masked(slots, mask, 64, Trait::LowerExp, field);
    and_masked(slots, mask, 128, Trait::UpperExp, field)
}

/// The slots of a value.
#[inline(always)]
fn value_slots<'a>(field: &'a Field<'a>) -> Formattable<'a, Field<'a>>
    ensures { slots_of result ≡ value_slots field.now }
{
    if field.slots == 0 {
        kind_slots(field)
    } else {
        masked_slots(field.slots, field)
    }
}

/// The items from one place up to another; what lies past the last item is left out.
#[tactic(auto, using(interpolator_eval::proofs::RowLemmas::cut_row))]
fn cut<'s, 'a>(
    items: &'s [Formattable<'a, Field<'a>>],
    first: usize,
    end: usize,
) -> &'s [Formattable<'a, Field<'a>>]
    ensures { map slots_of result.now ≡ drop first (take end (map slots_of items.now)) }
{
    let front = &items[..end.min(items.len())];
    &front[first.min(front.len())..]
}

/// The items of a list, and the slots of its mask. It is inlined, so that where one slot is looked
/// up no others are made.
#[inline(always)]
fn list_slots<'a>(
    items: &'a [Formattable<'a, Field<'a>>],
    field: &'a Field<'a>,
) -> Formattable<'a, Field<'a>>
    ensures { slots_of result ≡ with_iter (masked_slots field.now.slots field.now)
        (drop field.now.first (take field.now.end (map slots_of items.now))) }
{
    masked_slots(field.slots, field).and_iter(cut(items, field.first, field.end))
}

/// What a field stands for: a list for the items that it names and the slots of its mask, and any
/// other for its slots.
#[inline(always)]
pub(crate) fn field_slots<'a>(
    items: &'a [Formattable<'a, Field<'a>>],
    field: &'a Field<'a>,
) -> Formattable<'a, Field<'a>>
    ensures { slots_of result ≡ field_slots (map slots_of items.now) field.now }
{
    if field.kind == LIST {
        list_slots(items, field)
    } else {
        value_slots(field)
    }
}
