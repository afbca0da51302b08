//! Lists in lists: where they may lie, and what the items stand for, level by level.
ghost use Rattle.std.specs.Prelude.{◌≡◌, [], ◌∷◌, ◌≤◌, ◌-◌, ◌++◌, if◌then◌else◌};
ghost use Rattle.std.specs.Prelude.{drop, length, map, take, IfOk};
ghost use Rattle.interpolator_eval.specs.Slots.{slots_of};
ghost use Rattle.interpolator_border.specs.Fields.{all_lie_within, all_within, begins_before};
ghost use Rattle.interpolator_border.specs.Fields.{field_slots, lies_within, settled};

use crate::field::{Field, LIST};
use crate::slots::{field_slots, kind_slots};
use interpolator::Formattable;
use std::alloc::{AllocError, Global};

/// How many levels of lists there may be.
pub(crate) const LEVELS: u32 = 64;

/// What the items of a row stand for, as far as it is known.
#[derive(Clone, Copy)]
pub(crate) struct Known<'a> {
    /// What each item stands for, from the item `left` on.
    pub(crate) slots: &'a [Formattable<'a, Field<'a>>],
    /// How many items are not known yet.
    pub(crate) left: usize,
    /// How many levels of lists may still be gone through.
    pub(crate) levels: u32,
}

/// Whether the items of a list field are among the first `count`.
fn lies_within(count: usize, field: &Field<'_>) -> bool
    ensures { result ≡ lies_within count field.now }
{
    field.kind != LIST || (field.first <= field.end && field.end <= count)
}

/// Whether the items of all list fields are among the first `count`.
pub(crate) fn all_within(count: usize, fields: &[Field<'_>]) -> bool
    ensures { result ≡ all_within count fields.now }
{
    fields.iter().all(|field| lies_within(count, field))
}

/// Whether what the fields and the items name lies within the items.
pub(crate) fn all_lie_within(fields: &[Field<'_>], items: &[Field<'_>]) -> bool
    ensures { result ≡ all_lie_within fields.now items.now }
{
    all_within(items.len(), fields) && all_within(items.len(), items)
}

/// Whether a field is a list that begins before a place.
fn begins_before(from: usize, field: &Field<'_>) -> bool
    ensures { result ≡ begins_before from field.now }
{
    field.kind == LIST && field.first < from
}

/// The item after this one if it is a list that begins before a place, else the one so far.
fn settled_with(begins_before: bool, after_it: usize, so_far: usize) -> usize
    ensures { result ≡ (if begins_before then after_it else so_far) }
{
    if begins_before { after_it } else { so_far }
}

/// The item after the last list that begins before a place; 0 if there is none.
pub(crate) fn settled(from: usize, items: &[Field<'_>]) -> usize
    ensures settled { result ≡ settled from items.now }
    ensures within { result ≤ length items.now }
{
    let mut after = 0;
    let mut count = 0usize;
    for item in items {
        count += 1;
        after = settled_with(begins_before(from, item), count, after);
    }
    after
}

/// Appends what an item stands for. It is not inlined, so that most items need no copy of theirs.
#[inline(never)]
fn put_field<'a>(
    level: &mut Vec<Formattable<'a, Field<'a>>>,
    below: &'a [Formattable<'a, Field<'a>>],
    item: &'a Field<'a>,
) -> Result<(), AllocError>
    ensures { IfOk result (λ _. map slots_of level.new.items
        ≡ map slots_of level.old.items ++ (field_slots (map slots_of below.now) item.now ∷ [])) }
{
    level.push(field_slots(below, item))?;
    Ok(())
}

/// Appends what an item stands for. Most items are no lists, and have the slots of their kind.
#[inline(always)]
fn put_item<'a>(
    level: &mut Vec<Formattable<'a, Field<'a>>>,
    below: &'a [Formattable<'a, Field<'a>>],
    item: &'a Field<'a>,
) -> Result<(), AllocError>
    ensures { IfOk result (λ _. map slots_of level.new.items
        ≡ map slots_of level.old.items ++ (field_slots (map slots_of below.now) item.now ∷ [])) }
{
    if item.kind == LIST || item.slots != 0 {
        return put_field(level, below, item);
    }
    level.push(kind_slots(item))?;
    Ok(())
}

/// Appends what items stand for, by what they stand for a level deeper.
#[inline(always)]
fn put_items<'a>(
    level: &mut Vec<Formattable<'a, Field<'a>>>,
    items: &'a [Field<'a>],
    below: &'a [Formattable<'a, Field<'a>>],
) -> Result<(), AllocError>
    ensures { IfOk result (λ _. map slots_of level.new.items
        ≡ map slots_of level.old.items ++ map (field_slots (map slots_of below.now)) items.now) }
{
    for item in items {
        put_item(level, below, item)?;
    }
    Ok(())
}

/// The items from one place up to another.
fn between<'a>(items: &'a [Field<'a>], first: usize, end: usize) -> &'a [Field<'a>]
    requires order { first ≤ end }
    requires within { end ≤ length items.now }
    ensures { result.now ≡ take (end - first) (drop first items.now) }
{
    let (_, rest) = items.split_at(first);
    let (items, _) = rest.split_at(end - first);
    items
}

/// Appends so many that stand for nothing.
fn put_nothing<'a>(
    level: &mut Vec<Formattable<'a, Field<'a>>>,
    count: usize,
) -> Result<(), AllocError>
    requires { level.old.items ≡ [] }
    ensures { IfOk result (λ _. length level.new.items ≡ count) }
{
    for _ in 0..count {
        level.push(Formattable::default())?;
    }
    Ok(())
}

/// Appends what is known from a place on.
fn put_known<'a>(
    level: &mut Vec<Formattable<'a, Field<'a>>>,
    known: &'a [Formattable<'a, Field<'a>>],
    left: usize,
) -> Result<(), AllocError>
    ensures { IfOk result (λ _. level.new.items ≡ level.old.items ++ drop left known.now) }
{
    let (_, rest) = known.split_at(left.min(known.len()));
    for slots in rest {
        level.push(*slots)?;
    }
    Ok(())
}

/// What the items stand for from the item `from` on, by what is known of them: only those before
/// the item `left` are gone through, and those before `from` stand for nothing yet.
pub(crate) fn next_level<'a>(
    alloc: Global,
    items: &'a [Field<'a>],
    known: &'a [Formattable<'a, Field<'a>>],
    left: usize,
    from: usize,
) -> Result<Vec<Formattable<'a, Field<'a>>>, AllocError>
    requires within { left ≤ length items.now }
    requires known { let trees = map slots_of known.now in
        drop left trees ≡ drop left (map (field_slots trees) items.now) }
    ensures same { IfOk result (λ level. drop left (map slots_of level.items)
        ≡ drop left (map slots_of known.now)) }
    ensures more { IfOk result (λ level. drop from (map slots_of level.items)
        ≡ drop from (map (field_slots (map slots_of known.now)) items.now)) }
{
    let first = from.min(left);
    let mut level = Vec::with_capacity(alloc, items.len())?;
    put_nothing(&mut level, first)?;
    put_items(&mut level, between(items, first, left), known)?;
    put_known(&mut level, known, left)?;
    Ok(level)
}
