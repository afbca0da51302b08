//! Lists whose items are known only at run time, and lists of such lists.
ghost use Rattle.std.specs.Prelude.{◌≡◌, map, drop, take, IfOk, IfErr};
ghost use Rattle.interpolator_eval.specs.Rows.{parts_to};
ghost use Rattle.interpolator_eval.specs.Slots.{slots_of, empty_slots, with_integer, with_iter};
ghost use Rattle.interpolator_syntax.specs.declared.error.Error.TheVariants.{NoMemory};

use crate::slots::Formattable;
use interpolator_syntax::Error;
use std::alloc::Global;

/// Makes the items of a list: one for each value, in order, with the eight slots of the formatting
/// traits filled.
///
/// # Errors
///
/// `NoMemory`: there is no memory for the items.
///
/// # Example
///
/// ```text
/// let items = items_of(alloc, &cells)?;
/// map.put("cells", Formattable::iter(&items))?;
/// map.format(alloc, "{cells:i({:>4})(, )}")?    // with `a` and `bc`: "   a,   bc"
/// ```
pub fn items_of<'a, V>(alloc: Global, values: &'a [V]) -> Result<Vec<Formattable<'a, V>>, Error>
    ensures items { IfOk result (λ items. map slots_of items.items
        ≡ map (with_integer empty_slots) values.now) }
    ensures refused { IfErr result (λ error. error ≡ NoMemory) }
{
    let mut items = Vec::with_capacity(alloc, values.len())?;
    for value in values {
        items.push(Formattable::integer(value))?;
    }
    Ok(items)
}

/// Makes a list of the items from one index up to another; what lies past the last is left out.
fn row<'a, V>(items: &'a [Formattable<'a, V>], from: usize, to: usize) -> Formattable<'a, V>
    ensures { slots_of result
        ≡ with_iter empty_slots (drop from (take to (map slots_of items.now))) }
{
    let front = &items[..to.min(items.len())];
    Formattable::iter(&front[from.min(front.len())..])
}

/// Makes a list for each row of a flat slice of items. `ends` has, for each row, the index at which
/// the row ends: a row has the items from the end of the row before it up to its own end. A row may
/// be empty, and what lies past the last item is left out.
///
/// # Errors
///
/// `NoMemory`: there is no memory for the rows.
///
/// # Example
///
/// ```text
/// let items = items_of(alloc, &cells)?;              // with cells `a`, `b`, `c`
/// let rows = rows_of(alloc, &items, &[2, 3])?;       // a list of `a` and `b`, and one of `c`
/// map.put("rows", Formattable::iter(&rows))?;
/// map.format(alloc, "{rows:i#({:i({})(,)})#(;)}")?   // "a,b;c"
/// ```
pub fn rows_of<'a, V>(
    alloc: Global,
    items: &'a [Formattable<'a, V>],
    ends: &[usize],
) -> Result<Vec<Formattable<'a, V>>, Error>
    ensures rows { IfOk result (λ rows. map slots_of rows.items
        ≡ map (with_iter empty_slots) (parts_to (map slots_of items.now) 0 ends.now)) }
    ensures refused { IfErr result (λ error. error ≡ NoMemory) }
{
    let mut rows = Vec::with_capacity(alloc, ends.len())?;
    let mut start = 0;
    for end in ends {
        rows.push(row(items, start, *end))?;
        start = *end;
    }
    Ok(rows)
}
