//! Examples of the values of a record, each under the name of its column.

ghost use Rattle.std.specs.Prelude.{◌≡◌, IfOk, OnOk, map};
ghost use Rattle.interpolator.specs.Contexts.{found_by_pairs, found_by_str};
ghost use Rattle.interpolator.specs.{Prepared.Rows.pair_names, SampleMaps.HasOneMore};
ghost use Rattle.interpolator.specs.Slots.{slots_of};
ghost use Rattle.merge.specs.{Columns.kinds_in, Columns.names_in, Values.example_by};

use crate::columns::Column;
use crate::values::example_of;
use interpolator::{Formattable, View};
use std::alloc::{AllocError, Global};
use std::collections::HashMap;

/// An example value under the name of each column, of an example of a text and one of a number.
pub fn sample_of<'a>(
    alloc: Global,
    columns: &'a [Column<'a>],
    text: &'a View<'a>,
    number: &'a View<'a>,
) -> Result<Vec<(&'a str, Formattable<'a, View<'a>>)>, AllocError>
    ensures names { IfOk result (λ sample. pair_names sample.items ≡ names_in columns.now) }
    ensures values { IfOk result (λ sample. map (λ pair. slots_of pair.1) sample.items
        ≡ map (example_by text.now number.now) (kinds_in columns.now)) }
{
    let mut sample = Vec::with_capacity(alloc, columns.len())?;
    for column in columns.iter() {
        sample.push((column.name, example_of(column.kind, text, number)))?;
    }
    Ok(sample)
}

/// Puts one more pair into a map of those before it.
fn add<'a>(
    map: &mut HashMap<&'a str, Formattable<'a, View<'a>>>,
    pair: &(&'a str, Formattable<'a, View<'a>>),
) -> Result<(), AllocError>
    ensures added { OnOk result (HasOneMore map.old pair.now map.new) }
{
    map.insert(pair.0, pair.1)?;
    Ok(())
}

/// A map that has under each name what the last pair of the name has, so that the names of a
/// template are found in no time that grows with the columns.
pub fn map_of<'a>(
    alloc: Global,
    sample: &[(&'a str, Formattable<'a, View<'a>>)],
) -> Result<HashMap<&'a str, Formattable<'a, View<'a>>>, AllocError>
    ensures map { IfOk result (λ map. found_by_str map ≡ found_by_pairs sample.now) }
{
    let mut map = HashMap::with_capacity(alloc, sample.len())?;
    for pair in sample {
        add(&mut map, pair)?;
    }
    Ok(map)
}
