//! The pairs of a sample as a map.
ghost use Rattle.std.specs.Prelude.{◌≡◌, IfOk, OnOk};
ghost use Rattle.interpolator_eval.specs.Contexts.{found_by_pairs, found_by_str};
ghost use Rattle.interpolator.specs.SampleMaps.{HasOneMore};

use interpolator_eval::Formattable;
use std::alloc::{AllocError, Global};
use std::collections::HashMap;

/// Puts one more pair into a map of those before it.
fn add_pair<'a, V>(
    map: &mut HashMap<&'a str, Formattable<'a, V>>,
    pair: &(&'a str, Formattable<'a, V>),
) -> Result<(), AllocError>
    ensures added { OnOk result (HasOneMore map.old pair.now map.new) }
{
    map.insert(pair.0, pair.1)?;
    Ok(())
}

/// A map that has under each name what the last pair of the name has.
pub(crate) fn map_of<'a, V>(
    alloc: Global,
    pairs: &[(&'a str, Formattable<'a, V>)],
) -> Result<HashMap<&'a str, Formattable<'a, V>>, AllocError>
    ensures map { IfOk result (λ map. found_by_str map ≡ found_by_pairs pairs.now) }
{
    let mut map = HashMap::with_capacity(alloc, pairs.len())?;
    for pair in pairs {
        add_pair(&mut map, pair)?;
    }
    Ok(map)
}
