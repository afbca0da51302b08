//! Named values as the sample and as the row of a prepared format.
ghost use Rattle.std.specs.Prelude.{◌≡◌, IfOk, map, string_bytes, true};
ghost use Rattle.std.specs.Str.{bytes_eq};
ghost use Rattle.interpolator.specs.NamedValues.{found_by_values, named_at, pair_of, pairs_of};
ghost use Rattle.interpolator.specs.Prepared.Rows.{name_bytes, pair_names};

use crate::values::{NamedValue, Values};
use interpolator_eval::{Context, Formattable, slot_of};
use interpolator_prepared::PreparedRow;
use interpolator_render::{Trait, View};
use std::alloc::{AllocError, Global};

impl<'a> NamedValue<'a> {
    /// Tests whether this is its name.
    fn has_name(&self, name: &String) -> bool
        ensures { result ≡ bytes_eq (string_bytes name.now) (pair_of self.now).0.now }
    {
        name.as_str() == self.name
    }
}

/// Tests whether these are the names of the values, in order.
fn have_names(values: &[NamedValue<'_>], names: &[String]) -> bool
    ensures { result ≡ true → name_bytes names.now ≡ pair_names (map pair_of values.now) }
{
    let mut left = names;
    for value in values {
        let Some((name, rest)) = left.split_first() else {
            return false;
        };
        if !value.has_name(name) {
            return false;
        }
        left = rest;
    }
    left.is_empty()
}

/// The names of the values, in order.
fn names_of(alloc: Global, values: &[NamedValue<'_>]) -> Result<Vec<String>, AllocError>
    ensures { IfOk result (λ names. name_bytes names.items ≡ pair_names (map pair_of values.now)) }
{
    let mut names = Vec::with_capacity(alloc, values.len())?;
    for value in values {
        names.push(String::from_str(alloc, value.name)?)?;
    }
    Ok(names)
}

impl<'a> Values<'a> {
    /// The names, in order.
    pub(crate) fn names(&self, alloc: Global) -> Result<Vec<String>, AllocError>
        ensures names { IfOk result (λ names. name_bytes names.items ≡ pair_names (pairs_of self.now)) }
    {
        names_of(alloc, self.named())
    }
}

impl<'a> PreparedRow for Values<'a> {
    type Object = View<'a>;

    ghost finds_in = { λ values names name. found_by_values values name };

    ghost value_at = { λ values position. named_at values position };

    fn is_in_order(&self, names: &[String]) -> bool {
        have_names(self.named(), names)
    }

    fn value(&self, position: usize, wanted: Trait) -> Option<&View<'a>> {
        match self.named().get(position) {
            Some(value) => slot_of(&value.slots(), wanted),
            None => None,
        }
    }

    fn find(&self, _names: &[String], name: &str) -> Option<Formattable<'_, View<'a>>> {
        self.get(name)
    }
}
