//! Rows of values, in the order of names.
ghost use Rattle.std.specs.Prelude.{◌≡◌, ⊤, ℕ, List, Option, IfOk, option_map, string_bytes, true};
ghost use Rattle.std.specs.{Option.option_copied, Str.bytes_eq, Str.chars};
ghost use Rattle.interpolator_eval.specs.Slots.{Slots, slots_of};
ghost use Rattle.interpolator_prepared.specs.Rows.{InOrder, cell_at, found_by_row, last_position};
ghost use Rattle.interpolator_prepared.specs.Rows.{name_bytes, pair_names, row_at, slot_found};

use interpolator_eval::{Context, Formattable, same_name, slot_of};
use interpolator_render::{Trait, Value};
use std::alloc::{AllocError, Global};

/// What a prepared format is written with: values in the order of its names. A type of your own
/// may be one if it is `Copy` and names at most one lifetime.
pub trait PreparedRow: Copy {
    /// The type of the values that are written.
    type Object: Value;

    // the tree of what is under a name, if a format has these names, in order
    ghost finds_in: { Self → (names : List (List ℕ)) → List ℕ → Option (Slots Self.Object) };

    // the tree at each position
    ghost value_at: { Self → ℕ → Option (Slots Self.Object) };

    /// Tests whether there is a value for each of these names, in order. If not, the format is
    /// written by its text, and each name is looked up.
    fn is_in_order(&self, names: &[String]) -> bool
        ensures in_order { result ≡ true → InOrder (name_bytes names.now) (value_at self.now)
            (finds_in self.now (name_bytes names.now)) };

    /// Returns the value at a position in the slot of a trait; `None` if the slot is empty, or the
    /// row does not reach the position.
    fn value(&self, position: usize, wanted: Trait) -> Option<&Self::Object>
        ensures value { option_copied result ≡ slot_found wanted (value_at self.now position) };

    /// Returns what a name stands for, if a format has these names, in order. It allocates nothing.
    fn find(&self, names: &[String], name: &str) -> Option<Formattable<'_, Self::Object>>
        ensures found { option_map slots_of result
            ≡ finds_in self.now (name_bytes names.now) (chars name.now) };
}

/// A row of values, in the order of the names of a prepared format.
///
/// ```text
/// prepared.write(alloc, &mut out, &Row(&[
///     Formattable::display(&name),
///     Formattable::integer(&count),
/// ]))?;
/// ```
pub struct Row<'a, V>(pub &'a [Formattable<'a, V>]);

impl<'a, V> Clone for Row<'a, V> {
    ghost is_clone = { λ old new. new ≡ old };

    ghost is_infallible = { λ _. ⊤ };

    fn clone(&self) -> Result<Self, AllocError> {
        Ok(*self)
    }
}

impl<'a, V> Copy for Row<'a, V> {}

/// Tests whether a text is this name.
fn is_name(own: &String, name: &str) -> bool
    ensures { result ≡ bytes_eq name.now (string_bytes own.now) }
{
    same_name(own.as_str(), name)
}

/// The last position of a name.
pub fn last_position(names: &[String], name: &str) -> Option<usize>
    ensures { result ≡ last_position (name_bytes names.now) name.now }
{
    let mut left = names;
    while let Some((own, before)) = left.split_last() {
        if is_name(own, name) {
            return Some(before.len());
        }
        left = before;
    }
    None
}

impl<'a, V: Value> PreparedRow for Row<'a, V> {
    type Object = V;

    ghost finds_in = { λ row names name. found_by_row names (row_at row.0.now) name };

    ghost value_at = { λ row position. row_at row.0.now position };

    #[inline(always)]
    fn is_in_order(&self, names: &[String]) -> bool {
        names.len() <= self.0.len()
    }

    #[inline(always)]
    fn value(&self, position: usize, wanted: Trait) -> Option<&V> {
        match self.0.get(position) {
            Some(item) => slot_of(item, wanted),
            None => None,
        }
    }

    fn find(&self, names: &[String], name: &str) -> Option<Formattable<'_, V>> {
        match last_position(names, name) {
            Some(position) => match self.0.get(position) {
                Some(found) => Some(*found),
                None => None,
            },
            None => None,
        }
    }
}

/// A row of values alone, each in the slots of all formatting traits. It has no lists.
pub struct Cells<'a, V>(pub &'a [V]);

impl<'a, V> Clone for Cells<'a, V> {
    ghost is_clone = { λ old new. new ≡ old };

    ghost is_infallible = { λ _. ⊤ };

    fn clone(&self) -> Result<Self, AllocError> {
        Ok(*self)
    }
}

impl<'a, V> Copy for Cells<'a, V> {}

impl<'a, V: Value> PreparedRow for Cells<'a, V> {
    type Object = V;

    ghost finds_in = { λ cells names name. found_by_row names (cell_at cells.0.now) name };

    ghost value_at = { λ cells position. cell_at cells.0.now position };

    #[inline(always)]
    fn is_in_order(&self, names: &[String]) -> bool {
        names.len() <= self.0.len()
    }

    #[inline(always)]
    fn value(&self, position: usize, wanted: Trait) -> Option<&V> {
        match self.0.get(position) {
            Some(value) => slot_of(&Formattable::integer(value), wanted),
            None => None,
        }
    }

    fn find(&self, names: &[String], name: &str) -> Option<Formattable<'_, V>> {
        match last_position(names, name) {
            Some(position) => match self.0.get(position) {
                Some(value) => Some(Formattable::integer(value)),
                None => None,
            },
            None => None,
        }
    }
}

/// A row, and the names of its positions.
#[derive(Drop)]
pub struct NamedRow<'a, R> {
    pub names: &'a [String],
    pub row: &'a R,
}

impl<'a, R: PreparedRow> Context for NamedRow<'a, R> {
    type Object = R::Object;

    ghost finds = { λ named name. R.finds_in named.row.now (name_bytes named.names.now) name };

    fn get(&self, key: &str) -> Option<Formattable<'_, R::Object>> {
        self.row.find(self.names, key)
    }
}

/// The names of pairs, in order.
pub fn names_of<'a, V>(
    alloc: Global,
    pairs: &[(&'a str, Formattable<'a, V>)],
) -> Result<Vec<String>, AllocError>
    ensures names { IfOk result (λ names. name_bytes names.items ≡ pair_names pairs.now) }
{
    let mut names = Vec::with_capacity(alloc, pairs.len())?;
    for pair in pairs {
        names.push(String::from_str(alloc, pair.0)?)?;
    }
    Ok(names)
}
