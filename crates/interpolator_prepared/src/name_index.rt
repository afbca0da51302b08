//! The names of a format, in order, and where each was last.
ghost use Rattle.std.specs.Prelude.{◌≡◌, List, ℕ, [], ◌∷◌, ◌++◌, IfOk, OnOk, length, string_bytes};
ghost use Rattle.interpolator_prepared.specs.Rows.{HasPositions, last_position, name_bytes};

use crate::row::last_position;
use std::alloc::{AllocError, Global};
use std::collections::HashMap;
use std::marker::Model;

/// The most names among which one is sought from the last to the first.
pub const FEW: usize = 32;

/// The names of a format, in order. Among few a name is sought from the last to the first; of many
/// each is put into a map, once, so that a format takes no time that grows with their square.
pub trait Names: Copy {
    // the names, in order
    ghost known: { Self → List (List ℕ) };

    /// The last position of a name.
    fn find(self, name: &str) -> Option<usize>
        ensures { result ≡ last_position (known self) name.now };
}

impl<'n> Names for &'n [String] {
    ghost known = { λ names. name_bytes names.now };

    #[inline(always)]
    fn find(self, name: &str) -> Option<usize> {
        last_position(self, name)
    }
}

/// Many names, and the last position of each.
#[derive(Drop)]
pub struct NameIndex<'m> {
    names: &'m [String],
    positions: &'m HashMap<&'m str, usize>,
}

impl<'m> Model for NameIndex<'m> {
    ghost use Rattle.std.specs.Prelude.{List, ℕ};
    ghost use Rattle.interpolator_prepared.specs.Rows.{HasPositions, name_bytes};

    ghost Value = { List (List ℕ) };

    ghost view = { λ x. name_bytes x.names.now };

    ghost invariant = { λ x. HasPositions (name_bytes x.names.now) x.positions.now };
}

/// Puts one more name into a map of the last positions of those before it.
fn add<'n>(
    positions: &mut HashMap<&'n str, usize>,
    position: usize,
    name: &'n String,
) -> Result<(), AllocError>
    ensures added { OnOk result ((names : List (List ℕ)) → position ≡ length names
        → HasPositions names positions.old
        → HasPositions (names ++ string_bytes name.now ∷ []) positions.new) }
{
    positions.insert(name.as_str(), position)?;
    Ok(())
}

/// The last position of each of these names.
pub fn positions_of<'n>(
    alloc: Global,
    names: &'n [String],
) -> Result<HashMap<&'n str, usize>, AllocError>
    ensures positions { IfOk result (HasPositions (name_bytes names.now)) }
{
    let mut positions = HashMap::with_capacity(alloc, names.len())?;
    let mut position = 0usize;
    for name in names {
        add(&mut positions, position, name)?;
        position += 1;
    }
    Ok(positions)
}

impl<'m> NameIndex<'m> {
    /// Names, and the last position of each.
    pub fn new(names: &'m [String], positions: &'m HashMap<&'m str, usize>) -> Self
        requires positions { HasPositions (name_bytes names.now) positions.now }
        ensures { result ≡ name_bytes names.now }
    {
        NameIndex { names, positions }
    }
}

impl<'m> Names for &'m NameIndex<'m> {
    ghost known = { λ index. index.now };

    #[inline(always)]
    fn find(self, name: &str) -> Option<usize> {
        self.positions.get(name).copied()
    }
}
