//! Why the values of a format do not all stand in places.
ghost use Rattle.std.specs.Prelude.{◌≡◌};
ghost use Rattle.interpolator_escapes.specs.declared.misplaced.PlaceError.TheVariants.{NoMemory};

use std::alloc::AllocError;

/// What is wrong with a value or a list.
#[derive(Clone, Copy, Debug, PartialEq, Eq)]
pub enum Why {
    /// The value, or the item of a list that has no format for it, is out of place.
    Value,
    /// An item of the list ends elsewhere than it began.
    Item,
    /// What stands between two items of the list ends elsewhere than it began.
    Join,
    /// The character that pads the list is structure.
    Fill,
}

/// The first value or list of a format that does not stand.
#[derive(Clone, Copy, Debug, PartialEq, Eq)]
pub struct Misplaced {
    /// The byte of the format at which it begins.
    pub place: usize,
    /// What is wrong with it.
    pub why: Why,
}

/// Why it is not known that the values of a format stand.
#[derive(Clone, Copy, Debug, PartialEq, Eq)]
pub enum PlaceError {
    /// One does not.
    Misplaced(Misplaced),
    /// Memory ran out.
    NoMemory,
}

/// Converts to `PlaceError::NoMemory`.
impl From<AllocError> for PlaceError {
    ghost from_gives = { λ _ error. error ≡ NoMemory };

    fn from(_refused: AllocError) -> PlaceError {
        PlaceError::NoMemory
    }
}
