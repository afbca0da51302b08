//! Laws of the clones of arguments and their parts, each the contract of a small function: the
//! clone equals the value, and cloning never fails.

ghost use Rattle.std.specs.Prelude.{◌≡◌, Ok};

use crate::argument::{Argument, Kind};
use crate::group::Group;
use crate::range::Range;
use std::alloc::AllocError;

/// Clones a range.
pub fn range(range: &Range) -> Result<Range, AllocError>
    ensures { result ≡ Ok range.now }
{
    range.clone()
}

/// Clones a group: the clone is the same slice of the format, at the same place.
pub fn group<'a>(group: &Group<'a>) -> Result<Group<'a>, AllocError>
    ensures { result ≡ Ok group.now }
{
    group.clone()
}

/// Clones the kind of an argument.
pub fn kind<'a>(kind: &Kind<'a>) -> Result<Kind<'a>, AllocError>
    ensures { result ≡ Ok kind.now }
{
    kind.clone()
}

/// Clones an argument.
pub fn argument<'a>(argument: &Argument<'a>) -> Result<Argument<'a>, AllocError>
    ensures { result ≡ Ok argument.now }
{
    argument.clone()
}
