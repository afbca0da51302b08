//! Laws of the equality of ranges, groups, kinds and arguments, each the contract of a small
//! function.

ghost use Rattle.std.specs.Prelude.{◌≡◌, ◌↔◌, IsTrue};
ghost use Rattle.interpolator_syntax.specs.InBytes.{argument_in_bytes, kind_in_bytes};

use crate::argument::{Argument, Kind};
use crate::group::Group;
use crate::range::Range;

/// Tests whether two ranges are equal: they are exactly when their bounds and forms are.
pub fn is_same_range(range: &Range, other: &Range) -> bool
    ensures { IsTrue result ↔ (range.now ≡ other.now) }
{
    *range == *other
}

/// Tests whether two groups are equal: they are exactly when their texts and places are.
pub fn is_same_group(group: &Group<'_>, other: &Group<'_>) -> bool
    ensures { IsTrue result
        ↔ ((group.now.text.now ≡ other.now.text.now) × (group.now.place ≡ other.now.place)) }
{
    *group == *other
}

/// Tests whether two kinds are equal: exactly when both are values under the same trait, or lists
/// with equal ranges, item formats and joins.
pub fn is_same_kind(kind: &Kind<'_>, other: &Kind<'_>) -> bool
    ensures { IsTrue result ↔ (kind_in_bytes kind.now ≡ kind_in_bytes other.now) }
{
    *kind == *other
}

/// Tests whether two arguments are equal: exactly when their names, the places of these, their
/// specs and their kinds are.
pub fn is_same_argument(argument: &Argument<'_>, other: &Argument<'_>) -> bool
    ensures { IsTrue result ↔ (argument_in_bytes argument.now ≡ argument_in_bytes other.now) }
{
    *argument == *other
}
