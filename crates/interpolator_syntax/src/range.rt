//! Ranges of list indices.
ghost use Rattle.std.specs.Prelude.{◌≡◌};
ghost use Rattle.interpolator_syntax.specs.Ranges.{bound_if, points, range_at};
ghost use Rattle.interpolator_syntax.specs.{Places.at, SpecReads.part_read};
ghost use Rattle.interpolator_syntax.specs.{SpecReads.part_or_broken};

use crate::argument_fault::ArgumentFault;
use crate::cursor::Cursor;
use crate::error::ParseError;
use crate::number::take_integer;

/// Which items of a list are written, by their indices.
///
/// A bound below zero counts from the list's end: -1 is the index of the last item.
///
/// ```text
/// {items:i1..-1}    // all but the first and the last
/// {items:i-1}       // the last: the same as -1..=-1
/// ```
#[derive(Clone, Copy, Debug, PartialEq, Eq)]
pub struct Range {
    /// The index of the first item, or none for the list's beginning.
    pub lower: Option<isize>,
    /// Whether the item at the upper bound is written too.
    pub inclusive: bool,
    /// The index at which the items end, or none for the list's end.
    pub upper: Option<isize>,
}

/// Reads the bound here, if there is one, in the argument that begins at `start`.
fn take_bound(here: &mut Cursor<'_>, start: usize) -> Result<Option<isize>, ArgumentFault>
    ensures { part_or_broken result (at here.new) ≡ bound_if start (at here.old) }
{
    let place = here.place;
    match here.byte() {
        Some(b'0'..=b'9' | b'-') => {}
        _ => return Ok(None),
    }
    let number = take_integer(here);
    if here.is_at_end() {
        return Err(ArgumentFault::Text(ParseError::FormatSpecUnclosed(start)));
    }
    match number {
        Ok(n) => Ok(Some(n)),
        Err(kind) => Err(ArgumentFault::Text(ParseError::RangeBound(kind, place))),
    }
}

/// Reads the `..` or `..=` here, if there is one, and returns whether it has the `=`.
fn take_points(here: &mut Cursor<'_>) -> Option<bool>
    ensures { part_read (result, here.new) ≡ points (at here.old) }
{
    let second = here.strip(b'.')?;
    *here = second.strip(b'.')?;
    Some(here.eat(b'='))
}

/// Reads the range here, if there is one, in the argument that begins at `start`. A bound alone is
/// both bounds.
#[tactic(auto, unfolding(crate::specs::Ranges::range_at))]
pub(crate) fn take_range(
    here: &mut Cursor<'_>,
    start: usize,
) -> Result<Option<Range>, ArgumentFault>
    ensures { part_or_broken result (at here.new) ≡ range_at start (at here.old) }
{
    let lower = take_bound(here, start)?;
    match take_points(here) {
        Some(inclusive) => {
            let upper = take_bound(here, start)?;
            Ok(Some(Range {
                lower,
                inclusive,
                upper,
            }))
        }
        None => match lower {
            None => Ok(None),
            Some(n) => Ok(Some(Range {
                lower: Some(n),
                inclusive: true,
                upper: Some(n),
            })),
        },
    }
}
