//! Lists: which of their items are written, and which options their specs may have.
ghost use Rattle.std.specs.Prelude.{◌≡◌};
ghost use Rattle.interpolator_eval.specs.Meaning.Choices.{bound_in, chosen_places, chosen_items};
ghost use Rattle.interpolator_eval.specs.Meaning.Meanings.{has_sign, forbids_list};

use interpolator_render::{Sign, Spec};
use interpolator_syntax::Range;

fn has_sign(sign: Sign) -> bool
    ensures { result ≡ has_sign sign }
{
    match sign {
        Sign::Unset => false,
        Sign::Plus => true,
        Sign::Minus => true,
    }
}

/// Returns whether the spec has an option that no list may have: a precision, a sign, `#` or the
/// zero flag.
pub fn forbids_list(spec: &Spec) -> bool
    ensures { result ≡ forbids_list spec.now }
{
    spec.precision.is_some() || has_sign(spec.sign) || spec.alternate || spec.zero
}

/// Returns the index that a bound stands for in a list of `len` items.
fn index_of_bound(bound: isize, len: usize) -> usize
    ensures { result ≡ bound_in len bound }
{
    if bound < 0 {
        len.saturating_sub(bound.unsigned_abs())
    } else {
        bound.unsigned_abs()
    }
}

/// Returns which items a range chooses of a list of `len` items: those from the first index up to
/// the second, without that one.
///
/// A bound below zero counts from the list's end. What lies outside the list is cut off, and if no
/// item is chosen, both indices are the same. Without a range, all items are chosen. The call
/// allocates nothing.
///
/// # Example
///
/// ```text
/// // with the range of `{list:i1..-1}`
/// chosen(4, Some(range))    // (1, 3): the second item and the third
/// chosen(4, None)           // (0, 4): all
/// ```
pub fn chosen(len: usize, range: Option<Range>) -> (usize, usize)
    ensures places { result ≡ chosen_places len range }
{
    let Some(range) = range else {
        return (0, len);
    };
    let lower = match range.lower {
        Some(bound) => index_of_bound(bound, len),
        None => 0,
    };
    let upper = match range.upper {
        Some(bound) => index_of_bound(bound, len),
        None => len,
    };
    let past = if range.inclusive {
        upper.saturating_add(1)
    } else {
        upper
    };
    let end = past.min(len);
    (lower.min(end), end)
}

/// Returns the items that a range chooses.
pub(crate) fn choose<T>(items: &[T], range: Option<Range>) -> &[T]
    ensures { result.now ≡ chosen_items range items.now }
{
    let (start, end) = chosen(items.len(), range);
    &items[start..end]
}
