//! Laws of the lists in a format text, each the contract of a small function.

ghost use Rattle.std.specs.Prelude.{◌≡◌, ℕ, Option, Ok, Err};
ghost use Rattle.interpolator_syntax.specs.Lists.{ListRequest, list_at};
ghost use Rattle.interpolator_syntax.specs.ListGrammar.{IsRange, IsNoRange, IsList, IsNoList};
ghost use Rattle.interpolator_syntax.specs.{Places.At, Ranges.range_at, Faults.Fault};
ghost use Rattle.interpolator_syntax.specs.declared.range.Range.{Range};

/// A range is its parts, one after the other, each of which is there exactly when its beginning is:
///
/// 1. a lower bound: if there is a digit or a `-`, the longest run of digits and `-`, which is an
///    integer
/// 2. `..=`, or `..` if no `=` follows
/// 3. after these points, an upper bound, in the form of the lower one
///
/// A bound without points is both bounds, and the item at it is written. With neither a bound nor
/// points there is no range, and nothing is read. Only such a text is a range.
///
/// So the bounds of `-1` are -1 and -1, `1..` has no upper bound, `..=` has no bound at all, and
/// the point of `1.` is not read.
pub fn range_is_its_parts()
    ensures is { (start : ℕ) (a q : At) (range : Option Range) → range_at start a ≡ Ok (range, q)
        → IsRange start a range q }
    ensures only { (start : ℕ) (a q : At) (range : Option Range) → IsRange start a range q
        → range_at start a ≡ Ok (range, q) }
{}

/// If no range can be read, the fault is that of the first bound that cannot be read: a bound that
/// ends with the text leaves the argument unclosed, and one that is no integer is reported at the
/// place where its run begins.
///
/// So the fault of `{l:i..1` is `FormatSpecUnclosed(1)`, and that of `{l:i1..--5}` is
/// `RangeBound(InvalidDigit, 7)`.
pub fn range_is_refused_otherwise()
    ensures is { (start : ℕ) (a : At) (fault : Fault) → range_at start a ≡ Err fault
        → IsNoRange start a fault }
    ensures only { (start : ℕ) (a : At) (fault : Fault) → IsNoRange start a fault
        → range_at start a ≡ Err fault }
{}

/// The form of a list follows its letter in three parts, one after the other, each of which may be
/// absent: a range; a group, the format of an item; and a group, the join. A group is there exactly
/// when a `(` or a `#` is, so the first group is always the item's. Only such a text is the form of
/// a list.
///
/// So after the `i` of `{l:i1..({:>4})(, )}` come the range `1..`, the item format `{:>4}` and
/// the join `, `; after that of `{l:i( )}` comes an item format alone; and after that of `{l:i}`
/// nothing.
pub fn list_is_its_parts()
    ensures is { (start : ℕ) (a q : At) (list : ListRequest) → list_at start a ≡ Ok (list, q)
        → IsList start a list q }
    ensures only { (start : ℕ) (a q : At) (list : ListRequest) → IsList start a list q
        → list_at start a ≡ Ok (list, q) }
{}

/// If the form of a list cannot be read, the fault is that of the first of these parts, from the
/// left, that cannot be read: of a bound of the range, or of a group that a `(` or a `#` begins.
///
/// So the fault of `{l:i-(a}` is `RangeBound(InvalidDigit, 4)`, and that of `{l:i(a)#b}` is
/// `Expected("(", 8)`.
pub fn list_is_refused_otherwise()
    ensures is { (start : ℕ) (a : At) (fault : Fault) → list_at start a ≡ Err fault
        → IsNoList start a fault }
    ensures only { (start : ℕ) (a : At) (fault : Fault) → IsNoList start a fault
        → list_at start a ≡ Err fault }
{}
