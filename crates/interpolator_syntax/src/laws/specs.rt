//! Laws of the specs in a format text, each the contract of a small function.

ghost use Rattle.std.specs.Prelude.{◌≡◌, ℕ, Ok, Err};
ghost use Rattle.interpolator_syntax.specs.{Places.At, SpecTexts.Request, SpecTexts.spec_after};
ghost use Rattle.interpolator_syntax.specs.{SpecGrammar.IsSpec, SpecGrammar.IsNoSpec, Faults.Fault};

/// The text after a colon is a spec exactly when it is these parts, one after the other, each of
/// which is there exactly when its beginning is:
///
/// 1. a fill: if an alignment comes second, the first character, which is no `{`
/// 2. an alignment: `<`, `^` or `>`
/// 3. a sign: `+` or `-`
/// 4. `#`
/// 5. `0`
/// 6. a width: if there is a digit, the longest run of digits and `-`, which is a number
/// 7. a precision: if there is a `.`, such a run after it
/// 8. a trait: `?`, `x?`, `X?`, `o`, `x`, `X`, `b`, `e`, `E` or `i`, or nothing in front of a `}`
/// 9. after `i`, how a list is written: a range, if there is a bound or `..`, and up to two
///    groups, the format of an item and the join, each if there is a `(` or a `#`
///
/// A text of at most one character is not read, nor is one that begins with `}`: both stand for
/// plain display.
///
/// So `*<+#08.3x?}` is a spec whose `}` is not read; neither `3` at the end of the format nor
/// `}<5}` has a width; and `>6i1..({})(,)}` stands for the list from its second item on, with `{}`
/// for each item and `,` between two.
pub fn spec_is_its_parts()
    ensures is { (start : ℕ) (a q : At) (asked : Request) → spec_after start a ≡ Ok (asked, q)
        → IsSpec start a asked q }
    ensures only { (start : ℕ) (a q : At) (asked : Request) → IsSpec start a asked q
        → spec_after start a ≡ Ok (asked, q) }
{}

/// If there is no spec, the fault is that of the first part, from the left, that cannot be read:
///
/// - a `{` that comes first, with an alignment second, would be a fill
/// - a width or a precision that ends with the text leaves the argument unclosed, and one that is
///   no number is reported at the place where its run begins
/// - the end of the text, where a trait may be, leaves the argument unclosed after `#` or `0`
/// - `p` is an option that is not supported, and any other character that begins no trait stands
///   where a `}` is expected
/// - after `i`, a bound that ends with the text leaves the argument unclosed, and one that is no
///   integer is reported at the place where its run begins
/// - a group whose signs end the text, or that nothing closes, leaves the argument unclosed, and
///   a character other than `(` after its signs stands where a `(` is expected
///
/// So the fault of `{a:{<}` is `Fill(3)`, that of `{a:1-2}` is `InvalidWidth(InvalidDigit, 3)`,
/// that of `{a:55` is `FormatSpecUnclosed(1)`, that of `{a:5y}` is `Expected("}", 4)`, and that of
/// `{a:i#b}` is `Expected("(", 5)`.
pub fn spec_is_refused_otherwise()
    ensures is { (start : ℕ) (a : At) (fault : Fault) → spec_after start a ≡ Err fault
        → IsNoSpec start a fault }
    ensures only { (start : ℕ) (a : At) (fault : Fault) → IsNoSpec start a fault
        → spec_after start a ≡ Err fault }
{}
