//! Laws of the numbers in a format text, each the contract of a small function.

ghost use Rattle.std.specs.Prelude.{◌≡◌, ◌^◌, ℕ, ℤ, List, Ok, Err};
ghost use Rattle.interpolator_syntax.specs.Numbers.{natural, integer};
ghost use Rattle.interpolator_syntax.specs.NumberGrammar.{IsNumber, IsNoNumber};
ghost use Rattle.interpolator_syntax.specs.NumberGrammar.{IsInteger, IsNoInteger};
ghost use Rattle.interpolator_syntax.specs.declared.error.NumberError.{NumberError};
ghost use Rattle.interpolator_syntax.specs.declared.error.NumberError.TheVariants.{PosOverflow};

/// A number without a sign is at least one ASCII digit and nothing else, the first digit the most
/// significant, and it is below 2^64. Only such a text is one.
///
/// So `007` is 7, and `18446744073709551615` is the greatest.
pub fn number_is_its_digits()
    ensures is { (text : List ℕ) (n : ℕ) → natural text ≡ Ok n → IsNumber (2 ^ 64) text n }
    ensures only { (text : List ℕ) (n : ℕ) → IsNumber (2 ^ 64) text n → natural text ≡ Ok n }
{}

/// Any other text is no number. What decides is the first character, from the left, that is no
/// digit, with the fault `InvalidDigit`, or whose digit takes the value to 2^64, with the fault
/// `PosOverflow`. The fault of the empty text is `Empty`.
///
/// So the fault of `1-2` and of `1-99999999999999999999` is `InvalidDigit`, and that of
/// `99999999999999999999-` is `PosOverflow`.
pub fn number_is_refused_otherwise()
    ensures is { (text : List ℕ) (kind : NumberError) → natural text ≡ Err kind
        → IsNoNumber (2 ^ 64) PosOverflow text kind }
    ensures only { (text : List ℕ) (kind : NumberError) → IsNoNumber (2 ^ 64) PosOverflow text kind
        → natural text ≡ Err kind }
{}

/// An integer is a number below 2^63, or a `-` and, after it, a number of at most 2^63, which is
/// negated. Only such a text is one.
///
/// So `-007` is -7, `-0` is 0, and `-9223372036854775808` is the least.
pub fn integer_is_its_sign_and_digits()
    ensures is { (text : List ℕ) (z : ℤ) → integer text ≡ Ok z → IsInteger text z }
    ensures only { (text : List ℕ) (z : ℤ) → IsInteger text z → integer text ≡ Ok z }
{}

/// Any other text is no integer. If it begins with a `-`, the text after that decides, as with
/// numbers of at most 2^63, but the fault of too great a value is `NegOverflow`. If it does not,
/// the whole text decides, as with numbers below 2^63. A `-` with nothing after it is no sign.
///
/// So the fault of `-`, `--1` and `1-` is `InvalidDigit`, that of `9223372036854775808` is
/// `PosOverflow`, and that of `-9223372036854775809` is `NegOverflow`.
pub fn integer_is_refused_otherwise()
    ensures is { (text : List ℕ) (kind : NumberError) → integer text ≡ Err kind
        → IsNoInteger text kind }
    ensures only { (text : List ℕ) (kind : NumberError) → IsNoInteger text kind
        → integer text ≡ Err kind }
{}
