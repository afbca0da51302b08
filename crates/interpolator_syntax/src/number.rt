//! Whole numbers in a format. A number is read from the longest run of ASCII digits and `-`.
ghost use Rattle.std.specs.Prelude.{◌≡◌, ◌+◌, ◌*◌, ◌^◌, ◌<◌, ◌≤◌, IfOk, MatchOption};
ghost use Rattle.interpolator_syntax.specs.Numbers.{digits_after, digits_or, natural, negation};
ghost use Rattle.interpolator_syntax.specs.Numbers.{integer};
ghost use Rattle.interpolator_syntax.specs.{Places.at, Places.after, Classes.in_class};
ghost use Rattle.interpolator_syntax.specs.{Classes.front_of};
ghost use Rattle.interpolator_syntax.specs.declared.class.Class.TheVariants.{Number};

use crate::class::Class;
use crate::cursor::Cursor;
use crate::error::NumberError;

/// Returns the text after the rest of a run.
#[cold]
#[inline(never)]
fn after_run(here: Cursor<'_>) -> Cursor<'_>
    ensures { at result ≡ after (in_class Number) (at here.entry) }
{
    let (_, rest) = here.take_class(Class::Number);
    rest
}

/// Goes past the rest of a run. Here alone is the space zeroed for what [`after_run`] returns.
#[inline(always)]
fn skip_run(here: &mut Cursor<'_>)
    ensures { at here.new ≡ after (in_class Number) (at here.old) }
{
    *here = after_run(*here);
}

/// Appends a digit to a number, if the result is at most `most`.
#[inline(always)]
fn append_digit(n: usize, digit: usize, most: usize) -> Option<usize>
    requires digit { digit < 10 }
    requires room { 9 ≤ most }
    ensures { MatchOption result (most < n * 10 + digit)
        (λ m. (m ≡ n * 10 + digit) × (m ≤ most)) }
{
    // Usually the number is far below `most`: then `most - digit` is not divided.
    if n >= most / 10 && n > (most - digit) / 10 {
        return None;
    }
    Some(n * 10 + digit)
}

/// Reads the digits of the run here as those that follow the digits of `n`, if the number of all of
/// them is at most `most`. Goes past the run.
#[inline(always)]
pub(crate) fn take_digits(
    here: &mut Cursor<'_>,
    n: usize,
    most: usize,
    overflow: NumberError,
) -> Result<usize, NumberError>
    requires room { 9 ≤ most }
    requires in_range { n ≤ most }
    ensures number { result
        ≡ digits_after (most + 1) overflow n (front_of (in_class Number) (at here.old).text) }
    ensures in_range { IfOk result (λ n. n ≤ most) }
    ensures after { at here.new ≡ after (in_class Number) (at here.old) }
{
    let mut number = n;
    while let Some(digit) = here.eat_digit() {
        match append_digit(number, digit, most) {
            Some(more) => number = more,
            None => {
                skip_run(here);
                return Err(overflow);
            }
        }
    }
    if here.strip(b'-').is_some() {
        skip_run(here);
        return Err(NumberError::InvalidDigit);
    }
    Ok(number)
}

/// Reads the number that the digits of the run here spell, if it is at most `most`; the fault is
/// `empty` if there are none. Goes past the run.
#[inline(always)]
fn take_number(
    here: &mut Cursor<'_>,
    most: usize,
    empty: NumberError,
    overflow: NumberError,
) -> Result<usize, NumberError>
    requires room { 9 ≤ most }
    ensures number { result
        ≡ digits_or empty (most + 1) overflow (front_of (in_class Number) (at here.old).text) }
    ensures in_range { IfOk result (λ n. n ≤ most) }
    ensures after { at here.new ≡ after (in_class Number) (at here.old) }
{
    let Some(first) = here.eat_digit() else {
        if here.strip(b'-').is_none() {
            return Err(empty);
        }
        skip_run(here);
        return Err(NumberError::InvalidDigit);
    };
    take_digits(here, first, most, overflow)
}

/// Reads the number that the run here spells, and goes past the run.
#[inline(always)]
pub(crate) fn take_natural(here: &mut Cursor<'_>) -> Result<usize, NumberError>
    ensures number { result ≡ natural (front_of (in_class Number) (at here.old).text) }
    ensures after { at here.new ≡ after (in_class Number) (at here.old) }
{
    take_number(
        here,
        usize::MAX,
        NumberError::Empty,
        NumberError::PosOverflow,
    )
}

/// Returns the negation of a number, down to the least `isize`.
fn negate(n: usize) -> isize
    requires fits { n ≤ 2 ^ 63 }
    ensures { result ≡ negation n }
{
    if n == 0 {
        return 0;
    }
    -1 - (n - 1) as isize
}

/// Reads the number that the run here spells, which may have a `-` in front, and goes past the run.
pub(crate) fn take_integer(here: &mut Cursor<'_>) -> Result<isize, NumberError>
    ensures number { result ≡ integer (front_of (in_class Number) (at here.old).text) }
    ensures after { at here.new ≡ after (in_class Number) (at here.old) }
{
    if here.eat(b'-') {
        let most = 1 << 63;
        return match take_number(
            here,
            most,
            NumberError::InvalidDigit,
            NumberError::NegOverflow,
        ) {
            Ok(n) => Ok(negate(n)),
            Err(kind) => Err(kind),
        };
    }
    let most = isize::MAX as usize;
    match take_number(here, most, NumberError::Empty, NumberError::PosOverflow) {
        Ok(n) => Ok(n as isize),
        Err(kind) => Err(kind),
    }
}
