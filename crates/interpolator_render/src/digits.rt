//! The digits of a number, in a buffer of bytes.
ghost use Rattle.std.specs.Prelude.{◌≡◌, ◌<◌, ◌≤◌, ◌+◌, ◌-◌, ◌/◌, ◌∷◌, ◌++◌, false, length, take};
ghost use Rattle.std.specs.Prelude.{drop};
ghost use Rattle.std.specs.{Fmt.digit_glyph, Str.IsAscii};
ghost use Rattle.interpolator_digits.specs.Digits.{digit_text};

use crate::digit_tables::{digit_in_base, pair_digits};

/// Room for the digits of any number in base two.
const MOST_DIGITS: usize = 128;

/// The greatest number that is divided as a `u64`.
pub(crate) const GREATEST_U64: u128 = 0xffff_ffff_ffff_ffff;

/// Writes digits of a number from the last one on, ending at the place `end`, until what is left of
/// the number fits 64 bits. Returns where the digits begin, and what is left.
///
/// The rest is then divided as a `u64`, which costs a fraction of a division of a `u128`.
#[tactic(auto, using(interpolator_digits::proofs::DigitLemmas::wide_steps))]
#[inline(always)]
fn write_wide(n: u128, base: u64, upper: bool, end: usize, out: &mut [u8; 128]) -> (usize, u64)
    requires lowest { 2 ≤ base }
    requires highest { base ≤ 16 }
    requires place { end ≤ 128 }
    requires room { length (digit_text base upper n) ≤ end }
    ensures place { result.0 ≤ end }
    ensures begins { result.0 + length (digit_text base upper n)
        ≡ end + length (digit_text base upper result.1) }
    ensures written { digit_text base upper result.1 ++ drop result.0 out.new
        ≡ digit_text base upper n ++ drop end out.old }
    ensures front { take result.0 out.new ≡ take result.0 out.old }
{
    let wide = base as u128;
    let mut at = end;
    let mut rest = n;
    while rest > GREATEST_U64 {
        at -= 1;
        out[at] = digit_in_base((rest % wide) as u64, base, upper);
        rest /= wide;
    }
    (at, rest as u64)
}

/// Writes the last digit of a number that has more than one, at the place before `at`. Returns the
/// number without that digit.
#[tactic(auto, using(interpolator_digits::proofs::DigitLemmas::last_steps))]
#[inline(always)]
fn write_last(n: u64, base: u64, upper: bool, at: usize, out: &mut [u8; 128]) -> u64
    requires lowest { 2 ≤ base }
    requires highest { base ≤ 16 }
    requires several { base ≤ n }
    requires room { 1 ≤ at }
    requires place { at ≤ 128 }
    ensures rest { result ≡ n / base }
    ensures written { digit_text base upper result ++ drop (at - 1) out.new
        ≡ digit_text base upper n ++ drop at out.old }
    ensures front { take (at - 1) out.new ≡ take (at - 1) out.old }
{
    out[at - 1] = digit_in_base(n % base, base, upper);
    n / base
}

/// Writes all digits of a number but the first, ending at the place `end`. Returns where they
/// begin, and the first digit.
#[tactic(auto, using(interpolator_digits::proofs::DigitLemmas::one_steps))]
#[inline(always)]
pub(crate) fn write_low(
    n: u64,
    base: u64,
    upper: bool,
    end: usize,
    out: &mut [u8; 128],
) -> (usize, u64)
    requires lowest { 2 ≤ base }
    requires highest { base ≤ 16 }
    requires place { end ≤ 128 }
    requires room { length (digit_text base upper n) ≤ end }
    ensures first { result.1 < base }
    ensures leads { digit_text base upper n
        ≡ digit_glyph upper result.1 ∷ drop 1 (digit_text base upper n) }
    ensures begins { result.0 + length (drop 1 (digit_text base upper n)) ≡ end }
    ensures written { drop result.0 out.new ≡ drop 1 (digit_text base upper n) ++ drop end out.old }
    ensures front { take result.0 out.new ≡ take result.0 out.old }
{
    let mut at = end;
    let mut rest = n;
    while rest >= base {
        rest = write_last(rest, base, upper, at, out);
        at -= 1;
    }
    (at, rest)
}

/// Writes digits of a number from the last one on, ending at the place `end`, in base ten: two by
/// each division, until one or two are left. Returns where the digits begin, and what is left of
/// the number.
#[tactic(auto, using(interpolator_digits::proofs::DigitLemmas::pair_steps))]
#[inline(always)]
fn write_pairs(n: u64, end: usize, out: &mut [u8; 128]) -> (usize, u64)
    requires place { end ≤ 128 }
    requires room { length (digit_text 10 false n) ≤ end }
    ensures place { result.0 ≤ end }
    ensures begins { result.0 + length (digit_text 10 false n)
        ≡ end + length (digit_text 10 false result.1) }
    ensures written { digit_text 10 false result.1 ++ drop result.0 out.new
        ≡ digit_text 10 false n ++ drop end out.old }
    ensures front { take result.0 out.new ≡ take result.0 out.old }
{
    let mut at = end;
    let mut rest = n;
    while rest >= 100 {
        let (tens, ones) = pair_digits(rest % 100);
        out[at - 1] = ones;
        out[at - 2] = tens;
        at -= 2;
        rest /= 100;
    }
    (at, rest)
}

/// As [`write_low`], in base ten and of a number of any width.
#[tactic(auto, using(interpolator_digits::proofs::DigitLemmas::low_decimal_steps))]
#[inline(always)]
pub(crate) fn write_low_decimal(n: u128, end: usize, out: &mut [u8; 128]) -> (usize, u64)
    requires place { end ≤ 128 }
    requires room { length (digit_text 10 false n) ≤ end }
    ensures first { result.1 < 10 }
    ensures leads { digit_text 10 false n
        ≡ digit_glyph false result.1 ∷ drop 1 (digit_text 10 false n) }
    ensures begins { result.0 + length (drop 1 (digit_text 10 false n)) ≡ end }
    ensures written { drop result.0 out.new ≡ drop 1 (digit_text 10 false n) ++ drop end out.old }
    ensures front { take result.0 out.new ≡ take result.0 out.old }
{
    let (many, most) = write_wide(n, 10, false, end, out);
    let (few, rest) = write_pairs(most, many, out);
    write_low(rest, 10, false, few, out)
}

/// Writes the digits of a number at the end of the buffer. Returns where they begin.
fn write_digits(n: u128, base: u64, upper: bool, out: &mut [u8; 128]) -> usize
    requires lowest { 2 ≤ base }
    requires highest { base ≤ 16 }
    ensures within { result ≤ 128 }
    ensures written { drop result out.new ≡ digit_text base upper n }
    ensures ascii { IsAscii (drop result out.new) }
{
    let (many, rest) = write_wide(n, base, upper, MOST_DIGITS, out);
    let (few, first) = write_low(rest, base, upper, many, out);
    out[few - 1] = digit_in_base(first, base, upper);
    few - 1
}

/// Bytes below 128 as a text.
#[tactic(auto, using(interpolator_digits::proofs::DigitLemmas::ascii_texts))]
pub(crate) fn ascii_str(bytes: &[u8]) -> &str
    requires { IsAscii bytes.now }
    ensures { result.now ≡ bytes.now }
{
    unsafe { str::from_utf8_unchecked(bytes) }
}

/// The digits of a number as a text, whose bytes lie in the buffer.
pub(crate) fn digit_str<'a>(n: u128, base: u64, upper: bool, buffer: &'a mut [u8; 128]) -> &'a str
    requires lowest { 2 ≤ base }
    requires highest { base ≤ 16 }
    ensures text { result.now ≡ digit_text base upper n }
    ensures ascii { IsAscii result.now }
    ensures short { length result.now ≤ 128 }
{
    let start = write_digits(n, base, upper, buffer);
    ascii_str(&buffer[start..])
}
