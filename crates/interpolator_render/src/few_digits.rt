//! Whole numbers of few digits, put into a row behind what lies there.
ghost use Rattle.std.specs.Prelude.{◌≡◌, ◌+◌, ◌<◌, ◌≤◌, ◌++◌, MatchOption, false, true, length};
ghost use Rattle.std.specs.Prelude.{drop, take};
ghost use Rattle.interpolator_digits.specs.Digits.{digit_text};
ghost use Rattle.interpolator_render.specs.FewDigits.{PutsFew, is_few};
ghost use Rattle.interpolator_render.specs.{Padding.unset_spec, Texts.view_text};
ghost use Rattle.interpolator_render.specs.Views.{IsInRange, shown_by};
ghost use Rattle.interpolator_render.specs.declared.view.Trait.TheVariants.{Display};

use crate::digit_tables::pair_digits;
use crate::number::three_digits;
use crate::places::put_over;
use crate::view::View;

/// A number below 10,000 is of few digits.
const MANY: u64 = 10_000;

/// Puts the digits of a number that has four over places of a row from `at` on.
#[tactic(auto, using(crate::proofs::FewDigitLemmas::four_alone))]
#[inline(always)]
fn put_four(row: &mut [u8], at: usize, n: u64)
    requires room { at + 4 ≤ length row.old }
    requires least { 1000 ≤ n }
    requires most { n < 10000 }
    ensures row { row.new ≡ take at row.old ++ digit_text 10 false n
        ++ drop (at + length (digit_text 10 false n)) row.old }
    ensures count { length (digit_text 10 false n) ≡ 4 }
{
    let (thousands, hundreds) = pair_digits(n / 100);
    let (tens, ones) = pair_digits(n % 100);
    put_over(row, at, &[thousands, hundreds, tens, ones]);
}

/// Puts the digits of a number over places of a row from `at` on, and returns how many they are.
#[tactic(auto, using(crate::proofs::FewDigitLemmas::few_texts))]
#[inline(always)]
fn put_digits_at(row: &mut [u8], at: usize, n: u64) -> usize
    requires room { at + 4 ≤ length row.old }
    requires few { n < 10000 }
    ensures row { row.new ≡ take at row.old ++ digit_text 10 false n
        ++ drop (at + length (digit_text 10 false n)) row.old }
    ensures count { result ≡ length (digit_text 10 false n) }
    ensures few { result ≤ 4 }
{
    if n < 10 {
        put_over(row, at, &[b'0' + n as u8]);
        return 1;
    }
    if n < 100 {
        let (tens, ones) = pair_digits(n);
        put_over(row, at, &[tens, ones]);
        return 2;
    }
    if n < 1000 {
        put_over(row, at, &three_digits(n));
        return 3;
    }
    put_four(row, at, n);
    4
}

/// Puts the text of a view, displayed plainly, over places of a row from `at` on, if it is a whole
/// number from 0 to 9,999, and returns how many bytes it has. Else it returns `None` and the row is
/// as it was. So a text and the number behind it can be written by one call of a writer.
///
/// # Example
///
/// ```text
/// let mut row = *b", ......";
/// let count = put_few_digits(&mut row, 2, View::Unsigned(70));   // Some(2)
/// out.write_str(str::from_utf8(&row[..4])?)?;             // appends ", 70"
/// ```
#[inline(always)]
pub fn put_few_digits(row: &mut [u8], at: usize, view: View<'_>) -> Option<usize>
    requires in_range { IsInRange (shown_by view) }
    requires room { at + 4 ≤ length row.old }
    ensures answer { MatchOption result
        ((is_few (shown_by view.entry) ≡ false) × (row.new ≡ row.old))
        (λ count. (is_few (shown_by view.entry) ≡ true)
        × PutsFew (view_text (shown_by view.entry) Display unset_spec) at count row.old row.new) }
    ensures size { length row.new ≡ length row.old }
    ensures front { take at row.new ≡ take at row.old }
{
    if let View::Unsigned(number) = view {
        if number < u128::from(MANY) {
            return Some(put_digits_at(row, at, number as u64));
        }
    }
    if let View::Signed(number, _) = view {
        if 0 <= number && number < i128::from(MANY) {
            return Some(put_digits_at(row, at, number as u64));
        }
    }
    None
}
