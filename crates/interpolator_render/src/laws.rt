//! Laws: what the definitions that contracts cite mean, said in other words and proved for all
//! values. The contract of each function is the law. Most bodies are empty; the others compare,
//! make or clone values.
ghost use Rattle.std.specs.Prelude.{◌≡◌, ◌+◌, ◌-◌, ◌*◌, ◌^◌, ◌<◌, ◌≤◌, ◌≢◌, ◌↔◌, ◌++◌, ◌+ℤ◌, ◌*ℤ◌};
ghost use Rattle.std.specs.Prelude.{max, ℕ, ℤ, pos, Bool, List, Option, Some, None, IsTrue, false};
ghost use Rattle.std.specs.Prelude.{length, replicate, slice_index, unwrap_or};
ghost use Rattle.std.specs.Str.Parse.{digits_value};
ghost use Rattle.interpolator_digits.specs.Decimals.{SpellsUnits, decimal_text, units_at};
ghost use Rattle.interpolator_digits.specs.Decimals.{DenotesUnits, decimal_exponent_text};
ghost use Rattle.interpolator_digits.specs.Decimals.{rounded_units};
ghost use Rattle.interpolator_digits.specs.Exponent.{exponent_of, exponent_text, nearest};
ghost use Rattle.interpolator_digits.specs.Exponent.{scientific, significant_digits, IsNearest};
ghost use Rattle.interpolator_digits.specs.{Characters.zero_digit, Digits.digit_text};
ghost use Rattle.interpolator_render.specs.Padding.{padded_number, padded_text, displayed_text};
ghost use Rattle.interpolator_render.specs.Unquoting.{IsQuote, text_in_quotes};
ghost use Rattle.interpolator_render.specs.Views.{AreEqual, bit_count, shown_in_bytes};
ghost use Rattle.interpolator_render.specs.Writers.{Written, Appends};
ghost use Rattle.interpolator_render.specs.{Numbers.twos_complement, Quoting.quotation};

pub mod clones;
pub mod lengths;

use crate::text_write::Refusal;
use crate::view::{Alignment, Bits, HexDebug, RenderFault, Sign, Spec, Trait, View};

/// The digits of a number, read back in their base, give the number. The first of them is `0` for
/// zero alone.
#[tactic(auto, using(crate::proofs::LawLemmas::digit_laws))]
pub fn digits_read_back()
    ensures value { (base n : ℕ) (upper : Bool) → 2 ≤ base → base ≤ 16
        → digits_value base (digit_text base upper n) ≡ n }
    ensures first { (base n : ℕ) (upper : Bool) → 2 ≤ base → base ≤ 16 → 0 < n
        → slice_index (digit_text base upper n) 0 ≢ zero_digit }
{}

/// The exponent of a number above zero is the greatest e with 10^e at most the number. The exponent
/// of zero is 0.
#[tactic(auto, using(interpolator_digits::proofs::ExponentLemmas::exponent_of_zero))]
pub fn exponent_bounds()
    ensures some { (n : ℕ) → 0 < n → (10 ^ exponent_of n ≤ n) × (n < 10 ^ (exponent_of n + 1)) }
    ensures zero { exponent_of 0 ≡ 0 }
{}

/// The rounded count of units is at most half a unit from the number, and even on a tie. No other
/// count is both.
#[tactic(auto, using(crate::proofs::LawLemmas::nearest_laws))]
pub fn rounding_is_to_nearest()
    ensures nearest { (n unit : ℕ) → 0 < unit → IsNearest n unit (nearest n unit) }
    ensures only { (n unit count : ℕ) → 0 < unit → IsNearest n unit count
        → count ≡ nearest n unit }
{}

/// Trimming takes zeros from the end of the digits and nothing else. If more than one digit
/// remains, the last is not zero.
#[tactic(auto, using(crate::proofs::LawLemmas::trimmed_laws))]
pub fn trimmed_digits()
    ensures zeros { (digits : List ℕ)
        → (count : ℕ) × (digits ≡ significant_digits digits ++ replicate count zero_digit) }
    ensures last { (digits : List ℕ) → 1 < length (significant_digits digits)
        → slice_index (significant_digits digits) (length (significant_digits digits) - 1) ≢ zero_digit }
{}

/// A precision is exactly the count of digits after the first. If the number has no more digits
/// than that, they are its own, followed by zeros. If it has more, digits and exponent make the
/// number rounded to the last place that is shown.
#[tactic(auto, using(crate::proofs::CountLemmas::scientific_laws))]
pub fn precise_digits()
    ensures count { (places n : ℕ) → length (scientific (Some places) n).digits ≡ places + 1 }
    ensures whole { (places n : ℕ) → exponent_of n ≤ places
        → ((scientific (Some places) n).exponent ≡ exponent_of n)
        × (digits_value 10 (scientific (Some places) n).digits
        ≡ n * 10 ^ (places - exponent_of n)) }
    ensures rounded { (places n : ℕ) → places < exponent_of n
        → (places ≤ (scientific (Some places) n).exponent)
        × (digits_value 10 (scientific (Some places) n).digits
        * 10 ^ ((scientific (Some places) n).exponent - places)
        ≡ nearest n (10 ^ (exponent_of n - places)) * 10 ^ (exponent_of n - places)) }
{}

/// The text of a decimal is read back. Without precision its digits spell the units, and as many of
/// them as the scale says are after the point. With a precision exactly that many are, and they
/// spell the units of the last of them.
///
/// So `0.05` spells 5 units at the scale 2.
#[tactic(auto, using(crate::proofs::DecimalLawLemmas::decimal_laws))]
pub fn decimals_read_back()
    ensures plain { (scale units : ℕ) → SpellsUnits scale units (decimal_text None scale units) }
    ensures precise { (places scale units : ℕ)
        → SpellsUnits places (units_at places scale units) (decimal_text (Some places) scale units) }
{}

/// A precision below the scale gives the nearest count of units of its last digit, the even one on
/// a tie. Any other precision gives the decimal itself, with zeros after it.
#[tactic(auto, using(crate::proofs::DecimalLawLemmas::decimal_laws))]
pub fn decimals_are_rounded_to_nearest()
    ensures rounded { (places scale units : ℕ) → places < scale
        → IsNearest units (10 ^ (scale - places)) (units_at places scale units) }
    ensures exact { (places scale units : ℕ) → scale ≤ places
        → units_at places scale units ≡ units * 10 ^ (places - scale) }
{}

/// The text of a decimal in exponent form denotes the decimal. With a precision it denotes the
/// decimal rounded to that many digits after the first.
///
/// So `1.5e-3` denotes 15 units at the scale 4.
#[tactic(auto, using(crate::proofs::DecimalExponentLemmas::exponents_denote))]
pub fn exponents_denote_decimals()
    ensures { (upper : Bool) (precision : Option ℕ) (scale units : ℕ)
        → DenotesUnits upper scale (rounded_units precision units)
        (decimal_exponent_text upper precision scale units) }
{}

/// At the scale 0 a decimal has the text of the whole number, in exponent form too.
#[tactic(auto, using(crate::proofs::DecimalLawLemmas::whole_laws))]
pub fn decimals_without_scale_are_whole()
    ensures plain { (n : ℕ) → decimal_text None 0 n ≡ digit_text 10 false n }
    ensures exponent { (upper : Bool) (precision : Option ℕ) (n : ℕ)
        → decimal_exponent_text upper precision 0 n ≡ exponent_text upper precision n }
{}

/// A quoted text is read back as the text: its escapes are undone up to the first quote that is not
/// escaped, and that quote is the closing one.
#[tactic(auto, using(crate::proofs::UnquotingLemmas::quoted_read))]
pub fn quoted_reads_back()
    ensures { (quote : ℕ) (text after : List ℕ) → IsQuote quote
        → text_in_quotes quote (quotation quote text ++ after)
        ≡ Some (record { text = text; after = after }) }
{}

/// A padded text has as many characters as the width says, or as the text has if that is more.
#[tactic(auto, using(crate::proofs::LawLemmas::padded_laws))]
pub fn padded_counts()
    ensures texts { (spec : Spec) (text : List ℕ)
        → length (padded_text spec text) ≡ max (unwrap_or spec.width 0) (length text) }
    ensures numbers { (spec : Spec) (front body : List ℕ)
        → length (padded_number spec front body)
        ≡ max (unwrap_or spec.width 0) (length front + length body) }
{}

/// Without precision, a `pad` that wrote its whole text has added as many characters as the width
/// says, or as the text has if those are more.
#[tactic(auto, using(crate::proofs::LawLemmas::pad_count))]
pub fn pad_adds()
    ensures { (spec : Spec) (text : List ℕ) (old new : Written) → spec.precision ≡ None
        → Appends old (displayed_text spec text) new
        → length new.text ≡ length old.text + max (unwrap_or spec.width 0) (length text) }
{}

/// Two's complement at a width is the one number below 2 to the width that differs from the number
/// by a multiple of it.
#[tactic(auto, using(crate::proofs::LawLemmas::twos_complement_laws))]
pub fn twos_complement_is_congruent()
    ensures below { (z : ℤ) (bits : Bits) → twos_complement z bits < 2 ^ bit_count bits }
    ensures congruent { (z : ℤ) (bits : Bits) → (turns : ℤ)
        × (z ≡ (turns *ℤ pos (2 ^ bit_count bits)) +ℤ pos (twos_complement z bits)) }
{}

/// Two traits are equal exactly when they are the same variant.
pub fn equal_traits(left: Trait, right: Trait) -> bool
    ensures { IsTrue result ↔ (left ≡ right) }
{
    left == right
}

/// Two alignments are equal exactly when they are the same variant.
pub fn equal_alignments(left: Alignment, right: Alignment) -> bool
    ensures { IsTrue result ↔ (left ≡ right) }
{
    left == right
}

/// Two signs are equal exactly when they are the same variant.
pub fn equal_signs(left: Sign, right: Sign) -> bool
    ensures { IsTrue result ↔ (left ≡ right) }
{
    left == right
}

/// Two ways to write debug numbers are equal exactly when they are the same variant.
pub fn equal_hex_debugs(left: HexDebug, right: HexDebug) -> bool
    ensures { IsTrue result ↔ (left ≡ right) }
{
    left == right
}

/// Two widths are equal exactly when they are the same variant.
pub fn equal_bits(left: Bits, right: Bits) -> bool
    ensures { IsTrue result ↔ (left ≡ right) }
{
    left == right
}

/// Two faults of a view are equal exactly when they are the same variant.
pub fn equal_render_faults(left: RenderFault, right: RenderFault) -> bool
    ensures { IsTrue result ↔ (left ≡ right) }
{
    left == right
}

/// Two refusals are equal exactly when they have taken the same number of bytes.
pub fn equal_refusals(left: Refusal, right: Refusal) -> bool
    ensures { IsTrue result ↔ (left ≡ right) }
{
    left == right
}

/// Two specs are equal exactly when all their fields are.
pub fn equal_specs(one: Spec, other: Spec) -> bool
    ensures { IsTrue result ↔ (one ≡ other) }
{
    one == other
}

/// Two views are equal exactly when they are the same variant, of the same number or text. A NaN is
/// not the same number as itself, and 0.0 is the same as -0.0.
pub fn equal_views(one: &View<'_>, other: &View<'_>) -> bool
    ensures { IsTrue result ↔ AreEqual (shown_in_bytes one.now) (shown_in_bytes other.now) }
{
    *one == *other
}

/// By default nothing is set.
pub fn default_spec() -> Spec
    ensures fill { result.fill ≡ None }
    ensures alignment { result.alignment ≡ Alignment.Unset }
    ensures sign { result.sign ≡ Sign.Unset }
    ensures flags { (result.alternate ≡ false) × (result.zero ≡ false) }
    ensures width { result.width ≡ None }
    ensures precision { result.precision ≡ None }
    ensures hex_debug { result.hex_debug ≡ HexDebug.No }
{
    Spec::default()
}
