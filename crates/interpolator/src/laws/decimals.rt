//! Laws of the texts of decimals, each the contract of a small function.

ghost use Rattle.std.specs.Prelude.{◌≡◌, ℕ, ℤ, List, None, Ok};
ghost use Rattle.interpolator_render.specs.Texts.{has_text, view_text};
ghost use Rattle.interpolator_render.specs.declared.view.Spec.{Spec};
ghost use Rattle.interpolator_render.specs.declared.view.Trait.TheVariants.{Display};
ghost use Rattle.interpolator_render.specs.{Padding.unset_spec, Views.decimal_number};
ghost use Rattle.interpolator.specs.DecimalTexts.{SpellsDecimal};

use crate::decimal::Decimal;
use interpolator_syntax::NumberError;

/// Under display, without a width and a precision, a decimal has a text that spells it: a sign if
/// there is one, digits, and if its scale is not 0 a point and as many more digits.
pub fn decimals_are_spelled()
    ensures spelled { (units : ℤ) (scale : ℕ) (spec : Spec) (text : List ℕ) → spec.width ≡ None
        → spec.precision ≡ None
        → view_text (decimal_number units scale) Display spec ≡ has_text text
        → SpellsDecimal text units scale }
{}

/// Reads the text that a decimal has under display, where the spec sets nothing: `parse` returns
/// this decimal. All characters of the text are ASCII, so that its bytes are these.
pub fn decimal_is_read_back(decimal: Decimal, text: &str) -> Result<Decimal, NumberError>
    requires { view_text (decimal_number decimal.units decimal.scale) Display unset_spec
        ≡ has_text text.now }
    ensures { result ≡ Ok decimal }
{
    Decimal::parse(text)
}
