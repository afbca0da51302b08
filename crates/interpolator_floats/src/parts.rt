//! A float in parts.
ghost use Rattle.std.specs.Prelude.{◌≡◌, ◌↔◌, ◌+◌, ◌*◌, ◌%◌, ◌^◌, ◌<◌, ◌≤◌, IfSome, IsNone, IsTrue};
ghost use Rattle.std.specs.Float.{float_is_finite};
ghost use lib.Ieee.Exact.{HasValue};
ghost use Rattle.interpolator_floats.specs.Floats.{float_word, has_minus};

/// The value `mantissa * 2 ^ power`, in steps of 2 ^ -1074, and its sign.
#[derive(Clone, Copy)]
pub struct FloatParts {
    pub negative: bool,
    pub mantissa: u64,
    pub power: u32,
}

/// The parts of a float that is not infinite and a number.
pub fn float_parts(x: f64) -> FloatParts
    requires { IsTrue (float_is_finite x) }
    ensures value { HasValue x result.negative (result.mantissa * 2 ^ result.power) (2 ^ 1074) }
    ensures short { result.mantissa < 2 ^ 53 }
    ensures low { result.power ≤ 2045 }
    ensures normal { 0 < result.power → 2 ^ 52 ≤ result.mantissa }
{
    let bits = x.to_bits();
    let negative = bits >= 0x8000_0000_0000_0000;
    let field = bits / 0x0010_0000_0000_0000 % 2048;
    let low = bits % 0x0010_0000_0000_0000;
    if field == 0 {
        return FloatParts {
            negative,
            mantissa: low,
            power: 0,
        };
    }
    FloatParts {
        negative,
        mantissa: low + 0x0010_0000_0000_0000,
        power: (field - 1) as u32,
    }
}

/// As [`float_parts`], of an `f32`. Its least step is 2 ^ 925 of the steps.
pub fn f32_parts(x: f32) -> FloatParts
    requires { IsTrue (float_is_finite x) }
    ensures value { HasValue x result.negative (result.mantissa * 2 ^ result.power) (2 ^ 1074) }
    ensures short { result.mantissa < 2 ^ 24 }
    ensures least { 925 ≤ result.power }
    ensures low { result.power ≤ 1178 }
    ensures normal { 925 < result.power → 2 ^ 23 ≤ result.mantissa }
{
    let bits = x.to_bits();
    let negative = bits >= 0x8000_0000;
    let field = bits / 0x0080_0000 % 256;
    let low = bits % 0x0080_0000;
    if field == 0 {
        return FloatParts {
            negative,
            mantissa: low as u64,
            power: 925,
        };
    }
    FloatParts {
        negative,
        mantissa: low as u64 + 0x0080_0000,
        power: field + 924,
    }
}

/// The number `mantissa * 2 ^ power` by an odd mantissa, if it is above zero.
#[tactic(auto, using(crate::proofs::PartLemmas::odd_steps))]
pub(crate) fn without_zero_bits(mantissa: u64, power: u32) -> (u64, u32)
    requires some { 0 < mantissa }
    requires low { power ≤ 2045 }
    ensures value { result.0 * 2 ^ result.1 ≡ mantissa * 2 ^ power }
    ensures odd { result.0 % 2 ≡ 1 }
    ensures less { result.0 ≤ mantissa }
    ensures low { result.1 ≤ 2109 }
{
    let zeros = mantissa.trailing_zeros();
    (mantissa >> zeros, power + zeros)
}

/// As [`float_parts`], by an odd mantissa, or by a mantissa of 0 and a power of 1074.
pub fn odd_parts(x: f64) -> FloatParts
    requires { IsTrue (float_is_finite x) }
    ensures value { HasValue x result.negative (result.mantissa * 2 ^ result.power) (2 ^ 1074) }
    ensures short { result.mantissa < 2 ^ 53 }
    ensures odd { 0 < result.mantissa → result.mantissa % 2 ≡ 1 }
    ensures zero { result.mantissa ≡ 0 → result.power ≡ 1074 }
    ensures low { result.power ≤ 2109 }
{
    let parts = float_parts(x);
    if parts.mantissa == 0 {
        return FloatParts {
            negative: parts.negative,
            mantissa: 0,
            power: 1074,
        };
    }
    let (mantissa, power) = without_zero_bits(parts.mantissa, parts.power);
    FloatParts {
        negative: parts.negative,
        mantissa,
        power,
    }
}

/// Whether a float is written with a minus: a NaN never is, and -0.0 is.
pub fn is_negative(x: f64) -> bool
    ensures { result ≡ has_minus x }
{
    !x.is_nan() && x.is_sign_negative()
}

/// The word for a float that is written by no digits: `NaN` or, without its sign, `inf`.
pub fn word(x: f64) -> Option<&'static str>
    ensures finite { IsNone result ↔ IsTrue (float_is_finite x) }
    ensures text { IfSome result (λ text. text.now ≡ float_word x) }
{
    if x.is_nan() {
        return Some("NaN");
    }
    if x.is_infinite() {
        return Some("inf");
    }
    None
}
