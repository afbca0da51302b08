//! Whole numbers: floats that are, and the zeros at their end.
ghost use Rattle.std.specs.Prelude.{◌≡◌, ◌≢◌, ◌-◌, ◌*◌, ◌%◌, ◌^◌, ◌<◌, ◌≤◌, IfSome, false, true};

use crate::choice::Choice;

/// The whole number that is mantissa * 2 ^ power steps of 2 ^ -1074, if it is one and lies below
/// 2 ^ 52.
#[tactic(auto, using(crate::proofs::WholeLemmas::whole_steps))]
#[inline(always)]
pub(crate) fn whole_number(mantissa: u64, power: u32) -> Option<u64>
    ensures below { IfSome result (λ number. power < 1074) }
    ensures value { IfSome result (λ number. mantissa ≡ number * 2 ^ (1074 - power)) }
{
    if power < 1011 || 1073 < power {
        return None;
    }
    let step = 1u64 << (1074 - power);
    if mantissa % step != 0 {
        return None;
    }
    Some(mantissa / step)
}

/// A number without so many zeros at its end, if it has as many, and how many were taken off.
#[tactic(auto, using(crate::proofs::UnitLemmas::runs))]
#[inline(always)]
fn without_run(number: u64, unit: u64, zeros: u32) -> (u64, u32)
    requires some { 0 < number }
    requires unit { unit ≡ 10 ^ zeros }
    ensures value { number ≡ result.0 * 10 ^ result.1 }
    ensures some { 0 < result.0 }
    ensures few { result.1 ≤ zeros }
{
    if number % unit == 0 {
        return (number / unit, zeros);
    }
    (number, 0)
}

/// A count that is one of tens, without the zeros at its end, and how many those are.
pub(crate) fn without_zeros(choice: Choice) -> (u64, u32)
    requires { 0 < choice.count }
    ensures value { choice.count ≡ result.0 * 10 ^ result.1 }
    ensures whole { choice.tens ≡ false → result.1 ≡ 0 }
    ensures last { choice.tens ≡ true → result.0 % 10 ≢ 0 }
    ensures few { result.1 ≤ 19 }
{
    if !choice.tens {
        return (choice.count, 0);
    }
    let (count, eight) = without_run(choice.count, 100_000_000, 8);
    let (mut digits, four) = without_run(count, 10_000, 4);
    let mut zeros = eight + four;
    while digits % 10 == 0 {
        digits /= 10;
        zeros += 1;
    }
    (digits, zeros)
}
