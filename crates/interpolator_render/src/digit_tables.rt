//! Tables of digits.
ghost use Rattle.std.specs.Prelude.{◌≡◌, ◌<◌, ◌≤◌, ◌+◌, ◌/◌, ◌%◌};
ghost use Rattle.std.specs.Fmt.{digit_glyph};

/// The two digits of each number below 100, in base ten.
static PAIRS: [u8; 200] = *b"0001020304050607080910111213141516171819\
    2021222324252627282930313233343536373839\
    4041424344454647484950515253545556575859\
    6061626364656667686970717273747576777879\
    8081828384858687888990919293949596979899";

/// The tens and the ones of a number below 100, as digits.
#[tactic(auto, using(crate::proofs::DigitTableLemmas::pair_at))]
pub(crate) fn pair_digits(pair: u64) -> (u8, u8)
    requires { pair < 100 }
    ensures tens { result.0 ≡ 48 + pair / 10 }
    ensures ones { result.1 ≡ 48 + pair % 10 }
{
    let place = pair as usize * 2;
    (PAIRS[place], PAIRS[place + 1])
}

/// The digits of base sixteen.
static SMALL_DIGITS: [u8; 16] = *b"0123456789abcdef";

static CAPITAL_DIGITS: [u8; 16] = *b"0123456789ABCDEF";

/// A digit of a base, as it is written. A base of at most ten has no letters, and so needs no
/// table.
#[tactic(auto, using(crate::proofs::DigitTableLemmas::sixteen_digits))]
#[inline(always)]
pub(crate) fn digit_in_base(digit: u64, base: u64, upper: bool) -> u8
    requires digit { digit < base }
    requires base { base ≤ 16 }
    ensures { result ≡ digit_glyph upper digit }
{
    if base <= 10 {
        return b'0' + digit as u8;
    }
    if upper {
        return CAPITAL_DIGITS[digit as usize];
    }
    SMALL_DIGITS[digit as usize]
}
