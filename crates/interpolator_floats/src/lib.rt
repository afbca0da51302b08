//! The digits of floats: as many as a precision says, or the fewest that read back.
//!
//! A finite float is a decimal, and what is proved of decimals holds of it. [`word`] is the text of
//! a float that is not finite, [`is_negative`] says whether a minus is written, [`digits_at`] gives
//! the digits at a precision, [`exponent_digits`] those of exponent form, and [`shortest_digits`] the
//! fewest that read back. No memory is taken.
//!
//! ```text
//! let mut room = [0; MOST_DIGITS];
//! digits_at(2.675, 2, &mut room)   // whole 2, part 67: 2.675 is a little less than it seems
//! ```
#![tactic(auto)]

mod choice;
mod digits;
mod exact;
mod exponent;
mod parts;
mod plain;
mod powers;
mod rounding;
mod scale;
mod shortest;
mod units;
mod whole;
mod words;

pub use choice::{
    Choice, Scaled, choose, fewest_digits, reads_back, reads_back_inside, short_choice,
};
pub use digits::{FloatDigits, float_digits, float_is_decimal};
pub use exact::{DigitsAt, ExactDigits, MOST_DIGITS, digits_at, exact_digits};
pub use exponent::{ExponentDigits, exponent_digits};
pub use parts::{FloatParts, f32_parts, float_parts, is_negative, odd_parts, word};
pub use plain::{PlainDigits, ScientificDigits, plain_digits, scientific_digits, units_exponent};
pub use shortest::{
    Shortest, shortest_digits, shortest_f32_digits, shortest_f32_is_shortest, shortest_is_shortest,
};
