//! Formats whose context is made once.

use crate::failure::Failure;
use crate::uses::{How, repeat_format, repeat_in_map};
use interpolator::{Formattable, Pairs, Value, View};
use std::alloc::{AllocError, Global};

const LAYOUT: &str = "{time} {level} [{module}] {message} (line {line})";

const AMOUNTS: &str = "net {net:>10.2} tax {tax:>10.2} paid {paid:>10.2} open {open:>10.2}";

const NUMBER_NAMES: [&str; 32] = [
    "a", "b", "c", "d", "e", "f", "g", "h", "i", "j", "k", "l", "m", "n", "o", "p", "q", "r", "s",
    "t", "u", "v", "w", "x", "y", "z", "aa", "bb", "cc", "dd", "ee", "ff",
];

/// Numbers without a sign.
pub const NUMBERS: [u32; 32] = [
    0, 1, 2, 3, 5, 8, 13, 21, 34, 55, 89, 144, 233, 377, 610, 987, 4, 6, 9, 10, 12, 14, 15, 16, 18,
    20, 22, 24, 25, 26, 27, 28,
];

/// The same numbers, in a signed type.
pub const SIGNED_NUMBERS: [i64; 32] = [
    0, 1, 2, 3, 5, 8, 13, 21, 34, 55, 89, 144, 233, 377, 610, 987, 4, 6, 9, 10, 12, 14, 15, 16, 18,
    20, 22, 24, 25, 26, 27, 28,
];

/// Numbers below zero.
pub const NEGATIVE_NUMBERS: [i64; 32] = [
    -7, -1, -2, -3, -5, -8, -13, -21, -34, -55, -89, -144, -233, -377, -610, -987, -4, -6, -9, -10,
    -12, -14, -15, -16, -18, -20, -22, -24, -25, -26, -27, -28,
];

const TEXT_NAMES: [&str; 18] = [
    "name", "title", "street", "city", "country", "phone", "email", "company", "job", "topic",
    "greeting", "closing", "sender", "office", "unit", "date", "place", "motto",
];

const TEXTS: [&str; 18] = [
    "Ann Svensson",
    "Dr",
    "Long Street 12",
    "Oslo",
    "Norway",
    "555-0199",
    "ann@example.org",
    "Acme",
    "baker",
    "bread",
    "Dear",
    "Yours",
    "Bob",
    "North",
    "B4",
    "2024-05-17",
    "Bergen",
    "onwards",
];

/// A layout of log lines, with texts and a number.
pub fn log_line(alloc: Global, how: How, repeats: u32) -> Result<String, Failure> {
    let values = [
        View::Text("2024-05-17T12:34:56Z"),
        View::Text("INFO"),
        View::Text("store::index"),
        View::Text("rebuilt the index of all orders"),
        View::Unsigned(217),
    ];
    let pairs = [
        ("time", Formattable::display(&values[0])),
        ("level", Formattable::display(&values[1])),
        ("module", Formattable::display(&values[2])),
        ("message", Formattable::display(&values[3])),
        ("line", Formattable::integer(&values[4])),
    ];
    repeat_format(alloc, how, LAYOUT, &Pairs(&pairs), repeats)
}

/// A line of four amounts, one of them with more digits than are shown.
#[rattlefmt::skip]
pub fn amounts(alloc: Global, how: How, repeats: u32) -> Result<String, Failure> {
    let values = [
        View::Decimal { units: 1_234_567, scale: 2 },
        View::Decimal { units: 24_691_340, scale: 4 },
        View::Decimal { units: -1_400_000, scale: 2 },
        View::Decimal { units: 81_480, scale: 2 },
    ];
    let pairs = [
        ("net", Formattable::display(&values[0])),
        ("tax", Formattable::display(&values[1])),
        ("paid", Formattable::display(&values[2])),
        ("open", Formattable::display(&values[3])),
    ];
    repeat_format(alloc, how, AMOUNTS, &Pairs(&pairs), repeats)
}

/// The same amounts.
pub const FLOAT_AMOUNTS: [f64; 4] = [12345.67, 2469.134, -14000.0, 814.8];

/// The same line, of floats.
pub fn float_amounts(alloc: Global, how: How, repeats: u32) -> Result<String, Failure> {
    let values = FLOAT_AMOUNTS;
    let pairs = [
        ("net", Formattable::display(&values[0])),
        ("tax", Formattable::display(&values[1])),
        ("paid", Formattable::display(&values[2])),
        ("open", Formattable::display(&values[3])),
    ];
    repeat_format(alloc, how, AMOUNTS, &Pairs(&pairs), repeats)
}

/// Four floats of a kind.
#[derive(Clone, Copy)]
pub enum Floats {
    /// Of few digits.
    Short,
    /// Whole numbers.
    Whole,
    /// Of six digits after the point.
    Coordinates,
    /// Of all digits and far from one, in exponent form.
    Far,
    /// The same with 17 digits after the point.
    FarLong,
    /// Of any bits, with 17 digits after the point.
    AnyLong,
}

impl Floats {
    /// The four.
    pub fn values(self) -> [f64; 4] {
        match self {
            Floats::Short => [59.9139, 10.7522, 0.1, 1234.5],
            Floats::Whole => [1500.0, 42.0, 1000000.0, 86400.0],
            Floats::Coordinates => [59.913869, 10.752245, -33.86882, 151.20929],
            Floats::Far | Floats::FarLong => FAR_FLOATS,
            Floats::AnyLong => ANY_FLOATS,
        }
    }

    fn format(self) -> &'static str {
        match self {
            Floats::Far => "{north:e} {east:e} {step:e} {height:e}",
            Floats::FarLong => "{north:.17e} {east:.17e} {step:.17e} {height:.17e}",
            Floats::AnyLong => "{north:.17} {east:.17} {step:.17} {height:.17}",
            _ => "{north} {east} {step} {height}",
        }
    }
}

const FAR_FLOATS: [f64; 4] = [
    6.398739211747873e-150,
    -2.7105054312137611e-120,
    8.345216793071533e-200,
    3.141592653589793e-101,
];

/// Floats whose bits are the numbers that SplitMix64 draws first from the seeds 4, 6, 9 and 11.
const ANY_FLOATS: [f64; 4] = [
    1.1502657903799078e224,
    -5.868472719237263e-13,
    -8.062156064994877e-84,
    1.0146145319903965e82,
];

/// Four floats, by their shortest digits, in exponent form, or with digits after the point.
pub fn four_floats(alloc: Global, how: How, kind: Floats, repeats: u32) -> Result<String, Failure> {
    let values = kind.values();
    let pairs = [
        ("north", Formattable::float(&values[0])),
        ("east", Formattable::float(&values[1])),
        ("step", Formattable::float(&values[2])),
        ("height", Formattable::float(&values[3])),
    ];
    repeat_format(alloc, how, kind.format(), &Pairs(&pairs), repeats)
}

/// A format that uses thirty-two short names, with these numbers.
pub fn number_names<V: Value>(
    alloc: Global,
    how: How,
    numbers: &[V],
    repeats: u32,
) -> Result<String, Failure> {
    let format = names_format(alloc, &NUMBER_NAMES)?;
    let mut pairs = Vec::new(alloc);
    for (name, number) in NUMBER_NAMES.iter().zip(numbers) {
        pairs.push((*name, Formattable::integer(number)))?;
    }
    repeat_in_map(alloc, how, format.as_str(), &Pairs(&pairs), repeats)
}

/// A format that uses eighteen names, with texts.
pub fn text_names(alloc: Global, how: How, repeats: u32) -> Result<String, Failure> {
    let format = names_format(alloc, &TEXT_NAMES)?;
    let mut pairs = Vec::new(alloc);
    for (name, text) in TEXT_NAMES.iter().zip(&TEXTS) {
        pairs.push((*name, Formattable::display(text)))?;
    }
    repeat_in_map(alloc, how, format.as_str(), &Pairs(&pairs), repeats)
}

/// Copies of a text, as a format that uses no names.
pub fn copies(
    alloc: Global,
    how: How,
    piece: &str,
    count: u32,
    repeats: u32,
) -> Result<String, Failure> {
    let mut format = String::new(alloc);
    for _ in 0..count {
        format.push_str(piece)?;
    }
    let none: Pairs<'_, u32> = Pairs(&[]);
    repeat_format(alloc, how, format.as_str(), &none, repeats)
}

// A format that uses each name, with a space after each.
fn names_format(alloc: Global, names: &[&str]) -> Result<String, AllocError> {
    let mut format = String::new(alloc);
    for name in names {
        format.push('{')?;
        format.push_str(name)?;
        format.push_str("} ")?;
    }
    Ok(format)
}
