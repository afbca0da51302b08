//! Values under specs: as formats with names, or by the renderer alone.

use crate::failure::Failure;
use crate::formats::{FLOAT_AMOUNTS, Floats};
use crate::uses::{How, repeat_format};
use interpolator::{
    Decimal, Formattable, Kind, Pairs, Spec, Template, TextBuffer, Trait, Value, View, render,
};
use std::alloc::{AllocError, Global};

/// Values, each of which is written under each of some specs.
#[derive(Clone, Copy)]
pub enum Values {
    /// Whole numbers under mixes of sign, zero flag, width and alignment.
    Specs,
    /// Whole numbers in bases two, eight and sixteen.
    Radix,
    /// Whole numbers in exponent form.
    Exponents,
    /// Texts, most of them not ASCII, cut and padded.
    PaddedTexts,
    /// The same texts and widths, filled with stars.
    StarredTexts,
    /// The same texts and widths, filled with a character of two bytes.
    AccentedTexts,
    /// A text and a number under widths of 1,000.
    Wide,
    /// The same, filled with a character of two bytes.
    WideAccents,
    /// Whole numbers of 10 to 19 digits.
    LongDigits,
    /// Decimals of the same digits, two of them after the point.
    LongDecimals,
    /// Whole numbers of 60 bits, in base two.
    SixtyBits,
    /// Whole numbers of 16 digits in base sixteen.
    SixteenHex,
    /// Floats by their shortest digits.
    Floats(Floats),
    /// Floats with two digits after the point.
    FloatAmounts,
}

const TEXTS: [&str; 6] = ["é", "naïve", "smörgåsbord", "日本語", "Привет", "plain"];

const LONG_DIGITS: [u64; 10] = [
    1_234_567_890,
    98_765_432_109,
    123_456_789_012,
    9_876_543_210_987,
    12_345_678_901_234,
    987_654_321_098_765,
    1_234_567_890_123_456,
    98_765_432_109_876_543,
    123_456_789_012_345_678,
    9_876_543_210_987_654_321,
];

const SIXTY_BITS: [u64; 4] = [
    0x800_0000_0000_0001,
    0xfed_cba9_8765_4321,
    0xaaa_aaaa_aaaa_aaaa,
    0xfff_ffff_ffff_ffff,
];

const SIXTEEN_HEX: [u64; 4] = [
    0x8000_0000_0000_0001,
    0x1123_4567_89ab_cdef,
    0xdead_beef_cafe_f00d,
    0xffff_ffff_ffff_ffff,
];

impl Values {
    /// Writes the values `repeats` times: by a format that is used in this way or, if there is none,
    /// by the renderer alone.
    #[rattlefmt::skip]
    pub fn repeat(self, alloc: Global, how: Option<How>, repeats: u32) -> Result<String, Failure> {
        match self {
            Values::Specs => repeat(alloc, how, &[0i64, 7, -42, 12345], &["", ":+", ":6", ":06", ":+08", ":<8", ":^9", ":>+12"], repeats),
            Values::Radix => repeat(alloc, how, &[5u32, 255, 4096, 48879], &[":b", ":o", ":x", ":X", ":#b", ":#o", ":#010x", ":8X"], repeats),
            Values::Exponents => repeat(alloc, how, &[7u64, 1200, 123456, 987654321], &[":e", ":E", ":.2e", ":+12.3E"], repeats),
            Values::PaddedTexts => repeat(alloc, how, &TEXTS, &[":12", ":>16", ":^10.4"], repeats),
            Values::StarredTexts => repeat(alloc, how, &TEXTS, &[":*<12", ":*>16", ":*^10.4"], repeats),
            Values::AccentedTexts => repeat(alloc, how, &TEXTS, &[":é<12", ":é>16", ":é^10.4"], repeats),
            Values::Wide => repeat_wide(alloc, how, &[":1000", ":<1000", ":^1000", ":>1000", ":01000"], repeats),
            Values::WideAccents => repeat_wide(alloc, how, &[":é<1000", ":é^1000", ":é>1000"], repeats),
            Values::LongDigits => repeat(alloc, how, &LONG_DIGITS, &[""], repeats),
            Values::LongDecimals => repeat_decimals(alloc, how, repeats),
            Values::SixtyBits => repeat(alloc, how, &SIXTY_BITS, &[":b"], repeats),
            Values::SixteenHex => repeat(alloc, how, &SIXTEEN_HEX, &[":x"], repeats),
            Values::Floats(kind) => repeat(alloc, how, &kind.values(), &[""], repeats),
            Values::FloatAmounts => repeat(alloc, how, &FLOAT_AMOUNTS, &[":.2"], repeats),
        }
    }
}

// Writes a text and a number under each spec, `repeats` times.
fn repeat_wide(
    alloc: Global,
    how: Option<How>,
    specs: &[&str],
    repeats: u32,
) -> Result<String, Failure> {
    let values = [View::Text("wide"), View::Unsigned(42)];
    repeat(alloc, how, &values, specs, repeats)
}

// Writes the decimals, `repeats` times.
fn repeat_decimals(alloc: Global, how: Option<How>, repeats: u32) -> Result<String, Failure> {
    let mut decimals = Vec::new(alloc);
    for digits in LONG_DIGITS {
        decimals.push(Decimal {
            units: i128::from(digits),
            scale: 2,
        })?;
    }
    repeat(alloc, how, &decimals, &[""], repeats)
}

// Writes each value under each spec, `repeats` times. Returns the last text.
fn repeat<V: Value>(
    alloc: Global,
    how: Option<How>,
    values: &[V],
    specs: &[&str],
    repeats: u32,
) -> Result<String, Failure> {
    match how {
        Some(how) => repeat_specs(alloc, how, values, specs, repeats),
        None => repeat_rows(alloc, values, &forms_of(alloc, specs)?, repeats),
    }
}

const NAMES: [&str; 6] = ["a", "b", "c", "d", "e", "f"];

// Formats each value, at most six of them, under each spec, `repeats` times. Returns the last text.
fn repeat_specs<V: Value>(
    alloc: Global,
    how: How,
    values: &[V],
    specs: &[&str],
    repeats: u32,
) -> Result<String, Failure> {
    let mut format = String::new(alloc);
    let mut pairs = Vec::new(alloc);
    for (name, value) in NAMES.iter().zip(values) {
        put_specs(&mut format, name, specs)?;
        pairs.push((*name, Formattable::integer(value)))?;
    }
    repeat_format(alloc, how, format.as_str(), &Pairs(&pairs), repeats)
}

// Appends an argument of this name for each spec, with a space after each.
fn put_specs(format: &mut String, name: &str, specs: &[&str]) -> Result<(), AllocError> {
    for spec in specs {
        format.push('{')?;
        format.push_str(name)?;
        format.push_str(spec)?;
        format.push_str("} ")?;
    }
    Ok(())
}

/// How a value is written by the renderer.
#[derive(Clone, Copy)]
struct Form {
    wanted: Trait,
    spec: Spec,
}

// What each of the specs means, as a format reads it.
fn forms_of(alloc: Global, specs: &[&str]) -> Result<Vec<Form>, Failure> {
    let mut format = String::new(alloc);
    put_specs(&mut format, "a", specs)?;
    let template = Template::parse(alloc, format.as_str())?;
    let arguments = template.arguments(alloc)?;
    let mut forms = Vec::new(alloc);
    for argument in &arguments {
        if let Kind::Value(wanted) = argument.kind {
            let spec = argument.spec;
            forms.push(Form { wanted, spec })?;
        }
    }
    Ok(forms)
}

// Writes each value under each form anew in the same buffer, `repeats` times. Returns the last text.
fn repeat_rows<V: Value>(
    alloc: Global,
    values: &[V],
    forms: &[Form],
    repeats: u32,
) -> Result<String, Failure> {
    let mut text = String::new(alloc);
    for _ in 0..repeats {
        text.clear();
        text = put_rows(text, values, forms)?;
    }
    Ok(text)
}

// Appends each value under each form.
fn put_rows<V: Value>(text: String, values: &[V], forms: &[Form]) -> Result<String, Failure> {
    let mut out = TextBuffer::from_string(text);
    for value in values {
        put_forms(&mut out, value, forms)?;
    }
    Ok(out.into_string())
}

// Appends a value under each form.
fn put_forms<V: Value>(out: &mut TextBuffer, value: &V, forms: &[Form]) -> Result<(), Failure> {
    for form in forms {
        let view = value.view(form.wanted, &form.spec);
        render(out, view, form.wanted, &form.spec)?;
    }
    Ok(())
}
