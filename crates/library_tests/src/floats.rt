//! Floats show the texts of rows.

use crate::float_rows::{
    AT_PRECISION, EXPONENT_AT_PRECISION, GREATEST, LEAST, SHORTEST, SHORTEST_F32, SHORTEST_TEXTS,
};
use interpolator_floats::{
    DigitsAt, ExactDigits, ExponentDigits, FloatDigits, MOST_DIGITS, digits_at, exponent_digits,
    is_negative, plain_digits, scientific_digits, shortest_digits, shortest_f32_digits, word,
};
use std::alloc::{AllocError, Global};

fn put_zeros(text: &mut String, count: usize) -> Result<(), AllocError> {
    for _ in 0..count {
        text.push('0')?;
    }
    Ok(())
}

fn put_short(text: &mut String, alloc: Global, shown: FloatDigits) -> Result<(), AllocError> {
    let whole = format!(in alloc; "{}", shown.whole)?;
    text.push_str(whole.as_str())?;
    if shown.places == 0 && shown.zeros == 0 {
        return Ok(());
    }
    text.push('.')?;
    if shown.places > 0 {
        let part = format!(in alloc; "{}", shown.part)?;
        put_zeros(text, shown.places.saturating_sub(part.len()))?;
        text.push_str(part.as_str())?;
    }
    put_zeros(text, shown.zeros)
}

fn put_long(text: &mut String, shown: ExactDigits<'_>) -> Result<(), AllocError> {
    text.push_str(shown.whole)?;
    if shown.part.is_empty() && shown.zeros == 0 {
        return Ok(());
    }
    text.push('.')?;
    text.push_str(shown.part)?;
    put_zeros(text, shown.zeros)
}

/// The text of a finite float at a precision, and otherwise none.
fn text_at(alloc: Global, x: f64, precision: usize) -> Result<String, AllocError> {
    let mut text = String::new(alloc);
    if !x.is_finite() {
        return Ok(text);
    }
    let mut room = [0u8; MOST_DIGITS];
    match digits_at(x, precision, &mut room) {
        DigitsAt::Short(shown) => put_short(&mut text, alloc, shown)?,
        DigitsAt::Long(shown) => put_long(&mut text, shown)?,
    }
    Ok(text)
}

fn put_exponent_form(
    text: &mut String,
    alloc: Global,
    shown: ExponentDigits<'_>,
) -> Result<(), AllocError> {
    for (i, digit) in shown.digits.chars().enumerate() {
        if i == 1 {
            text.push('.')?;
        }
        text.push(digit)?;
    }
    if shown.digits.len() == 1 && shown.zeros > 0 {
        text.push('.')?;
    }
    put_zeros(text, shown.zeros)?;
    text.push_str(if shown.below { "e-" } else { "e" })?;
    let size = format!(in alloc; "{}", shown.size)?;
    text.push_str(size.as_str())
}

/// The text of a finite float in exponent form at a precision.
fn exponent_text_at(alloc: Global, x: f64, precision: usize) -> Result<String, AllocError> {
    let mut text = String::new(alloc);
    if !x.is_finite() {
        return Ok(text);
    }
    let mut room = [0u8; MOST_DIGITS];
    let shown = exponent_digits(x, precision, &mut room);
    put_exponent_form(&mut text, alloc, shown)?;
    Ok(text)
}

/// The text of the shortest digits of a finite float, and that of exponent form.
fn shortest_texts(alloc: Global, x: f64) -> Result<(String, String), AllocError> {
    let mut plain = String::new(alloc);
    let mut form = String::new(alloc);
    if !x.is_finite() {
        return Ok((plain, form));
    }
    let shown = shortest_digits(x);
    let parts = plain_digits(shown);
    let split = FloatDigits {
        whole: parts.whole as u128,
        part: parts.part as u128,
        places: parts.places,
        zeros: 0,
    };
    put_short(&mut plain, alloc, split)?;
    put_zeros(&mut plain, parts.tens)?;
    let number = scientific_digits(shown);
    let digits = format!(in alloc; "{}", number.digits)?;
    let exponent = ExponentDigits {
        digits: digits.as_str(),
        zeros: 0,
        below: number.below,
        size: number.size,
    };
    put_exponent_form(&mut form, alloc, exponent)?;
    Ok((plain, form))
}

fn joined(alloc: Global, pieces: &[&str]) -> Result<String, AllocError> {
    let mut text = String::new(alloc);
    for piece in pieces {
        text.push_str(piece)?;
    }
    Ok(text)
}

#[test]
fn texts_at_precisions(rt: HostRuntime) -> Result<(), AllocError> {
    let alloc = rt.alloc();
    for (x, precision, text) in AT_PRECISION {
        let shown = text_at(alloc, x, precision)?;
        assert_eq!(rt; shown.as_str(), text, "{x} at {precision}");
    }
    Ok(())
}

#[test]
fn exponent_texts_at_precisions(rt: HostRuntime) -> Result<(), AllocError> {
    let alloc = rt.alloc();
    for (x, precision, text) in EXPONENT_AT_PRECISION {
        let shown = exponent_text_at(alloc, x, precision)?;
        assert_eq!(rt; shown.as_str(), text, "{x} at {precision}");
    }
    Ok(())
}

#[test]
fn shortest_digits_of_floats(rt: HostRuntime) {
    for (x, digits, exponent) in SHORTEST {
        if x.is_finite() {
            let shown = shortest_digits(x);
            assert_eq!(rt; shown.digits, digits, "{x}");
            assert_eq!(rt; shown.up as i64 - shown.down as i64, exponent as i64, "{x}");
        }
    }
}

#[test]
fn shortest_digits_of_short_floats(rt: HostRuntime) {
    for (x, digits, exponent) in SHORTEST_F32 {
        if x.is_finite() {
            let shown = shortest_f32_digits(x);
            assert_eq!(rt; shown.digits, digits, "{x}");
            assert_eq!(rt; shown.up as i64 - shown.down as i64, exponent as i64, "{x}");
        }
    }
}

#[test]
fn shortest_texts_of_floats(rt: HostRuntime) -> Result<(), AllocError> {
    let alloc = rt.alloc();
    for (x, plain, form) in SHORTEST_TEXTS {
        let (shown, exponent) = shortest_texts(alloc, x)?;
        assert_eq!(rt; shown.as_str(), plain, "{x}");
        assert_eq!(rt; exponent.as_str(), form, "{x}");
    }
    Ok(())
}

#[test]
fn texts_of_many_digits(rt: HostRuntime) -> Result<(), AllocError> {
    let alloc = rt.alloc();
    let greatest = text_at(alloc, f64::MAX, 0)?;
    assert_eq!(rt; greatest.as_str(), joined(alloc, &GREATEST)?.as_str());
    let mut least = joined(alloc, &LEAST)?;
    assert_eq!(rt; text_at(alloc, 5e-324, 1_074)?.as_str(), least.as_str());
    put_zeros(&mut least, 6)?;
    assert_eq!(rt; text_at(alloc, 5e-324, 1_080)?.as_str(), least.as_str());
    Ok(())
}

#[test]
fn signs_and_words(rt: HostRuntime) {
    for (x, minus, text) in [
        (-0.0, true, ""),
        (0.0, false, ""),
        (-1.5, true, ""),
        (f64::INFINITY, false, "inf"),
        (f64::NEG_INFINITY, true, "inf"),
        (f64::NAN, false, "NaN"),
        (-f64::NAN, false, "NaN"),
    ] {
        assert_eq!(rt; is_negative(x), minus, "{x}");
        assert_eq!(rt; word(x).unwrap_or(""), text, "{x}");
    }
}
