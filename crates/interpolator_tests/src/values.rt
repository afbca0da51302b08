//! The view of each type that has one, and the buffer to which texts are written. The greatest and
//! the least numbers are those of std's documentation.

use crate::report::Report;
use interpolator::{Bits, Error, Spec, TextBuffer, TextWrite, Trait, Value, View, render};

/// Checks that a value is displayed as this text.
fn displays<V: Value>(report: &mut Report, value: &V, text: &str) {
    let spec = Spec::default();
    let view = value.view(Trait::Display, &spec);
    let mut out = TextBuffer::new(report.alloc);
    let answer = render(&mut out, view, Trait::Display, &spec);
    report.holds(text, answer.is_ok());
    report.text("a value", text, out.as_str());
}

/// Checks a value of each type.
#[rattlefmt::skip]
fn types(report: &mut Report) -> Result<(), Error> {
    displays(report, &u8::MAX, "255");
    displays(report, &u16::MAX, "65535");
    displays(report, &u32::MAX, "4294967295");
    displays(report, &u64::MAX, "18446744073709551615");
    displays(report, &u128::MAX, "340282366920938463463374607431768211455");
    displays(report, &usize::MAX, "18446744073709551615");
    displays(report, &i8::MIN, "-128");
    displays(report, &i16::MIN, "-32768");
    displays(report, &i32::MIN, "-2147483648");
    displays(report, &i64::MIN, "-9223372036854775808");
    displays(report, &i128::MIN, "-170141183460469231731687303715884105728");
    displays(report, &isize::MIN, "-9223372036854775808");
    displays(report, &true, "true");
    displays(report, &'é', "é");
    displays(report, &"text", "text");
    displays(report, &String::from_str(report.alloc, "owned")?, "owned");
    displays(report, &View::Signed(-128, Bits::B8), "-128");
    displays(report, &View::Plain("{x}"), "{x}");
    Ok(())
}

/// Each call of a buffer, where it succeeds.
fn buffer(report: &mut Report) -> Result<(), Error> {
    let mut out = TextBuffer::from_string(String::from_str(report.alloc, "a")?);
    report.holds("a text", out.write_str("bé").is_ok());
    report.holds("a character", out.write_char('!').is_ok());
    report.holds("the empty text", out.write_str("").is_ok());
    report.holds("no refusal", !out.refused());
    out.forget_refusal();
    report.text("its text", "abé!", out.into_string().as_str());
    Ok(())
}

pub fn run(report: &mut Report) -> Result<(), Error> {
    report.begin("values");
    types(report)?;
    buffer(report)
}
