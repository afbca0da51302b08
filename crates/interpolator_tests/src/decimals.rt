//! Decimals: the texts that spell one and those that do not, and what is equal. By hand, from the
//! rule that units and scale are the digits and how many of them are after the point.

use crate::report::Report;
use interpolator::{Decimal, Error, NumberError, Spec, Trait, Value, View};

const MOST: i128 = 170_141_183_460_469_231_731_687_303_715_884_105_727;

const LEAST: i128 = -170_141_183_460_469_231_731_687_303_715_884_105_728;

/// Texts, each with its units and its scale. The long ones have 59 and 60 digits after the point,
/// and 60 zeros in front.
#[rattlefmt::skip]
const SPELLED: [(&str, i128, u32); 22] = [
    ("0", 0, 0),
    ("7", 7, 0),
    ("+7", 7, 0),
    ("-7", -7, 0),
    ("007", 7, 0),
    ("-0", 0, 0),
    ("-0.00", 0, 2),
    ("+0.0", 0, 1),
    ("12.50", 1250, 2),
    ("12.5", 125, 1),
    ("-0.05", -5, 2),
    ("+0.05", 5, 2),
    ("00.5", 5, 1),
    ("-00012.340", -12340, 3),
    ("170141183460469231731687303715884105727", MOST, 0),
    ("+1.70141183460469231731687303715884105727", MOST, 38),
    ("-170141183460469231731687303715884105728", LEAST, 0),
    ("-0.170141183460469231731687303715884105728", LEAST, 39),
    ("0.000000000000000000000000000000000000000000000000000000000000", 0, 60),
    ("-0.00000000000000000000000000000000000000000000000000000000007", -7, 59),
    ("000000000000000000000000000000000000000000000000000000000000", 0, 0),
    ("000000000000000000000000000000000000000000000000000000000000.7", 7, 1),
];

/// Texts that spell no decimal, and those whose digits are a number that is no `i128`.
#[rattlefmt::skip]
const REFUSED: [(&str, NumberError); 29] = [
    ("", NumberError::Empty),
    ("+", NumberError::InvalidDigit),
    ("-", NumberError::InvalidDigit),
    (".", NumberError::InvalidDigit),
    ("-.", NumberError::InvalidDigit),
    (".5", NumberError::InvalidDigit),
    ("-.5", NumberError::InvalidDigit),
    ("1.", NumberError::InvalidDigit),
    ("1..2", NumberError::InvalidDigit),
    ("1.2.3", NumberError::InvalidDigit),
    ("1.-2", NumberError::InvalidDigit),
    ("+-1", NumberError::InvalidDigit),
    ("--1", NumberError::InvalidDigit),
    ("１", NumberError::InvalidDigit),
    ("1.２", NumberError::InvalidDigit),
    ("−1", NumberError::InvalidDigit),
    ("1,5", NumberError::InvalidDigit),
    (" 1", NumberError::InvalidDigit),
    ("1\n", NumberError::InvalidDigit),
    ("1e5", NumberError::InvalidDigit),
    ("0x1", NumberError::InvalidDigit),
    ("999999999999999999999999999999999999999999x", NumberError::InvalidDigit),
    ("170141183460469231731687303715884105728", NumberError::PosOverflow),
    ("+17014118346046923173168730371588410572.8", NumberError::PosOverflow),
    ("340282366920938463463374607431768211456", NumberError::PosOverflow),
    ("1.0000000000000000000000000000000000000000", NumberError::PosOverflow),
    ("-170141183460469231731687303715884105729", NumberError::NegOverflow),
    ("-1.70141183460469231731687303715884105729", NumberError::NegOverflow),
    ("-340282366920938463463374607431768211456", NumberError::NegOverflow),
];

/// Checks what is read from the texts.
fn texts(report: &mut Report) {
    for (text, units, scale) in SPELLED {
        report.holds(text, Decimal::parse(text) == Ok(Decimal { units, scale }));
    }
    for (text, fault) in REFUSED {
        report.holds(text, Decimal::parse(text) == Err(fault));
    }
}

/// Decimals are equal if their fields are.
#[rattlefmt::skip]
fn equality(report: &mut Report) {
    let price = Decimal { units: 1250, scale: 2 };
    report.holds("the same fields", price == Decimal { units: 1250, scale: 2 });
    report.holds("the same number", price != Decimal { units: 125, scale: 1 });
    report.holds("other units", price != Decimal { units: -1250, scale: 2 });
    report.holds("another scale", price != Decimal { units: 1250, scale: 3 });
}

/// The views of a decimal.
#[rattlefmt::skip]
fn views(report: &mut Report) {
    let least = Decimal { units: LEAST, scale: u32::MAX };
    let shown = View::Decimal { units: LEAST, scale: u32::MAX };
    report.holds("a view", View::from(least) == shown);
    let spec = Spec { precision: Some(1), ..Spec::default() };
    for wanted in [Trait::Display, Trait::Debug, Trait::LowerExp, Trait::LowerHex] {
        report.holds("a value", least.view(wanted, &spec) == shown);
    }
}

pub fn run(report: &mut Report) -> Result<(), Error> {
    report.begin("decimals");
    texts(report);
    equality(report);
    views(report);
    Ok(())
}
