//! Sums and differences of decimals, and the same number with more or fewer digits after the point:
//! by exact fractions, at the ends of what units can be.

use crate::report::Report;
use interpolator::{Decimal, Error};

const MOST: i128 = 170_141_183_460_469_231_731_687_303_715_884_105_727;

const LEAST: i128 = -170_141_183_460_469_231_731_687_303_715_884_105_728;

/// More than a tenth of the greatest, and of the least, by less than one.
const TENTH: i128 = 17_014_118_346_046_923_173_168_730_371_588_410_573;

/// Ten to the power of 38.
const ONE: i128 = 100_000_000_000_000_000_000_000_000_000_000_000_000;

/// The units of a decimal and its scale.
type Parts = (i128, u32);

/// Two numbers, and the units of their sum and of their difference, at the greater of their scales.
#[rattlefmt::skip]
const SUMS: [(&str, Parts, Parts, Option<i128>, Option<i128>); 23] = [
    ("digits after both points", (1250, 2), (7, 1), Some(1320), Some(1180)),
    ("to nothing", (5, 2), (-5, 2), Some(0), Some(10)),
    ("past the greatest", (MOST, 0), (1, 0), None, Some(MOST - 1)),
    ("past the least", (LEAST, 0), (1, 0), Some(LEAST + 1), None),
    ("the greatest and the least", (MOST, 0), (LEAST, 0), Some(-1), None),
    ("the least twice", (LEAST, 0), (LEAST, 0), None, Some(0)),
    ("too many tenths on the way", (-5, 1), (TENTH, 0), Some(MOST - 2), None),
    ("too many tenths on the way, first", (TENTH, 0), (5, 1), None, Some(MOST - 2)),
    ("too many tenths below zero", (5, 1), (-TENTH, 0), Some(LEAST + 3), None),
    ("just the least", (-TENTH, 0), (2, 1), Some(LEAST), None),
    ("past the least by one tenth", (-TENTH, 0), (1, 1), None, None),
    ("38 digits", (1, 0), (1, 38), Some(ONE + 1), Some(ONE - 1)),
    ("38 digits, too many on the way", (2, 0), (LEAST, 38), Some(ONE + LEAST + ONE), None),
    ("38 digits, too many in the end", (1, 0), (MOST, 38), None, Some(ONE - MOST)),
    ("39 digits", (1, 0), (1, 39), None, None),
    ("39 digits of nothing", (0, 0), (7, 39), Some(7), Some(-7)),
    ("the least, negated", (0, 0), (LEAST, u32::MAX), Some(LEAST), None),
    ("the least, negated, and some", (-1, 0), (LEAST, 1), None, Some(MOST - 9)),
    ("the least with a zero more", (1, 1), (LEAST, 0), None, None),
    ("nothing, at the greatest scale", (7, u32::MAX), (0, 0), Some(7), Some(7)),
    ("one, at the greatest scale", (7, u32::MAX), (1, 0), None, None),
    ("one, and some at the greatest scale", (1, 0), (-7, u32::MAX), None, None),
    ("both at the greatest scale", (MOST, u32::MAX), (MOST, u32::MAX), None, Some(0)),
];

/// Numbers, each with another scale and its units there.
#[rattlefmt::skip]
const RESCALED: [(&str, Parts, u32, Option<i128>); 22] = [
    ("a digit lost", (1250, 2), 0, None),
    ("a zero lost", (1250, 2), 1, Some(125)),
    ("as it is", (1250, 2), 2, Some(1250)),
    ("a zero more", (1250, 2), 3, Some(12500)),
    ("two zeros lost", (-1200, 2), 0, Some(-12)),
    ("nothing", (0, 0), u32::MAX, Some(0)),
    ("nothing, with fewer digits", (0, u32::MAX), 0, Some(0)),
    ("38 zeros more", (1, 0), 38, Some(ONE)),
    ("39 zeros more", (1, 0), 39, None),
    ("38 zeros lost", (ONE, 38), 0, Some(1)),
    ("39 zeros lost", (ONE, 39), 0, None),
    ("the greatest as it is", (MOST, 0), 0, Some(MOST)),
    ("the greatest with a zero more", (MOST, 0), 1, None),
    ("the least as it is", (LEAST, 39), 39, Some(LEAST)),
    ("a digit of the least lost", (LEAST, 39), 38, None),
    ("just a tenth of the greatest", (TENTH - 1, 0), 1, Some(MOST - 7)),
    ("past a tenth of the greatest", (TENTH, 0), 1, None),
    ("just a tenth of the least", (-TENTH + 1, 0), 1, Some(LEAST + 8)),
    ("past a tenth of the least", (-TENTH, 0), 1, None),
    ("a zero lost at the greatest scale", (70, u32::MAX), u32::MAX - 1, Some(7)),
    ("a digit lost at the greatest scale", (7, u32::MAX), u32::MAX - 1, None),
    ("all its digits lost", (7, u32::MAX), 0, None),
];

/// Two numbers, and whether they are the same.
#[rattlefmt::skip]
const SAME: [(&str, Parts, Parts, bool); 11] = [
    ("a zero more", (125, 1), (1250, 2), true),
    ("a digit more", (125, 1), (1251, 2), false),
    ("other signs", (-5, 1), (5, 1), false),
    ("nothing twice", (0, 0), (0, u32::MAX), true),
    ("nothing and one", (1, 0), (0, u32::MAX), false),
    ("the least, at two scales", (LEAST, 0), (LEAST, 1), false),
    ("the greatest twice", (MOST, u32::MAX), (MOST, u32::MAX), true),
    ("38 zeros more", (1, 0), (ONE, 38), true),
    ("39 digits more", (1, 0), (1, 39), false),
    ("a zero more, near the greatest", (TENTH - 1, 0), (MOST - 7, 1), true),
    ("one unit apart", (MOST, 38), (MOST - 1, 38), false),
];

/// The decimal of these parts.
fn decimal(parts: Parts) -> Decimal {
    let (units, scale) = parts;
    Decimal { units, scale }
}

/// Whether an answer is the decimal of these units and this scale, or none if there are no units.
fn is_at(answer: Option<Decimal>, units: Option<i128>, scale: u32) -> bool {
    match units {
        Some(units) => answer == Some(Decimal { units, scale }),
        None => answer.is_none(),
    }
}

fn sums(report: &mut Report) {
    for (what, left, right, sum, difference) in SUMS {
        let scale = left.1.max(right.1);
        let (left, right) = (decimal(left), decimal(right));
        report.holds(what, is_at(left.checked_add(right), sum, scale));
        report.holds(what, is_at(left.checked_sub(right), difference, scale));
    }
}

fn rescaled(report: &mut Report) {
    for (what, number, scale, units) in RESCALED {
        report.holds(what, is_at(decimal(number).rescaled(scale), units, scale));
    }
}

fn same(report: &mut Report) {
    for (what, left, right, same) in SAME {
        let (left, right) = (decimal(left), decimal(right));
        report.holds(what, left.same_value(right) == same);
        report.holds(what, right.same_value(left) == same);
    }
}

pub fn run(report: &mut Report) -> Result<(), Error> {
    report.begin("decimal sums");
    sums(report);
    rescaled(report);
    same(report);
    Ok(())
}
