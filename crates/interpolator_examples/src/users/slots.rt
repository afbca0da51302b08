//! The calls of `Formattable`: the slots that each call fills, shown by a format that uses them.

use crate::page::Page;
use interpolator::{Error, Formattable, Interpolate, Pairs};
use std::alloc::Global;

/// The output of a format that has these slots under the name `n`.
fn reported(alloc: Global, slots: Formattable<'_, u64>, format: &str) -> Result<String, Error> {
    Pairs(&[("n", slots)]).format(alloc, format)
}

/// The uses of all slots.
const USES: &str = "{n:>5} {n:?} {n:#b} {n:.1e} {n:x} {n:o} {n:E} {n:X} {n:i({})(, )}";

/// The uses of the slots of numbers.
const NUMBER_USES: &str = "{n} {n:?} {n:#x} {n:.1e}";

/// A chain: each call fills a slot beside those that are filled.
fn chain<'a>(n: &'a u64, items: &'a [Formattable<'a, u64>]) -> Formattable<'a, u64> {
    Formattable::debug(n)
        .and_display(n)
        .and_binary(n)
        .and_lower_exp(n)
        .and_lower_hex(n)
        .and_octal(n)
        .and_upper_exp(n)
        .and_upper_hex(n)
        .and_iter(items)
}

/// A shorter chain.
fn short_chain(n: &u64) -> Formattable<'_, u64> {
    Formattable::octal(n)
        .and_debug_display(n)
        .and_integer(n)
        .and_float(n)
}

/// Fills each slot in place.
fn set<'a>(n: &'a u64, items: &'a [Formattable<'a, u64>]) -> Formattable<'a, u64> {
    let mut slots = Formattable::default();
    slots.set_debug(n);
    slots.set_display(n);
    slots.set_binary(n);
    slots.set_lower_exp(n);
    slots.set_lower_hex(n);
    slots.set_octal(n);
    slots.set_upper_exp(n);
    slots.set_upper_hex(n);
    slots.set_iter(items);
    slots
}

/// Fills several slots in place by one call.
fn set_several(n: &u64) -> Formattable<'_, u64> {
    let mut slots = Formattable::default();
    slots.set_debug_display(n);
    slots.set_float(n);
    slots.set_integer(n);
    slots
}

#[rattlefmt::skip]
pub fn show(page: &mut Page) {
    let alloc = page.alloc;
    let n = 255u64;
    let items = [Formattable::display(&n), Formattable::display(&n)];
    let rows = [
        (Formattable::debug_display(&n), "{n} {n:?}"),
        (Formattable::debug(&n), "{n:?}"),
        (Formattable::display(&n), "{n:>5}"),
        (Formattable::integer(&n), "{n:#x}"),
        (Formattable::float(&n), "{n:.1e}"),
        (Formattable::binary(&n), "{n:b}"),
        (Formattable::lower_exp(&n), "{n:e}"),
        (Formattable::lower_hex(&n), "{n:x}"),
        (Formattable::octal(&n), "{n:o}"),
        (Formattable::upper_exp(&n), "{n:E}"),
        (Formattable::upper_hex(&n), "{n:X}"),
        (Formattable::iter(&items), "{n:i({})(, )}"),
        (chain(&n, &items), USES),
        (set(&n, &items), USES),
        (short_chain(&n), NUMBER_USES),
        (set_several(&n), NUMBER_USES),
    ];
    for (slots, format) in rows {
        page.put_made(format, reported(alloc, slots, format));
    }
}
