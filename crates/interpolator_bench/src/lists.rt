//! Lists: numbers with an item format and a join, many items, and nested lists.

use crate::failure::Failure;
use crate::uses::{How, repeat_format};
use interpolator::{Formattable, Pairs};
use std::alloc::{AllocError, Global};

/// How deep lists are nested.
const DEPTH: usize = 32;

/// A list of the numbers below a bound, which this format uses under the name `n`.
pub fn numbers(
    alloc: Global,
    how: How,
    count: u32,
    format: &str,
    repeats: u32,
) -> Result<String, Failure> {
    let values = (0..count).collect::<Vec<u32>>(alloc)?;
    let mut items = Vec::new(alloc);
    for value in &values {
        items.push(Formattable::integer(value))?;
    }
    repeat_list(alloc, how, Formattable::iter(&items), format, repeats)
}

// Formats a list under the name `n`.
fn repeat_list(
    alloc: Global,
    how: How,
    list: Formattable<'_, u32>,
    format: &str,
    repeats: u32,
) -> Result<String, Failure> {
    let pairs = [("n", list)];
    repeat_format(alloc, how, format, &Pairs(&pairs), repeats)
}

/// A number inside nested lists of one item each.
pub fn nested(alloc: Global, how: How, repeats: u32) -> Result<String, Failure> {
    let format = nested_format(alloc)?;
    let used = Used {
        how,
        format: format.as_str(),
        repeats,
    };
    repeat_nested(alloc, used, Formattable::integer(&7u32), DEPTH)
}

// How a format is used, and how many times.
#[derive(Clone, Copy)]
struct Used<'a> {
    how: How,
    format: &'a str,
    repeats: u32,
}

// The format of nested lists: each has one sign fewer than the list around it.
fn nested_format(alloc: Global) -> Result<String, AllocError> {
    let mut format = String::new(alloc);
    for passed in 0..DEPTH {
        format.push_str("{:i")?;
        put_signs(&mut format, DEPTH - 1 - passed)?;
        format.push('(')?;
    }
    format.push_str("{}")?;
    for signs in 0..DEPTH {
        format.push(')')?;
        put_signs(&mut format, signs)?;
        format.push('}')?;
    }
    Ok(format)
}

// Appends `count` signs.
fn put_signs(format: &mut String, count: usize) -> Result<(), AllocError> {
    for _ in 0..count {
        format.push('#')?;
    }
    Ok(())
}

// Formats the value under the empty name, wrapped in `depth` lists of one item each.
fn repeat_nested(
    alloc: Global,
    used: Used<'_>,
    value: Formattable<'_, u32>,
    depth: usize,
) -> Result<String, Failure> {
    if depth == 0 {
        let pairs = [("", value)];
        return repeat_format(alloc, used.how, used.format, &Pairs(&pairs), used.repeats);
    }
    let items = [value];
    repeat_nested(alloc, used, Formattable::iter(&items), depth - 1)
}
