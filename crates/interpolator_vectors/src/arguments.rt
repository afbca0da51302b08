//! Rows about the argument that starts at a place.

use crate::files::Facts;
use crate::formats::fault_of;
use crate::report::{Report, whole};
use crate::trouble::Read;
use interpolator::{Argument, Group, Kind, Range, Spec, Trait, parse_argument};
use std::alloc::{AllocError, Global};

/// A text and its place.
#[derive(Debug, Drop, PartialEq)]
pub struct Placed {
    pub text: String,
    pub place: usize,
}

impl Placed {
    pub fn new(alloc: Global, text: &str, place: usize) -> Result<Placed, AllocError> {
        let text = String::from_str(alloc, text)?;
        Ok(Placed { text, place })
    }
}

/// What is read: an argument, and where it ends.
#[derive(Debug, Drop, PartialEq)]
struct Parsed {
    name: Placed,
    t: Trait,
    spec: Spec,
    range: Option<Range>,
    item: Option<Placed>,
    join: Option<Placed>,
    end: usize,
}

/// The text and the place of the fact of this key.
pub fn placed_text(facts: &mut Facts<'_>, key: &str) -> Read<Option<Placed>> {
    let Some(mut words) = facts.next(key) else {
        return Ok(None);
    };
    let text = words.text()?;
    let place = words.number()?;
    words.done()?;
    Ok(Some(Placed { text, place }))
}

/// What a row without a fault says is read.
fn wanted_argument(facts: &mut Facts<'_>) -> Read<Parsed> {
    let name = placed_text(facts, "name")?;
    Ok(Parsed {
        name: name.ok_or(facts.trouble("a `name` or a fault is wanted"))?,
        t: facts.the_trait()?,
        spec: facts.spec()?,
        range: facts.range()?,
        item: placed_text(facts, "item")?,
        join: placed_text(facts, "join")?,
        end: facts.the_number("end")?,
    })
}

/// The text of a group and its place.
fn placed_group(alloc: Global, group: Option<Group<'_>>) -> Result<Option<Placed>, AllocError> {
    match group {
        Some(group) => Ok(Some(Placed::new(alloc, group.text, group.place)?)),
        None => Ok(None),
    }
}

/// What was read.
fn came_of(alloc: Global, argument: &Argument<'_>, end: usize) -> Result<Parsed, AllocError> {
    let (t, range, item, join) = match argument.kind {
        Kind::Value(t) => (t, None, None, None),
        Kind::List { range, item, join } => (Trait::Iter, range, item, join),
    };
    Ok(Parsed {
        name: Placed::new(alloc, argument.name, argument.name_place)?,
        t,
        spec: argument.spec,
        range,
        item: placed_group(alloc, item)?,
        join: placed_group(alloc, join)?,
        end,
    })
}

/// Checks that the argument of a row is read as the row says.
pub fn run_argument(report: &mut Report<'_>, facts: &mut Facts<'_>, start: &Placed) -> Read<()> {
    let text = start.text.as_str();
    if !text.is_char_boundary(start.place) {
        return Err(facts.trouble("no character begins at the place"));
    }
    let came = parse_argument(text, start.place);
    if let Some(fault) = fault_of(facts.next("fault"))? {
        report.compare("parse_argument", &Some(fault), &came.err());
        return Ok(());
    }
    let wanted = wanted_argument(facts)?;
    match &came {
        Ok((argument, end)) => {
            let came = came_of(report.alloc, argument, *end)?;
            report.compare("parse_argument", &wanted, &came);
        }
        Err(fault) => report.check(whole("parse_argument"), false, &wanted, fault),
    }
    Ok(())
}
