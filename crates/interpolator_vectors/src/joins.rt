//! Formats that are joined, each with those of the same context.

use crate::cells::Cell;
use crate::formats::{FormatRow, Kind, Trial, run_makings, run_ways};
use crate::report::{Part, Report};
use crate::trouble::Read;
use crate::ways::{Outcome, PART_WAYS, Room, WAYS};
use interpolator::{ContextMap, seam};

/// What a row says is written and returned, if it can be joined.
fn wanted_if_joined<'a>(row: &'a FormatRow<'_>) -> Option<&'a Outcome> {
    match row.room {
        Room::Bytes(_) => None,
        _ if row.kind != Kind::Format => None,
        _ => row.wanted.as_ref(),
    }
}

/// What a writer of both takes: all of the first, and of the second what that row's writer takes.
fn room_of_both(text: &str, second: Room) -> Room {
    match second {
        Room::Characters(count) => Room::Characters(text.chars().count().saturating_add(count)),
        _ => Room::All,
    }
}

/// Joins a row, whose outcome is `first`, with the next, if they can be joined: as one format, and
/// as two parts.
fn join(
    report: &mut Report<'_>,
    context: &ContextMap<'_, Cell>,
    row: &FormatRow<'_>,
    first: &Outcome,
    next: &FormatRow<'_>,
) -> Read<()> {
    let Some(second) = wanted_if_joined(next) else {
        return Ok(());
    };
    let (front, back) = (row.format(), next.format());
    if !seam(front, back) {
        return Ok(());
    }
    let format = format!(in report.alloc; "{front}{back}")?;
    let (head, tail) = (first.text.as_str(), second.text.as_str());
    let wanted = Outcome {
        text: format!(in report.alloc; "{head}{tail}")?,
        fault: next.moved_fault(front.len())?,
    };
    let room = room_of_both(head, next.room);
    let part = Part::Joined(next.row.number);
    let as_one = Trial {
        ways: &WAYS,
        room,
        part,
    };
    run_ways(report, context, &[format.as_str()], as_one, &wanted);
    if let Room::All = room {
        run_makings(report, context, format.as_str(), part, &wanted);
    }
    let as_two = Trial {
        ways: &PART_WAYS,
        ..as_one
    };
    run_ways(report, context, &[front, back], as_two, &wanted);
    Ok(())
}

/// Joins a row without a fault with each row of its context.
pub fn run_joins(
    report: &mut Report<'_>,
    context: &ContextMap<'_, Cell>,
    row: &FormatRow<'_>,
    rows: &[FormatRow<'_>],
) -> Read<()> {
    let Some(first) = wanted_if_joined(row) else {
        return Ok(());
    };
    if first.fault.is_some() {
        return Ok(());
    }
    for next in rows {
        join(report, context, row, first, next)?;
    }
    Ok(())
}
