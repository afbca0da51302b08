//! A format that is checked before it is used.
ghost use Rattle.std.specs.Prelude.{◌≡◌, ◌≤◌, drop, length, map};
ghost use Rattle.std.specs.Option.{option_copied};
ghost use Rattle.interpolator_eval.specs.Slots.{slots_of};
ghost use Rattle.interpolator_border.specs.Checks.{AloneAnswers, CheckAnswers, CheckedAlone};
ghost use Rattle.interpolator_border.specs.Checks.{FaultsAnswers, Finds, FindsBytes, FindsKnown};
ghost use Rattle.interpolator_border.specs.Checks.{FoundAt, NeverFails};
ghost use Rattle.interpolator_border.specs.Fields.{field_slots, lie_in_levels, lists_lie};

use crate::answer::{
    Answer, Failure, bare, failure_code, put_front, reported_failure, reported_fault, well,
};
use crate::bytes::text_of;
use crate::fault::{Fault, NO_MEMORY, all_numbers};
use crate::field::Field;
use crate::levels::{Known, LEVELS, all_lie_within, next_level, settled};
use crate::row::{FieldRow, Row};
use crate::writing::failing;
use interpolator::{Error, Formattable, Template};
use interpolator_laws::samples::a_checked_format_means_no_fault;
use std::alloc::Global;

/// The faults of a format with a row of examples of whose items this much is known.
#[tactic(auto, using(crate::proofs::LevelLemmas::next_known, crate::proofs::LevelLemmas::lie_deeper))]
fn find_levels<'a>(
    alloc: Global,
    template: &Template,
    row: FieldRow<'a>,
    known: Known<'a>,
) -> Result<Vec<Error>, Failure>
    requires within { known.left ≤ length row.items.now }
    requires known { let trees = map slots_of known.slots.now in
        drop known.left trees ≡ drop known.left (map (field_slots trees) row.items.now) }
    ensures { Finds (lie_in_levels known.entry.levels row.entry.items.now known.entry.left)
        row.entry.fields.now row.entry.items.now template.now result }
{
    let Known {
        slots,
        left,
        levels,
    } = known;
    if left == 0 {
        return find_known(alloc, template, row.fields, slots);
    }
    if levels == 0 {
        return Err(Failure::Lists);
    }
    let from = settled(left, row.items);
    match next_level(alloc, row.items, slots, left, from) {
        Ok(level) => {
            let deeper = Known {
                slots: &level,
                left: from,
                levels: levels - 1,
            };
            let row = FieldRow {
                fields: &*row.fields,
                items: &*row.items,
            };
            find_levels(alloc, template, row, deeper)
        }
        Err(_) => Err(Failure::Fault(Error::NoMemory)),
    }
}

/// The faults of a format with a row of examples whose items stand for these.
fn find_known<'a>(
    alloc: Global,
    template: &Template,
    fields: &'a [Field<'a>],
    known: &'a [Formattable<'a, Field<'a>>],
) -> Result<Vec<Error>, Failure>
    ensures { FindsKnown fields.now (map slots_of known.now) template.now result }
{
    let row = Row {
        fields,
        items: known,
    };
    match template.faults_in(alloc, &row) {
        Ok(found) => Ok(found),
        Err(error) => Err(Failure::Fault(error)),
    }
}

/// The faults of a format with a row of examples, unless a list lies where it may not.
#[tactic(auto, using(crate::proofs::LevelLemmas::nothing_known))]
pub(crate) fn find_faults<'a>(
    alloc: Global,
    format: &[u8],
    row: FieldRow<'a>,
) -> Result<Vec<Error>, Failure>
    ensures { FindsBytes row.entry.fields.now row.entry.items.now format.now result }
{
    let Some(text) = text_of(format) else {
        return Err(Failure::NotUtf8);
    };
    if !all_lie_within(row.fields, row.items) {
        return Err(Failure::Lists);
    }
    let none = Known {
        slots: &[],
        left: row.items.len(),
        levels: LEVELS,
    };
    match Template::parse(alloc, text) {
        Ok(template) => find_levels(alloc, &template, row, none),
        Err(error) => Err(Failure::Fault(error)),
    }
}

/// The fault of that number, from 0 on.
#[tactic(auto, using(crate::proofs::CheckLemmas::fault_there))]
pub(crate) fn fault_at(found: &[Error], which: usize) -> Option<&Error>
    ensures { FoundAt found.now which (option_copied result) }
{
    found.get(which)
}

/// The first fault that a format has by itself or with a row of examples. After code 0 no row that
/// resembles the examples makes a fault.
#[tactic(auto, using(crate::proofs::CheckLemmas::first_reported))]
pub fn check<'a>(alloc: Global, format: &[u8], row: FieldRow<'a>, room: &mut [u8]) -> Answer
    ensures answer { CheckAnswers row.entry.fields.now row.entry.items.now format.now room.old
        room.new result }
    ensures never_fails { result.code ≡ 0
        → NeverFails row.entry.fields.now row.entry.items.now format.now }
{
    a_checked_format_means_no_fault::<Field<'a>, Field<'a>>();
    match find_faults(alloc, format, row) {
        Ok(found) => match fault_at(&found, 0) {
            Some(error) => reported_fault(alloc, error, 0, room),
            None => well(0),
        },
        Err(failure) => reported_failure(alloc, &failure, room),
    }
}

/// All faults that a format has by itself or with a row of examples. As many as fit are copied to
/// the front of `places`; `length` is how many there are.
pub fn faults<'a>(alloc: Global, format: &[u8], row: FieldRow<'a>, places: &mut [Fault]) -> Answer
    ensures { FaultsAnswers row.entry.fields.now row.entry.items.now format.now places.old
        places.new result }
{
    match find_faults(alloc, format, row) {
        Ok(found) => match all_numbers(alloc, &found) {
            Ok(reported) => {
                put_front(&reported, places);
                well(reported.len())
            }
            Err(_) => bare(NO_MEMORY),
        },
        Err(failure) => bare(failure_code(&failure)),
    }
}

/// The first fault that a format has by itself.
fn check_text(alloc: Global, format: &[u8]) -> Result<(), Failure>
    ensures { CheckedAlone format.now result }
{
    let Some(text) = text_of(format) else {
        return Err(Failure::NotUtf8);
    };
    failing(interpolator::check(alloc, text))
}

/// The first fault that a format has by itself, whatever the values are.
#[tactic(auto, using(crate::proofs::CheckLemmas::alone_fails))]
pub fn check_alone(alloc: Global, format: &[u8], room: &mut [u8]) -> Answer
    ensures { AloneAnswers format.now room.old room.new result }
{
    match check_text(alloc, format) {
        Ok(()) => well(0),
        Err(failure) => reported_failure(alloc, &failure, room),
    }
}
