//! The records below the header, and their groups.

ghost use Rattle.std.specs.Prelude.{◌≡◌, map};
ghost use Rattle.records.specs.Spellings.{text_of};
ghost use Rattle.report.specs.Lines.{trimmed_at};

use records::Record;
use std::alloc::{AllocError, Global};
use std::collections::BTreeMap;

/// The entry of a record in the column at this index: its field without the white space around it.
pub fn entry_in<'a>(record: &'a Record<'_>, index: usize) -> &'a str
    ensures { result.now ≡ trimmed_at (map text_of record.now.fields.items) index }
{
    match record.fields.get(index) {
        Some(field) => field.as_str().trim(),
        None => "",
    }
}

/// The entries of records in the column at this index.
pub fn entries_in_column<'a>(
    alloc: Global,
    records: &'a [Record<'_>],
    index: usize,
) -> Result<Vec<&'a str>, AllocError> {
    let mut entries = Vec::with_capacity(alloc, records.len())?;
    for record in records {
        entries.push(entry_in(record, index))?;
    }
    Ok(entries)
}

/// Some of the records, by their places.
#[derive(Drop)]
pub struct Group {
    pub places: Vec<usize>,
}

/// Adds a place to the group of this entry, or to a new one.
fn add_place<'a>(
    alloc: Global,
    groups: &mut Vec<Group>,
    known: &mut BTreeMap<&'a str, usize>,
    entry: &'a str,
    place: usize,
) -> Result<(), AllocError> {
    let new = groups.len();
    let at = known.get(entry).copied().unwrap_or(new);
    if at >= new {
        known.insert(entry, new)?;
        groups.push(Group {
            places: Vec::new(alloc),
        })?;
    }
    match groups.get_mut(at) {
        Some(group) => group.places.push(place)?,
        None => {}
    }
    Ok(())
}

/// The groups of records, each of those with one entry in the column at this index, which come as
/// their first records do.
pub fn groups_by(
    alloc: Global,
    records: &[Record<'_>],
    index: usize,
) -> Result<Vec<Group>, AllocError> {
    let mut groups = Vec::new(alloc);
    let mut known = BTreeMap::new(alloc);
    for (place, record) in records.iter().enumerate() {
        add_place(
            alloc,
            &mut groups,
            &mut known,
            entry_in(record, index),
            place,
        )?;
    }
    Ok(groups)
}
