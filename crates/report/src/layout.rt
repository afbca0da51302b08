//! The page: records side by side in columns, with their totals below them.

use crate::columns::Column;
use crate::feet::{Foot, push_feet};
use crate::lines::shown_character;
use crate::rows::{Group, entry_in};
use crate::widths::width;
use interpolator::{
    Error, Escape, EscapedPrepared, Formattable, PlaceError, Row, Template, TextBuffer, TextWrite,
    Value, View, items_of, values,
};
use records::Record;
use std::alloc::Global;
use std::fmt;

/// How a column is shown in a line.
#[derive(Clone, Copy)]
struct Side {
    /// How many columns of a terminal it takes, with what it has below it.
    width: usize,
    /// Whether its entries stand at the right.
    is_right: bool,
}

/// How a column is shown, with these totals below it.
fn side_of(column: &Column<'_>, index: usize, feet: &[Foot]) -> Side {
    let mut most = column.width;
    for foot in feet {
        if let Some(text) = foot.texts.get(index) {
            most = most.max(width(text.as_str()));
        }
    }
    Side {
        width: most,
        is_right: column.is_numeric,
    }
}

/// How columns are shown.
fn sides_of(alloc: Global, columns: &[Column<'_>], feet: &[Foot]) -> Result<Vec<Side>, Error> {
    let mut sides = Vec::with_capacity(alloc, columns.len())?;
    for (index, column) in columns.iter().enumerate() {
        sides.push(side_of(column, index, feet))?;
    }
    Ok(sides)
}

/// Adds blanks.
fn push_blanks(out: &mut String, count: usize) -> Result<(), Error> {
    for _ in 0..count {
        out.push(' ')?;
    }
    Ok(())
}

/// Adds an entry, padded.
fn push_padded(out: &mut String, side: Side, entry: &str) -> Result<(), Error> {
    let blanks = side.width.saturating_sub(width(entry));
    if side.is_right {
        push_blanks(out, blanks)?;
        out.push_str(entry)?;
        return Ok(());
    }
    out.push_str(entry)?;
    push_blanks(out, blanks)
}

/// The line of some entries.
fn line_of(alloc: Global, sides: &[Side], entries: &[&str]) -> Result<String, Error> {
    let mut line = String::new(alloc);
    for (index, (side, entry)) in sides.iter().zip(entries).enumerate() {
        if index > 0 {
            line.push_str("  ")?;
        }
        push_padded(&mut line, *side, entry)?;
    }
    Ok(line)
}

/// The format of a record of CSV: the items of `row` by their indices, each between quotes.
fn record_format(alloc: Global, columns: &[Column<'_>]) -> Result<String, Error> {
    let mut format = String::new(alloc);
    for index in 0..columns.len() {
        let gap = if index == 0 { "" } else { "," };
        let field = format!(in alloc; "{gap}\"{{row:i{index}({{}})}}\"")?;
        format.push_str(field.as_str())?;
    }
    Ok(format)
}

/// The format of a record, prepared for a list of entries, which are written escaped.
fn prepared_record(alloc: Global, format: &str) -> Result<EscapedPrepared, Error> {
    let entry = View::Text("");
    let items = [Formattable::display(&entry)];
    match Template::parse(alloc, format)?.escaped(alloc, Escape::Csv) {
        Ok(record) => record.prepare_named(alloc, &values!(row:i = &items)),
        Err(PlaceError::NoMemory) => Err(Error::NoMemory),
        // not of such a format: each of its values stands between quotes
        Err(PlaceError::Misplaced(misplaced)) => Err(Error::Fmt(fmt::Error, misplaced.place)),
    }
}

/// How a row is written.
#[derive(Drop)]
enum Form {
    /// As a line of the table.
    Line(Vec<Side>),
    /// As a record of CSV.
    Record(EscapedPrepared),
}

/// How rows are written.
fn form_of(
    alloc: Global,
    columns: &[Column<'_>],
    feet: &[Foot],
    is_csv: bool,
) -> Result<Form, Error> {
    if is_csv {
        let format = record_format(alloc, columns)?;
        return Ok(Form::Record(prepared_record(alloc, format.as_str())?));
    }
    Ok(Form::Line(sides_of(alloc, columns, feet)?))
}

/// The page, as far as it is written.
#[derive(Drop)]
struct Page {
    alloc: Global,
    form: Form,
    out: String,
}

/// The record of some entries.
fn record_of<V: Value>(
    alloc: Global,
    record: &EscapedPrepared,
    entries: &[V],
) -> Result<String, Error> {
    let items = items_of(alloc, entries)?;
    let mut out = TextBuffer::new(alloc);
    let answer = record.write(alloc, &mut out, &Row(&[Formattable::iter(&items)]));
    // The buffer refuses a text only if memory runs out.
    if out.refused() {
        return Err(Error::NoMemory);
    }
    answer?;
    Ok(out.into_string())
}

/// The entries as what a row has.
fn texts_as_views<'a>(alloc: Global, entries: &[&'a str]) -> Result<Vec<View<'a>>, Error> {
    let mut views = Vec::with_capacity(alloc, entries.len())?;
    for entry in entries {
        views.push(View::Text(entry))?;
    }
    Ok(views)
}

/// Adds a text, with a blank for each control character.
fn push_shown(out: &mut String, text: &str) -> Result<(), Error> {
    for c in text.chars() {
        out.push(shown_character(c))?;
    }
    Ok(())
}

impl Page {
    /// Adds a line of entries.
    fn push(&mut self, entries: &[&str]) -> Result<(), Error> {
        match &self.form {
            Form::Line(sides) => {
                let line = line_of(self.alloc, sides, entries)?;
                push_shown(&mut self.out, line.trim_end())?;
            }
            Form::Record(record) => {
                let views = texts_as_views(self.alloc, entries)?;
                let text = record_of(self.alloc, record, &views)?;
                self.out.push_str(text.as_str())?;
            }
        }
        self.out.push('\n')?;
        Ok(())
    }

    /// Adds a line with the names of columns.
    fn push_names(&mut self, columns: &[Column<'_>]) -> Result<(), Error> {
        let mut names = Vec::with_capacity(self.alloc, columns.len())?;
        for column in columns {
            names.push(column.name)?;
        }
        self.push(&names)
    }

    /// Adds a record.
    fn push_entries(&mut self, record: &Record<'_>) -> Result<(), Error> {
        let mut entries = Vec::with_capacity(self.alloc, record.fields.len())?;
        for index in 0..record.fields.len() {
            entries.push(entry_in(record, index))?;
        }
        self.push(&entries)
    }

    /// Adds a line of totals.
    fn push_foot(&mut self, foot: &Foot) -> Result<(), Error> {
        let mut texts = Vec::with_capacity(self.alloc, foot.texts.len())?;
        for text in &foot.texts {
            texts.push(text.as_str())?;
        }
        self.push(&texts)
    }

    /// Adds the first of these lines of totals, those that have this number. Returns the others.
    fn push_feet<'a>(&mut self, feet: &'a [Foot], part: usize) -> Result<&'a [Foot], Error> {
        let mut count = 0usize;
        for foot in feet {
            if foot.part != part {
                break;
            }
            self.push_foot(foot)?;
            count = count.saturating_add(1);
        }
        Ok(feet.get(count..).unwrap_or(&[]))
    }

    /// Adds all records.
    fn push_all(&mut self, records: &[Record<'_>]) -> Result<(), Error> {
        for record in records {
            self.push_entries(record)?;
        }
        Ok(())
    }

    /// Adds the records of a group.
    fn push_group(&mut self, records: &[Record<'_>], group: &Group) -> Result<(), Error> {
        for place in &group.places {
            if let Some(record) = records.get(*place) {
                self.push_entries(record)?;
            }
        }
        Ok(())
    }
}

/// The label of the totals of a group, which is that of a text.
fn label_of(
    alloc: Global,
    records: &[Record<'_>],
    group: &Group,
    by: usize,
) -> Result<String, Error> {
    let place = group.places.first().copied().unwrap_or(0);
    let text = records.get(place).map_or("", |record| entry_in(record, by));
    Ok(format!(in alloc; "total {text}")?)
}

/// The lines of the totals of each group, and of all.
fn all_feet(
    alloc: Global,
    columns: &[Column<'_>],
    records: &[Record<'_>],
    groups: &[Group],
    by: usize,
) -> Result<Vec<Foot>, Error> {
    let mut feet = Vec::new(alloc);
    for (before, group) in groups.iter().enumerate() {
        let label = label_of(alloc, records, group, by)?;
        let part = before.saturating_add(1);
        push_feet(
            alloc,
            &mut feet,
            columns,
            part,
            group.places.len(),
            label.as_str().trim_end(),
        )?;
    }
    push_feet(alloc, &mut feet, columns, 0, records.len(), "total")?;
    Ok(feet)
}

/// The page of these records, in groups by the column at this index, if there are any groups.
pub fn page_of(
    alloc: Global,
    columns: &[Column<'_>],
    records: &[Record<'_>],
    groups: &[Group],
    by: usize,
    is_csv: bool,
) -> Result<String, Error> {
    let feet = all_feet(alloc, columns, records, groups, by)?;
    let mut page = Page {
        alloc,
        form: form_of(alloc, columns, &feet, is_csv)?,
        out: String::new(alloc),
    };
    page.push_names(columns)?;
    let mut left = feet.as_slice();
    for (before, group) in groups.iter().enumerate() {
        page.push_group(records, group)?;
        left = page.push_feet(left, before.saturating_add(1))?;
    }
    if groups.is_empty() {
        page.push_all(records)?;
    }
    page.push_feet(left, 0)?;
    Ok(page.out)
}
