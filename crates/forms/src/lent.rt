//! One table, lent to each kind of context.

use interpolator::{
    ContextMap, Error, Formattable, Interpolate, Pairs, Row, Template, View, list, values,
};
use interpolator_table::{Table, lend};
use std::alloc::Global;

const FORMAT: &str = "{rows:i#({:i0({:?})}={:i1..({:>3})(,)})#(; )}\n";

/// Two rows, and one without cells.
fn two_rows(alloc: Global) -> Result<Table, Error> {
    let mut rows = Table::new(alloc);
    rows.row(&list!["é", 10u8, 255u8])?;
    rows.row(&[])?;
    rows.row(&list![true, 7i64])?;
    Ok(rows)
}

fn by_values(alloc: Global, table: &Table) -> Result<String, Error> {
    lend!(rows = *table);
    values!(rows:i = rows).format(alloc, FORMAT)
}

/// In a function of its own, whose parameter names one lifetime.
fn in_pairs<'a>(alloc: Global, rows: &'a [Formattable<'a, View<'a>>]) -> Result<String, Error> {
    Pairs(&[("rows", Formattable::iter(rows))]).format(alloc, FORMAT)
}

fn by_pairs(alloc: Global, table: &Table) -> Result<String, Error> {
    lend!(rows = *table);
    in_pairs(alloc, rows)
}

fn by_map(alloc: Global, table: &Table) -> Result<String, Error> {
    lend!(rows = *table);
    let mut map = ContextMap::new(alloc);
    map.put("rows", Formattable::iter(rows))?;
    map.format(alloc, FORMAT)
}

/// The same by a prepared format.
fn in_row<'a>(alloc: Global, rows: &'a [Formattable<'a, View<'a>>]) -> Result<String, Error> {
    let line = Template::parse(alloc, FORMAT)?.prepare(
        alloc,
        &Pairs(&[("rows", Formattable::iter(rows))]),
    )?;
    line.format(alloc, &Row(&[Formattable::iter(rows)]))
}

fn by_row(alloc: Global, table: &Table) -> Result<String, Error> {
    lend!(rows = *table);
    in_row(alloc, rows)
}

/// The same text four times.
pub fn shown(alloc: Global) -> Result<String, Error> {
    let table = two_rows(alloc)?;
    let mut text = String::new(alloc);
    for made in [
        by_values(alloc, &table)?,
        by_pairs(alloc, &table)?,
        by_map(alloc, &table)?,
        by_row(alloc, &table)?,
    ] {
        text.push_str(made.as_str())?;
    }
    Ok(text)
}
