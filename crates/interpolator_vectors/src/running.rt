//! Runs the rows of a file.

use crate::arguments::{placed_text, run_argument};
use crate::cells::Cell;
use crate::contexts::{Holding, context_of, pairs_of, turned, values_of};
use crate::costs::run_cost;
use crate::cuts::run_cuts;
use crate::files::{Block, Facts, Row, blocks_of};
use crate::formats::{FormatRow, Kind, run_format};
use crate::joins::run_joins;
use crate::loaded::{Named, run_check, run_prepared};
use crate::rendering::run_rendering;
use crate::report::Report;
use crate::small::run_small;
use crate::templates::run_known;
use crate::trouble::{Read, known};
use crate::ways::Room;
use crate::words::Words;
use interpolator::{ContextMap, Formattable, Limits, Template};
use std::alloc::Global;

/// What a context has under its names.
fn holding_of(alloc: Global, block: &Block) -> Read<Holding> {
    let mut holding = Holding::new(alloc);
    for line in &block.names {
        let mut words = Words::new(alloc, line.number, &line.words);
        holding.take_line(&mut words)?;
    }
    Ok(holding)
}

/// The rows of formats among those of a context.
fn format_rows_of(alloc: Global, rows: &[Row]) -> Read<Vec<FormatRow<'_>>> {
    let mut formats = Vec::new(alloc);
    for row in rows {
        let mut facts = Facts::new(alloc, row)?;
        if let Some(format) = FormatRow::read(row, &mut facts)? {
            formats.push(format)?;
        }
    }
    Ok(formats)
}

/// Runs a row of a format, of parts or of a line. A row that states no outcome is an error.
fn run_format_row(
    report: &mut Report<'_>,
    context: &ContextMap<'_, Cell>,
    row: &FormatRow<'_>,
    facts: &mut Facts<'_>,
) -> Read<()> {
    let runs = report.runs;
    run_format(report, context, row)?;
    if row.kind == Kind::Format {
        let template = known(Template::parse(report.alloc, row.format()))?;
        run_known(report, context, &template, facts)?;
    }
    if report.runs == runs {
        return Err(facts.trouble("a row that wants nothing"));
    }
    Ok(())
}

/// Runs a row, whatever it is about.
fn run_any<'a>(
    report: &mut Report<'_>,
    context: &ContextMap<'_, Cell>,
    row: &'a Row,
    facts: &mut Facts<'a>,
) -> Read<()> {
    if let Some(format) = FormatRow::read(row, facts)? {
        return run_format_row(report, context, &format, facts);
    }
    if let Some(start) = placed_text(facts, "argument")? {
        return run_argument(report, facts, &start);
    }
    if run_rendering(report, facts)? || run_small(report, facts)? {
        return Ok(());
    }
    Err(facts.trouble("a row of nothing that is known"))
}

/// Runs the rows of a context, each by itself, and checks that each of its facts was read.
fn run_each(report: &mut Report<'_>, block: &Block, context: &ContextMap<'_, Cell>) -> Read<()> {
    for row in &block.rows {
        let mut facts = Facts::new(report.alloc, row)?;
        report.rows = report.rows.saturating_add(1);
        report.begin(row);
        run_any(report, context, row, &mut facts)?;
        facts.done()?;
    }
    Ok(())
}

/// Checks what is known of the formats of a context when they are loaded.
fn run_loaded(
    report: &mut Report<'_>,
    context: &ContextMap<'_, Cell>,
    formats: &[FormatRow<'_>],
    pairs: &[Named<'_>],
    values: &[Formattable<'_, Cell>],
) -> Read<()> {
    for row in formats {
        if let (Some(wanted), Room::All, Kind::Format) = (&row.wanted, row.room, row.kind) {
            let template = known(Template::parse(report.alloc, row.format()))?;
            report.begin(row.row);
            run_check(report, context, &template, wanted);
            run_prepared(report, &template, pairs, values, wanted);
        }
    }
    Ok(())
}

/// Checks what the formats of a context cost.
fn run_costs(
    report: &mut Report<'_>,
    context: &ContextMap<'_, Cell>,
    formats: &[FormatRow<'_>],
    limits: &Limits,
) -> Read<()> {
    for row in formats {
        if row.kind == Kind::Format {
            let template = known(Template::parse(report.alloc, row.format()))?;
            report.begin(row.row);
            run_cost(report, context, &template, limits);
        }
    }
    Ok(())
}

/// Runs the cuts and joins of the formats of a context.
fn run_formats(
    report: &mut Report<'_>,
    block: &Block,
    context: &ContextMap<'_, Cell>,
    formats: &[FormatRow<'_>],
) -> Read<()> {
    for row in formats {
        report.begin(row.row);
        if block.cut && row.kind != Kind::Parts {
            run_cuts(report, context, row.format(), row.room)?;
        }
        if block.join {
            run_joins(report, context, row, formats)?;
        }
    }
    Ok(())
}

/// Runs the cuts of the texts of the arguments of a context.
fn cut_arguments(
    report: &mut Report<'_>,
    block: &Block,
    context: &ContextMap<'_, Cell>,
) -> Read<()> {
    for row in &block.rows {
        let mut facts = Facts::new(report.alloc, row)?;
        if let Some(start) = placed_text(&mut facts, "argument")? {
            report.begin(row);
            run_cuts(report, context, start.text.as_str(), Room::All)?;
        }
    }
    Ok(())
}

/// Runs the rows of a context: each by itself and, if all of them hold, cut and joined.
fn run_rows(
    report: &mut Report<'_>,
    block: &Block,
    context: &ContextMap<'_, Cell>,
    formats: &[FormatRow<'_>],
) -> Read<()> {
    let failed = report.failed;
    run_each(report, block, context)?;
    if report.failed > failed {
        return Ok(());
    }
    run_formats(report, block, context, formats)?;
    if block.cut {
        cut_arguments(report, block, context)?;
    }
    Ok(())
}

/// Runs a context with its rows. Nested lists are made from the innermost out.
fn run_block(report: &mut Report<'_>, block: &Block) -> Read<()> {
    let alloc = report.alloc;
    let holding = holding_of(alloc, block)?;
    let none = Vec::new(alloc);
    let innermost = values_of(alloc, &holding, 3, &none)?;
    let inner = values_of(alloc, &holding, 2, &innermost)?;
    let items = values_of(alloc, &holding, 1, &inner)?;
    let values = values_of(alloc, &holding, 0, &items)?;
    let pairs = pairs_of(alloc, &holding, &values)?;
    let context = context_of(alloc, &pairs)?;
    let formats = format_rows_of(alloc, &block.rows)?;
    run_costs(report, &context, &formats, &holding.limits())?;
    run_loaded(report, &context, &formats, &pairs, &values)?;
    let pairs = turned(alloc, &pairs)?;
    let last_first = turned(alloc, &values)?;
    run_loaded(report, &context, &formats, &pairs, &last_first)?;
    run_rows(report, block, &context, &formats)
}

/// Runs the rows of a file's text.
pub fn run_text(report: &mut Report<'_>, text: &str) -> Read<()> {
    for block in &blocks_of(report.alloc, text)? {
        run_block(report, block)?;
    }
    Ok(())
}
