//! Groups with subtotals and a total, in columns as wide as the data.

use interpolator::{
    Decimal, Error, Interpolate, Prepared, Template, TextBuffer, TextWrite, values,
};
use std::alloc::Global;

/// What was sold, and where.
#[derive(Clone, Copy)]
struct Sale<'a> {
    region: &'a str,
    item: &'a str,
    amount: Decimal,
}

/// The sum, or the first amount where no decimal holds it.
fn plus(sum: Decimal, amount: Decimal) -> Decimal {
    sum.checked_add(amount).unwrap_or(sum)
}

/// The sum of all amounts.
fn total(sales: &[Sale<'_>]) -> Decimal {
    let mut sum = Decimal { units: 0, scale: 2 };
    for sale in sales {
        sum = plus(sum, sale.amount);
    }
    sum
}

/// The line of an item, as wide as its longest name.
fn line_of(alloc: Global, sales: &[Sale<'_>]) -> Result<Prepared, Error> {
    let mut width = "Subtotal".len();
    for sale in sales {
        width = width.max(sale.item.chars().count());
    }
    let format = values!(width).format(alloc, "  {{item:<{width}}} {{amount:>9.2}}")?;
    let template = Template::parse(alloc, &format)?;
    template.prepare_named(alloc, &values!(item = "tea", amount = total(sales)))
}

/// Writes one line.
fn put(
    alloc: Global,
    out: &mut TextBuffer,
    line: &Prepared,
    item: &str,
    amount: Decimal,
) -> Result<(), Error> {
    line.write_named_line(alloc, out, &values!(item, amount))
}

/// Writes a group: its name, its sales, and their sum.
fn put_group(
    alloc: Global,
    out: &mut TextBuffer,
    line: &Prepared,
    group: &[Sale<'_>],
) -> Result<(), Error> {
    if let Some(first) = group.first() {
        values!(region = first.region).write_line_to(alloc, out, "{region}")?;
    }
    for sale in group {
        put(alloc, out, line, sale.item, sale.amount)?;
    }
    put(alloc, out, line, "Subtotal", total(group))
}

/// The report: a group for each run of sales in one region.
fn report(alloc: Global, sales: &[Sale<'_>]) -> Result<String, Error> {
    let line = line_of(alloc, sales)?;
    let mut out = TextBuffer::new(alloc);
    for group in sales.chunk_by(|a, b| a.region == b.region) {
        put_group(alloc, &mut out, &line, group)?;
    }
    out.write_str("\n")?;
    put(alloc, &mut out, &line, "Total", total(sales))?;
    Ok(out.into_string())
}

/// A sale of so many cents.
fn sold<'a>(region: &'a str, item: &'a str, cents: u32) -> Sale<'a> {
    Sale {
        region,
        item,
        amount: Decimal {
            units: i128::from(cents),
            scale: 2,
        },
    }
}

/// Four sales in two regions.
pub fn shown(alloc: Global) -> Result<String, Error> {
    let sales = [
        sold("North", "bread", 250),
        sold("North", "crème fraîche", 1205),
        sold("South", "tea", 399),
        sold("South", "milk", 1),
    ];
    report(alloc, &sales)
}
