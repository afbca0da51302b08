//! Letters with a list of items for each person: the items are a table, which is checked and
//! written by the same value.

use interpolator::{Decimal, Error, Interpolate, Template, TextBuffer, list, values};
use interpolator_table::{Table, lend};
use std::alloc::Global;

/// A letter: who it goes to, and what is to be paid.
#[derive(Drop)]
pub struct Letter {
    name: String,
    items: Table,
    total: Decimal,
}

impl Letter {
    /// A letter of items like `Paper:12.50;Pens:3`. What is no amount is left out.
    pub fn read(alloc: Global, name: &str, text: &str) -> Result<Letter, Error> {
        let mut items = Table::new(alloc);
        let mut total = Decimal { units: 0, scale: 2 };
        for part in text.split(';') {
            let Some((what, amount)) = part.split_once(':') else {
                continue;
            };
            if let Ok(amount) = Decimal::parse(amount) {
                items.row(&list![what, amount])?;
                total = total.checked_add(amount).unwrap_or(total);
            }
        }
        Ok(Letter {
            name: String::from_str(alloc, name)?,
            items,
            total,
        })
    }

    /// The first fault of a template for such letters.
    pub fn check(&self, alloc: Global, template: &Template) -> Result<(), Error> {
        lend!(rows = self.items);
        values!(name = &self.name, total = self.total, items:i = rows).check_template(
            alloc, template,
        )
    }

    /// Writes the letter.
    pub fn write(
        &self,
        alloc: Global,
        out: &mut TextBuffer,
        template: &Template,
    ) -> Result<(), Error> {
        lend!(rows = self.items);
        values!(name = &self.name, total = self.total, items:i = rows).write_template_to(
            alloc, out, template,
        )
    }
}

/// A letter for each of two people, by a template that an example letter checks.
pub fn shown(alloc: Global) -> Result<String, Error> {
    let template = Template::parse(
        alloc,
        "Dear {name},\n{items:i#({:i0({:<8})}{:i1({:>8.2})}\n)#}{total:>16.2}\n",
    )?;
    let sample = Letter::read(alloc, "Ann", "Paper:1.00")?;
    sample.check(alloc, &template)?;
    let mut out = TextBuffer::new(alloc);
    for (name, items) in [("Zoë", "Paper:12.50;Pens:3"), ("Bob", "Stamps:0.85")] {
        let letter = Letter::read(alloc, name, items)?;
        letter.write(alloc, &mut out, &template)?;
    }
    Ok(out.into_string())
}
