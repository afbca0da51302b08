//! Tables that own their cells: lists of records for a format.
//!
//! A [`Table`] is filled row by row with values of any kind, and copies the texts. [`lend!`] lends
//! it as one list of rows, for [`values!`], `Pairs`, a `ContextMap` or a `Row` of `interpolator`.
//!
//! ```text
//! let mut items = Table::new(alloc);
//! for item in &order.items {
//!     items.row(&list![item.what.as_str(), item.amount])?;
//! }
//! lend!(rows = items);
//! values!(name, items:i = rows).format(alloc, "{name}: {items:i#({:i0({})} {:i1({:.2})})#(, )}")?
//! // "Ann: Paper 12.50, Pens 3.00"
//! ```
#![tactic(auto)]

mod cell;
mod macros;
pub mod made;
mod table;

pub use table::Table;
