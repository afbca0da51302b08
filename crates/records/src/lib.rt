//! The records of a table, as RFC 4180 and spreadsheets write them.
//!
//! [`Reader`] reads one after another: each call of [`Reader::next_record`] fills in the fields of
//! the next record, in memory that the last one had. A field is lent from the table, or made where
//! two quotes stand for one. A fault is returned with its line and column, and nothing is skipped.
//!
//! ```text
//! let table = "name;town\n\"Zoë \"\"Z\"\"\";\"Ulm\nWest\"\n";
//! let mut reader = Reader::new(table, Separator::Semicolon);
//! // line 1: `name` and `town`; line 2: `Zoë "Z"`, and a field of two lines
//! ```
//!
//! [`Table::read`] keeps all records and faults of a table. [`push_record`] writes a record.
//! [`text_in`] and [`latin1`] make texts of bytes, and [`Faults`] tells what is wrong with a file.
//! Read on at `Spellings`, `Records` and `Faults` in `specs/`, which say how a record is spelled, and
//! at the laws in [`laws`].
#![tactic(auto)]

mod encoding;
mod fault;
mod faults;
mod field;
mod head;
pub mod laws;
mod place;
mod quoted;
mod reader;
mod record;
mod scan;
mod separator;
mod table;
mod take;
mod written;

pub use encoding::{BadByte, advice_on, is_utf16, latin1, text_in};
pub use fault::{Fault, Place, Problem};
pub use faults::Faults;
pub use field::Field;
pub use reader::{ReadError, Reader};
pub use separator::Separator;
pub use table::{Record, Table};
pub use written::push_record;
