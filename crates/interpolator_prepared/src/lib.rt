//! Formats that are prepared for rows of values.
//!
//! [`prepare_pieces`] makes steps of stored pieces: names become positions, and text between two
//! arguments one text. [`Prepared`] writes them with a [`Row`] of values.
#![tactic(auto)]

mod compile;
mod items;
mod joined;
mod lists;
mod name_index;
mod prepared;
mod put;
mod row;
mod run;
mod step;
mod written_row;

pub use prepared::{Prepared, prepare_pieces};
pub use row::{PreparedRow, Row, last_position, names_of};
