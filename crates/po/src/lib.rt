//! The messages of a PO file, as gettext writes them.
//!
//! [`tokens_of`] reads the comments, words and strings of a file, and [`entries_of`] the messages
//! that these are. An [`Entry`] lends its strings, whose text [`text_of`] makes. Every fault has its
//! place.
//!
//! Read on at `Strings`, `Tokens`, `Sections` and `Entries` in `specs/`: the grammar.
#![tactic(auto)]

mod entry;
mod fault;
pub mod laws;
mod place;
mod scan;
mod section;
mod string;
mod token;

pub use entry::{Entry, entries_of};
pub use fault::{Fault, Problem, ReadError};
pub use place::place_of;
pub use section::text_of;
pub use token::{Note, Placed, Token, tokens_of};
