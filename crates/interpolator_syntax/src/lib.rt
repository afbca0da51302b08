//! The syntax of format texts, and the faults that one can have.
//!
//! A format is read with a [`Cursor`]: a place in the text, and the text from there on.
//! [`next_token`] returns what comes next: literals, a brace that is written, or an opening brace,
//! after which an argument begins. [`take_argument`] reads that argument: [`take_name`] reads its
//! name, and [`take_request`] reads its spec and the form of a list, if a colon follows the name. A
//! fault is reported as a [`ParseError`], with its place in bytes.
//!
//! ```text
//! let (argument, end) = parse_argument("{x:>8}", 1)?;
//! // the name `x` at byte 1, display, aligned to the right, of width 8; end is 5
//! ```
//!
//! The readers know no writer and no context, and allocate nothing. The contract of each says that
//! it returns what the reader of the same part in `specs/` computes; that those compute the right
//! thing is stated by the laws in [`laws`]. Read on at [`parse_argument`], and at `Arguments` and
//! `Pieces` in `specs/`.
#![tactic(auto)]

mod argument;
mod argument_fault;
mod bracket;
mod class;
mod cursor;
mod error;
mod error_text;
mod group;
mod io_error;
pub mod laws;
mod list;
mod number;
mod piece_kind;
mod range;
mod spec;
mod token;
mod unstyled;

pub use argument::{
    Argument, ArgumentName, Kind, Request, TakenArgument, argument_of, parse_argument,
    take_argument, take_name, take_request,
};
pub use argument_fault::ArgumentFault;
pub use bracket::inside;
pub use class::{Class, split_class, split_first};
pub use cursor::Cursor;
pub use error::{Error, NumberError, ParseError};
pub use group::Group;
pub use list::ListForm;
pub use piece_kind::PieceKind;
pub use range::Range;
pub use token::{Token, next_token};
pub use unstyled::write_unstyled;
