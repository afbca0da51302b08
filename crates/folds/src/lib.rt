//! Texts that stand on several lines, as those of messages do: `Dear {name},\n` and, on a line that
//! begins with a blank, `your order`.
//!
//! A line that begins with a blank or a tab, and has more than white space, goes on with the text
//! before it. The line end and the white space after it count as one blank, and at the beginning of
//! the text, or after a line end that is written, as nothing. Blank lines between count as nothing.
//! `\n` writes a line end and `\\` a backslash; before anything else a backslash is wrong.
//!
//! Read on at `Lines` and `Spellings` in `specs/`.
#![tactic(auto)]

pub mod laws;
mod lines;
mod spelling;

pub use lines::{Spot, goes_on, is_blank, spot_of, written};
pub use spelling::{ReadError, place_of, read};
