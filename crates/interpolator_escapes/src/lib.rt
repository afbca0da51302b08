//! Values written so that none leaves the place in which it stands.
//!
//! A page, a table, a message, a log line and a command each have characters that end the place
//! of a value. An [`Escape`] says what is written for these. [`put_escaped`] writes a text so, and
//! [`put_view`] what a value shows.
//! A reader of each of the five languages is defined in `specs/`, in few lines. The laws in
//! [`laws`] say that it reads an escaped value as that value, and stays where it was.
//!
//! ```text
//! let mut out = TextBuffer::new(alloc);
//! put_escaped(&mut out, Escape::Html, "a<b")?;
//! out.as_str()       // "a&lt;b"
//! ```
#![tactic(auto)]

mod checking;
mod ending;
mod escape;
mod escaped;
mod escapers;
mod escaping;
mod fields;
mod laid;
pub mod laws;
mod misplaced;
pub mod place_laws;
mod place_text;
mod placing;
mod plain;
pub mod readers;
pub mod record_laws;
mod records;
mod room;
mod search;
mod taken;
mod views;

pub use checking::{check_format, check_places};
pub use ending::Ending;
pub use escape::Escape;
pub use escaped::put_escaped;
pub use escapers::{CsvEscaper, HtmlEscaper, JsonEscaper, LineEscaper, ShellEscaper};
pub use fields::RecordEscaper;
pub use misplaced::{Misplaced, PlaceError, Why};
pub use place_text::places_of;
pub use placing::check_stands;
pub use records::{check_record, check_record_pieces};
pub use views::{put_text_view, put_view};
