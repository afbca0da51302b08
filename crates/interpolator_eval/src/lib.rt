//! Looks up the values of a format, and writes what the format means.
//!
//! A [`Formattable`] has the values that a name stands for, one slot for each trait, and a
//! [`Context`] finds the `Formattable` of a name. [`write_uncounted`] writes a format from any
//! [`FormatSource`]: a text, whose literals and values it writes as it reads them from left to
//! right, or pieces that were read before. [`write_source`] also counts the pieces. What a format
//! means is defined in `specs/Meaning`.
//!
//! `interpolator` re-exports what its callers name. The rest is for its own templates.
#![tactic(auto)]

mod constructors;
mod context;
mod context_map;
mod escaper;
mod evaluate;
mod field_names;
pub mod laws;
mod names;
mod numbered;
mod pairs;
mod piece_count;
mod rows;
mod slot_names;
mod slots;

pub use context::{ByNames, Context};
pub use context_map::{ContextMap, NameMap};
pub use escaper::{Escaper, Unescaped};
pub use evaluate::environment::Environment;
pub use evaluate::evaluator::write_source;
pub use evaluate::list::{chosen, forbids_list};
pub use evaluate::need::Need;
pub use evaluate::plain_item::PlainItem;
pub use evaluate::sample::{Candidates, Items, SampleEnvironment};
pub use evaluate::scan::{ScannedList, write_before_list};
pub use evaluate::sink::{Sink, WriteFault, write_char, write_plain, write_run, write_shown};
pub use evaluate::source::FormatSource;
pub use evaluate::uncounted::write_uncounted;
pub use evaluate::value::{LookUp, chosen_list, slot_of, write_plain_value, write_value};
pub use field_names::is_name;
pub use names::{same_bytes, same_name};
pub use pairs::Pairs;
pub use piece_count::PieceCount;
pub use rows::{items_of, rows_of};
pub use slots::Formattable;
