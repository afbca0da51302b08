//! The formatter for callers that are not Rattle, over what C can pass: bytes, numbers, and slices
//! of structs of these.
//!
//! Each call is a function over slices, with its contract; `interpolator_c` exports them. A
//! [`Field`] is a value under a name, or an item of a list. [`Answer`] is what a call returns.
//! `bindings/c/interpolator.h` says all that a caller has to know of each, in words.
#![tactic(auto)]

mod answer;
mod argument;
mod bytes;
mod cells;
mod checking;
mod costs;
mod escaping;
mod explaining;
mod fault;
mod field;
mod formatting;
mod levels;
mod measured;
mod offsets;
mod request;
mod row;
mod slots;
mod table;
mod taken;
mod writing;

pub use answer::Answer;
pub use argument::{Argument, arguments};
pub use checking::{check, check_alone, faults};
pub use costs::{CostAnswer, cost};
pub use escaping::escaped;
pub use explaining::{Located, Source, explain};
pub use fault::Fault;
pub use field::{Field, Lent};
pub use formatting::format;
pub use offsets::{Sizes, VERSION, layout};
pub use request::Request;
pub use row::FieldRow;
pub use table::{Table, rows};
pub use writing::write;
