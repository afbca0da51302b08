//! Words of a command line that give values: `NAME=TEXT`, `NAME:=NUMBER`, `NAME:.=DECIMAL`,
//! `NAME:~=FLOAT` and `NAME[]=ITEM,ITEM..`. One rule for all programs: see [`classify`].
//!
//! And what programs share besides: in [`program`] what each does before and after its work, in
//! [`flags`] how it takes flags, and in [`formats`] what it tells of formats that are files.
#![tactic(auto)]

pub mod flags;
pub mod formats;
mod kinds;
mod lists;
pub mod program;
mod reading;

pub use kinds::{Declaration, Kind, declaration_of};
pub use lists::{as_items, item_views};
pub use reading::{Word, classify, items};
