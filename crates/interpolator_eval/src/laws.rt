//! Laws, each the contract of a small function: of what texts and lists mean, of the names that a
//! format uses, and of the items that a range chooses.

pub mod choices;
pub mod meanings;
pub mod names;
