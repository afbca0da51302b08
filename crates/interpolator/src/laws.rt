//! Laws, each the contract of a small function: of the texts of decimals, and of formats that
//! follow one another.

pub mod decimals;
pub mod parts;
