//! Laws, each the contract of a small function: of the faults; of numbers, groups, lists, specs and
//! arguments; of the pieces of a format; and of a format at another base.

pub mod arguments;
pub mod clones;
pub mod equality;
mod faults;
pub mod groups;
pub mod lists;
pub mod moves;
pub mod numbers;
pub mod pieces;
pub mod specs;

pub use faults::{
    clone_of_number_error, clone_of_parse_error, is_same_error, is_same_number_error,
    is_same_parse_error,
};
