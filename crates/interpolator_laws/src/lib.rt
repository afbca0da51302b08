//! Laws, each the contract of a small function: of texts made into formats, of the tree of a text
//! and its arguments, of what can be known of a format before it is written, of a line that is
//! shown with marks, and of `==`. Those of formats in parts and of the texts of decimals are from
//! `interpolator`; those of what a format means, of the names that it uses, and of the items that a
//! range chooses from `interpolator_eval`; those of the faults and of what is in braces from
//! `interpolator_syntax`.
#![tactic(auto)]

pub mod all_arguments;
pub mod checks;
pub mod costs;
pub mod depths;
pub mod equality;
pub mod escaped;
pub mod escapes;
pub mod excerpts;
pub mod places;
pub mod prepared;
pub mod samples;
pub mod templates;
pub mod visits;

pub use interpolator::laws::{decimals, parts};
pub use interpolator_escapes::{laws as escape_laws, record_laws};
pub use interpolator_eval::laws::{choices, meanings, names};
pub use interpolator_syntax::laws::{
    arguments, clone_of_number_error, clone_of_parse_error, clones, groups, is_same_error,
    is_same_number_error, is_same_parse_error, lists, moves, numbers, pieces, specs,
};
