//! Writes what a format means: looks up its names, and passes its texts to the writer.
//!
//! The functions here end in `?; Ok(())` after a call, and do not return its `Result`, which would
//! copy the 56 bytes of an `Error` in each of them.

pub mod environment;
pub mod evaluator;
mod items;
pub mod list;
pub mod need;
pub mod plain_item;
pub mod sample;
pub mod scan;
mod scanned_argument;
mod scanned_groups;
pub mod sink;
pub mod source;
pub mod uncounted;
pub mod value;
