//! Formats that are read once, as pieces: how they are stored, written, and known beforehand.
//!
//! [`parse_pieces`] reads a text into [`Piece`]s, a tree, which stand for the nodes of the text.
//! [`Stored`] is a source of them for the evaluator. [`walk_text`] shows them to a [`Visitor`],
//! which gathers names, finds faults or measures; samples, costs, arguments and places are
//! functions of the same pieces.
//!
//! `interpolator` re-exports what its callers name. The rest is for its templates and its prepared
//! formats; in each of these functions pieces stand beside their text.
#![tactic(auto)]

mod arguments;
mod checks;
mod copy;
mod cost;
mod extent;
mod fault_collector;
mod formatting;
mod functions;
mod line;
mod names;
mod parse;
mod piece;
mod piece_text;
mod place;
mod sample;
mod stored_groups;
mod stored_source;
mod text_check;
mod walk;

pub use arguments::push_arguments;
pub use checks::Check;
pub use copy::copy_piece;
pub use cost::{Cost, Limits, cost_of};
pub use extent::{Deepest, Widest};
pub use fault_collector::FaultCollector;
pub use formatting::{format, format_by};
pub use functions::{
    Parsed, buffer_for, check, format_pieces, write, write_by, write_counted, write_pieces,
};
pub use line::{iwriteln, write_newline};
pub use names::Names;
pub use parse::parse_pieces;
pub use piece::{Form, Piece, form_of, part_of, spec_end_of, spec_of};
pub use piece_text::{cut, name_of, require_closed, text_of};
pub use place::argument_among;
pub use sample::collect_pieces;
pub use stored_source::Stored;
pub use walk::{Level, Visitor, walk_text};
