//! Format strings at run time, proved.
//!
//! Give it a format and named values, and you get the formatted text, or one fault with its place.
//! A [`Formattable`] is a value with a slot for each trait under which a format may show it, or a
//! list of such values. A [`Context`] says what is under a name: [`values!`] or [`Pairs`], which take
//! no memory, a [`ContextMap`], or a `HashMap`. [`write`] appends to any [`TextWrite`], and
//! [`format`] makes a new `String`; the methods of [`Interpolate`] do the same for a context, and
//! [`iformat!`] formats named values in one call. A [`Template`] is a format that is read once, and
//! can be checked before it is written.
//!
//! ```text
//! let row = values!(name = "Ann", n:integer = -7i32);
//! row.format(alloc, "Hello {name}, n is {n:>5}")?    // "Hello Ann, n is    -7"
//! ```
//!
//! What a format means is defined in `specs/`, and `write` is proved to do that and nothing else,
//! for every format, context and writer. Read on at [`write`], at [`laws`] and those of
//! `interpolator_laws`, and at `Meaning/Meanings` in `specs/` of `interpolator_eval`.
#![tactic(auto)]

mod choice;
mod decimal;
mod decimal_sums;
mod escaped_prepared;
mod escaped_template;
mod escaped_text;
mod escaping;
mod examining;
mod excerpt;
mod explaining;
mod interpolate;
pub mod laws;
mod lent;
mod macros;
pub mod made;
mod named_row;
mod naming;
mod or;
mod owned_view;
mod parts;
mod position;
mod record_template;
mod sample_map;
mod template;
mod values;
mod values_of;
mod values_of_many;
mod values_of_most;
mod views;

pub use choice::first_if;
pub use decimal::Decimal;
pub use escaped_prepared::EscapedPrepared;
pub use escaped_template::EscapedTemplate;
pub use escaped_text::{EscapeError, format_escaped};
pub use escaping::escape;
pub use explaining::{Source, explain, explain_in, explain_place, explain_with_names};
pub use interpolate::Interpolate;
pub use interpolator_escapes::{Escape, Misplaced, PlaceError, Why, places_of, put_escaped};
pub use interpolator_eval::{
    Context, ContextMap, Formattable, NameMap, Pairs, PieceCount, chosen, is_name, items_of,
    rows_of,
};
pub use interpolator_pieces::{Cost, Limits, Piece, check, format, iwriteln, write};
pub use interpolator_prepared::{Prepared, PreparedRow, Row};
pub use interpolator_render::{
    Alignment, Bits, Bounded, HexDebug, IoWriter, Refusal, RenderFault, Sign, Spec, TextBuffer,
    TextWrite, Trait, Value, View, most_written, pad, render,
};
pub use interpolator_syntax::{
    Argument, Error, Group, Kind, NumberError, ParseError, PieceKind, Range, parse_argument,
};
pub use or::Or;
pub use owned_view::OwnedView;
pub use parts::{seam, write_parts};
pub use position::Position;
pub use record_template::RecordTemplate;
pub use template::Template;
pub use values::{NamedValue, Values};
