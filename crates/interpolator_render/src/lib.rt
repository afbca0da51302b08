//! Numbers, truth values, characters and texts, written under a trait, flags, width and precision.
//!
//! A [`View`] is what is written: one number, one truth value, one character or one text. A
//! [`Trait`] says in which way (display, debug, a base, an exponent form), and a [`Spec`] with which
//! flags, to which width and at which precision, as the text after the colon of a format string
//! does in Rust. [`render`] appends the text of a view to a writer, and [`pad`] a text as display
//! shows it. A writer is any type with [`TextWrite`]: [`TextBuffer`] writes to a text that it holds,
//! [`Bounded`] to a `String` with a limit on its bytes, and [`IoWriter`] to any `std::io::Write`. A
//! type of your own can be written once it implements [`Value`], which says what it shows.
//!
//! ```text
//! let mut out = TextBuffer::new(rt.alloc());
//! let spec = Spec { alternate: true, zero: true, width: Some(6), ..Spec::default() };
//! render(&mut out, View::from(10u8), Trait::LowerHex, &spec)?;   // as `{:#06x}`
//! out.as_str()                                                   // "0x000a"
//! ```
//!
//! The contracts pin the texts. Read on at [`render`], in the laws of [`laws`], and in the
//! definitions in `specs/`, starting with `Texts`. Only a `TextBuffer`, a `Bounded` and an
//! `IoWriter` take memory here, each from the allocator that it was made with.
#![tactic(auto)]

mod appends;
mod below;
mod bounded;
mod characters;
mod conversions;
mod copies;
mod decimal;
mod decimal_digits;
mod decimal_exponent;
mod decimal_parts;
mod digit_buffer;
mod digit_tables;
mod digits;
mod exponent;
mod few_digits;
mod float;
mod float_view;
mod ghost_log;
mod io_writer;
pub mod laws;
mod layout;
mod lengths;
mod number;
mod number_form;
mod number_parts;
mod number_row;
mod places;
mod quoting;
mod rendering;
mod scientific;
mod text_buffer;
mod text_write;
mod value;
mod view;

pub use bounded::Bounded;
pub use characters::char_count;
pub use few_digits::put_few_digits;
pub use io_writer::IoWriter;
pub use lengths::most_written;
pub use rendering::{pad, render, render_plainly};
pub use text_buffer::TextBuffer;
pub use text_write::{Refusal, TextWrite};
pub use value::Value;
pub use view::{Alignment, Bits, HexDebug, RenderFault, Sign, Spec, Trait, View};
