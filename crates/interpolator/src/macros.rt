//! Macros that make a context of names and values, and write a format with it.
//!
//! All but `list!`, which takes values, take names, with commas between them, in the syntax of the
//! Rust crate `interpolator`:
//!
//! - `name` stands for the variable of this name, and `name = value` for a value.
//! - Before the `=`, each `:` and a trait fill a slot: `?`, `x`, `X`, `o`, `b`, `e` and `E`, or by
//!   their words `debug`, `lower_hex`, `upper_hex`, `octal`, `binary`, `lower_exp` and `upper_exp`.
//!   A `:` alone, `display`, or no trait at all fills the display slot. `debug_display`, `integer`
//!   and `float` fill those that the calls of `Formattable` with these names fill.
//! - `name:i = items` or `name:iter = items` stands for a list, a slice of `Formattable`s.
//!
//! Values go by `View::from`, so that several kinds mix; `context!` borrows values of one type.

mod formats;
mod lists;
mod values;
