//! Rules that choose the form of a message by numbers, as gettext and CLDR write them, and by texts:
//! `n % 10 == 1 && n % 100 != 11 ? one : other`, `gender == 'f' ? she : they`.
//!
//! A rule is an expression of C: names, numbers, `!`, `%`, `<`, `<=`, `>`, `>=`, `==`, `!=`, `&&`,
//! `||`, `?:` and brackets, with the precedence that they have in C. [`parse`] reads it, and an
//! [`Expression`] has a value and a form. What follows a `%` is a number, and not 0, so a rule that
//! was read has a value whatever the numbers are.
//!
//! Beyond C, a name followed by `==` or `!=` and a text between quotes `'`, which has no quote in it,
//! is one operand: whether the text under the name is that one.
//!
//! Read on at `Trees`, `Values` and `Says` in `specs/`: the grammar, the value, and what a rule says.
#![tactic(auto)]

mod expression;
mod fault;
mod given;
mod numeral;
mod reading;
mod reduce;
mod token;

pub use expression::{Expression, Form, Operator};
pub use fault::{Fault, ParseError, Problem};
pub use given::{Missing, Values};
pub use reading::parse;
pub use token::{LIMIT, is_name};
