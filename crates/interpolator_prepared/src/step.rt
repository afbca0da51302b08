//! The steps of a prepared format.

use interpolator_pieces::Piece;
use interpolator_render::{Spec, Trait};
use interpolator_syntax::Range;

/// Bytes of the format, from `from` up to `to`.
#[derive(Clone, Copy)]
pub struct Part {
    pub from: usize,
    pub to: usize,
}

/// Text of several parts of the format, one after the other.
#[derive(Drop)]
pub struct JoinedText {
    pub text: String,
    pub parts: Vec<Part>,
}

/// How a value is shown: a trait and a spec, which ends at `end`.
#[derive(Clone, Copy)]
pub struct ValueSpec {
    pub slot: Trait,
    pub spec: Spec,
    pub end: usize,
}

/// A list under no width whose items are one value each, between texts, and whose join is text.
#[derive(Drop)]
pub struct ListStep {
    /// Where its argument begins.
    pub start: usize,
    pub name: Part,
    pub range: Option<Range>,
    pub spec: Spec,
    /// Where its spec ends.
    pub end: usize,
    /// How an item is shown.
    pub value: ValueSpec,
    /// The text before the first item.
    pub before: JoinedText,
    /// The text between two items: what ends the first, the join, and what begins the second.
    pub between: JoinedText,
    /// The text after the last item.
    pub after: JoinedText,
}

/// A step of a prepared format.
#[derive(Drop)]
pub enum Step {
    /// The format's bytes from one up to another.
    Literal(usize, usize),
    /// Text of several parts.
    Joined(Box<JoinedText>),
    /// The value at a position, displayed plainly, for an argument whose name ends at this byte.
    Plain(usize, usize),
    /// The value at a position, under a trait and a spec.
    Value(usize, Box<ValueSpec>),
    /// Bytes of the format, and then a value as of `Plain`.
    LiteralPlain(Part, usize, usize),
    /// Bytes of the format, and then a value as of `Value`.
    LiteralValue(Part, usize, Box<ValueSpec>),
    /// Text of several parts, and then a value as of `Plain`.
    JoinedPlain(Box<JoinedText>, usize, usize),
    /// A list.
    List(Box<ListStep>),
    /// A piece that is kept: any other list, or an argument whose name has no position.
    Kept(Box<Piece>),
}
