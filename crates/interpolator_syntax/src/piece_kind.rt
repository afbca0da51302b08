//! What a piece of a format is.

/// What a piece of a format is.
#[derive(Clone, Copy, Debug, PartialEq, Eq)]
pub enum PieceKind {
    /// A run of characters other than braces, as long as it can be.
    Literal,
    /// A doubled brace, which is written as one.
    Doubled,
    /// A closing brace by itself, which is written.
    LoneClose,
    /// An argument with its closing brace.
    Closed,
    /// An argument that lacks its closing brace. It extends to the end of its text.
    Unclosed,
    /// An opening brace after which no argument can be read. It extends to the end of its text.
    Broken,
}
