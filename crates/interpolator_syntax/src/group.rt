//! A text in round brackets.
ghost use Rattle.std.specs.Prelude.{◌+◌, ◌^◌, ◌<◌, length};

/// A text in round brackets, and its place.
///
/// ```text
/// {items:i({:>4})(, )}    // each item with width 4, with a comma and a space between items
/// {items:i#(a (nested) text)#}
/// ```
#[derive(Clone, Copy, Debug, PartialEq)]
pub struct Group<'a> {
    /// The text between the brackets, a slice of the format.
    pub text: &'a str,
    /// The byte of the format at which that text begins.
    pub place: usize,
    ghost fits: { place + length text.now < 2 ^ 64 },
}
