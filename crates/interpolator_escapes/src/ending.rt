//! Where a reader is after a format.

/// Where a reader is after a format whose values stand. A format that ends as it began may be
/// written again and again, one text after the other.
#[derive(Clone, Copy, Debug, PartialEq, Eq)]
pub enum Ending {
    /// In the state in which it began.
    Beginning,
    /// In another one, in which a value may stand.
    Place,
    /// In another one, in which none may.
    Elsewhere,
}
