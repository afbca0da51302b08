//! A ghost counter of the pieces that were gone through: it has no code and takes no bytes.
ghost use Rattle.std.specs.Prelude.{◌≡◌, ◌+◌, ◌<◌};

use std::marker::Model;
use std::sync::ledger::{Blank, Book, Ledger, Share};

/// A ghost counter of the pieces that were gone through. Only `tick` changes it.
///
/// # Example
///
/// ```text
/// let mut count = PieceCount::<L>::open(blank);    // 0
/// count.tick();                                    // 1
/// ```
#[derive(Drop)]
pub struct PieceCount<L: Ledger> {
    book: Book<L>,
    share: Share<L>,
}

impl<L: Ledger> Model for PieceCount<L> {
    ghost use Rattle.std.specs.Prelude.{ℕ, ◌<◌};

    ghost Value = { ℕ };

    ghost view = { λ t. t.book.total };

    ghost invariant = { λ t. 0 < t.share.parts };
}

impl<L: Ledger> PieceCount<L> {
    /// Opens a counter at 0.
    #[inline(always)]
    pub fn open(blank: Blank) -> PieceCount<L>
        requires name { blank.name ≡ L.name }
        requires parts { blank.parts ≡ L.parts }
        requires some { 0 < blank.parts }
        ensures none { result ≡ 0 }
    {
        let (book, share) = blank.open::<L>();
        PieceCount { book, share }
    }

    /// Counts one more piece.
    #[inline(always)]
    pub fn tick(&mut self)
        ensures one { self.new ≡ self.old + 1 }
    {
        self.book.add(&mut self.share, 1);
    }
}
