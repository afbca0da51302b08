//! The text that a writer has taken, which only proofs read.
ghost use Rattle.std.specs.Prelude.{◌≡◌, ℕ, List, [], ◌++◌};
ghost use Rattle.std.specs.{Borrow.ftrue, Str.chars};

use interpolator_render::TextWrite;
use std::marker::{Model, PhantomData};

/// The text that a writer has taken and passed on, and what the writer below contained before. Only
/// proofs read it: it takes no memory, and its functions do nothing at run time.
#[derive(Drop)]
pub(crate) struct Taken {
    of: PhantomData<()>,
    pub ghost text: { List ℕ },
    pub ghost start: { List ℕ },
}

impl Model for Taken {
    ghost also_owns = { λ _. ftrue };
}

impl Taken {
    /// Nothing was taken yet, over this writer.
    pub(crate) fn over<W: TextWrite>(_below: &W) -> Taken
        ensures { (result.text ≡ []) × (result.start ≡ (W.written _below.now).text) }
    {
        Taken { of: PhantomData }
    }

    /// This text was taken after it.
    pub(crate) fn and(&self, more: &str) -> Taken
        ensures { (result.text ≡ self.now.text ++ chars more.now)
            × (result.start ≡ self.now.start) }
    {
        Taken { of: PhantomData }
    }
}
