//! The text that was taken, which only proofs read.
ghost use Rattle.std.specs.Prelude.{◌≡◌, ℕ, List, [], ◌++◌};
ghost use Rattle.std.specs.{Borrow.ftrue, Str.chars};

use std::marker::{Model, PhantomData};

/// A text that was taken and not kept. Only proofs read it: it takes no memory, and its functions do
/// nothing at run time.
#[derive(Drop)]
pub(crate) struct Taken {
    of: PhantomData<()>,
    pub ghost text: { List ℕ },
}

impl Model for Taken {
    ghost also_owns = { λ _. ftrue };
}

impl Taken {
    /// Nothing was taken yet.
    pub(crate) fn nothing() -> Taken
        ensures { result.text ≡ [] }
    {
        Taken { of: PhantomData }
    }

    /// This text was taken after it.
    pub(crate) fn and(&self, more: &str) -> Taken
        ensures { result.text ≡ self.now.text ++ chars more.now }
    {
        Taken { of: PhantomData }
    }
}
