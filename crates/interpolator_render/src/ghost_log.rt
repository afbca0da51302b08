//! What a writer has passed on, which only proofs read.
ghost use Rattle.std.specs.Prelude.{◌≡◌, ℕ, List, [], ◌++◌, Option, string_bytes};
ghost use Rattle.std.specs.{Borrow.ftrue, Str.chars};

use std::io::Write;
use std::marker::{Model, PhantomData};

/// The text that a writer has passed on, and what the writer below contained before, if that is
/// known. Only proofs read it: it takes no memory, and its methods do nothing at run time.
#[derive(Drop)]
pub(crate) struct GhostLog {
    of: PhantomData<()>,
    pub ghost text: { List ℕ },
    pub ghost start: { Option (List ℕ) },
}

impl Model for GhostLog {
    ghost also_owns = { λ _. ftrue };
}

impl GhostLog {
    /// No text was passed on to this writer yet.
    pub(crate) fn over<W: Write>(_below: &W) -> GhostLog
        ensures { (result.text ≡ []) × (result.start ≡ W.contents _below.now) }
    {
        GhostLog { of: PhantomData }
    }

    /// This text was passed on, and another after it.
    pub(crate) fn and(&self, more: &String) -> GhostLog
        ensures { (result.text ≡ self.now.text ++ chars (string_bytes more.now))
            × (result.start ≡ self.now.start) }
    {
        GhostLog { of: PhantomData }
    }
}
