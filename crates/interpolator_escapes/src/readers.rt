//! Readers of the languages in which values are shown, as `specs/` defines them.
ghost use Rattle.std.specs.Prelude.{◌≡◌, ◌↔◌, ℕ, Bool, IfOk, IsTrue, List};
ghost use Rattle.interpolator_render.specs.{declared.view.Spec.Spec, declared.view.Trait.Trait};
ghost use Rattle.interpolator_escapes.specs.{CodeReaders.ReadsOne, Readers.Token};

mod controls;
mod csv;
mod html;
mod json;
mod shell;

pub use controls::ControlReader;
pub use csv::CsvReader;
pub(crate) use csv::{csv_after, ends_field};
pub use html::HtmlReader;
use interpolator_render::{Spec, Trait};
pub use json::JsonReader;
pub use shell::ShellReader;
use std::alloc::AllocError;

/// A reader in one of its states: it goes from state to state, character by character, and in some
/// states, its places, a value may stand.
///
/// A reader that has to remember a name takes memory for it.
pub trait Reader: Drop {
    // its states, as defined, and the one in which it is
    ghost State: { Type 0 };

    ghost state: { Self → State };

    // what it reads, and where it is then
    ghost step: { State → ℕ → State × List Token };

    ghost places: { State → Trait → Spec → Bool };

    /// Reads a character, and returns whether there was any structure.
    fn read(&mut self, c: char) -> Result<bool, AllocError>
        ensures { IfOk result (ReadsOne step (state self.old) c (state self.new)) };

    /// Tests whether a value that is shown under a trait and a spec may stand here.
    fn is_place(&self, wanted: Trait, spec: &Spec) -> bool
        ensures { result ≡ places (state self.now) wanted spec.now };

    /// Tests whether another reader is in the same state.
    fn is_at(&self, other: &Self) -> bool
        ensures { IsTrue result ↔ state self.now ≡ state other.now };

    /// A reader in the same state.
    fn copied(&self) -> Result<Self, AllocError>
        ensures { IfOk result (λ copy. state copy ≡ state self.now) };
}
