//! Where the faults of a format are reported.
ghost use Rattle.std.specs.Prelude.{◌≡◌, [], ◌∷◌, true, false, Some, Option, option_map};
ghost use Rattle.interpolator_syntax.specs.Faults.{result_answer, answer_of, fault, no_memory, Fault};
ghost use Rattle.interpolator_pieces.specs.NodeChecks.{fault_list};
ghost use Rattle.interpolator_pieces.specs.NodeSamples.{fault_if};
ghost use Rattle.interpolator_pieces.specs.Collecting.{Collects, kept_by, is_no_memory};

use interpolator_syntax::Error;
use std::alloc::Global;

/// Where faults are reported: the first is returned at once, or all are kept.
#[derive(Drop)]
pub struct FaultCollector {
    only_first: bool,
    kept: Vec<Error>,
}

/// Tests whether the error is that memory was refused.
fn is_no_memory(error: &Error) -> bool
    ensures { result ≡ is_no_memory (answer_of error.now) }
{
    matches!(error, Error::NoMemory)
}

impl FaultCollector {
    /// One that returns the first fault at once. It takes no memory.
    pub fn first(alloc: Global) -> Self
        ensures { result.only_first ≡ true }
    {
        FaultCollector {
            only_first: true,
            kept: Vec::new(alloc),
        }
    }

    /// One that keeps all faults.
    pub fn all(alloc: Global) -> Self
        ensures all { result.only_first ≡ false }
        ensures none { kept_by result ≡ [] }
    {
        FaultCollector {
            only_first: false,
            kept: Vec::new(alloc),
        }
    }

    /// Reports a fault. `NoMemory` is always returned.
    pub fn collect(&mut self, error: Error) -> Result<(), Error>
        ensures collects { (f : Fault) → answer_of error ≡ fault f
            → Collects (f ∷ []) self.old self.new (result_answer result) }
        ensures refused { answer_of error ≡ no_memory → result_answer result ≡ Some no_memory }
    {
        if self.only_first {
            return Err(error);
        }
        if is_no_memory(&error) {
            return Err(error);
        }
        self.kept.push(error)?;
        Ok(())
    }

    /// Reports a fault, if the test holds.
    pub fn collect_if(&mut self, holds: bool, error: Error) -> Result<(), Error>
        ensures { (f : Fault) → answer_of error ≡ fault f
            → Collects (fault_if holds f) self.old self.new (result_answer result) }
    {
        if holds {
            return self.collect(error);
        }
        Ok(())
    }

    /// Reports what a check has returned, if it is a fault.
    pub fn collect_checked(&mut self, checked: Result<(), Error>) -> Result<(), Error>
        ensures { (o : Option Fault) → result_answer checked ≡ option_map fault o
            → Collects (fault_list o) self.old self.new (result_answer result) }
    {
        match checked {
            Ok(()) => Ok(()),
            Err(error) => self.collect(error),
        }
    }

    /// The faults that were kept.
    pub fn into_kept(self) -> Vec<Error>
        ensures { result ≡ self.kept }
    {
        self.kept
    }
}
