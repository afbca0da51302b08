//! Laws of the arguments in a format text, each the contract of a small function.

ghost use Rattle.std.specs.Prelude.{◌≡◌, ◌⊎◌, ℕ, ◌+◌, ◌≤◌, List, length, Ok, Err};
ghost use Rattle.std.specs.Str.{IsUtf8, IsCharBoundary};
ghost use Rattle.interpolator_syntax.specs.Places.{At, size};
ghost use Rattle.interpolator_syntax.specs.ArgumentFaults.{IsArgumentFault};
ghost use Rattle.interpolator_syntax.specs.ArgumentGrammar.{IsArgument, IsNoArgument};
ghost use Rattle.interpolator_syntax.specs.Arguments.{Argument, argument_at, from_byte};
ghost use Rattle.interpolator_syntax.specs.Faults.{Fault, fault_place};

/// An argument is its parts, one after the other, and only such a text is an argument: all the
/// white space that is there, then the name, up to the first `:` or `}`, and then either a `}`,
/// which stands for plain display and is not read, or a `:` and a spec after it. The name is a
/// slice of the text, at its place in bytes.
///
/// So in `{ name:5}` one character of white space follows the brace, the name, `name`, begins
/// at byte 2, and the spec, `5`, ends in front of the brace. In `{}` the name is empty.
pub fn argument_lies_in_the_text()
    ensures is { (a q : At) (x : Argument) → argument_at a ≡ Ok (x, q) → IsArgument a x q }
    ensures only { (a q : At) (x : Argument) → IsArgument a x q → argument_at a ≡ Ok (x, q) }
{}

/// If no argument begins here, the name is still read as far as it goes. Either the text ends with
/// it, and the place of the fault is the byte after the opening brace; or a `:` follows the name,
/// and the fault is that of the spec after the colon.
///
/// So in `{name` the argument that begins at byte 1 is not closed, and in `{name:5y}` a `}` is
/// expected at byte 7.
pub fn argument_is_broken_otherwise()
    ensures is { (a : At) (f : Fault) → argument_at a ≡ Err f → IsNoArgument a f }
    ensures only { (a : At) (f : Fault) → IsNoArgument a f → argument_at a ≡ Err f }
{}

/// After an opening brace there is either exactly one argument, which ends at one place, or exactly
/// one fault, and never both.
///
/// So for `{x:5y}`, whose fault is the `y`, nothing else is reported.
pub fn one_outcome_of_an_argument()
    ensures some { (a : At) → ((x : Argument) × (q : At) × IsArgument a x q)
        ⊎ ((f : Fault) × IsNoArgument a f) }
    ensures either { (a q : At) (x : Argument) (f : Fault) → IsArgument a x q → IsNoArgument a f
        → ⊥ }
    ensures one { (a q r : At) (x y : Argument) → IsArgument a x q → IsArgument a y r
        → (x ≡ y) × (q ≡ r) }
    ensures one_fault { (a : At) (f g : Fault) → IsNoArgument a f → IsNoArgument a g → f ≡ g }
{}

/// The fault of an argument is either that its text is broken, or that it uses an option that is
/// not supported. Its place lies in the text, from the byte after the opening brace up to the end.
/// No value is missing, none fails, and memory is not needed.
///
/// So `parse_argument` returns no other faults than `Parse` and `UnsupportedOption`, each at a byte
/// from `start` up to the length of the text.
pub fn faults_of_arguments_lie_in_them()
    ensures kinds { (a : At) (f : Fault) → argument_at a ≡ Err f → IsArgumentFault f }
    ensures places { (a : At) (f : Fault) → argument_at a ≡ Err f
        → (a.place ≤ fault_place f) × (fault_place f ≤ a.place + size a.text) }
    ensures bytes { (text : List ℕ) (start : ℕ) (f : Fault) → IsUtf8 text
        → IsCharBoundary text start → argument_at (from_byte text start) ≡ Err f
        → (start ≤ fault_place f) × (fault_place f ≤ length text) }
{}
