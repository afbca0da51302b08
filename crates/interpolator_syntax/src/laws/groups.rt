//! Laws of the groups in a format text, each the contract of a small function.

ghost use Rattle.std.specs.Prelude.{◌≡◌, ℕ, Ok, Err};
ghost use Rattle.interpolator_syntax.specs.Groups.{Group, group_at};
ghost use Rattle.interpolator_syntax.specs.GroupGrammar.{IsGroup, IsNoGroup};
ghost use Rattle.interpolator_syntax.specs.{Places.At, Faults.Fault};

/// A group is what opens it, its text and what closes it, one after the other: all the signs `#`
/// that are there and a `(`; the text; and a `)` with as many signs. No `)` of the text has that
/// many signs right after it, so a group ends at the first place where it can. Only such a text is
/// a group, and no other group begins at its place.
///
/// So the text of `(a)#)` is `a`, that of `#(a)#)#` is `a` and that of `##(a)#)##` is `a)#`.
pub fn group_is_its_parts()
    ensures is { (start : ℕ) (a q : At) (g : Group) → group_at start a ≡ Ok (g, q) → IsGroup a g q }
    ensures only { (start : ℕ) (a q : At) (g : Group) → IsGroup a g q
        → group_at start a ≡ Ok (g, q) }
    ensures one { (a q r : At) (g h : Group) → IsGroup a g q → IsGroup a h r → (g ≡ h) × (q ≡ r) }
{}

/// If no group begins here, the fault is of one of three kinds: the text ends with the signs, and
/// the place is the byte after the opening brace; or a character other than `(` follows the signs,
/// and the place is that character's; or no `)` has as many signs after it, and the place is the
/// byte after the opening brace.
///
/// So in `{l:i##a` a `(` is expected at byte 6, and in `{l:i#(a)` the argument that begins at byte
/// 1 is not closed.
pub fn no_group_otherwise()
    ensures is { (start : ℕ) (a : At) (f : Fault) → group_at start a ≡ Err f → IsNoGroup start a f }
    ensures only { (start : ℕ) (a : At) (f : Fault) → IsNoGroup start a f
        → group_at start a ≡ Err f }
{}
