//! Laws of the arguments of a format and of its groups, each the contract of a small function.

ghost use Rattle.std.specs.Prelude.{◌≡◌, [], ◌∷◌, map, codes};
ghost use Rattle.interpolator_syntax.specs.{Places.At, Places.outermost, Pieces.pieces};
ghost use Rattle.interpolator_eval.specs.Meaning.AskedNames.{asked_names, without_empty};
ghost use Rattle.interpolator_pieces.specs.AllArguments.{arguments_of, names_of, pieces_arguments};

/// The arguments of a text are those of its pieces, in order: for a closed or an unclosed argument
/// the argument itself, then those of its item format, and then those of its join; for any other
/// piece, and so for a broken argument, none. Those of a group are those of its text, so that this
/// holds at every depth.
///
/// So those of `{a:i({}{b})({c})}{d:x` are `a`, the item, `b`, `c` and `d`, whose names begin at
/// the bytes 1, 6, 8, 13 and 18; and `{a}{b` has `a` alone, since what comes after it is broken.
pub fn arguments_are_those_of_the_pieces()
    ensures pieces { (a : At) → arguments_of a ≡ pieces_arguments arguments_of (pieces a) }
    ensures value { names_of (arguments_of (outermost (codes "{a:i({}{b})({c})}{d:x")))
        ≡ codes "a" ∷ [] ∷ codes "b" ∷ codes "c" ∷ codes "d" ∷ [] }
    ensures places { map (λ x. x.name_place)
        (arguments_of (outermost (codes "{a:i({}{b})({c})}{d:x"))) ≡ 1 ∷ 6 ∷ 8 ∷ 13 ∷ 18 ∷ [] }
    ensures broken { names_of (arguments_of (outermost (codes "{a}{b"))) ≡ codes "a" ∷ [] }
{}

/// The names of the arguments of a text are the names that it uses, in order and with repeats,
/// except for empty ones: in an item format the empty name is the item, which an argument has as
/// its name, but which is not looked up in the context.
///
/// So the arguments of `{}{a:i({}{b})({c})}` have the names: empty, `a`, empty (the item), `b` and
/// `c`; and the names that it uses are: empty, `a`, `b` and `c`.
pub fn arguments_have_the_asked_names()
    ensures names { (a : At)
        → without_empty (names_of (arguments_of a)) ≡ without_empty (asked_names a) }
    ensures arguments { names_of (arguments_of (outermost (codes "{}{a:i({}{b})({c})}")))
        ≡ [] ∷ codes "a" ∷ [] ∷ codes "b" ∷ codes "c" ∷ [] }
    ensures asked { asked_names (outermost (codes "{}{a:i({}{b})({c})}"))
        ≡ [] ∷ codes "a" ∷ codes "b" ∷ codes "c" ∷ [] }
{}
