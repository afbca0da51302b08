//! Laws of the items that a range chooses, each the contract of a small function.

ghost use Rattle.std.specs.Prelude.{◌≡◌, ◌↔◌, ℕ, ◌+◌, ◌<◌, ◌≤◌, min, List, length, ◌++◌};
ghost use Rattle.std.specs.Prelude.{Option, None, Some};
ghost use Rattle.interpolator_eval.specs.Meaning.Choices.{lower_in, upper_in};
ghost use Rattle.interpolator_eval.specs.Meaning.Choices.{chosen_places, chosen_items};
ghost use Rattle.interpolator_syntax.specs.declared.range.Range.{Range};

/// An index of a list is chosen exactly if it is at least the lower bound and below the upper one,
/// as both apply to this list: a bound below zero counts from the list's end, and lies at its
/// beginning if the list is too short; an absent lower bound is 0, and an absent upper bound is the
/// list's length; and `..=` adds one to the upper bound. If no index is chosen, both places are the
/// upper bound, or the list's length if that is less.
///
/// So `1..-1` chooses the indices 1 and 2 of a list of four items, and `3..1` chooses none: both
/// places are 1.
pub fn chosen_are_between_the_bounds()
    ensures chosen { (n k : ℕ) (range : Range) → k < n
        → ((chosen_places n (Some range)).0 ≤ k) × (k < (chosen_places n (Some range)).1)
        ↔ (lower_in n range ≤ k) × (k < upper_in n range) }
    ensures none { (n : ℕ) (range : Range)
        → ((k : ℕ) → k < n → lower_in n range ≤ k → k < upper_in n range → ⊥)
        → chosen_places n (Some range) ≡ (min (upper_in n range) n, min (upper_in n range) n) }
    ensures inside { (n : ℕ) (range : Option Range)
        → ((chosen_places n range).0 ≤ (chosen_places n range).1)
        × ((chosen_places n range).1 ≤ n) }
    ensures all { (n : ℕ) → chosen_places n None ≡ (0, n) }
{}

/// The chosen items are those at the chosen indices, in the order of the list: the first place is
/// how many items come before them, and they extend up to the second.
pub fn chosen_items_are_those_of_the_list<T>()
    ensures { (range : Option Range) (xs : List T)
        → (front back : List T)
        × (xs ≡ front ++ (chosen_items range xs ++ back))
        × (length front ≡ (chosen_places (length xs) range).0)
        × (length front + length (chosen_items range xs) ≡ (chosen_places (length xs) range).1) }
{}
