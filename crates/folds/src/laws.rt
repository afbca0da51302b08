//! Laws of what is written for a text.

ghost use Rattle.std.specs.Prelude.{◌≡◌, ℕ, List, Ok, true};
ghost use Rattle.std.specs.{List.list_all, Str.IsUtf8, Str.chars};
ghost use Rattle.folds.specs.Spellings.{stands_alone, text_in};

/// A text without backslashes and line ends is written as it is.
pub fn a_plain_text_is_written_as_it_is()
    ensures { (text : List ℕ) → IsUtf8 text → list_all stands_alone (chars text) ≡ true
        → text_in text ≡ Ok text }
{}
