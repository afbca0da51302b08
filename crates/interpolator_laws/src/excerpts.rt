//! Laws of what is shown of a line: which characters, and which of them are marked.
ghost use Rattle.std.specs.Prelude.{◌≡◌, ◌≤◌, ◌+◌, ◌-◌, ◌++◌, ◌∷◌, ℕ, List, drop, length};
ghost use Rattle.std.specs.Prelude.{map, take, encode_utf8_all};
ghost use Rattle.interpolator.specs.Excerpts.{Excerpt, before_marks, dots, excerpt_of, first_shown};
ghost use Rattle.interpolator.specs.Excerpts.{mark, marks_under, most_shown, shown_characters};
ghost use Rattle.interpolator.specs.Excerpts.{shown_line, side_mark, under};

/// An excerpt shows consecutive characters of its line.
pub fn an_excerpt_is_a_part_of_its_line()
    ensures { (line : List ℕ) (around from to : ℕ) → let e = excerpt_of line around from to in
        e.before ++ (e.marked_before ++ (e.marked ++ e.after))
        ≡ take most_shown (drop (first_shown (length line) around) line) }
{}

/// A line that is not cut is shown whole, and its characters from `from` up to `to` are marked.
pub fn a_short_line_is_shown_whole()
    ensures { (line : List ℕ) (around from to : ℕ) → length line ≤ most_shown → from ≤ around
        → around ≤ to → let e = excerpt_of line around from to in (e.before ≡ take from line)
        × ((e.marked_before ++ e.marked ≡ take (to - from) (drop from line))
        × (e.after ≡ drop to line)) }
{}

/// The mark `^` stands under the character around which a line is cut, in a line that is not cut at
/// its index: from the mark's place on, the line that is shown is the line from that character on.
/// Below it are `^` and a `~` under each further character that is marked.
pub fn the_mark_stands_under_its_character()
    ensures text { (e : Excerpt) → shown_line e ≡ encode_utf8_all (shown_characters e) }
    ensures above { (e : Excerpt) → drop (before_marks e) (shown_characters e)
        ≡ e.marked ++ (e.after ++ dots e.cut_after) }
    ensures marks { (e : Excerpt) → drop (before_marks e) (marks_under e)
        ≡ mark ∷ map (under side_mark) (drop 1 e.marked) }
    ensures there { (line : List ℕ) (around from to : ℕ) → around ≤ length line →
        let left = first_shown (length line) around in
        let e = excerpt_of line around from to in
        e.marked ++ e.after ≡ take (left + most_shown - around) (drop around line) }
    ensures index { (line : List ℕ) (around from to : ℕ) → length line ≤ most_shown
        → around ≤ length line → before_marks (excerpt_of line around from to) ≡ around }
{}
