//! Laws of how deep a format is, each the contract of a small function.

ghost use Rattle.std.specs.Prelude.{◌≡◌, ◌+◌, ◌*◌, ◌≤◌, codes, length};
ghost use Rattle.interpolator_syntax.specs.{Places.At, Places.outermost, Nodes.as_forest};
ghost use Rattle.interpolator_syntax.specs.{Nodes.nodes};
ghost use Rattle.interpolator_pieces.specs.NodeExtents.{forest_depth};

/// A format with deeply nested groups is long: if it is `d` deep, it has at least `d * (d + 4)`
/// characters. A group inside another has fewer signs `#` on each side than the outer one, so each
/// further group takes two more signs than the last, and its brackets and the `{:i` before it.
///
/// So no format of 1,000 characters is deeper than 29, and none of 11 is deeper than 1;
/// `{:i#({:i())#` has 12, and is 2 deep.
pub fn a_deep_format_is_long()
    ensures long { (a : At) → let depth = forest_depth (as_forest (nodes a)) in
        depth * (depth + 4) ≤ length a.text }
    ensures depth { forest_depth (as_forest (nodes (outermost (codes "{:i#({:i())#")))) ≡ 2 }
    ensures characters { length (codes "{:i#({:i())#") ≡ 12 }
{}
