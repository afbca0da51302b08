//! Laws of the argument that has a place of a format, each the contract of a small function.

ghost use Rattle.std.specs.Prelude.{◌≡◌, ℕ, None, Some, false, codes};
ghost use Rattle.interpolator_syntax.specs.Places.{At, outermost};
ghost use Rattle.interpolator_syntax.specs.Nodes.{Node, as_forest, nodes};
ghost use Rattle.interpolator_pieces.specs.NodePlaces.{argument_among, node_has};
ghost use Rattle.interpolator_pieces.specs.NodePlaces.{InForest, IsInnermost};

/// What `Template::argument_at` returns of a place are the first byte and the end of an argument
/// that has the place, and no argument in its groups, at any depth, has it: so it is the innermost.
/// It returns `None` only if no argument of the format has the place, at any depth.
///
/// So in `{a:i({b})}` the place 6 is that of `b`, whose bytes are 5 to 8, and the place 8 is that
/// of `a` alone; in `a{b}` no argument has the place 0.
pub fn argument_at_is_innermost()
    ensures found { (a : At) (place : ℕ) (bytes : ℕ × ℕ) → let tree = as_forest (nodes a) in
        argument_among place tree ≡ Some bytes → IsInnermost place tree bytes }
    ensures none { (a : At) (place : ℕ) → let tree = as_forest (nodes a) in
        argument_among place tree ≡ None → (x : Node) → InForest x tree
        → node_has place x ≡ false }
    ensures inner { argument_among 6 (as_forest (nodes (outermost (codes "{a:i({b})}"))))
        ≡ Some (5, 8) }
    ensures outer { argument_among 8 (as_forest (nodes (outermost (codes "{a:i({b})}"))))
        ≡ Some (0, 10) }
    ensures outside { argument_among 0 (as_forest (nodes (outermost (codes "a{b}")))) ≡ None }
{}
