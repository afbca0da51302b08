//! Laws of the walk over the pieces of a format, each the contract of a small function.

ghost use Rattle.std.specs.Prelude.{◌≡◌, flat_map};
ghost use Rattle.interpolator_syntax.specs.{Places.At, Nodes.as_forest, Nodes.nodes};
ghost use Rattle.interpolator_eval.specs.Meaning.AskedNames.{asked_names};
ghost use Rattle.interpolator_pieces.specs.NodeChecks.{text_faults, visit_faults};
ghost use Rattle.interpolator_pieces.specs.NodeExtents.{forest_depth, forest_extent, visit_depth};
ghost use Rattle.interpolator_pieces.specs.NodeExtents.{visit_extent};
ghost use Rattle.interpolator_pieces.specs.NodeNames.{visit_asks};
ghost use Rattle.interpolator_pieces.specs.Visits.{greatest, text_visits};

/// One walk over the pieces of a format gathers the names that it uses, its faults, its greatest width
/// or precision, and its depth: the walk enters each piece, then walks the pieces of its item format
/// and of its join, and then leaves it.
pub fn one_walk_gathers_all()
    ensures names { (a : At) → flat_map visit_asks (text_visits a) ≡ asked_names a }
    ensures faults { (a : At) → flat_map visit_faults (text_visits a) ≡ text_faults a }
    ensures extent { (a : At)
        → greatest visit_extent (text_visits a) ≡ forest_extent (as_forest (nodes a)) }
    ensures depth { (a : At)
        → greatest visit_depth (text_visits a) ≡ forest_depth (as_forest (nodes a)) }
{}
