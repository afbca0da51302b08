//! Laws of how many characters the text of a view has at most, each the contract of a small
//! function.

ghost use Rattle.std.specs.Prelude.{ℕ, ◌≤◌};
ghost use Rattle.interpolator_render.specs.Lengths.{IsShownWithin, HasAtMost, most_written};
ghost use Rattle.interpolator_render.specs.{Texts.view_text, Views.Shown, declared.view.Spec.Spec};
ghost use Rattle.interpolator_render.specs.declared.view.Trait.{Trait};

/// The text of a view has at most as many characters as its width says, or as a number or a text
/// under the trait can have, if that is more.
pub fn a_view_is_no_longer_than_its_trait_allows()
    ensures written { (t : Trait) (spec : Spec) (most : ℕ) (shown : Shown)
        → IsShownWithin most shown → HasAtMost (most_written t spec most) (view_text shown t spec) }
    ensures grows { (t : Trait) (spec : Spec) (few many : ℕ) → few ≤ many
        → most_written t spec few ≤ most_written t spec many }
{}
