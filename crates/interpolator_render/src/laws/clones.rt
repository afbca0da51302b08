//! A clone is its original, and there always is one.
ghost use Rattle.std.specs.Prelude.{◌≡◌, Ok};

use crate::text_write::Refusal;
use crate::view::{Alignment, Bits, HexDebug, RenderFault, Sign, Spec, Trait, View};
use std::alloc::AllocError;

/// The clone of a trait is the same variant.
pub fn clone_of_trait(original: &Trait) -> Result<Trait, AllocError>
    ensures { result ≡ Ok original.now }
{
    original.clone()
}

/// The clone of an alignment is the same variant.
pub fn clone_of_alignment(original: &Alignment) -> Result<Alignment, AllocError>
    ensures { result ≡ Ok original.now }
{
    original.clone()
}

/// The clone of a sign is the same variant.
pub fn clone_of_sign(original: &Sign) -> Result<Sign, AllocError>
    ensures { result ≡ Ok original.now }
{
    original.clone()
}

/// The clone of a way to write debug numbers is the same variant.
pub fn clone_of_hex_debug(original: &HexDebug) -> Result<HexDebug, AllocError>
    ensures { result ≡ Ok original.now }
{
    original.clone()
}

/// The clone of a width is the same variant.
pub fn clone_of_bits(original: &Bits) -> Result<Bits, AllocError>
    ensures { result ≡ Ok original.now }
{
    original.clone()
}

/// The clone of a spec has the same fields.
pub fn clone_of_spec(original: &Spec) -> Result<Spec, AllocError>
    ensures { result ≡ Ok original.now }
{
    original.clone()
}

/// The clone of a view is the same variant, of the same number, character or text.
pub fn clone_of_view<'a>(original: &View<'a>) -> Result<View<'a>, AllocError>
    ensures { result ≡ Ok original.now }
{
    original.clone()
}

/// The clone of a fault of a view is the same variant.
pub fn clone_of_render_fault(original: &RenderFault) -> Result<RenderFault, AllocError>
    ensures { result ≡ Ok original.now }
{
    original.clone()
}

/// The clone of a refusal has taken as many bytes.
pub fn clone_of_refusal(original: &Refusal) -> Result<Refusal, AllocError>
    ensures { result ≡ Ok original.now }
{
    original.clone()
}
