//! How the structs lie in memory.
ghost use Rattle.std.specs.Prelude.{◌≡◌};
ghost use Rattle.interpolator_border.specs.Layouts.{layout_of_c};

use crate::answer::Answer;
use crate::argument::Argument;
use crate::costs::CostAnswer;
use crate::explaining::Source;
use crate::fault::Fault;
use crate::field::{Field, Lent};
use crate::request::Request;

/// The version of the structs and calls.
pub const VERSION: u32 = 1;

/// The size of a slice, as C passes it: a pointer and a length.
const BYTES: usize = size_of::<&'static [u8]>();

/// The size of what stands in a field before the items of a list: three slices, its kind and slots,
/// and three numbers.
const BEFORE_LISTS: usize = 3 * BYTES + 2 * size_of::<u32>() + 3 * size_of::<u64>();

/// The sizes of the structs, and the offsets of some of their members, in bytes.
#[repr(C)]
#[derive(Clone, Copy)]
pub struct Sizes {
    /// The size of a [`Request`].
    pub request: usize,
    /// The size of a [`Lent`].
    pub lent: usize,
    /// The size of a [`Field`].
    pub field: usize,
    /// The size of an [`Answer`].
    pub answer: usize,
    /// The size of an [`Argument`].
    pub argument: usize,
    /// The size of a [`CostAnswer`].
    pub cost_answer: usize,
    /// The size of a [`Fault`].
    pub fault: usize,
    /// The size of a [`Source`].
    pub source: usize,
    /// The offset of a request's width.
    pub request_width: usize,
    /// The offset of a lent text.
    pub lent_text: usize,
    /// The offset of a field's kind.
    pub field_kind: usize,
    /// The offset of a field's signed number.
    pub field_number: usize,
    /// The offset of a list's first item.
    pub field_first: usize,
    /// The offset of a float of 64 bits.
    pub field_real: usize,
    /// The offset of a float of 32 bits.
    pub field_single: usize,
    /// The offset of an answer's place.
    pub answer_place: usize,
    /// The offset of an argument's request.
    pub argument_request: usize,
    /// The offset of where the format of an item begins.
    pub argument_item: usize,
}

/// How the structs lie in memory: their members in order, as in C.
pub fn layout() -> Sizes
    ensures { result ≡ layout_of_c }
{
    Sizes {
        request: size_of::<Request>(),
        lent: size_of::<Lent<'static>>(),
        field: size_of::<Field<'static>>(),
        answer: size_of::<Answer>(),
        argument: size_of::<Argument>(),
        cost_answer: size_of::<CostAnswer>(),
        fault: size_of::<Fault>(),
        source: size_of::<Source<'static>>(),
        request_width: 8 * size_of::<u32>(),
        lent_text: size_of::<Request>(),
        field_kind: 3 * BYTES,
        field_number: 3 * BYTES + 2 * size_of::<u32>(),
        field_first: BEFORE_LISTS,
        field_real: BEFORE_LISTS + 2 * size_of::<usize>(),
        field_single: BEFORE_LISTS + 2 * size_of::<usize>() + size_of::<f64>(),
        answer_place: 2 * size_of::<u32>(),
        argument_request: 2 * size_of::<usize>(),
        argument_item: 2 * size_of::<usize>() + size_of::<Request>(),
    }
}
