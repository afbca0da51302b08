//! How much a format can write.
ghost use Rattle.std.specs.Prelude.{◌≡◌};
ghost use Rattle.interpolator_border.specs.Costs.{CostAnswers, no_cost};

use crate::answer::NOT_UTF8;
use crate::bytes::text_of;
use crate::fault::NO_MEMORY;
use interpolator::{Limits, Template};
use std::alloc::Global;

/// What a format can cost at most.
#[repr(C)]
#[derive(Clone, Copy)]
pub struct CostAnswer {
    /// 0, or what is wrong: no memory (6), or a format that is not UTF-8 (7).
    pub code: u32,
    /// 0.
    pub detail: u32,
    /// The most characters that are written.
    pub characters: usize,
    /// The most pieces that are gone through.
    pub pieces: usize,
    /// The most characters that lists under a width hold in memory at one time.
    pub buffered: usize,
}

/// No cost, and a code.
fn uncounted(code: u32) -> CostAnswer
    ensures { result ≡ no_cost code }
{
    CostAnswer {
        code,
        detail: 0,
        characters: 0,
        pieces: 0,
        buffered: 0,
    }
}

/// What a format can cost at most, over values whose texts have at most `text` characters and whose
/// lists have at most `items` items. Of each count the greatest `usize` means as many or more.
pub fn cost(alloc: Global, format: &[u8], text: usize, items: usize) -> CostAnswer
    ensures { CostAnswers text items format.now result }
{
    let Some(format) = text_of(format) else {
        return uncounted(NOT_UTF8);
    };
    match Template::parse(alloc, format) {
        Ok(template) => {
            let cost = template.cost(&Limits { text, items });
            CostAnswer {
                code: 0,
                detail: 0,
                characters: cost.characters,
                pieces: cost.pieces,
                buffered: cost.buffered,
            }
        }
        Err(_) => uncounted(NO_MEMORY),
    }
}
