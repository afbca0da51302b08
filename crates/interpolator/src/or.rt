//! A context of two.
ghost use Rattle.std.specs.Option.{option_or};

use crate::interpolate::Interpolate;
use interpolator_eval::{Context, Formattable};

/// First the one context, then the other: a name stands for what it stands for in the first, or
/// else in the second. For defaults, and for a language that falls back on another.
///
/// ```text
/// let row = values!(name);
/// let site = values!(name = "guest", title = "Shop");
/// Or(&row, &site).format(alloc, "{title}: {name}")?    // with `Ann`: Shop: Ann
/// ```
#[derive(Clone, Copy)]
pub struct Or<'a, A, B>(pub &'a A, pub &'a B);

impl<'a, A: Context, B: Context<Object = A::Object>> Context for Or<'a, A, B> {
    type Object = A::Object;

    ghost finds = { λ or name. option_or (A.finds or.0.now name) (B.finds or.1.now name) };

    fn get(&self, key: &str) -> Option<Formattable<'_, A::Object>> {
        match self.0.get(key) {
            Some(found) => Some(found),
            None => self.1.get(key),
        }
    }
}

impl<'a, A: Context, B: Context<Object = A::Object>> Interpolate for Or<'a, A, B> {}
