//! The items of lists, as views and as what a context holds.

ghost use Rattle.std.specs.Prelude.{◌≡◌, IfErr, IfOk, map};
ghost use Rattle.interpolator.specs.{Slots.slots_of, Views.shown_as_value};
ghost use Rattle.interpolator.specs.declared.Error.TheVariants.{NoMemory};
ghost use Rattle.words.specs.{Items.items_of, Items.texts_of, Lists.item_slots, Lists.texts_show};

use crate::reading::items;
use interpolator::{Error, Formattable, View};
use std::alloc::Global;

/// Each text as a view.
fn views_of<'a>(alloc: Global, texts: &[&'a str]) -> Result<Vec<View<'a>>, Error>
    ensures ok { IfOk result (λ views.
        map shown_as_value views.items ≡ texts_show (texts_of texts.now)) }
    ensures err { IfErr result (λ error. error ≡ NoMemory) }
{
    let mut views = Vec::with_capacity(alloc, texts.len())?;
    for text in texts {
        views.push(View::Text(text))?;
    }
    Ok(views)
}

/// The [`items`] of a list as views.
///
/// # Errors
///
/// `NoMemory`.
pub fn item_views(alloc: Global, text: &str) -> Result<Vec<View<'_>>, Error>
    ensures ok { IfOk result (λ views.
        map shown_as_value views.items ≡ texts_show (items_of text.now)) }
    ensures err { IfErr result (λ error. error ≡ NoMemory) }
{
    let texts = items(alloc, text)?;
    views_of(alloc, texts.as_slice())
}

/// Each value as an item of a list, which fills the slots of debug and display.
///
/// # Errors
///
/// `NoMemory`.
pub fn as_items<'a, V>(alloc: Global, values: &'a [V]) -> Result<Vec<Formattable<'a, V>>, Error>
    ensures ok { IfOk result (λ items. map slots_of items.items ≡ item_slots values.now) }
    ensures err { IfErr result (λ error. error ≡ NoMemory) }
{
    let mut items = Vec::with_capacity(alloc, values.len())?;
    for value in values {
        items.push(Formattable::debug_display(value))?;
    }
    Ok(items)
}
