//! The values that the words of a command line put under their names.

ghost use Rattle.std.specs.Prelude.{◌≡◌, IfErr, IfOk, OnOk, List, map, string_bytes};
ghost use Rattle.std.specs.List.{AllZip};
ghost use Rattle.interpolator.specs.{Views.shown_as_value, Slots.slots_of, NameMaps.stored_slots};
ghost use Rattle.interpolator.specs.declared.Error.TheVariants.{NoMemory};
ghost use Rattle.ifmt.specs.Binding.{Fills, HasObject, Lends, items_show, object_shows};

use interpolator::{Bits, ContextMap, Error, Formattable, View};
use std::alloc::Global;
use words::{Word, as_items, classify, item_views};

/// A word, and the views of its value.
#[derive(Drop)]
pub struct Object<'a> {
    /// The word, classified.
    pub word: Word<'a>,
    /// The view of a text, a whole number, a decimal or a float.
    pub value: View<'a>,
    /// The views of the items of a list.
    pub items: Vec<View<'a>>,
}

/// A word with its value borrowed, and the items of a list with their slots filled.
#[derive(Drop)]
pub struct Entry<'a> {
    /// The word, classified.
    pub word: Word<'a>,
    /// The view of a text, a whole number, a decimal or a float.
    pub value: &'a View<'a>,
    /// The items of a list.
    pub items: Vec<Formattable<'a, View<'a>>>,
}

/// Each word, classified, with the views of its value.
///
/// # Errors
///
/// `NoMemory`.
pub fn objects_of(alloc: Global, words: &[String]) -> Result<Vec<Object<'_>>, Error>
    ensures ok { IfOk result (λ objects.
        AllZip (λ word object. HasObject (string_bytes word) object) words.now objects.items) }
    ensures err { IfErr result (λ error. error ≡ NoMemory) }
{
    let mut objects = Vec::with_capacity(alloc, words.len())?;
    for text in words {
        objects.push(object_of(alloc, classify(text.as_str()))?)?;
    }
    Ok(objects)
}

// A word with the views of its value.
fn object_of<'a>(alloc: Global, word: Word<'a>) -> Result<Object<'a>, Error>
    ensures word { IfOk result (λ object. object.word ≡ word.entry) }
    ensures value { IfOk result (λ object. shown_as_value object.value ≡ object_shows word.entry) }
    ensures items { IfOk result (λ object.
        map shown_as_value object.items.items ≡ items_show word.entry) }
    ensures err { IfErr result (λ error. error ≡ NoMemory) }
{
    let items = item_objects(alloc, word)?;
    Ok(Object {
        word,
        value: value_of(word),
        items,
    })
}

// The view of a word's text, whole number, decimal or float; another word has one that shows
// nothing.
fn value_of<'a>(word: Word<'a>) -> View<'a>
    ensures { shown_as_value result ≡ object_shows word.entry }
{
    match word {
        Word::Text { name: _, text } => View::Text(text),
        Word::Number { name: _, value } => View::Signed(value, Bits::B128),
        Word::Decimal { name: _, value } => View::Decimal {
            units: value.units,
            scale: value.scale,
        },
        Word::Float { name: _, value } => View::Float(value),
        Word::List { name: _, items: _ } => View::NotImplemented,
        Word::Bad => View::NotImplemented,
    }
}

// The views of the items of a list; another word has none.
fn item_objects<'a>(alloc: Global, word: Word<'a>) -> Result<Vec<View<'a>>, Error>
    ensures ok { IfOk result (λ objects.
        map shown_as_value objects.items ≡ items_show word.entry) }
    ensures err { IfErr result (λ error. error ≡ NoMemory) }
{
    match word {
        Word::List { name: _, items } => item_views(alloc, items),
        Word::Text { name: _, text: _ } => Ok(Vec::new(alloc)),
        Word::Number { name: _, value: _ } => Ok(Vec::new(alloc)),
        Word::Decimal { name: _, value: _ } => Ok(Vec::new(alloc)),
        Word::Float { name: _, value: _ } => Ok(Vec::new(alloc)),
        Word::Bad => Ok(Vec::new(alloc)),
    }
}

/// Each word with its value borrowed, and its items.
///
/// # Errors
///
/// `NoMemory`.
pub fn entries_of<'e, 'a>(alloc: Global, objects: &'e [Object<'a>]) -> Result<Vec<Entry<'e>>, Error>
    ensures ok { IfOk result (λ entries. AllZip Lends objects.now entries.items) }
    ensures err { IfErr result (λ error. error ≡ NoMemory) }
{
    let mut entries = Vec::with_capacity(alloc, objects.len())?;
    for object in objects {
        entries.push(Entry {
            word: object.word,
            value: &object.value,
            items: as_items(alloc, object.items.as_slice())?,
        })?;
    }
    Ok(entries)
}

/// Fills slots under a word's name: a text those of debug and display, a whole number all those of
/// an integer, a decimal or a float those of a float, a list that of its items. The other slots
/// stay as they were.
///
/// # Errors
///
/// `NoMemory`.
pub fn fill<'a, V>(
    context: &mut ContextMap<'a, V>,
    word: Word<'_>,
    value: &'a V,
    items: &'a [Formattable<'a, V>],
) -> Result<(), Error>
    ensures ok { OnOk result (Fills
        (stored_slots context.old) word.entry value.now (map slots_of items.now) (stored_slots context.new)) }
    ensures err { IfErr result (λ error. error ≡ NoMemory) }
{
    match word {
        Word::Text { name, text: _ } => context.entry(name)?.set_debug_display(value),
        Word::Number { name, value: _ } => context.entry(name)?.set_integer(value),
        Word::Decimal { name, value: _ } => context.entry(name)?.set_float(value),
        Word::Float { name, value: _ } => context.entry(name)?.set_float(value),
        Word::List { name, items: _ } => context.entry(name)?.set_iter(items),
        Word::Bad => {}
    }
    Ok(())
}
