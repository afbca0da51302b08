//! The objects that words give.

ghost use Rattle.std.specs.Prelude.{◌≡◌, IfOk, IfErr, MatchOption, MatchResult, []};
ghost use Rattle.std.specs.Prelude.{string_bytes};
ghost use Rattle.std.specs.List.{AllZip};
ghost use Rattle.interpolator.specs.Faults.{answer_of, no_memory};
ghost use Rattle.interpolator.specs.Views.{nothing_implemented, shown_as_value};
ghost use Rattle.words.specs.{Items.items_of, Lists.texts_show, Words.IsGood};
ghost use Rattle.words.specs.declared.Kind.TheVariants as kinds;
ghost use Rattle.catalogue.specs.Objects.{Gives, IsFirstBad, shown_of};

use crate::entries::Object;
use interpolator::{Bits, Error, View};
use std::alloc::Global;
use words::{Kind, Word, classify, item_views};

/// The object of a value without items.
fn single<'a>(alloc: Global, name: &'a str, kind: Kind, value: View<'a>) -> Object<'a>
    ensures { shown_of result ≡ ((name.now, kind), (shown_as_value value.entry, [])) }
{
    Object {
        name,
        kind,
        value,
        items: Vec::new(alloc),
    }
}

/// The object of a list.
fn listed<'a>(alloc: Global, name: &'a str, text: &'a str) -> Result<Object<'a>, Error>
    ensures listed { IfOk result (λ object. shown_of object
        ≡ ((name.now, kinds.List), (nothing_implemented, texts_show (items_of text.now)))) }
    ensures refused { IfErr result (λ error. answer_of error ≡ no_memory) }
{
    Ok(Object {
        name,
        kind: Kind::List,
        value: View::NotImplemented,
        items: item_views(alloc, text)?,
    })
}

/// What a word gives, if it does.
fn object_of<'a>(alloc: Global, word: &'a str) -> Result<Option<Object<'a>>, Error>
    ensures given { IfOk result (λ found. MatchOption found (¬ IsGood word.now)
        (λ object. Gives word.now object)) }
    ensures refused { IfErr result (λ error. answer_of error ≡ no_memory) }
{
    match classify(word) {
        Word::Bad => Ok(None),
        Word::Text { name, text } => { Ok(Some(single(alloc, name, Kind::Text, View::Text(text)))) }
        Word::Number { name, value } => {
            let view = View::Signed(value, Bits::B128);
            Ok(Some(single(alloc, name, Kind::Number, view)))
        }
        Word::Decimal { name, value } => {
            let view = View::Decimal {
                units: value.units,
                scale: value.scale,
            };
            Ok(Some(single(alloc, name, Kind::Decimal, view)))
        }
        Word::Float { name, value } => {
            Ok(Some(single(alloc, name, Kind::Float, View::Float(value))))
        }
        Word::List { name, items } => Ok(Some(listed(alloc, name, items)?)),
    }
}

/// The value that each word gives, or the first word that gives none.
pub fn objects_of(alloc: Global, words: &[String]) -> Result<Result<Vec<Object<'_>>, &str>, Error>
    ensures given { IfOk result (λ found. MatchResult found
        (λ objects. AllZip (λ word object. Gives (string_bytes word) object)
        words.now objects.items)
        (λ bad. IsFirstBad words.now bad.now)) }
    ensures refused { IfErr result (λ error. answer_of error ≡ no_memory) }
{
    let mut objects = Vec::with_capacity(alloc, words.len())?;
    for word in words {
        match object_of(alloc, word.as_str())? {
            Some(object) => objects.push(object)?,
            None => return Ok(Err(word.as_str())),
        }
    }
    Ok(Ok(objects))
}
