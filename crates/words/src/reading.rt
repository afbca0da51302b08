//! How a word is read.

ghost use Rattle.std.specs.Prelude.{◌≡◌, ◌↔◌, ℤ, IfOk, Some};
ghost use Rattle.std.specs.{Float.Ieee.Float, List.join_with_byte};
ghost use Rattle.interpolator.specs.{DecimalTexts.Spells as IsDecimal, declared.Decimal.Decimal};
ghost use Rattle.words.specs.Items.{comma, items_of, texts_of};
ghost use Rattle.words.specs.Words.{Assignment, Classifies, IsFloat, PartsMean, Spells};
ghost use Rattle.words.specs.Words.{assignment_of};

use crate::kinds::{Declaration, Kind, declaration_of};
use interpolator::Decimal;
use std::alloc::{AllocError, Global};

const EQUALS: char = '=';

const PLUS: char = '+';

const COMMA: char = ',';

/// The value that a word of the command line gives.
#[derive(Clone, Copy)]
pub enum Word<'a> {
    /// `NAME=TEXT`: a text under a name.
    Text { name: &'a str, text: &'a str },
    /// `NAME:=NUMBER`: a whole number under a name.
    Number { name: &'a str, value: i128 },
    /// `NAME:.=DECIMAL`: a decimal under a name.
    Decimal { name: &'a str, value: Decimal },
    /// `NAME:~=FLOAT`: a float under a name.
    Float { name: &'a str, value: f64 },
    /// `NAME[]=ITEM,ITEM..`: a list of texts under a name.
    List { name: &'a str, items: &'a str },
    /// None of these.
    Bad,
}

/// Classifies a word.
///
/// It is split at its first `=`. The part before is a name with a kind ([`declaration_of`]). The
/// part after is a whole number, an optional `-` and one or more ASCII digits within `i128`; a
/// decimal, as [`Decimal::parse`] reads it; a float, as std parses an `f64`; the [`items`] of a
/// list; or a text. A word without an `=`, or with no such number, is `Bad`.
///
/// `a=b=c` is the text `b=c` under `a`, `n:=-12` the number -12 under `n`, `p:.=12.50` the decimal
/// 12.50 under `p`, `x:~=1.5e3` the float 1500 under `x`, and `l[]=a,b` the list of `a` and `b` under `l`.
pub fn classify(word: &str) -> Word<'_>
    ensures { Classifies word.now result }
{
    match word.split_once(EQUALS) {
        None => Word::Bad,
        Some((left, right)) => classify_parts(left, right),
    }
}

// The word whose first `=` is between these parts, classified.
fn classify_parts<'a>(left: &'a str, right: &'a str) -> Word<'a>
    ensures { (assignment : Assignment) → PartsMean left.now right.now assignment
        ↔ (assignment_of result ≡ Some assignment) }
{
    let Declaration { name, kind } = declaration_of(left);
    match kind {
        Kind::Text => Word::Text { name, text: right },
        Kind::Number => match number_of(right) {
            None => Word::Bad,
            Some(value) => Word::Number { name, value },
        },
        Kind::Decimal => match decimal_of(right) {
            None => Word::Bad,
            Some(value) => Word::Decimal { name, value },
        },
        Kind::Float => match float_of(right) {
            None => Word::Bad,
            Some(value) => Word::Float { name, value },
        },
        Kind::List => Word::List { name, items: right },
    }
}

// The number that a text spells, if any: one that std parses, without a leading `+`.
fn number_of(text: &str) -> Option<i128>
    ensures { (value : ℤ) → Spells text.now value ↔ (result ≡ Some value) }
{
    if text.starts_with(PLUS) {
        return None;
    }
    text.parse::<i128>().ok()
}

// The decimal that a text spells, if any.
fn decimal_of(text: &str) -> Option<Decimal>
    ensures { (value : Decimal) → IsDecimal text.now value ↔ (result ≡ Some value) }
{
    Decimal::parse(text).ok()
}

// The float that a text spells, if any.
fn float_of(text: &str) -> Option<f64>
    ensures { (value : Float) → IsFloat text.now value ↔ (result ≡ Some value) }
{
    text.parse::<f64>().ok()
}

/// The items of a list: the parts of its text between commas. The empty text has none.
///
/// `a,,b` has three: `a`, the empty text and `b`.
///
/// # Errors
///
/// Memory ran out.
pub fn items(alloc: Global, text: &str) -> Result<Vec<&str>, AllocError>
    ensures ok { IfOk result (λ items. texts_of items.items ≡ items_of text.now) }
    ensures joined { IfOk result (λ items.
        join_with_byte comma (texts_of items.items) ≡ text.now) }
{
    if text.is_empty() {
        return Ok(Vec::new(alloc));
    }
    let items = text.split(COMMA).collect(alloc)?;
    Ok(items)
}
