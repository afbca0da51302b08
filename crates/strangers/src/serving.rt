//! A format that is not trusted: checked, weighed and written.
ghost use Rattle.std.specs.Prelude.{◌≡◌, ◌≤◌, IfErr, IfOk, None, OnOk, All, [], length, false};
ghost use Rattle.std.specs.Prelude.{string_bytes, true};
ghost use Rattle.std.specs.Str.{chars};
ghost use Rattle.interpolator_render.specs.Bounds.{bounded, bounded_writer};
ghost use Rattle.interpolator.specs.{Contexts.found_by_pairs, Faults.answer_of, Faults.no_memory};
ghost use Rattle.strangers.specs.Serving.{IsServed, IsWhole, Rejects, bytes_for, cost_why};
ghost use Rattle.strangers.specs.Serving.{count_why, faults_with, first_why, format_why, given_why};
ghost use Rattle.strangers.specs.Serving.{is_past, reported_cost, value_why, why_in, words_why};
ghost use Rattle.strangers.specs.{Values.AreInRange, declared.serving.Refused.TheVariants.Format};

use crate::lending::{entries_of, pairs_of};
use crate::values::{Datum, Given, Word, characters_of, longest_of};
use interpolator::{
    Bounded, Cost, Error, Formattable, Interpolate, Limits, Pairs, Template, TextWrite,
};
use interpolator_laws::costs::a_format_costs_no_more_than_it_is_said_to;
use interpolator_laws::samples::a_context_resembles_itself;
use std::alloc::{AllocError, Global};

/// How many bytes a character has at most.
const CHARACTER: usize = 4;

/// What is allowed.
#[derive(Clone, Copy)]
pub struct Allowed {
    /// The limits of the values.
    pub values: Limits,
    /// The greatest cost of a format.
    pub most: Cost,
}

/// What is counted.
#[derive(Clone, Copy)]
pub enum Count {
    /// The most characters that a format can write.
    Characters,
    /// The most pieces that it can go through.
    Pieces,
    /// The most characters that it can hold in buffers.
    Buffered,
    /// The characters of a text or a decimal among the values.
    Text,
    /// The items of a list among the values.
    Items,
}

/// Why a format is not written.
#[derive(Drop)]
pub enum Refused {
    /// The first fault that it has with the values as its sample, or `NoMemory`.
    Format(Error),
    /// A count that is past its limit. Of a cost, the greatest `usize` means as many or more, and is
    /// past every limit.
    Past {
        count: Count,
        reported: usize,
        limit: usize,
    },
}

impl From<Error> for Refused {
    ghost from_gives = { λ error refused. refused ≡ Format error };

    fn from(error: Error) -> Refused {
        Refused::Format(error)
    }
}

/// Whether a count is past its limit.
fn is_past(reported: usize, limit: usize) -> bool
    ensures { result ≡ is_past reported limit }
{
    reported > limit || reported == usize::MAX
}

/// Rejects a count of a cost that is past its limit.
fn check(count: Count, reported: usize, limit: usize) -> Result<(), Refused>
    ensures { why_in result ≡ count_why count reported limit }
{
    if is_past(reported, limit) {
        return Err(Refused::Past {
            count,
            reported,
            limit,
        });
    }
    Ok(())
}

/// Rejects a count of values that is more than its limit.
fn check_value(count: Count, reported: usize, limit: usize) -> Result<(), Refused>
    ensures { why_in result ≡ value_why count reported limit }
{
    if reported > limit {
        return Err(Refused::Past {
            count,
            reported,
            limit,
        });
    }
    Ok(())
}

/// Rejects what a word gives, if it is past the limits.
fn check_given(limits: &Limits, given: &Given<'_>) -> Result<(), Refused>
    ensures why { why_in result ≡ given_why limits.now given.now }
    ensures range { OnOk result (AreInRange given.now) }
{
    match given {
        Given::One(value) => check_value(Count::Text, characters_of(value), limits.text),
        Given::Many(values) => {
            check_value(Count::Items, values.len(), limits.items)?;
            check_value(Count::Text, longest_of(values.as_slice()), limits.text)
        }
    }
}

/// Rejects words of which one is past the limits.
fn check_words(limits: &Limits, words: &[Word<'_>]) -> Result<(), Refused>
    ensures why { why_in result ≡ words_why limits.now words.now }
    ensures range { OnOk result (All (λ word. AreInRange word.given) words.now) }
{
    for word in words {
        check_given(limits, &word.given)?;
    }
    Ok(())
}

/// Rejects a cost of which one count is past its limit.
fn check_cost(cost: &Cost, most: &Cost) -> Result<(), Refused>
    ensures { why_in result ≡ cost_why most.now cost.now }
{
    check(Count::Characters, cost.characters, most.characters)?;
    check(Count::Pieces, cost.pieces, most.pieces)?;
    check(Count::Buffered, cost.buffered, most.buffered)
}

/// An empty writer for so many characters: it has the memory for the bytes that they have at most,
/// all of it taken here, and takes no more.
fn writer_for(alloc: Global, characters: usize) -> Result<Bounded, AllocError>
    ensures most { IfOk result (λ out. out.most ≡ bytes_for characters) }
    ensures ready { IfOk result (λ out. bounded_writer out
        ≡ record { text = []; refused = false; origin = bounded (bytes_for characters) true }) }
{
    Bounded::with_room(alloc, characters.saturating_mul(CHARACTER))
}

/// Writes a template that has no fault with these pairs to a writer for so many characters.
fn written<'a>(
    alloc: Global,
    characters: usize,
    template: &Template,
    pairs: &'a [(&'a str, Formattable<'a, Datum<'a>>)],
) -> Result<String, Error>
    requires { faults_with template.now (found_by_pairs pairs.now) ≡ [] }
    ensures ok { IfOk result (λ text.
        IsWhole template.now (found_by_pairs pairs.now) (chars (string_bytes text))) }
    ensures bytes { IfOk result (λ text. length (string_bytes text) ≤ bytes_for characters) }
    ensures err { IfErr result (λ error. answer_of error ≡ no_memory) }
{
    a_context_resembles_itself::<Datum<'a>>();
    let mut out = writer_for(alloc, characters)?;
    let answer = Pairs(pairs).write_template_to(alloc, &mut out, template);
    if out.refused() {
        return Err(Error::NoMemory);
    }
    match answer {
        Ok(()) => Ok(out.into_string()),
        Err(error) => Err(error),
    }
}

/// Checks a template with pairs, weighs it, and writes it.
fn decided<'a>(
    alloc: Global,
    allowed: &Allowed,
    template: &Template,
    pairs: &'a [(&'a str, Formattable<'a, Datum<'a>>)],
) -> Result<String, Refused>
    ensures ok { IfOk result (λ text.
        IsWhole template.now (found_by_pairs pairs.now) (chars (string_bytes text))
        × (format_why allowed.now template.now (found_by_pairs pairs.now) ≡ None)
        × (length (string_bytes text)
        ≤ bytes_for (reported_cost allowed.now.values template.now).characters)) }
    ensures err { IfErr result (λ refused.
        Rejects (format_why allowed.now template.now (found_by_pairs pairs.now)) refused) }
{
    Pairs(pairs).check_template(alloc, template)?;
    let cost = template.cost(&allowed.values);
    check_cost(&cost, &allowed.most)?;
    match written(alloc, cost.characters, template, pairs) {
        Ok(text) => Ok(text),
        Err(error) => Err(Refused::Format(error)),
    }
}

/// The text of a format with the values of words, if it has no fault with them and costs no more
/// than is allowed: then it is whole, and within that cost. It is written into memory for that cost,
/// whatever the values are: four bytes for each character. The values are the format's sample. Of
/// two words of one name the last counts.
///
/// Format, words and limits determine the answer, unless memory runs out. What is rejected comes in
/// this order, before anything is written:
///
/// 1. the first word with a value past the limits: a text or a decimal by its characters, a list by
///    its items, or else by the characters of its longest text;
/// 2. the format's first fault, by itself or with the values;
/// 3. its cost: characters, then pieces, then buffered characters.
///
/// # Errors
///
/// That fault, or that count with its limit; `NoMemory`.
///
/// ```text
/// served(alloc, &allowed, "{l:i({})(, )}", &words)    // of `a` and `b` under `l`: "a, b"
/// ```
pub fn served(
    alloc: Global,
    allowed: &Allowed,
    format: &str,
    words: &[Word<'_>],
) -> Result<String, Refused>
    ensures ok { IfOk result (λ text.
        IsServed allowed.now format.now words.now (string_bytes text)) }
    ensures err { IfErr result (λ refused.
        Rejects (first_why allowed.now format.now words.now) refused) }
{
    a_format_costs_no_more_than_it_is_said_to::<Datum<'_>>();
    check_words(&allowed.values, words)?;
    let template = Template::parse(alloc, format)?;
    let entries = entries_of(alloc, words)?;
    let pairs = pairs_of(alloc, entries.as_slice())?;
    decided(alloc, allowed, &template, pairs.as_slice())
}
