//! Writes lists of a prepared format whose items are one value each, between texts.
ghost use Rattle.std.specs.Prelude.{◌≡◌, ℕ, IsSome, MatchOption, Option, false, map};
ghost use Rattle.std.specs.Prelude.{true};
ghost use Rattle.interpolator_render.specs.declared.view.Trait.TheVariants.{Display};
ghost use Rattle.interpolator_syntax.specs.{Faults.result_answer, SpecTexts.plain_spec};
ghost use Rattle.interpolator_eval.specs.Meaning.Meanings.{chain, items_mean, text_alone};
ghost use Rattle.interpolator_eval.specs.Slots.{Slots, slots_of};
ghost use Rattle.interpolator_eval.specs.{Escaping.shows_by, Meaning.Environments.environment};
ghost use Rattle.interpolator_eval.specs.{Meaning.Outcomes.Outcome, Meaning.Sinks.write_answered};
ghost use Rattle.interpolator_prepared.specs.{Items.items_within, Items.value_under};
ghost use Rattle.interpolator_prepared.specs.NumberRows.{HasDigits, HasText, is_put};
ghost use Rattle.interpolator_prepared.specs.{Rows.name_bytes, StoredSteps.compiled_list};
ghost use Rattle.interpolator_prepared.specs.{StoredSteps.fitting_means, StoredSteps.joined_text};

use crate::joined::{put_joined, put_row};
use crate::row::{NamedRow, PreparedRow};
use crate::step::{JoinedText, ListStep, ValueSpec};
use interpolator_eval::{
    Environment, Escaper, Formattable, LookUp, WriteFault, chosen_list, slot_of, write_plain,
    write_shown,
};
use interpolator_pieces::cut;
use interpolator_render::{Spec, TextWrite, Trait, Value, put_few_digits};
use interpolator_syntax::Error;
use std::alloc::Global;

/// How many bytes a row has, for the text between two items and a number of few digits.
const ROW: usize = 16;

/// The most bytes of a text between two items that is put into a row.
const MOST_BETWEEN: usize = 8;

/// Writes what a list means.
#[inline(never)]
pub fn run_list<'a, W: TextWrite, R: PreparedRow, E: Escaper>(
    alloc: Global,
    out: &mut W,
    text: &str,
    named: &NamedRow<'a, R>,
    list: &ListStep,
) -> Result<(), Error>
    requires fits { IsSome (compiled_list text.now list.now) }
    ensures outcome { (value_at : ℕ → Option (Slots R.Object)) → Outcome
        (fitting_means (shows_by E.shown R.Object.shows)
        (environment (R.finds_in named.now.row.now (name_bytes named.now.names.now))) value_at
        (compiled_list text.now list.now))
        (W.written out.old) (W.written out.new) (result_answer result) }
{
    let environment = Environment::outermost(alloc, named);
    let name = cut(text, list.name.from, list.name.to);
    let look_up = LookUp {
        start: list.start,
        name,
        end: list.end,
    };
    let items = chosen_list(&environment, look_up, list.range, &list.spec)?;
    put_list::<W, R::Object, E>(out, items, list)?;
    Ok(())
}

/// Writes the items of a list, and the texts around them.
fn put_list<'a, W: TextWrite, V: Value, E: Escaper>(
    out: &mut W,
    items: &'a [Formattable<'a, V>],
    list: &ListStep,
) -> Result<(), WriteFault>
    ensures outcome { Outcome
        (items_within (shows_by E.shown V.shows) list.now.value (joined_text list.now.before)
        (joined_text list.now.between) (joined_text list.now.after) (map slots_of items.now))
        (W.written out.old) (W.written out.new) (write_answered result) }
{
    if items.is_empty() {
        return Ok(());
    }
    put_end(out, &list.before)?;
    put_items::<W, V, E>(out, items, &list.value, &list.between)?;
    put_end(out, &list.after)
}

/// Writes the text at an end of a list, by no call of the writer if it is empty.
fn put_end<W: TextWrite>(out: &mut W, joined: &JoinedText) -> Result<(), WriteFault>
    ensures outcome { Outcome (text_alone (joined_text joined.now))
        (W.written out.old) (W.written out.new) (write_answered result) }
{
    if joined.text.as_str().is_empty() {
        return Ok(());
    }
    put_joined(out, joined)
}

/// Writes items under a trait and a spec, with this text between each two.
fn put_items<'a, W: TextWrite, V: Value, E: Escaper>(
    out: &mut W,
    items: &'a [Formattable<'a, V>],
    value: &ValueSpec,
    between: &JoinedText,
) -> Result<(), WriteFault>
    ensures outcome { Outcome
        (items_mean (text_alone (joined_text between.now)) (value_under
        (shows_by E.shown V.shows) value.now)
        (map slots_of items.now))
        (W.written out.old) (W.written out.new) (write_answered result) }
{
    if is_plain(value) {
        put_each::<W, V, E, true>(out, items, value, between)
    } else {
        put_each::<W, V, E, false>(out, items, value, between)
    }
}

/// As [`put_items`]. The compiler knows whether items are displayed plainly, and then looks at no
/// spec.
fn put_each<'a, W: TextWrite, V: Value, E: Escaper, const PLAIN: bool>(
    out: &mut W,
    items: &'a [Formattable<'a, V>],
    value: &ValueSpec,
    between: &JoinedText,
) -> Result<(), WriteFault>
    requires plain { PLAIN ≡ true → (value.now.slot ≡ Display) × (value.now.spec ≡ plain_spec) }
    ensures outcome { Outcome
        (items_mean (text_alone (joined_text between.now)) (value_under
        (shows_by E.shown V.shows) value.now)
        (map slots_of items.now))
        (W.written out.old) (W.written out.new) (write_answered result) }
{
    let Some((first, rest)) = items.split_first() else {
        return Ok(());
    };
    put_item::<W, V, E, PLAIN>(out, first, value)?;
    let mut row = row_of(between);
    for item in rest {
        put_next::<W, V, E, PLAIN>(out, &mut row, item, value, between)?;
    }
    Ok(())
}

/// A row that has the text between two items at its beginning, if that is short.
#[inline(always)]
fn row_of(between: &JoinedText) -> [u8; ROW]
    ensures row { HasText between.now result }
{
    let mut row = [0; ROW];
    let text = between.text.as_bytes();
    if text.len() <= MOST_BETWEEN {
        row[..text.len()].copy_from_slice(text);
    }
    row
}

/// Puts the digits of an item behind the text between two items, and returns how many bytes both
/// have, if that text is short and the digits are few.
#[inline(always)]
fn put_behind<'a, V: Value>(
    row: &mut [u8; ROW],
    between: &JoinedText,
    item: &'a Formattable<'a, V>,
) -> Option<usize>
    requires row { HasText between.now row.old }
    ensures row { HasText between.now row.new }
    ensures both { MatchOption result
        (is_put V.shows between.now (slots_of item.now) ≡ false)
        (λ count. (is_put V.shows between.now (slots_of item.now) ≡ true)
        × HasDigits V.shows between.now (slots_of item.now) count row.new) }
{
    let size = between.text.len();
    if size > MOST_BETWEEN {
        return None;
    }
    let value = slot_of(item, Trait::Display)?;
    let count = put_few_digits(row, size, value.view(Trait::Display, &Spec::default()))?;
    Some(size + count)
}

/// Writes the text between two items, and the next item. Both are written by one call, if the item
/// is a number of few digits.
#[inline(always)]
fn put_next<'a, W: TextWrite, V: Value, E: Escaper, const PLAIN: bool>(
    out: &mut W,
    row: &mut [u8; ROW],
    item: &'a Formattable<'a, V>,
    value: &ValueSpec,
    between: &JoinedText,
) -> Result<(), WriteFault>
    requires plain { PLAIN ≡ true → (value.now.slot ≡ Display) × (value.now.spec ≡ plain_spec) }
    requires row { HasText between.now row.old }
    ensures row { HasText between.now row.new }
    ensures outcome { Outcome
        (chain (text_alone (joined_text between.now))
        (value_under (shows_by E.shown V.shows) value.now (slots_of item.now)))
        (W.written out.old) (W.written out.new) (write_answered result) }
{
    if PLAIN && E::writes_as_it_is() {
        if let Some(count) = put_behind(row, between, item) {
            return put_row(out, between, row, count, value.end);
        }
    }
    put_joined(out, between)?;
    put_item::<W, V, E, PLAIN>(out, item, value)
}

/// Writes an item under a trait and a spec.
#[inline(always)]
fn put_item<'a, W: TextWrite, V: Value, E: Escaper, const PLAIN: bool>(
    out: &mut W,
    item: &'a Formattable<'a, V>,
    value: &ValueSpec,
) -> Result<(), WriteFault>
    requires plain { PLAIN ≡ true → (value.now.slot ≡ Display) × (value.now.spec ≡ plain_spec) }
    ensures outcome { Outcome (value_under (shows_by E.shown V.shows) value.now (slots_of item.now))
        (W.written out.old) (W.written out.new) (write_answered result) }
{
    if PLAIN {
        return write_plain::<W, V, E>(out, slot_of(item, Trait::Display), value.end);
    }
    write_shown::<W, V, E>(
        out,
        slot_of(item, value.slot),
        value.slot,
        &value.spec,
        value.end,
    )
}

/// Whether items are displayed plainly.
fn is_plain(value: &ValueSpec) -> bool
    ensures { result ≡ true → (value.now.slot ≡ Display) × (value.now.spec ≡ plain_spec) }
{
    match value.slot {
        Trait::Display => value.spec == Spec::default(),
        _ => false,
    }
}
