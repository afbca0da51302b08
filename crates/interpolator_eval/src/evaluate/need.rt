//! What an argument needs of a value, and which values lack it.
ghost use Rattle.std.specs.Prelude.{◌≡◌, ◌<◌, map, flat_map, Some};
ghost use Rattle.std.specs.{List.list_any, Option.option_copied};
ghost use Rattle.interpolator_render.specs.Views.{shown_by};
ghost use Rattle.interpolator_render.specs.declared.view.Trait.TheVariants.{Display};
ghost use Rattle.interpolator_eval.specs.Slots.{slots_of};
ghost use Rattle.interpolator_eval.specs.Meaning.Samples.{at_level, lacks, is_missing, is_failed};
ghost use Rattle.interpolator_eval.specs.Meaning.Samples.{is_hidden, hidden, slot_text};
ghost use Rattle.interpolator_eval.specs.Meaning.Samples.{is_for_no_number, is_for_numbers};
ghost use Rattle.interpolator_eval.specs.Meaning.Samples.{is_not_for_decimals, shows_nothing};
ghost use Rattle.interpolator_eval.specs.Meaning.Samples.{is_failure};

use crate::slots::Formattable;
use interpolator_render::{Spec, Trait, Value, View};

/// What an argument needs of a value.
#[derive(Clone, Copy)]
pub enum Need<'s> {
    /// That a slot is filled and has a text under a trait and a spec.
    Text(Trait, &'s Spec),
    /// That it does not fail under a trait and a spec.
    Success(Trait, &'s Spec),
    /// Both that it has a text and that it does not fail.
    Shown(Trait, &'s Spec),
    /// A list.
    List,
}

/// Returns whether no number is written under a trait.
fn is_for_no_number(wanted: Trait) -> bool
    ensures { result ≡ is_for_no_number wanted }
{
    matches!(wanted, Trait::Iter)
}

/// Returns whether no truth value, character or text is written under a trait.
fn is_for_numbers(wanted: Trait) -> bool
    ensures { result ≡ is_for_numbers wanted }
{
    match wanted {
        Trait::Display => false,
        Trait::Debug => false,
        _ => true,
    }
}

/// Returns whether no decimal and no float is written under a trait.
fn is_not_for_decimals(wanted: Trait) -> bool
    ensures { result ≡ is_not_for_decimals wanted }
{
    match wanted {
        Trait::Display => false,
        Trait::Debug => false,
        Trait::LowerExp => false,
        Trait::UpperExp => false,
        _ => true,
    }
}

/// Returns whether a view has no text under a trait, although it did not fail.
fn no_text(view: View<'_>, wanted: Trait) -> bool
    ensures { result ≡ shows_nothing (shown_by view.entry) wanted }
{
    match view {
        View::Signed(_, _) => is_for_no_number(wanted),
        View::Unsigned(_) => is_for_no_number(wanted),
        View::Truth(_) => is_for_numbers(wanted),
        View::Decimal { units: _, scale: _ } => is_not_for_decimals(wanted),
        View::Float(_) => is_not_for_decimals(wanted),
        View::Float32(_) => is_not_for_decimals(wanted),
        View::Character(_) => is_for_numbers(wanted),
        View::Text(_) => is_for_numbers(wanted),
        View::Plain(_) => false,
        View::NotImplemented => true,
        View::Failed => false,
    }
}

/// Returns whether a view failed.
fn failed(view: View<'_>) -> bool
    ensures { result ≡ is_failure (shown_by view.entry) }
{
    matches!(view, View::Failed)
}

/// Returns whether the slot of a trait is empty, or its value has no text under the trait.
#[tactic(auto, using(crate::proofs::MeaningLemmas::SampleLemmas::view_missing))]
fn slot_misses<V: Value>(value: Option<&V>, wanted: Trait, spec: &Spec) -> bool
    ensures { result ≡ is_missing (slot_text V.shows wanted spec.now (option_copied value.entry)) }
{
    match value {
        Some(value) => no_text(value.view(wanted, spec), wanted),
        None => true,
    }
}

/// Returns whether the value in the slot of a trait fails under the trait.
#[tactic(auto, using(crate::proofs::MeaningLemmas::SampleLemmas::view_failed))]
fn slot_fails<V: Value>(value: Option<&V>, wanted: Trait, spec: &Spec) -> bool
    ensures { result ≡ is_failed (slot_text V.shows wanted spec.now (option_copied value.entry)) }
{
    match value {
        Some(value) => failed(value.view(wanted, spec)),
        None => false,
    }
}

/// Returns whether the value in the slot of a trait has no text under the trait, or fails.
#[tactic(auto, using(crate::proofs::MeaningLemmas::SampleLemmas::view_missing, crate::proofs::MeaningLemmas::SampleLemmas::view_failed))]
pub(super) fn slot_hides<V: Value>(value: Option<&V>, wanted: Trait, spec: &Spec) -> bool
    ensures { result ≡ is_hidden (slot_text V.shows wanted spec.now (option_copied value.entry)) }
{
    match value {
        Some(value) => {
            let view = value.view(wanted, spec);
            no_text(view, wanted) || failed(view)
        }
        None => true,
    }
}

/// Returns whether a value lacks what is needed.
pub(super) fn lacks_one<V: Value>(found: &Formattable<'_, V>, need: Need<'_>) -> bool
    ensures { result ≡ lacks V.shows need.entry (slots_of found.now) }
{
    match need {
        Need::Text(wanted, spec) => slot_misses(found.slot(wanted), wanted, spec),
        Need::Success(wanted, spec) => slot_fails(found.slot(wanted), wanted, spec),
        Need::Shown(wanted, spec) => slot_hides(found.slot(wanted), wanted, spec),
        Need::List => found.list().is_none(),
    }
}

/// Returns whether some value `level` levels below some of the items lacks what is needed.
#[cycle(below)]
pub(super) fn lacks_below<V: Value>(
    items: &[Formattable<'_, V>],
    level: usize,
    need: Need<'_>,
) -> bool
    ensures { result ≡ list_any (lacks V.shows need.entry)
        (flat_map (at_level level) (map slots_of items.now)) }
{
    for item in items {
        if lacks_at(item, level, need) {
            return true;
        }
    }
    false
}

/// Returns whether some value `level` levels below the item lacks what is needed.
#[cycle(below)]
fn lacks_at<V: Value>(item: &Formattable<'_, V>, level: usize, need: Need<'_>) -> bool
    ensures { result ≡ list_any (lacks V.shows need.entry) (at_level level (slots_of item.now)) }
{
    if level == 0 {
        return lacks_one(item, need);
    }
    match item.list() {
        Some(items) => lacks_below(items, level - 1, need),
        None => false,
    }
}

/// Returns whether an item cannot be displayed.
#[inline(always)]
fn is_undisplayed<V: Value>(item: &Formattable<'_, V>, spec: &Spec) -> bool
    ensures { result ≡ hidden V.shows Display spec.now (slots_of item.now) }
{
    slot_hides(item.slot(Trait::Display), Trait::Display, spec)
}

/// Returns whether some of the items cannot be displayed. Two are looked at in each turn.
fn any_undisplayed<V: Value>(items: &[Formattable<'_, V>], spec: &Spec) -> bool
    ensures { result ≡ list_any (hidden V.shows Display spec.now) (map slots_of items.now) }
{
    let mut left = items;
    while let [first, second, rest @ ..] = left {
        if is_undisplayed(first, spec) || is_undisplayed(second, spec) {
            return true;
        }
        left = rest;
    }
    match left.first() {
        Some(last) => is_undisplayed(last, spec),
        None => false,
    }
}

/// Returns whether some of the items is not shown under a trait and a spec. What is displayed, as
/// items mostly are, has a loop of its own, in which the trait is known.
fn any_hidden<V: Value>(items: &[Formattable<'_, V>], wanted: Trait, spec: &Spec) -> bool
    ensures { result ≡ list_any (hidden V.shows wanted spec.now) (map slots_of items.now) }
{
    match wanted {
        Trait::Display => any_undisplayed(items, spec),
        _ => lacks_below(items, 0, Need::Shown(wanted, spec)),
    }
}

/// Returns whether some of the items lacks what is needed.
pub(super) fn any_lacks<V: Value>(items: &[Formattable<'_, V>], need: Need<'_>) -> bool
    ensures { result ≡ list_any (lacks V.shows need.entry) (map slots_of items.now) }
{
    match need {
        Need::Shown(wanted, spec) => any_hidden(items, wanted, spec),
        _ => lacks_below(items, 0, need),
    }
}
