//! A row of named values, which owns the names and what they stand for.
ghost use Rattle.std.specs.Prelude.{◌≡◌, None, map, reverse, option_map};
ghost use Rattle.std.specs.{List.find, Option.option_copied, Str.bytes_eq, Str.encode_utf8_all};
ghost use Rattle.interpolator_eval.specs.Contexts.{last_under};
ghost use Rattle.interpolator_eval.specs.Slots.{slots_of, empty_slots, with_iter};
ghost use Rattle.interpolator.specs.NamedValues.{with_traits, named_slots, pair_of, pair_with};
ghost use Rattle.interpolator.specs.NamedValues.{pairs_of};
ghost use Rattle.interpolator.specs.declared.values.NamedView.{NamedView};

use crate::interpolate::Interpolate;
use interpolator_eval::{Context, Formattable, same_name};
use interpolator_render::{Trait, View};

/// A name and what it stands for: a value in the slots of some traits, or a list.
#[derive(Clone, Copy)]
pub struct NamedValue<'a> {
    pub(crate) name: &'a str,
    pub(crate) view: View<'a>,
    pub(crate) traits: &'a [Trait],
    pub(crate) items: Option<&'a [Formattable<'a, View<'a>>]>,
}

/// A value under a name, in the slots of these traits, or the name of a list.
#[derive(Clone, Copy)]
pub struct NamedView<'a> {
    pub(crate) name: &'a str,
    pub(crate) view: View<'a>,
    pub(crate) traits: &'a [Trait],
}

/// The items of a list, if the name beside them is that of one. They are no field of a
/// [`NamedView`], since a check of a caller whose texts have lifetimes of their own goes through all
/// that each argument may hold: with items that was too much at five names.
pub type LentList<'a> = Option<&'a [Formattable<'a, View<'a>>]>;

/// A value under a name, in the slots of these traits.
#[inline(always)]
pub fn named_value<'a>(name: &'a str, view: View<'a>, traits: &'a [Trait]) -> NamedView<'a>
    ensures name { result.name.now ≡ name.now }
    ensures traits { result.traits.now ≡ traits.now }
    ensures view { result.view ≡ view.entry }
{
    NamedView { name, view, traits }
}

/// The name of a list.
#[inline(always)]
pub fn named_list<'a>(name: &'a str) -> NamedView<'a>
    ensures name { result.name.now ≡ name.now }
{
    NamedView {
        name,
        view: View::NotImplemented,
        traits: &[],
    }
}

/// The items of a list.
#[inline(always)]
pub fn lent_list_items<'a>(items: &'a [Formattable<'a, View<'a>>]) -> LentList<'a>
    ensures { (named : NamedView) → (pair_with named result).1
        ≡ with_iter empty_slots (map slots_of items.now) }
{
    Some(items)
}

/// No list.
#[inline(always)]
pub fn no_list<'a>() -> LentList<'a>
    ensures { result ≡ None }
{
    None
}

/// A name and what it stands for, in a row.
#[inline(always)]
pub(crate) fn named<'a>(given: NamedView<'a>, items: LentList<'a>) -> NamedValue<'a>
    ensures { pair_of result ≡ pair_with given.entry items.entry }
{
    NamedValue {
        name: given.name,
        view: given.view,
        traits: given.traits,
        items,
    }
}

/// What fills the rest of a row.
pub(crate) const GAP: NamedValue<'static> = NamedValue {
    name: "",
    view: View::NotImplemented,
    traits: &[],
    items: None,
};

/// Fills the slots of these traits too. It is inlined, so that a caller that reads one slot makes no
/// other.
#[inline(always)]
pub(crate) fn and_slots<'a, V>(
    before: Formattable<'a, V>,
    traits: &[Trait],
    value: &'a V,
) -> Formattable<'a, V>
    ensures { slots_of result ≡ with_traits traits.now (slots_of before.entry) value.now }
{
    let mut slots = before;
    for filled in traits {
        slots = slots.and_slot(*filled, value);
    }
    slots
}

/// A value in the slots of these traits.
#[inline(always)]
fn in_slots<'a, V>(traits: &[Trait], value: &'a V) -> Formattable<'a, V>
    ensures { slots_of result ≡ with_traits traits.now empty_slots value.now }
{
    and_slots(Formattable::default(), traits, value)
}

impl<'a> NamedValue<'a> {
    /// What the name stands for.
    #[inline(always)]
    pub(crate) fn slots(&self) -> Formattable<'_, View<'a>>
        ensures { slots_of result ≡ named_slots self.now }
    {
        match self.items {
            Some(items) => Formattable::iter(items),
            None => in_slots(self.traits, &self.view),
        }
    }
}

/// The last value of this name. It is not inlined, so that its few words stay in registers.
#[inline(never)]
fn last_named<'s, 'a>(values: &'s [NamedValue<'a>], name: &str) -> Option<&'s NamedValue<'a>>
    ensures { option_copied result
        ≡ find (λ value. bytes_eq name.now value.name.now) (reverse values.now) }
{
    values
        .iter()
        .rev()
        .find(|value| same_name(value.name, name))
}

/// The most names in one row.
pub(crate) const MOST: usize = 16;

/// A row of at most sixteen named values, which [`values!`](crate::values) makes: a context of
/// values of several kinds, whose type names one lifetime. It takes no memory.
///
/// If a name occurs more than once, its last value counts.
///
/// ```text
/// values!(name:?, n:integer = apples).format(alloc, "{name:?} has {n:>5}")?
/// // with `Ann` and -7: "Ann" has    -7
/// ```
#[derive(Clone, Copy)]
pub struct Values<'a> {
    pub(crate) entries: [NamedValue<'a>; MOST],
    pub(crate) len: usize,
}

/// The first sixteen of some values.
macro_rules! first_sixteen {
    (
        $a:expr, $b:expr, $c:expr, $d:expr, $e:expr, $f:expr, $g:expr, $h:expr,
        $i:expr, $j:expr, $k:expr, $l:expr, $m:expr, $n:expr, $o:expr, $p:expr
        $(, $more:expr)*
    ) => {
        [$a, $b, $c, $d, $e, $f, $g, $h, $i, $j, $k, $l, $m, $n, $o, $p]
    };
}

/// A row of so many names, each with its list.
macro_rules! row {
    ($len:literal; $($name:ident $list:ident),*) => {
        $crate::values::Values {
            entries: $crate::values::first_sixteen!(
                $($crate::values::named($name, $list),)*
                $crate::values::GAP, $crate::values::GAP, $crate::values::GAP,
                $crate::values::GAP, $crate::values::GAP, $crate::values::GAP,
                $crate::values::GAP, $crate::values::GAP, $crate::values::GAP,
                $crate::values::GAP, $crate::values::GAP, $crate::values::GAP,
                $crate::values::GAP, $crate::values::GAP, $crate::values::GAP
            ),
            len: $len,
        }
    };
}

pub(crate) use first_sixteen;
pub(crate) use row;

impl<'a> Values<'a> {
    /// The named values, in order.
    pub(crate) fn named(&self) -> &[NamedValue<'a>]
        ensures { map pair_of result.now ≡ pairs_of self.now }
    {
        &self.entries[..self.len.min(MOST)]
    }
}

impl<'a> Context for Values<'a> {
    type Object = View<'a>;

    ghost finds = { λ values name. last_under (pairs_of values) (encode_utf8_all name) };

    #[inline(always)]
    fn get(&self, key: &str) -> Option<Formattable<'_, View<'a>>> {
        match last_named(self.named(), key) {
            Some(value) => Some(value.slots()),
            None => None,
        }
    }
}

impl<'a> Interpolate for Values<'a> {}
