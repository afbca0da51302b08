//! Contexts and values of the tests' own.
ghost use Rattle.std.specs.Prelude.{Some, None, unwrap_or, ◌==◌, if◌then◌else◌, codes};
ghost use Rattle.std.specs.Str.{chars};
ghost use Rattle.interpolator.specs.Slots.{slots_of};
ghost use Rattle.interpolator_render.specs.Views.{failure, plain_text};
ghost use Rattle.interpolator_render.specs.Views.{some_text, nothing_implemented};

use interpolator::{Context, Formattable, Interpolate, Spec, Trait, Value, View};

/// One value under every name.
#[derive(Drop)]
pub struct Everywhere<'a, V> {
    pub value: Formattable<'a, V>,
}

impl<'a, V: Value> Context for Everywhere<'a, V> {
    type Object = V;

    ghost finds = { λ context name. Some (slots_of context.value) };

    fn get(&self, _key: &str) -> Option<Formattable<'_, V>> {
        Some(self.value)
    }
}

impl<'a, V: Value> Interpolate for Everywhere<'a, V> {}

/// Nothing under any name.
#[derive(Drop)]
pub struct Nowhere;

impl Context for Nowhere {
    type Object = u64;

    ghost finds = { λ context name. None };

    fn get(&self, _key: &str) -> Option<Formattable<'_, u64>> {
        None
    }
}

impl Interpolate for Nowhere {}

/// The text `w5` if the width is 5, and nothing otherwise.
#[derive(Clone, Copy)]
pub struct OnlyFive;

impl Value for OnlyFive {
    ghost shows = { λ value t spec. if unwrap_or spec.width 0 == 5
        then some_text (chars (codes "w5")) else nothing_implemented };

    fn view(&self, _t: Trait, spec: &Spec) -> View<'_> {
        if spec.width.unwrap_or(0) == 5 {
            View::Text("w5")
        } else {
            View::NotImplemented
        }
    }
}

/// The text `{x}` as it is, under every trait and spec.
#[derive(Clone, Copy)]
pub struct AlwaysPlain;

impl Value for AlwaysPlain {
    ghost shows = { λ value t spec. plain_text (chars (codes "{x}")) };

    fn view(&self, _t: Trait, _spec: &Spec) -> View<'_> {
        View::Plain("{x}")
    }
}

/// A failure, under every trait and spec.
#[derive(Clone, Copy)]
pub struct AlwaysFailed;

impl Value for AlwaysFailed {
    ghost shows = { λ value t spec. failure };

    fn view(&self, _t: Trait, _spec: &Spec) -> View<'_> {
        View::Failed
    }
}
