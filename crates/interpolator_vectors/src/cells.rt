//! The values of rows.

use interpolator::{OwnedView, Spec, Trait, Value, View};

/// A value of a context.
#[derive(Drop)]
pub enum Cell {
    Owned(OwnedView),
    /// A text that no option changes.
    Plain(String),
    NotImplemented,
    Failed,
}

impl Value for Cell {
    ghost use Rattle.interpolator_vectors.specs.Cells.{cell_shows};

    ghost shows = { λ cell _ _. cell_shows cell };

    fn view(&self, t: Trait, spec: &Spec) -> View<'_> {
        match self {
            Cell::Owned(value) => value.view(t, spec),
            Cell::Plain(text) => View::Plain(text.as_str()),
            Cell::NotImplemented => View::NotImplemented,
            Cell::Failed => View::Failed,
        }
    }
}
