//! A user's own value: an enum whose debug text is not its display text.

use crate::page::Page;
use interpolator::{Error, Formattable, Interpolate, Pairs, Spec, Trait, Value, View};
use std::alloc::Global;

/// How much a message matters.
#[derive(Clone, Copy)]
pub enum Level {
    /// Good to know.
    Info,
    /// Should not be missed.
    Warn,
}

impl Value for Level {
    ghost use Rattle.interpolator_examples.specs.Levels.{level_shows};

    ghost shows = { λ level t _. level_shows level t };

    fn view(&self, t: Trait, _spec: &Spec) -> View<'_> {
        match self {
            Level::Info => match t {
                Trait::Display => View::Text("info"),
                Trait::Debug => View::Plain("Info"),
                _ => View::NotImplemented,
            },
            Level::Warn => match t {
                Trait::Display => View::Text("warn"),
                Trait::Debug => View::Plain("Warn"),
                _ => View::NotImplemented,
            },
        }
    }
}

/// A level, written by a format.
fn reported(alloc: Global, level: Level, format: &str) -> Result<String, Error> {
    Pairs(&[("level", Formattable::integer(&level))]).format(alloc, format)
}

pub fn show(page: &mut Page) {
    let alloc = page.alloc;
    for level in [Level::Info, Level::Warn] {
        page.put_made("level", reported(alloc, level, "[{level:<5}] {level:?}"));
    }
    page.put_made("level under x", reported(alloc, Level::Warn, "{level:x}"));
}
