//! What `{}` writes for what does not stand: the same text whatever the formatter's options.
ghost use Rattle.std.specs.Prelude.{◌≡◌, Some};
ghost use Rattle.interpolator_escapes.specs.PlaceTexts.{misplaced_text, place_error_text};
ghost use Rattle.interpolator_escapes.specs.PlaceTexts.{places_text, why_text};

use crate::escape::Escape;
use crate::misplaced::{Misplaced, PlaceError, Why};
use interpolator_syntax::write_unstyled;
use std::fmt;

impl std::error::Error for Misplaced {}

impl std::error::Error for PlaceError {}

impl fmt::Display for Why {
    ghost output = { λ why. Some (why_text why) };

    ghost styled_output = { λ why _. Some (why_text why) };

    fn fmt<W: fmt::Write>(&self, f: &mut fmt::Formatter<W>) -> fmt::Result {
        match self {
            Why::Value => f.write_str("this value is out of place"),
            Why::Item => f.write_str("an item of this list ends elsewhere than it began"),
            Why::Join => {
                f.write_str("what is between two items of this list ends elsewhere than it began")
            }
            Why::Fill => f.write_str("the character that pads this list is structure"),
        }
    }
}

impl fmt::Display for Misplaced {
    ghost output = { λ misplaced. Some (misplaced_text misplaced) };

    ghost styled_output = { λ misplaced _. Some (misplaced_text misplaced) };

    fn fmt<W: fmt::Write>(&self, f: &mut fmt::Formatter<W>) -> fmt::Result {
        let Misplaced { place, why } = *self;
        write_unstyled(f, format_args!("at {place}: {why}"))
    }
}

impl fmt::Display for PlaceError {
    ghost output = { λ error. Some (place_error_text error) };

    ghost styled_output = { λ error _. Some (place_error_text error) };

    fn fmt<W: fmt::Write>(&self, f: &mut fmt::Formatter<W>) -> fmt::Result {
        match self {
            PlaceError::Misplaced(misplaced) => write_unstyled(f, *misplaced),
            PlaceError::NoMemory => f.write_str("out of memory"),
        }
    }
}

/// Where a value may stand, in words that follow "a value may stand".
pub fn places_of(escape: Escape) -> &'static str
    ensures { result.now ≡ places_text escape }
{
    match escape {
        Escape::Line => "anywhere",
        Escape::Html => "in text, or between the quotes of an attribute that is a text",
        Escape::Csv => "between double quotes",
        Escape::Json => "in a string, or under `?` between strings",
        Escape::Shell => "between single quotes, with nothing but words before it",
    }
}
