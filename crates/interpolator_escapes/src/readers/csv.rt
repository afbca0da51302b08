//! Reading CSV.
ghost use Rattle.std.specs.Prelude.{◌≡◌};
ghost use Rattle.interpolator_escapes.specs.Csv.{CsvState, bare_step, csv_step, ends_field};
ghost use Rattle.interpolator_escapes.specs.Csv.{is_csv_place};
ghost use Rattle.interpolator_escapes.specs.CodeReaders.{csv_state, has_structure};
ghost use Rattle.interpolator_escapes.specs.Readers.{state_after};
ghost use Rattle.std.specs.Str.{chars};

use crate::readers::Reader;
use interpolator_render::{Spec, Trait};
use std::alloc::AllocError;

/// Where a reader of CSV is. A value may stand between quotes.
#[derive(Clone, Copy, Debug, PartialEq, Eq)]
pub enum CsvReader {
    /// At the beginning of a field.
    FieldStart,
    /// In a field without quotes.
    Bare,
    /// In a field between quotes.
    Quoted,
    /// After a quote in a field between quotes.
    QuoteSeen,
}

/// Tests for a character that ends a field without quotes.
pub(crate) fn ends_field(c: char) -> bool
    ensures { result ≡ ends_field c }
{
    c == ',' || c == '\r' || c == '\n'
}

/// The state after a character that is not between quotes, and whether it is structure.
fn after_bare(c: char) -> (CsvReader, bool)
    ensures state { csv_state result.0 ≡ (bare_step c).0 }
    ensures structure { result.1 ≡ has_structure (bare_step c).1 }
{
    if ends_field(c) {
        return (CsvReader::FieldStart, true);
    }
    (CsvReader::Bare, false)
}

/// The state after a quote, and whether it is structure.
fn after_quote(state: CsvReader) -> (CsvReader, bool)
    ensures state { csv_state result.0 ≡ (csv_step (csv_state state) 34).0 }
    ensures structure { result.1 ≡ has_structure (csv_step (csv_state state) 34).1 }
{
    match state {
        CsvReader::FieldStart => (CsvReader::Quoted, true),
        CsvReader::Bare => (CsvReader::Bare, false),
        CsvReader::Quoted => (CsvReader::QuoteSeen, false),
        CsvReader::QuoteSeen => (CsvReader::Quoted, false),
    }
}

/// The state after a character, and whether it is structure.
fn after(state: CsvReader, c: char) -> (CsvReader, bool)
    ensures state { csv_state result.0 ≡ (csv_step (csv_state state) c).0 }
    ensures structure { result.1 ≡ has_structure (csv_step (csv_state state) c).1 }
{
    if c == '"' {
        return after_quote(state);
    }
    match state {
        CsvReader::Quoted => (CsvReader::Quoted, false),
        _ => after_bare(c),
    }
}

/// The state after a text.
pub(crate) fn csv_after(state: CsvReader, text: &str) -> CsvReader
    ensures { csv_state result ≡ state_after csv_step (csv_state state) (chars text.now) }
{
    let mut here = state;
    for c in text.chars() {
        (here, _) = after(here, c);
    }
    here
}

impl Reader for CsvReader {
    ghost State = { CsvState };

    ghost state = { csv_state };

    ghost step = { csv_step };

    ghost places = { is_csv_place };

    fn read(&mut self, c: char) -> Result<bool, AllocError> {
        let (state, is_structure) = after(*self, c);
        *self = state;
        Ok(is_structure)
    }

    fn is_place(&self, _wanted: Trait, _spec: &Spec) -> bool {
        match *self {
            CsvReader::Quoted => true,
            _ => false,
        }
    }

    fn is_at(&self, other: &CsvReader) -> bool {
        *self == *other
    }

    fn copied(&self) -> Result<CsvReader, AllocError> {
        Ok(*self)
    }
}
