//! Writes text as it is, whatever the options of the formatter.
ghost use Rattle.std.specs.Prelude.{◌≡◌};
ghost use Rattle.std.specs.Fmt.{DisplaysOnOk, DisplaysStyledOnOk, HasWrittenStyled, IsFlush};

use std::fmt;
use std::fmt::Write;

// A writer that passes each text on to a formatter.
#[derive(Drop)]
struct Unstyled<'a, W> {
    f: &'a mut fmt::Formatter<W>,
}

impl<W: Write> Write for Unstyled<'_, W> {
    ghost write_str_gives = { λ old text new. (new.f.ghost_name ≡ old.f.ghost_name)
        × (IsFlush old.f.now → HasWrittenStyled W.write_str_gives old.f.now text new.f.now) };

    fn write_str(&mut self, text: &str) -> fmt::Result {
        self.f.write_str(text)
    }
}

/// Writes what `{}` writes for a value, whatever options the formatter has.
///
/// `write!` does the same, but its contract says so only for a formatter without options.
pub fn write_unstyled<W: Write, T: fmt::Display + Drop>(
    f: &mut fmt::Formatter<W>,
    value: T,
) -> fmt::Result
    ensures writes { DisplaysOnOk W.write_str_gives f.old result (T.output value) f.new }
    ensures styled { DisplaysStyledOnOk W.write_str_gives f.old result (T.output value) f.new }
{
    let mut unstyled = Unstyled { f };
    let result = unstyled.write(value);
    let Unstyled { f: _ } = unstyled;
    result
}
