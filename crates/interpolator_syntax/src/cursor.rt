//! Where the scan stands: a place in the outermost text, and the text from there on.
ghost use Rattle.std.specs.Prelude.{◌≡◌, ◌+◌, ◌^◌, ◌<◌, length, option_map, MatchOption};
ghost use Rattle.std.specs.Prelude.{[], None, IfSome, MatchBool, ◌≢◌};
ghost use Rattle.std.specs.Str.{chars};

use crate::class::{Class, split_class, split_first, strip_ascii};

/// A place in the outermost text, counted in bytes, and the text from there on.
#[derive(Clone, Copy)]
pub struct Cursor<'a> {
    pub place: usize,
    pub rest: &'a str,
    ghost fits: { place + length rest.now < 2 ^ 64 },
}

impl<'a> Cursor<'a> {
    ghost use Rattle.interpolator_syntax.specs.Places.{at, first, strip, after};
    ghost use Rattle.interpolator_syntax.specs.Readers.{letter, flag};
    ghost use Rattle.interpolator_syntax.specs.SpecReads.{FirstByte, digit_letter, part_read};
    ghost use Rattle.interpolator_syntax.specs.Classes.{in_class, front_of};

    /// Returns the character here, and the text after it; none at the end of the text.
    #[inline(always)]
    pub fn next(self) -> Option<(char, Cursor<'a>)>
        ensures { option_map (λ r. (r.0, at r.1)) result ≡ first (at self.entry) }
    {
        let (c, rest) = split_first(self.rest)?;
        let after = Cursor {
            place: self.place + (self.rest.len() - rest.len()),
            rest,
        };
        Some((c, after))
    }

    /// Returns the text after this ASCII character, if it begins the text.
    #[inline(always)]
    pub fn strip(self, wanted: u8) -> Option<Cursor<'a>>
        requires ascii { wanted < 128 }
        ensures { option_map (λ r. at r) result ≡ strip wanted (at self.entry) }
    {
        let rest = strip_ascii(self.rest, wanted)?;
        Some(Cursor {
            place: self.place + 1,
            rest,
        })
    }

    /// Splits the text after its longest front of this class.
    #[inline(always)]
    pub fn take_class(self, class: Class) -> (&'a str, Cursor<'a>)
        ensures front { chars result.0.now ≡ front_of (in_class class) (at self.entry).text }
        ensures after { at result.1 ≡ after (in_class class) (at self.entry) }
        ensures fits { self.entry.place + length result.0.now < 2 ^ 64 }
    {
        let (front, rest) = split_class(self.rest, class);
        let after = Cursor {
            place: self.place + front.len(),
            rest,
        };
        (front, after)
    }

    /// Returns the first byte here: the character itself, if that is ASCII; none at the end of the
    /// text.
    pub fn byte(self) -> Option<u8>
        ensures { MatchOption result ((at self.entry).text ≡ [])
            (λ b. FirstByte b (at self.entry).text) }
    {
        self.rest.as_bytes().first().copied()
    }

    /// Returns whether the text ends here.
    pub fn is_at_end(self) -> bool
        ensures { MatchBool result ((at self.entry).text ≡ []) ((at self.entry).text ≢ []) }
    {
        self.rest.is_empty()
    }

    /// Goes past this ASCII character, if it is here, and returns whether it was.
    #[inline(always)]
    pub fn eat(&mut self, wanted: u8) -> bool
        requires ascii { wanted < 128 }
        ensures { part_read (result, self.new) ≡ flag wanted (at self.old) }
    {
        match self.strip(wanted) {
            None => false,
            Some(rest) => {
                *self = rest;
                true
            }
        }
    }

    /// Goes past the digit here, if there is one, and returns its value.
    #[inline(always)]
    pub fn eat_digit(&mut self) -> Option<usize>
        ensures read { part_read (result, self.new) ≡ letter digit_letter None (at self.old) }
        ensures low { IfSome result (λ d. d < 10) }
    {
        let byte = self.byte()?;
        if !byte.is_ascii_digit() {
            return None;
        }
        *self = self.strip(byte)?;
        Some((byte - b'0') as usize)
    }
}
