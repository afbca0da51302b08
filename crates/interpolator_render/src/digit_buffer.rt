//! A short text in one buffer, which grows at its front.
ghost use Rattle.std.specs.Prelude.{◌≡◌, ◌<◌, ◌≤◌, ◌∷◌, [], false, drop, length, replicate};
ghost use Rattle.std.specs.{Fmt.digit_glyph, Str.IsAscii};
ghost use Rattle.interpolator_digits.specs.{Characters.zero_digit, Digits.digit_text};
ghost use Rattle.interpolator_render.specs.DigitBuffers.{Buffered, IsBuffered, buffer_row};
ghost use Rattle.interpolator_render.specs.DigitBuffers.{put_before, put_after};

use crate::digit_tables::digit_in_base;
use crate::digits::{ascii_str, write_low, write_low_decimal};
use std::marker::Model;

/// The greatest width that a buffer has room for, whatever its alignment.
pub(crate) const BUFFER_WIDTH: usize = 40;

/// How many bytes a buffer has.
const BUFFER_BYTES: usize = 128;

/// Where a text begins: as far from the end as the greatest width.
const START: usize = 88;

/// A short ASCII text between copies of one character, the fill.
///
/// It is written from its end to its front. Padding only moves an end of the text, since the copies
/// are there already.
#[derive(Drop)]
pub(crate) struct DigitBuffer {
    bytes: [u8; BUFFER_BYTES],
    /// A byte, held as wide as the places, so that no gap between them has to be cleared.
    fill: usize,
    start: usize,
    end: usize,
}

impl Model for DigitBuffer {
    ghost use Rattle.interpolator_render.specs.DigitBuffers.{Buffered, IsBuffered, buffer_row};

    ghost Value = { Buffered };

    ghost view = { λ buffer. buffer_row buffer.bytes buffer.fill buffer.start buffer.end };

    ghost invariant = { λ buffer. IsBuffered buffer.bytes buffer.fill buffer.start buffer.end };
}

impl DigitBuffer {
    /// An empty text between copies of `fill`.
    #[inline(always)]
    pub(crate) fn new(fill: u8) -> DigitBuffer
        requires { fill < 128 }
        ensures { result ≡ record { before = 88; text = []; after = 40; fill = fill } }
    {
        DigitBuffer {
            bytes: [fill; BUFFER_BYTES],
            fill: fill as usize,
            start: START,
            end: START,
        }
    }

    /// How many bytes the text has.
    pub(crate) fn len(&self) -> usize
        ensures { result ≡ length self.now.text }
    {
        self.end - self.start
    }

    /// Writes a byte in front.
    #[tactic(auto, using(crate::proofs::DigitBufferLemmas::front_steps))]
    pub(crate) fn push_front(&mut self, byte: u8)
        requires ascii { byte < 128 }
        requires room { 1 ≤ self.old.before }
        ensures { self.new ≡ put_before (byte ∷ []) self.old }
    {
        let start = self.start - 1;
        self.bytes[start] = byte;
        self.start = start;
    }

    /// Writes all digits of a number but the first in front. Returns the first.
    #[inline(always)]
    pub(crate) fn put_low_digits(&mut self, n: u64, base: u64, upper: bool) -> u64
        requires lowest { 2 ≤ base }
        requires highest { base ≤ 16 }
        requires room { length (digit_text base upper n) ≤ self.old.before }
        ensures first { result < base }
        ensures leads { digit_text base upper n
            ≡ digit_glyph upper result ∷ drop 1 (digit_text base upper n) }
        ensures grown { self.new ≡ put_before (drop 1 (digit_text base upper n)) self.old }
    {
        let (start, first) = write_low(n, base, upper, self.start, &mut self.bytes);
        self.start = start;
        first
    }

    /// As [`DigitBuffer::put_low_digits`], in base ten and of a number of any width.
    pub(crate) fn put_low_decimal(&mut self, n: u128) -> u64
        requires { length (digit_text 10 false n) ≤ self.old.before }
        ensures first { result < 10 }
        ensures leads { digit_text 10 false n
            ≡ digit_glyph false result ∷ drop 1 (digit_text 10 false n) }
        ensures grown { self.new ≡ put_before (drop 1 (digit_text 10 false n)) self.old }
    {
        let (start, first) = write_low_decimal(n, self.start, &mut self.bytes);
        self.start = start;
        first
    }

    /// Writes a number in base ten in front.
    pub(crate) fn put_decimal(&mut self, n: u128)
        requires { length (digit_text 10 false n) ≤ self.old.before }
        ensures { self.new ≡ put_before (digit_text 10 false n) self.old }
    {
        let first = self.put_low_decimal(n);
        self.push_front(digit_in_base(first, 10, false));
    }

    /// Writes the digits of a number in front.
    #[inline(always)]
    pub(crate) fn put_digits(&mut self, n: u64, base: u64, upper: bool)
        requires lowest { 2 ≤ base }
        requires highest { base ≤ 16 }
        requires room { length (digit_text base upper n) ≤ self.old.before }
        ensures { self.new ≡ put_before (digit_text base upper n) self.old }
    {
        let first = self.put_low_digits(n, base, upper);
        self.push_front(digit_in_base(first, base, upper));
    }

    /// Writes zeros in front, one by one.
    fn push_zeros(&mut self, count: usize)
        requires { count ≤ self.old.before }
        ensures { self.new ≡ put_before (replicate count zero_digit) self.old }
    {
        let mut done = 0;
        while done < count {
            self.push_front(b'0');
            done += 1;
        }
    }

    /// Writes zeros in front. If the fill is a zero, they are there already.
    #[inline(always)]
    pub(crate) fn put_zeros(&mut self, count: usize)
        requires { count ≤ self.old.before }
        ensures { self.new ≡ put_before (replicate count zero_digit) self.old }
    {
        if self.fill == b'0' as usize {
            self.pad_before(count);
        } else {
            self.push_zeros(count);
        }
    }

    /// Lengthens the text at its front by copies of the fill.
    pub(crate) fn pad_before(&mut self, count: usize)
        requires { count ≤ self.old.before }
        ensures { self.new ≡ put_before (replicate count self.old.fill) self.old }
    {
        self.start -= count;
    }

    /// Lengthens the text at its end by copies of the fill.
    #[tactic(auto, using(crate::proofs::DigitBufferLemmas::after_grows))]
    pub(crate) fn pad_after(&mut self, count: usize)
        requires { count ≤ self.old.after }
        ensures { self.new ≡ put_after (replicate count self.old.fill) self.old }
    {
        self.end += count;
    }

    /// The text.
    pub(crate) fn as_str(&self) -> &str
        ensures text { result.now ≡ self.now.text }
        ensures ascii { IsAscii result.now }
        ensures short { length result.now ≤ 128 }
    {
        ascii_str(&self.bytes[self.start..self.end])
    }
}
