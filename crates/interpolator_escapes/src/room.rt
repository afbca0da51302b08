//! A room on the stack, where texts are laid one after another before they are written.
ghost use Rattle.std.specs.Prelude.{◌≡◌, ◌+◌, ◌≤◌, ◌<◌, ◌∷◌, ◌++◌, [], length, take, drop};
ghost use Rattle.std.specs.Str.{chars, IsCharBoundary};
ghost use Rattle.interpolator_render.specs.Writers.{byte_count};
ghost use Rattle.interpolator_escapes.specs.Rooms.{HasPlace};

use crate::search::BLOCK;
use std::marker::Model;

/// How many bytes a room has.
const ROOM: usize = 320;

/// A text in a room that does not grow.
#[derive(Drop)]
pub(crate) struct Room {
    bytes: [u8; ROOM],
    /// How many bytes the text has.
    filled: usize,
}

impl Model for Room {
    ghost use Rattle.std.specs.Prelude.{ℕ, List, take};
    ghost use Rattle.std.specs.Str.{chars};
    ghost use Rattle.interpolator_escapes.specs.Rooms.{HoldsText};

    ghost Value = { List ℕ };

    ghost view = { λ room. chars (take room.filled room.bytes) };

    ghost invariant = { λ room. HoldsText room.bytes room.filled };
}

/// Writes a text over the places of a row from `at` on.
#[inline(always)]
fn put_over(row: &mut [u8], at: usize, text: &[u8])
    requires { at + length text.now ≤ length row.old }
    ensures { row.new ≡ take at row.old ++ text.now ++ drop (at + length text.now) row.old }
{
    row[at..at + text.len()].copy_from_slice(text);
}

/// The bytes of a block, as a value. A copy that is read as a whole before it is written needs no
/// test whether the two places overlap.
#[inline(always)]
fn block_of(text: &[u8]) -> [u8; BLOCK]
    requires { length text.now ≡ 16 }
    ensures { result ≡ text.now }
{
    match text.as_array::<BLOCK>() {
        Some(block) => *block,
        None => unreachable!(),
    }
}

/// Writes a block over as many places.
#[inline(always)]
fn put_block(to: &mut [u8], block: [u8; BLOCK])
    requires { length to.old ≡ 16 }
    ensures { to.new ≡ block }
{
    match to.as_mut_array::<BLOCK>() {
        Some(places) => *places = block,
        None => unreachable!(),
    }
}

/// Writes a block over the places of a row from `at` on.
#[inline(always)]
fn put_block_over(row: &mut [u8], at: usize, text: &[u8])
    requires block { length text.now ≡ 16 }
    requires within { at + 16 ≤ length row.old }
    ensures { row.new ≡ take at row.old ++ text.now ++ drop (at + length text.now) row.old }
{
    put_block(&mut row[at..at + BLOCK], block_of(text));
}

impl Room {
    /// A room with the empty text.
    #[tactic(auto, using(interpolator_render::proofs::WrittenLemmas::empty_text))]
    #[inline(always)]
    pub(crate) fn new() -> Room
        ensures { result ≡ [] }
    {
        Room {
            bytes: [0; ROOM],
            filled: 0,
        }
    }

    /// How many bytes the text has.
    #[inline(always)]
    pub(crate) fn len(&self) -> usize
        ensures { result ≡ byte_count self.now }
    {
        self.filled
    }

    /// Lays a text.
    #[inline(always)]
    pub(crate) fn lay(&mut self, text: &str)
        requires { HasPlace self.old (length text.now) }
        ensures text { self.new ≡ self.old ++ chars text.now }
        ensures size { byte_count self.new ≡ byte_count self.old + length text.now }
    {
        put_over(&mut self.bytes, self.filled, text.as_bytes());
        self.filled += text.len();
    }

    /// Lays the front of a text that has a block or more. The whole block is copied, and what comes
    /// after its front is overwritten.
    #[inline(always)]
    pub(crate) fn lay_front(&mut self, text: &str, count: usize)
        requires place { HasPlace self.old 16 }
        requires block { 16 ≤ length text.now }
        requires few { count ≤ 16 }
        requires cut { IsCharBoundary text.now count }
        ensures text { self.new ≡ self.old ++ chars (take count text.now) }
        ensures size { byte_count self.new ≡ byte_count self.old + count }
    {
        put_block_over(&mut self.bytes, self.filled, &text.as_bytes()[..BLOCK]);
        self.filled += count;
    }

    /// Lays an ASCII character.
    #[inline(always)]
    pub(crate) fn lay_ascii(&mut self, c: char)
        requires ascii { c < 128 }
        requires place { HasPlace self.old 1 }
        ensures text { self.new ≡ self.old ++ c ∷ [] }
        ensures size { byte_count self.new ≡ byte_count self.old + 1 }
    {
        self.bytes[self.filled] = c as u8;
        self.filled += 1;
    }

    /// Lays a character.
    pub(crate) fn lay_char(&mut self, c: char)
        requires { HasPlace self.old 4 }
        ensures text { self.new ≡ self.old ++ c ∷ [] }
        ensures size { byte_count self.new ≤ byte_count self.old + 4 }
    {
        let mut buffer = [0; 4];
        self.lay(c.encode_utf8(&mut buffer));
    }

    /// The text.
    pub(crate) fn as_str(&self) -> &str
        ensures { chars result.now ≡ self.now }
    {
        unsafe { str::from_utf8_unchecked(&self.bytes[..self.filled]) }
    }

    /// Empties the room.
    #[tactic(auto, using(interpolator_render::proofs::WrittenLemmas::empty_text))]
    pub(crate) fn clear(&mut self)
        ensures { self.new ≡ [] }
    {
        self.filled = 0;
    }
}
