//! A row of bytes with places that are ready for more.
ghost use Rattle.std.specs.Prelude.{◌≡◌, ◌+◌, ◌-◌, ◌<◌, ◌≤◌, ◌++◌, length, replicate, take, drop};
ghost use Rattle.std.specs.Prelude.{vec_capacity};

/// How many places are made ready at once. A text that grows by little then seldom asks for more,
/// and a buffer with much room is not written as a whole.
const READY: usize = 1024;

/// The bytes of a text of `N`, as a value. A copy that is read as a whole before it is written needs
/// no test whether the two places overlap.
#[inline(always)]
fn block_of<const N: usize>(text: &[u8]) -> [u8; N]
    requires { length text.now ≡ N }
    ensures { result ≡ text.now }
{
    match text.as_array::<N>() {
        Some(block) => *block,
        None => unreachable!(),
    }
}

/// Writes a block over `N` places.
#[inline(always)]
fn put_block<const N: usize>(to: &mut [u8], block: [u8; N])
    requires { length to.old ≡ N }
    ensures { to.new ≡ block.entry }
{
    match to.as_mut_array::<N>() {
        Some(places) => *places = block,
        None => unreachable!(),
    }
}

/// Copies a text of `N` to twice `N` bytes by its two ends, which may overlap.
#[inline(always)]
fn copy_ends<const N: usize>(to: &mut [u8], from: &[u8])
    requires same { length to.old ≡ length from.now }
    requires least { N ≤ length from.now }
    requires most { length from.now ≤ N + N }
    ensures { to.new ≡ from.now }
{
    let rest = from.len() - N;
    let front = block_of::<N>(&from[..N]);
    let back = block_of::<N>(&from[rest..]);
    put_block(&mut to[..N], front);
    put_block(&mut to[rest..], back);
}

/// Copies a text of less than eight bytes into as many places.
#[inline(always)]
fn copy_short(to: &mut [u8], from: &[u8])
    requires same { length to.old ≡ length from.now }
    requires short { length from.now < 8 }
    ensures { to.new ≡ from.now }
{
    let count = from.len();
    if count >= 4 {
        copy_ends::<4>(to, from);
    } else if count >= 2 {
        copy_ends::<2>(to, from);
    } else if count == 1 {
        to[0] = from[0];
    }
}

/// Copies a text into as many places. Up to 64 bytes it takes no call.
#[inline(always)]
fn copy_text(to: &mut [u8], from: &[u8])
    requires { length to.old ≡ length from.now }
    ensures { to.new ≡ from.now }
{
    let count = from.len();
    if count < 8 {
        copy_short(to, from);
    } else if count <= 16 {
        copy_ends::<8>(to, from);
    } else if count <= 32 {
        copy_ends::<16>(to, from);
    } else if count <= 64 {
        copy_ends::<32>(to, from);
    } else {
        to.copy_from_slice(from);
    }
}

/// Writes a text over the places from `at` on.
#[inline(always)]
pub(crate) fn put_over(row: &mut [u8], at: usize, text: &[u8])
    requires { at + length text.now ≤ length row.old }
    ensures { row.new ≡ take at row.old ++ text.now ++ drop (at + length text.now) row.old }
{
    copy_text(&mut row[at..at + text.len()], text);
}

/// How many bytes a block has.
pub(crate) const BLOCK: usize = 64;

/// A block of a text between copies of an ASCII character.
#[tactic(auto, using(crate::proofs::CopyLemmas::around_copies))]
#[inline(always)]
pub(crate) fn block_around(text: &[u8], fill: u8, before: usize) -> [u8; BLOCK]
    requires { before + length text.now ≤ 64 }
    ensures { result ≡ replicate before fill
        ++ (text.now ++ replicate (64 - (before + length text.now)) fill) }
{
    let mut block = [fill; BLOCK];
    put_over(&mut block, before, text);
    block
}

/// Writes a text over the places of a row from `at` on.
#[inline(always)]
pub(crate) fn put_at(row: &mut Vec<u8>, at: usize, text: &[u8])
    requires { at + length text.now ≤ length row.old.items }
    ensures items { row.new.items
        ≡ take at row.old.items ++ text.now ++ drop (at + length text.now) row.old.items }
    ensures capacity { vec_capacity row.new ≡ vec_capacity row.old }
{
    copy_text(&mut row[at..at + text.len()], text);
}

/// Adds places at the end of a row, no more than it has room for, and keeps its bytes.
pub(crate) fn make_ready(row: &mut Vec<u8>)
    ensures same { take (length row.old.items) row.new.items ≡ row.old.items }
    ensures longer { length row.old.items ≤ length row.new.items }
    ensures most { length row.new.items ≤ length row.old.items + 1024 }
    ensures room { length row.new.items ≤ vec_capacity row.old }
    ensures capacity { vec_capacity row.old ≤ vec_capacity row.new }
{
    let most = row.len() + READY;
    let _filled = row.resize(row.capacity().min(most), 0);
}
