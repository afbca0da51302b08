//! The search for the first character that is escaped.
ghost use Rattle.std.specs.Prelude.{◌≡◌, ◌<◌, ◌≤◌, ◌⊎◌, ◌∷◌, ◌++◌, [], false, true, length, ◌+◌};
ghost use Rattle.std.specs.Prelude.{get_or, map, not, take, drop, MatchOption, IfSome, IsUtf8};
ghost use Rattle.std.specs.{List.prefix_len, Simd.Lanes.mask_l, Str.chars};
ghost use Rattle.interpolator_escapes.specs.Escapes.{escaped};
ghost use Rattle.interpolator_escapes.specs.Search.{ArePlain, may_begin_escaped, doubt, doubt_if};
ghost use Rattle.interpolator_escapes.specs.Search.{first_mark, most_plain};
ghost use Rattle.interpolator_escapes.specs.declared.escape.Escape.TheVariants.{Line, Html, Csv};
ghost use Rattle.interpolator_escapes.specs.declared.escape.Escape.TheVariants.{Json, Shell};

use crate::escape::Escape;
use interpolator_syntax::split_first;
use std::simd::prelude::*;

/// How many bytes are tested at once.
pub(crate) const BLOCK: usize = 16;

/// How many bytes are tested at once for what is rare in plain texts.
const WIDE_BLOCK: usize = 64;

/// How many are tested at once at first.
const WIDEST_BLOCK: usize = 256;

/// Returns whether a character that begins with this byte may be escaped. In a line, past ASCII,
/// that is told by the first bytes of U+0080 to U+00BF, of U+0600 to U+063F, of U+2000 to U+2FFF.
#[inline(always)]
fn may_begin_escaped(escape: Escape, byte: u8) -> bool
    ensures { result ≡ may_begin_escaped escape byte }
{
    match escape {
        Escape::Line => {
            byte < b' '
                || byte == b'\x7f'
                || byte == b'\\'
                || byte == 0xc2
                || byte == 0xd8
                || byte == 0xe2
        }
        Escape::Html => {
            byte == b'&' || byte == b'<' || byte == b'>' || byte == b'"' || byte == b'\''
        }
        Escape::Csv => byte == b'"',
        Escape::Json => byte < b' ' || byte == b'"' || byte == b'\\' || byte == b'<',
        Escape::Shell => byte == b'\'',
    }
}

/// Returns how far a byte is to be doubted: up to [`most_plain`], no character that may be escaped
/// begins with it. Of few others this is so, too. A greatest doubt takes fewer steps than a test.
#[inline(always)]
fn doubt(escape: Escape, byte: u8) -> u8
    ensures { result ≡ doubt escape byte }
{
    match escape {
        Escape::Line => doubt_if(byte == b'\\', byte.wrapping_sub(b' ')),
        Escape::Html => doubt_if(byte | 2 == b'>' || byte | 5 == b'\'', 0),
        Escape::Csv => doubt_if(byte == b'"', 0),
        Escape::Json => doubt_if(byte | 0x60 == b'|', byte ^ 0xfd),
        Escape::Shell => doubt_if(byte == b'\'', 0),
    }
}

/// The greatest doubt of a byte that is certainly escaped, and else this one.
#[inline(always)]
fn doubt_if(is_certain: bool, other: u8) -> u8
    ensures { result ≡ doubt_if is_certain other }
{
    if is_certain { 255 } else { other }
}

/// Returns the greatest doubt of a byte that begins no character that may be escaped.
#[inline(always)]
fn most_plain(escape: Escape) -> u8
    ensures { result ≡ most_plain escape }
{
    match escape {
        Escape::Line => 94,
        Escape::Json => 222,
        _ => 0,
    }
}

/// Marks the bytes of a block that begin a character that may be escaped, each by a bit, from the
/// lowest on.
#[inline(always)]
fn marks_of(escape: Escape, block: u8x16) -> u64
    ensures { result ≡ mask_l (map (may_begin_escaped escape) block) }
{
    match escape {
        Escape::Line => line_marks(block),
        Escape::Html => html_marks(block),
        Escape::Csv => csv_marks(block),
        Escape::Json => json_marks(block),
        Escape::Shell => shell_marks(block),
    }
}

/// As [`marks_of`], for a line. Two of the first bytes past ASCII differ in one bit.
#[inline(always)]
fn line_marks(block: u8x16) -> u64
    ensures { result ≡ mask_l (map (may_begin_escaped Line) block) }
{
    let control = block.simd_lt(u8x16::splat(b' ')) | block.simd_eq(u8x16::splat(b'\x7f'));
    let other = block.simd_eq(u8x16::splat(b'\\')) | block.simd_eq(u8x16::splat(0xd8));
    let wide = (block & u8x16::splat(0xdf)).simd_eq(u8x16::splat(0xc2));
    (control | other | wide).to_bitmask()
}

/// As [`marks_of`], for HTML. `<` and `>` differ in one bit, and so do `"` and `&`.
#[inline(always)]
fn html_marks(block: u8x16) -> u64
    ensures { result ≡ mask_l (map (may_begin_escaped Html) block) }
{
    let angle = (block | u8x16::splat(2)).simd_eq(u8x16::splat(b'>'));
    let other = (block | u8x16::splat(4)).simd_eq(u8x16::splat(b'&'));
    (angle | other | block.simd_eq(u8x16::splat(b'\''))).to_bitmask()
}

/// As [`marks_of`], for JSON. With one bit changed, controls and `"` are those up to a space.
#[inline(always)]
fn json_marks(block: u8x16) -> u64
    ensures { result ≡ mask_l (map (may_begin_escaped Json) block) }
{
    let low = (block ^ u8x16::splat(2)).simd_le(u8x16::splat(b' '));
    (low | block.simd_eq(u8x16::splat(b'\\')) | block.simd_eq(u8x16::splat(b'<'))).to_bitmask()
}

/// As [`marks_of`], for CSV.
#[inline(always)]
fn csv_marks(block: u8x16) -> u64
    ensures { result ≡ mask_l (map (may_begin_escaped Csv) block) }
{
    block.simd_eq(u8x16::splat(b'"')).to_bitmask()
}

/// As [`marks_of`], for a shell.
#[inline(always)]
fn shell_marks(block: u8x16) -> u64
    ensures { result ≡ mask_l (map (may_begin_escaped Shell) block) }
{
    block.simd_eq(u8x16::splat(b'\'')).to_bitmask()
}

/// Returns the place of the lowest mark; `count`, if there is none.
#[inline(always)]
fn first_mark(marks: u64, count: usize) -> usize
    ensures { result ≡ first_mark marks count }
{
    if marks == 0 {
        count
    } else {
        marks.trailing_zeros() as usize
    }
}

/// Returns how many bytes of the block at this place come before the first that begins a character
/// that may be escaped.
#[inline(always)]
pub(crate) fn front_of_block(escape: Escape, bytes: &[u8], from: usize) -> usize
    requires { from + BLOCK ≤ length bytes.now }
    ensures { result ≡ prefix_len (λ byte. not (may_begin_escaped escape byte))
        (take 16 (drop from bytes.now)) }
{
    first_mark(marks_of(escape, u8x16::from_slice(&bytes[from..])), BLOCK)
}

/// Returns whether no byte begins a character that may be escaped; it may say no of some that are
/// so. All are tested, so that the compiler tests them side by side.
#[inline(always)]
fn are_surely_plain(escape: Escape, bytes: &[u8]) -> bool
    ensures { result ≡ true → ArePlain escape bytes.now (length bytes.now) }
{
    let mut most = 0u8;
    for byte in bytes {
        most = most.max(doubt(escape, *byte));
    }
    most <= most_plain(escape)
}

/// Returns a place up to which no byte begins a character that may be escaped, from one on up to
/// which none does: after as many blocks of `N` as there are of bytes that are surely plain.
#[inline(always)]
fn past_wide_blocks<const N: usize>(escape: Escape, bytes: &[u8], from: usize) -> usize
    requires some { 0 < N }
    requires within { from ≤ length bytes.now }
    requires plain { ArePlain escape bytes.now from }
    ensures within { result ≤ length bytes.now }
    ensures plain { ArePlain escape bytes.now result }
{
    let mut end = from;
    while bytes.len() - end >= N {
        if !are_surely_plain(escape, &bytes[end..end + N]) {
            return end;
        }
        end += N;
    }
    end
}

/// As [`past_wide_blocks`], but the first byte that begins such a character, if it is in a whole
/// block.
#[inline(always)]
fn past_blocks(escape: Escape, bytes: &[u8], from: usize) -> usize
    requires within { from ≤ length bytes.now }
    requires plain { ArePlain escape bytes.now from }
    ensures within { result ≤ length bytes.now }
    ensures plain { ArePlain escape bytes.now result }
{
    let mut end = from;
    while bytes.len() - end >= BLOCK {
        let front = front_of_block(escape, bytes, end);
        if front < BLOCK {
            return end + front;
        }
        end += BLOCK;
    }
    end
}

/// Returns the place of the first byte before `end` that begins a character that may be escaped,
/// from a place on up to which none does; `end`, if there is none.
#[inline(always)]
fn first_between(escape: Escape, bytes: &[u8], from: usize, end: usize) -> usize
    requires order { from ≤ end }
    requires within { end ≤ length bytes.now }
    requires plain { ArePlain escape bytes.now from }
    ensures within { result ≤ end }
    ensures plain { ArePlain escape bytes.now result }
    ensures begins { result < end → may_begin_escaped escape (get_or bytes.now result 0) ≡ true }
{
    for index in from..end {
        if may_begin_escaped(escape, bytes[index]) {
            return index;
        }
    }
    end
}

/// Returns the place of the first byte that begins a character that may be escaped, from a place on
/// up to which none does; the end, if there is none.
#[inline(always)]
fn first_from(escape: Escape, bytes: &[u8], from: usize) -> usize
    requires within { from ≤ length bytes.now }
    requires plain { ArePlain escape bytes.now from }
    ensures within { result ≤ length bytes.now }
    ensures plain { ArePlain escape bytes.now result }
    ensures begins { result < length bytes.now
        → may_begin_escaped escape (get_or bytes.now result 0) ≡ true }
{
    let widest = past_wide_blocks::<WIDEST_BLOCK>(escape, bytes, from);
    let wide = past_wide_blocks::<WIDE_BLOCK>(escape, bytes, widest);
    let blocks = past_blocks(escape, bytes, wide);
    first_between(escape, bytes, blocks, bytes.len())
}

/// As [`first_from`], which is compiled for each escape by itself.
#[inline(never)]
fn far_front(escape: Escape, bytes: &[u8], from: usize) -> usize
    requires within { from ≤ length bytes.now }
    requires plain { ArePlain escape bytes.now from }
    ensures within { result ≤ length bytes.now }
    ensures plain { ArePlain escape bytes.now result }
    ensures begins { result < length bytes.now
        → may_begin_escaped escape (get_or bytes.now result 0) ≡ true }
{
    match escape {
        Escape::Line => first_from(Escape::Line, bytes, from),
        Escape::Html => first_from(Escape::Html, bytes, from),
        Escape::Csv => first_from(Escape::Csv, bytes, from),
        Escape::Json => first_from(Escape::Json, bytes, from),
        Escape::Shell => first_from(Escape::Shell, bytes, from),
    }
}

/// Returns the place of the first byte that begins a character that may be escaped; the end, if
/// there is none.
#[inline(always)]
fn plain_front(escape: Escape, bytes: &[u8]) -> usize
    ensures within { result ≤ length bytes.now }
    ensures plain { ArePlain escape bytes.now result }
    ensures begins { result < length bytes.now
        → may_begin_escaped escape (get_or bytes.now result 0) ≡ true }
{
    if bytes.len() < BLOCK {
        return first_between(escape, bytes, 0, bytes.len());
    }
    let near = front_of_block(escape, bytes, 0);
    if near < BLOCK {
        return near;
    }
    far_front(escape, bytes, BLOCK)
}

/// Returns the longest front that has no character that may be escaped, the character after it, and
/// what comes then; none, if the whole text is such a front.
#[inline(always)]
pub(crate) fn split_escaped(escape: Escape, text: &str) -> Option<(&str, char, &str)>
    ensures parts { MatchOption result (escaped escape (chars text.now) ≡ chars text.now)
        (λ r. (chars text.now ≡ chars r.0.now ++ r.1 ∷ chars r.2.now)
        × (escaped escape (chars r.0.now) ≡ chars r.0.now)) }
    ensures utf8 { IfSome result (λ r. IsUtf8 r.2.now) }
    ensures within { IfSome result (λ r. length r.0.now ≤ length text.now) }
    ensures shorter { IfSome result (λ r. length r.2.now < length text.now) }
{
    let (run, rest) = text.split_at(plain_front(escape, text.as_bytes()));
    match split_first(rest) {
        Some((c, after)) => Some((run, c, after)),
        None => None,
    }
}
