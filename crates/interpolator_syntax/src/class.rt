//! Classes of characters, and the longest front of a text whose characters are of one class.
ghost use Rattle.std.specs.Prelude.{◌≡◌, ◌+◌, ◌++◌, ◌<◌, ◌≤◌, length, take, [], ◌∷◌, ◌==◌, ◌||◌};
ghost use Rattle.std.specs.Prelude.{MatchOption, IfSome, ℕ};
ghost use Rattle.std.specs.{Str.chars, Char.len_utf8, Char.encode_utf8, List.position};
ghost use Rattle.std.specs.List.{position_or_len};
ghost use Rattle.interpolator_syntax.specs.Classes.{in_class, avoids, front_of, after_of};
ghost use Rattle.interpolator_syntax.specs.Grammar.{NotFirst};
ghost use Rattle.interpolator_syntax.specs.declared.class.Class.TheVariants.{WhiteSpace};

use std::simd::prelude::*;

/// A class of characters.
#[derive(Clone, Copy)]
pub enum Class {
    /// White space.
    WhiteSpace,
    /// The characters of a name: all but `:` and `}`.
    Name,
    /// The characters of a number: ASCII digits and `-`.
    Number,
    /// The characters that are copied as they are: all but the braces.
    Literal,
    /// The sign that guards a group: `#`.
    Hash,
    /// The characters that may come before the first `)`: all others.
    Enclosed,
}

/// Returns the first character of a text, and the text after it; none for the empty text.
#[tactic(auto, using(crate::proofs::CharacterLemmas::first_character))]
#[inline(always)]
pub fn split_first(text: &str) -> Option<(char, &str)>
    ensures chars { MatchOption result (chars text.now ≡ [])
        (λ r. chars text.now ≡ r.0 ∷ chars r.1.now) }
    ensures len { MatchOption result (length text.now ≡ 0)
        (λ r. length text.now ≡ len_utf8 r.0 + length r.1.now) }
    ensures bytes { MatchOption result (text.now ≡ [])
        (λ r. text.now ≡ encode_utf8 r.0 ++ r.1.now) }
    ensures shorter { IfSome result (λ r. length r.1.now < length text.now) }
{
    let mut characters = text.chars();
    let c = characters.next()?;
    Some((c, characters.as_str()))
}

/// Returns the text after this ASCII character, if it begins the text.
#[inline(always)]
pub(crate) fn strip_ascii(text: &str, wanted: u8) -> Option<&str>
    requires ascii { wanted < 128 }
    ensures bytes { MatchOption result (NotFirst wanted text.now) (λ r. text.now ≡ wanted ∷ r.now) }
{
    let first = text.as_bytes().first()?;
    if *first != wanted {
        return None;
    }
    let (_, rest) = text.split_at(1);
    Some(rest)
}

/// Returns whether a character is of this class.
fn is_in(class: Class, c: char) -> bool
    ensures { result ≡ in_class class c }
{
    match class {
        Class::WhiteSpace => c.is_whitespace(),
        Class::Name => c != ':' && c != '}',
        Class::Number => c.is_ascii_digit() || c == '-',
        Class::Literal => c != '{' && c != '}',
        Class::Hash => c == '#',
        Class::Enclosed => c != ')',
    }
}

/// Returns the text after the first character, if that is of this class.
#[inline(always)]
fn past_one(text: &str, class: Class) -> Option<&str>
    ensures after { MatchOption result
        (after_of (in_class class) (chars text.now) ≡ chars text.now)
        (λ r. after_of (in_class class) (chars text.now)
        ≡ after_of (in_class class) (chars r.now)) }
    ensures bytes { IfSome result (λ r. (c : ℕ) × (text.now ≡ encode_utf8 c ++ r.now)) }
    ensures shorter { IfSome result (λ r. length r.now < length text.now) }
{
    let (c, rest) = split_first(text)?;
    if is_in(class, c) { Some(rest) } else { None }
}

/// Splits a text after its longest front of this class, character by character.
#[inline(always)]
fn split_while(text: &str, class: Class) -> (&str, &str)
    ensures front { chars result.0.now ≡ front_of (in_class class) (chars text.now) }
    ensures after { chars result.1.now ≡ after_of (in_class class) (chars text.now) }
    ensures whole { text.now ≡ result.0.now ++ result.1.now }
{
    let mut rest = text;
    while let Some(after) = past_one(rest, class) {
        rest = after;
    }
    text.split_at(text.len() - rest.len())
}

/// Splits a text after the white space in front of it. Usually the first byte shows that there is
/// none.
#[inline(always)]
fn split_space(text: &str) -> (&str, &str)
    ensures front { chars result.0.now ≡ front_of (in_class WhiteSpace) (chars text.now) }
    ensures after { chars result.1.now ≡ after_of (in_class WhiteSpace) (chars text.now) }
    ensures whole { text.now ≡ result.0.now ++ result.1.now }
{
    match text.as_bytes().first() {
        Some(b'!'..=b'~') => text.split_at(0),
        _ => split_while(text, Class::WhiteSpace),
    }
}

/// How many bytes of a literal text are tested one by one before the search in vectors.
const NEAR_LITERAL: usize = 2;

/// How many bytes are tested at once.
const BLOCK: usize = 16;

/// How many of less than a block are tested at once.
const HALF: usize = 8;

/// How many are tested at once after the first block.
const WIDE: usize = 32;

/// Returns the index of the first byte of the first block that is one of these two.
#[inline(always)]
fn block_position(bytes: &[u8], first: u8, second: u8) -> Option<usize>
    requires { 16 ≤ length bytes.now }
    ensures { MatchOption result
        (16 ≡ position_or_len (λ b. b == first || b == second) (take 16 bytes.now))
        (λ n. n ≡ position_or_len (λ b. b == first || b == second) (take 16 bytes.now)) }
{
    let block = u8x16::from_slice(bytes);
    let is_first = block.simd_eq(u8x16::splat(first));
    let is_second = block.simd_eq(u8x16::splat(second));
    let hits = (is_first | is_second).to_bitmask();
    if hits == 0 {
        return None;
    }
    Some(hits.trailing_zeros() as usize)
}

/// Skips bytes that are neither of these two. What is left begins with one of them, or is shorter
/// than a block. This is called, since it is for the end of a text.
#[inline(never)]
fn skip_blocks(bytes: &[u8], first: u8, second: u8) -> &[u8]
    ensures shorter { length result.now ≤ length bytes.now }
    ensures first { position_or_len (λ b. b == first || b == second) bytes.now + length result.now
        ≡ position_or_len (λ b. b == first || b == second) result.now + length bytes.now }
{
    let mut rest = bytes;
    while rest.len() >= BLOCK {
        if let Some(index) = block_position(rest, first, second) {
            let (_, found) = rest.split_at(index);
            return found;
        }
        let (_, after) = rest.split_at(BLOCK);
        rest = after;
    }
    rest
}

/// As [`block_position`], for two blocks.
#[inline(always)]
fn wide_position(bytes: &[u8], first: u8, second: u8) -> Option<usize>
    requires { 32 ≤ length bytes.now }
    ensures { MatchOption result
        (32 ≡ position_or_len (λ b. b == first || b == second) (take 32 bytes.now))
        (λ n. n ≡ position_or_len (λ b. b == first || b == second) (take 32 bytes.now)) }
{
    let wide = u8x32::from_slice(bytes);
    let is_first = wide.simd_eq(u8x32::splat(first));
    let is_second = wide.simd_eq(u8x32::splat(second));
    let hits = (is_first | is_second).to_bitmask();
    if hits == 0 {
        return None;
    }
    Some(hits.trailing_zeros() as usize)
}

/// As [`skip_blocks`], by two blocks at once while there are two.
#[inline(always)]
fn skip_wide(bytes: &[u8], first: u8, second: u8) -> &[u8]
    ensures shorter { length result.now ≤ length bytes.now }
    ensures first { position_or_len (λ b. b == first || b == second) bytes.now + length result.now
        ≡ position_or_len (λ b. b == first || b == second) result.now + length bytes.now }
{
    let mut rest = bytes;
    while rest.len() >= WIDE {
        if let Some(index) = wide_position(rest, first, second) {
            let (_, hit) = rest.split_at(index);
            return hit;
        }
        let (_, after) = rest.split_at(WIDE);
        rest = after;
    }
    skip_blocks(rest, first, second)
}

/// Returns the index of the first byte that is one of these two.
#[inline(always)]
fn byte_position(bytes: &[u8], first: u8, second: u8) -> Option<usize>
    ensures { result ≡ position (λ b. b == first || b == second) bytes.now }
{
    bytes.iter().position(|b| *b == first || *b == second)
}

/// Returns the index of the first byte that is one of these two, if it is among the first `near`.
#[inline(always)]
fn near_position(bytes: &[u8], near: usize, first: u8, second: u8) -> Option<usize>
    ensures { IfSome result (λ r. r ≡ position_or_len (λ b. b == first || b == second) bytes.now) }
{
    let (front, _) = bytes.split_at(bytes.len().min(near));
    byte_position(front, first, second)
}

/// Returns the index of the first byte that is one of these two, if it is among the first sixteen.
#[inline(always)]
fn block_index(bytes: &[u8], first: u8, second: u8) -> Option<usize>
    requires { 16 ≤ length bytes.now }
    ensures { MatchOption result
        (16 ≡ position_or_len (λ b. b == first || b == second) (take 16 bytes.now))
        (λ r. r ≡ position_or_len (λ b. b == first || b == second) bytes.now) }
{
    let index = block_position(bytes, first, second)?;
    if index < BLOCK { Some(index) } else { None }
}

/// Returns the index of the first byte of the first half block that is one of these two.
#[inline(always)]
fn half_position(bytes: &[u8], first: u8, second: u8) -> Option<usize>
    requires { 8 ≤ length bytes.now }
    ensures { MatchOption result
        (8 ≡ position_or_len (λ b. b == first || b == second) (take 8 bytes.now))
        (λ n. n ≡ position_or_len (λ b. b == first || b == second) (take 8 bytes.now)) }
{
    let block = u8x8::from_slice(bytes);
    let is_first = block.simd_eq(u8x8::splat(first));
    let is_second = block.simd_eq(u8x8::splat(second));
    let hits = (is_first | is_second).to_bitmask();
    if hits == 0 {
        return None;
    }
    Some(hits.trailing_zeros() as usize)
}

/// Returns the index of the first byte that is one of these two, if it is among the first eight.
#[inline(always)]
fn half_index(bytes: &[u8], first: u8, second: u8) -> Option<usize>
    requires { 8 ≤ length bytes.now }
    ensures { IfSome result (λ r. r ≡ position_or_len (λ b. b == first || b == second) bytes.now) }
{
    let index = half_position(bytes, first, second)?;
    if index < HALF { Some(index) } else { None }
}

/// As [`bytes_before`], for less than a block.
#[tactic(auto, using(crate::proofs::ByteLemmas::first_or_all))]
#[inline(always)]
fn few_before(bytes: &[u8], near: Option<usize>, first: u8, second: u8) -> usize
    ensures { result ≡ position_or_len (λ b. b == first || b == second) bytes.now }
{
    if near.is_some() && bytes.len() >= HALF {
        if let Some(index) = half_index(bytes, first, second) {
            return index;
        }
    }
    byte_position(bytes, first, second).unwrap_or(bytes.len())
}

/// Returns how many bytes come before the first that is one of these two: all, if none is. That one
/// is likely to be among the first `near`, if `near` is given, or else among the first sixteen.
#[tactic(auto, using(crate::proofs::ByteLemmas::first_or_all))]
#[inline(always)]
fn bytes_before(bytes: &[u8], near: Option<usize>, first: u8, second: u8) -> usize
    ensures { result ≡ position_or_len (λ b. b == first || b == second) bytes.now }
{
    if bytes.len() < BLOCK {
        return few_before(bytes, near, first, second);
    }
    if let Some(near) = near {
        if let Some(index) = near_position(bytes, near, first, second) {
            return index;
        }
    }
    if let Some(index) = block_index(bytes, first, second) {
        return index;
    }
    let (_, behind) = bytes.split_at(BLOCK);
    let rest = skip_wide(behind, first, second);
    let skipped = bytes.len() - rest.len();
    match byte_position(rest, first, second) {
        Some(index) => skipped + index,
        None => bytes.len(),
    }
}

/// Splits a text before the first of two ASCII characters; at its end, if it has neither.
#[inline(always)]
fn split_before(text: &str, near: Option<usize>, first: u8, second: u8) -> (&str, &str)
    requires first { first < 128 }
    requires second { second < 128 }
    ensures front { chars result.0.now ≡ front_of (avoids first second) (chars text.now) }
    ensures after { chars result.1.now ≡ after_of (avoids first second) (chars text.now) }
    ensures whole { text.now ≡ result.0.now ++ result.1.now }
{
    text.split_at(bytes_before(text.as_bytes(), near, first, second))
}

/// The two characters of which one ends a front of a class, and how near that is likely to be.
#[derive(Clone, Copy)]
struct Ends {
    near: Option<usize>,
    first: u8,
    second: u8,
}

/// Returns which characters end a front of this class, if those are two.
#[inline(always)]
fn ends_of(class: Class) -> Option<Ends>
    ensures ascii { IfSome result (λ e. (e.first < 128) × (e.second < 128)) }
    ensures class { IfSome result (λ e. in_class class ≡ avoids e.first e.second) }
{
    match class {
        Class::Name => Some(Ends {
            near: None,
            first: b':',
            second: b'}',
        }),
        Class::Literal => Some(Ends {
            near: Some(NEAR_LITERAL),
            first: b'{',
            second: b'}',
        }),
        Class::Enclosed => Some(Ends {
            near: None,
            first: b')',
            second: b')',
        }),
        _ => None,
    }
}

/// Splits a text after its longest front of this class. Three classes share a call, which keeps
/// this short: the build takes `inline(always)` away from a function that would grow very large, as
/// those that read a name or a token would.
#[inline(always)]
pub fn split_class(text: &str, class: Class) -> (&str, &str)
    ensures front { chars result.0.now ≡ front_of (in_class class) (chars text.now) }
    ensures after { chars result.1.now ≡ after_of (in_class class) (chars text.now) }
    ensures whole { text.now ≡ result.0.now ++ result.1.now }
{
    if let Some(ends) = ends_of(class) {
        return split_before(text, ends.near, ends.first, ends.second);
    }
    if let Class::WhiteSpace = class {
        return split_space(text);
    }
    split_while(text, class)
}
