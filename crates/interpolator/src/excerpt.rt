//! A line of a text, shown with marks under some of its characters.
ghost use Rattle.std.specs.Prelude.{◌≡◌, ◌<◌, ◌+◌, ◌-◌, ◌++◌, ◌∷◌, length, take, drop, map};
ghost use Rattle.std.specs.Prelude.{replicate, IfOk, encode_utf8_all, string_bytes};
ghost use Rattle.std.specs.Str.{chars};
ghost use Rattle.interpolator.specs.Excerpts.{excerpt_of, first_shown, dots, under};
ghost use Rattle.interpolator.specs.Excerpts.{gap, mark, picture, side_mark, space};

use interpolator_render::char_count;
use std::alloc::{AllocError, Global};

/// The most characters of a line that are shown.
const MOST_SHOWN: usize = 120;

/// How many of these come before the place around which a longer line is cut.
const SHOWN_BEFORE: usize = 60;

/// The first `count` characters of a text, and the rest.
fn split_after(text: &str, count: usize) -> (&str, &str)
    ensures front { chars result.0.now ≡ take count (chars text.now) }
    ensures rest { chars result.1.now ≡ drop count (chars text.now) }
{
    let mut seen = 0usize;
    let mut end = 0usize;
    for c in text.chars() {
        if seen >= count {
            return text.split_at(end);
        }
        seen += 1;
        end += c.len_utf8();
    }
    (text, "")
}

/// What stands under a character of a line: a tab under a tab, else this sign.
fn sign_under(c: char, sign: char) -> char
    requires { sign < 128 }
    ensures sign { result ≡ under sign c }
    ensures ascii { result < 128 }
{
    if c == '\t' { '\t' } else { sign }
}

/// What stands under a text: this sign under each character, but a tab under a tab.
fn signs_under(alloc: Global, text: &str, sign: char) -> Result<String, AllocError>
    requires { sign < 128 }
    ensures { IfOk result (λ signs. string_bytes signs ≡ map (under sign) (chars text.now)) }
{
    text.chars().map(|c| sign_under(c, sign)).collect(alloc)
}

/// A text of `count` copies of a character.
fn copies(alloc: Global, c: char, count: usize) -> Result<String, AllocError>
    requires { c < 128 }
    ensures { IfOk result (λ text. string_bytes text ≡ replicate count c) }
{
    let mut text = String::new(alloc);
    for _i in 0..count {
        text.push(c)?;
    }
    Ok(text)
}

/// What is shown where a line is cut.
fn dots(cut: bool) -> &'static str
    ensures { result.now ≡ dots cut }
{
    if cut { ".." } else { "" }
}

/// What stands under it.
fn dot_spaces(cut: bool) -> &'static str
    ensures { result.now ≡ map (under space) (dots cut) }
{
    if cut { "  " } else { "" }
}

/// The part of a line that is shown, with dots where the line is cut before it and after it.
fn shown_line(alloc: Global, cut: (bool, bool), part: &str) -> Result<String, AllocError>
    ensures { IfOk result (λ shown. string_bytes shown
        ≡ dots cut.0 ++ (encode_utf8_all (chars part.now) ++ dots cut.1)) }
{
    let (left, right) = (dots(cut.0), dots(cut.1));
    let shown = format!(in alloc; "{left}{part}{right}")?;
    Ok(shown)
}

/// What stands under a line that is shown.
fn marks_under(
    alloc: Global,
    cut: bool,
    before: &str,
    marked_before: &str,
    marked: &str,
) -> Result<String, AllocError>
    ensures { IfOk result (λ marks. string_bytes marks ≡ map (under space) (dots cut)
        ++ (map (under space) (chars before.now)
        ++ (map (under side_mark) (chars marked_before.now)
        ++ (mark ∷ map (under side_mark) (drop 1 (chars marked.now)))))) }
{
    let left = dot_spaces(cut);
    let spaces = signs_under(alloc, before, ' ')?;
    let ahead = signs_under(alloc, marked_before, '~')?;
    let (_, rest) = split_after(marked, 1);
    let behind = signs_under(alloc, rest, '~')?;
    let marks = format!(in alloc; "{left}{spaces}{ahead}^{behind}")?;
    Ok(marks)
}

/// The index of the first character shown, of a line of `count` characters that is cut around one.
fn first_shown(count: usize, around: usize) -> usize
    ensures { result ≡ first_shown count around }
{
    if count <= MOST_SHOWN {
        0
    } else {
        around.saturating_sub(SHOWN_BEFORE)
    }
}

/// Spaces as wide as a number.
pub(crate) fn gap(alloc: Global, number: usize) -> Result<String, AllocError>
    ensures { IfOk result (λ spaces. string_bytes spaces ≡ gap number) }
{
    let digits = format!(in alloc; "{number}")?;
    let gap = copies(alloc, ' ', digits.len())?;
    Ok(gap)
}

/// The line of this number, cut around one of its characters, with `^` under that one and `~` under
/// the others of those of the indexes `marked.0` up to `marked.1`, counted from 0.
pub(crate) fn draw(
    alloc: Global,
    number: usize,
    line: &str,
    around: usize,
    marked: (usize, usize),
) -> Result<String, AllocError>
    ensures { IfOk result (λ drawn. string_bytes drawn
        ≡ picture number (excerpt_of (chars line.now) around marked.0 marked.1)) }
{
    let count = char_count(line);
    let left = first_shown(count, around);
    let (_, rest) = split_after(line, left);
    let (part, _) = split_after(rest, MOST_SHOWN);
    let (front, back) = split_after(part, around.saturating_sub(left));
    let from = marked.0.saturating_sub(left);
    let (before, marked_before) = split_after(front, from);
    let (marked, _) = split_after(back, marked.1.saturating_sub(around));
    let cut = (0 < left, MOST_SHOWN < count.saturating_sub(left));
    let shown = shown_line(alloc, cut, part)?;
    let marks = marks_under(alloc, cut.0, before, marked_before, marked)?;
    let gap = gap(alloc, number)?;
    let drawn = format!(in alloc; "{gap} |\n{number} | {shown}\n{gap} | {marks}")?;
    Ok(drawn)
}
