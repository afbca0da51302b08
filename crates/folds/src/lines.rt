//! The lines on which a text stands.

ghost use Rattle.std.specs.Prelude.{◌≡◌, ◌++◌, IfOk, map, string_bytes};
ghost use Rattle.folds.specs.Lines.{as_spot, folded, goes_on, is_blank, is_further};
ghost use Rattle.folds.specs.Lines.{is_indented, is_more, next_spot, part_of, passes, spot_of};

use std::alloc::{AllocError, Global};

/// Where a byte of what lines write stands.
#[derive(Clone, Copy)]
pub struct Spot<'a> {
    /// How many lines after the first it stands.
    pub index: usize,
    /// The text of its line.
    pub text: &'a str,
    /// The byte of the line at which the part of the text begins that it writes.
    pub begin: usize,
    /// The byte of that part.
    pub byte: usize,
}

/// Whether a line has only white space.
pub fn is_blank(line: &str) -> bool
    ensures { result ≡ is_blank line.now }
{
    line.trim().is_empty()
}

/// Whether a line begins with a blank or a tab.
fn is_indented(line: &str) -> bool
    ensures { result ≡ is_indented line.now }
{
    line.starts_with(' ') || line.starts_with('\t')
}

/// Whether a line goes on with the text before it: it begins with a blank or a tab, and has more
/// than white space.
pub fn goes_on(line: &str) -> bool
    ensures { result ≡ goes_on line.now }
{
    is_indented(line) && !is_blank(line)
}

/// Whether a line ends no text: it is blank, or goes on.
fn is_more(line: &str) -> bool
    ensures { result ≡ is_more line.now }
{
    is_indented(line) || is_blank(line)
}

/// Appends what a line writes, after a line end: its text without the white space that it begins
/// with. A blank line writes nothing.
fn push_line(all: &mut String, line: &str) -> Result<(), AllocError>
    ensures { IfOk result (λ _.
        string_bytes all.new ≡ string_bytes all.old ++ part_of line.now) }
{
    if is_blank(line) {
        return Ok(());
    }
    all.push('\n')?;
    all.push_str(line.trim_start())
}

/// What lines write: the rest of the first, and the lines after it that go on, each after a line
/// end.
pub fn written(alloc: Global, first: &str, rest: &[&str]) -> Result<String, AllocError>
    ensures { IfOk result (λ all.
        string_bytes all ≡ first.now ++ folded (map (λ line. line.now) rest.now)) }
{
    let mut all = String::from_str(alloc, first)?;
    for line in rest {
        if !is_more(line) {
            return Ok(all);
        }
        push_line(&mut all, line)?;
    }
    Ok(all)
}

/// The byte that stands so far behind the line of a spot, on this line.
fn next_spot<'a>(spot: Spot<'a>, index: usize, line: &'a str) -> Spot<'a>
    ensures { as_spot result ≡ next_spot (as_spot spot.entry) index line.now }
{
    if is_blank(line) {
        return spot;
    }
    let passed = spot.text.len().saturating_sub(spot.begin);
    Spot {
        index,
        text: line,
        begin: line.len().saturating_sub(line.trim_start().len()),
        byte: spot.byte.saturating_sub(passed).saturating_sub(1),
    }
}

/// Whether a spot is past the end of its line.
fn passes(spot: Spot<'_>) -> bool
    ensures { result ≡ passes (as_spot spot.entry) }
{
    spot.text.len().saturating_sub(spot.begin) < spot.byte
}

/// Whether a byte stands on a later line than that of its spot, before which this line stands.
fn is_further(spot: Spot<'_>, line: &str) -> bool
    ensures { result ≡ is_further (as_spot spot.entry) line.now }
{
    passes(spot) && is_more(line)
}

/// Where a byte stands of what lines write, of which the first begins at a byte of its line.
pub fn spot_of<'a>(line: &'a str, begin: usize, rest: &[&'a str], byte: usize) -> Spot<'a>
    ensures { as_spot result ≡ spot_of line.now begin (map (λ line. line.now) rest.now) byte }
{
    let mut spot = Spot {
        index: 0,
        text: line,
        begin,
        byte,
    };
    let mut index = 0usize;
    for next in rest {
        index += 1;
        if !is_further(spot, next) {
            return spot;
        }
        spot = next_spot(spot, index, next);
    }
    spot
}
