//! Copies of a character, alone and on both sides of a text, written by slices.
ghost use Rattle.std.specs.Prelude.{◌≡◌, ◌+◌, ◌-◌, ◌*◌, ◌++◌, ◌^◌, ◌<◌, ◌≤◌, min, replicate};
ghost use Rattle.std.specs.Prelude.{encode_utf8, encode_utf8_all, length};
ghost use Rattle.std.specs.{Char.len_utf8, Str.chars};
ghost use Rattle.interpolator_digits.specs.Characters.{zero_digit};
ghost use Rattle.interpolator_render.specs.Writers.{Puts, byte_count};
ghost use Rattle.interpolator_render.specs.{Characters.space, Copies.IsRun, Padding.between_fill};

use crate::layout::{byte_len, put_text};
use crate::places::block_around;
use crate::text_write::{Refusal, TextWrite};

/// How many copies of a character are written by one call.
const RUN: usize = 64;

const SPACES: &str = "                                                                ";

const ZEROS: &str = "0000000000000000000000000000000000000000000000000000000000000000";

/// [`RUN`] copies of a character.
#[derive(Clone, Copy)]
struct Run<'a> {
    c: char,
    /// How many bytes the character has.
    unit: usize,
    copies: &'a str,
}

/// The bytes of `count` copies of a character, or the greatest `usize` if they are more.
#[tactic(auto, using(crate::proofs::LayoutLemmas::bytes_of_copies))]
pub(crate) fn copies_len(c: char, count: usize) -> usize
    ensures { result ≡ min (byte_count (replicate count c)) (2 ^ 64 - 1) }
{
    count.saturating_mul(c.len_utf8())
}

/// Writes the first `count` copies of a run by one call. It takes the parts of the run one by one,
/// since they fit in registers.
fn put_first<W: TextWrite>(
    out: &mut W,
    c: char,
    unit: usize,
    copies: &str,
    count: usize,
) -> Result<(), Refusal>
    requires unit { unit ≡ len_utf8 c }
    requires copies { copies.now ≡ encode_utf8_all (replicate 64 c) }
    requires few { count ≤ 64 }
    ensures { Puts (W.written out.old) (replicate count c) result (W.written out.new) }
{
    out.write_str(&copies[..count * unit])
}

/// Writes `count` copies, at most [`RUN`], by one call.
#[inline(always)]
fn put_few<W: TextWrite>(out: &mut W, run: Run<'_>, count: usize) -> Result<(), Refusal>
    requires run { IsRun run }
    requires few { count ≤ 64 }
    ensures { Puts (W.written out.old) (replicate count run.entry.c) result (W.written out.new) }
{
    put_first(out, run.c, run.unit, run.copies, count)
}

/// Writes [`RUN`] copies by one call.
#[inline(always)]
fn put_whole_run<W: TextWrite>(out: &mut W, run: Run<'_>) -> Result<(), Refusal>
    requires { IsRun run }
    ensures { Puts (W.written out.old) (replicate 64 run.entry.c) result (W.written out.new) }
{
    out.write_str(run.copies)
}

/// The bytes of `count` copies of a run's character, or the greatest `usize` if they are more.
#[tactic(auto, using(crate::proofs::LayoutLemmas::bytes_of_copies))]
fn run_len(run: Run<'_>, count: usize) -> usize
    requires { IsRun run }
    ensures { result ≡ min (byte_count (replicate count run.entry.c)) (2 ^ 64 - 1) }
{
    count.saturating_mul(run.unit)
}

/// The refusal of a text that comes after `count` copies.
fn refused_after(run: Run<'_>, count: usize, refusal: Refusal) -> Refusal
    requires { IsRun run }
    ensures { result.taken ≡ min (min (byte_count (replicate count run.entry.c)) (2 ^ 64 - 1)
        + refusal.taken) (2 ^ 64 - 1) }
{
    let taken = run_len(run, count).saturating_add(refusal.taken);
    Refusal { taken }
}

/// Writes `count` copies, run after run. First the writer may make room for these, and for `later`
/// more that come after them.
#[cold]
#[inline(never)]
fn put_runs<W: TextWrite>(
    out: &mut W,
    run: Run<'_>,
    count: usize,
    later: usize,
) -> Result<(), Refusal>
    requires run { IsRun run }
    requires some { 0 < count }
    ensures { Puts (W.written out.old) (replicate count run.entry.c) result (W.written out.new) }
{
    out.reserve(run_len(run, count.saturating_add(later)))?;
    let mut left = count;
    while left > RUN {
        if let Err(refusal) = put_whole_run(out, run) {
            return Err(refused_after(run, count - left, refusal));
        }
        left -= RUN;
    }
    if let Err(refusal) = put_few(out, run, left) {
        return Err(refused_after(run, count - left, refusal));
    }
    Ok(())
}

/// Writes `count` copies by slices of a run, and makes no call if there are none. If they are many,
/// the writer may first make room also for `later` more.
fn put_sliced<W: TextWrite>(
    out: &mut W,
    run: Run<'_>,
    count: usize,
    later: usize,
) -> Result<(), Refusal>
    requires { IsRun run }
    ensures { Puts (W.written out.old) (replicate count run.entry.c) result (W.written out.new) }
{
    if count == 0 {
        return Ok(());
    }
    if count <= RUN {
        return put_few(out, run, count);
    }
    put_runs(out, run, count, later)
}

/// Writes a text and `after` copies after it.
#[inline(always)]
fn put_before<W: TextWrite>(
    out: &mut W,
    text: &str,
    run: Run<'_>,
    after: usize,
) -> Result<(), Refusal>
    requires { IsRun run }
    ensures { Puts (W.written out.old) (chars text.now ++ replicate after run.entry.c) result
        (W.written out.new) }
{
    if let Err(refusal) = put_text(out, text) {
        return Err(refusal);
    }
    if let Err(refusal) = put_sliced(out, run, after, 0) {
        let taken = byte_len(text).saturating_add(refusal.taken);
        return Err(Refusal { taken });
    }
    Ok(())
}

/// Writes a text between copies.
#[inline(always)]
fn put_amid<W: TextWrite>(
    out: &mut W,
    text: &str,
    run: Run<'_>,
    before: usize,
    after: usize,
) -> Result<(), Refusal>
    requires { IsRun run }
    ensures { Puts (W.written out.old) (between_fill run.entry.c before after (chars text.now))
        result (W.written out.new) }
{
    if let Err(refusal) = put_sliced(out, run, before, after) {
        return Err(refusal);
    }
    if let Err(refusal) = put_before(out, text, run, after) {
        return Err(refused_after(run, before, refusal));
    }
    Ok(())
}

/// How many copies go before a text and after it.
#[derive(Clone, Copy)]
struct Sides {
    before: usize,
    after: usize,
}

/// Writes a text between copies of a character that has these bytes.
#[inline(always)]
fn put_amid_copies<W: TextWrite, const N: usize>(
    out: &mut W,
    text: &str,
    c: char,
    bytes: [u8; N],
    sides: Sides,
) -> Result<(), Refusal>
    requires bytes { bytes ≡ encode_utf8 c }
    requires unit { N ≡ len_utf8 c }
    ensures { Puts (W.written out.old) (between_fill c sides.before sides.after (chars text.now))
        result (W.written out.new) }
{
    let copies = [bytes; RUN];
    let run = Run {
        c,
        unit: N,
        copies: unsafe { str::from_utf8_unchecked(copies.as_flattened()) },
    };
    put_amid(out, text, run, sides.before, sides.after)
}

/// Writes a text between copies of any character. In each of its calls the compiler knows how many
/// bytes the character has.
#[inline(always)]
pub(crate) fn put_between<W: TextWrite>(
    out: &mut W,
    text: &str,
    c: char,
    before: usize,
    after: usize,
) -> Result<(), Refusal>
    ensures { Puts (W.written out.old) (between_fill c before after (chars text.now)) result
        (W.written out.new) }
{
    let sides = Sides { before, after };
    let mut bytes = [0u8; 4];
    match c.encode_utf8(&mut bytes).as_bytes() {
        [a] => put_amid_copies(out, text, c, [*a], sides),
        [a, b] => put_amid_copies(out, text, c, [*a, *b], sides),
        [a, b, d] => put_amid_copies(out, text, c, [*a, *b, *d], sides),
        [a, b, d, e] => put_amid_copies(out, text, c, [*a, *b, *d, *e], sides),
        _ => unreachable!(),
    }
}

/// Writes a text between copies of an ASCII character, made in one block and written by one call.
#[inline(always)]
pub(crate) fn put_in_block<W: TextWrite>(
    out: &mut W,
    text: &str,
    fill: u8,
    before: usize,
    after: usize,
) -> Result<(), Refusal>
    requires ascii { fill < 128 }
    requires fits { before + length text.now + after ≤ 64 }
    ensures { Puts (W.written out.old) (between_fill fill before after (chars text.now)) result
        (W.written out.new) }
{
    let block = block_around(text.as_bytes(), fill, before);
    let shown = &block[..before + text.len() + after];
    put_text(out, unsafe { str::from_utf8_unchecked(shown) })
}

/// A run of spaces.
fn spaces() -> Run<'static>
    ensures run { IsRun result }
    ensures space { result.c ≡ space }
{
    Run {
        c: ' ',
        unit: 1,
        copies: SPACES,
    }
}

/// A run of zeros.
fn zeros() -> Run<'static>
    ensures run { IsRun result }
    ensures zero { result.c ≡ zero_digit }
{
    Run {
        c: '0',
        unit: 1,
        copies: ZEROS,
    }
}

/// Writes a text between spaces.
#[inline(never)]
pub(crate) fn put_between_spaces<W: TextWrite>(
    out: &mut W,
    text: &str,
    before: usize,
    after: usize,
) -> Result<(), Refusal>
    ensures { Puts (W.written out.old) (between_fill space before after (chars text.now)) result
        (W.written out.new) }
{
    put_amid(out, text, spaces(), before, after)
}

/// Writes copies of a character that is neither a space nor a zero.
#[inline(never)]
fn put_other_copies<W: TextWrite>(out: &mut W, c: char, count: usize) -> Result<(), Refusal>
    ensures { Puts (W.written out.old) (replicate count c) result (W.written out.new) }
{
    put_between(out, "", c, count, 0)
}

/// Writes copies of a character alone.
#[inline(always)]
pub(crate) fn put_copies<W: TextWrite>(out: &mut W, c: char, count: usize) -> Result<(), Refusal>
    ensures { Puts (W.written out.old) (replicate count c) result (W.written out.new) }
{
    match c {
        ' ' => put_sliced(out, spaces(), count, 0),
        '0' => put_sliced(out, zeros(), count, 0),
        _ => put_other_copies(out, c, count),
    }
}
