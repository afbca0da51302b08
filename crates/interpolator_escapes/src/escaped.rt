//! Texts, written escaped.
ghost use Rattle.std.specs.Prelude.{◌≡◌, ◌+◌, ◌≤◌, ◌<◌, ◌∷◌, ◌++◌, [], length, take, drop, IsUtf8};
ghost use Rattle.std.specs.Prelude.{MatchResult, OnOk};
ghost use Rattle.std.specs.{List.flat_map, Str.chars, Str.IsCharBoundary};
ghost use Rattle.interpolator_render.specs.Writers.{AppendsBeginning, Puts, Writes, byte_count};
ghost use Rattle.interpolator_escapes.specs.Escapes.{escape_of, escaped, json_escape};
ghost use Rattle.interpolator_escapes.specs.Rooms.{HasPlace, Moves, way_of};
ghost use Rattle.interpolator_escapes.specs.Wholes.{json_null, json_string};

use crate::escape::Escape;
use crate::laid::lay_one;
use crate::room::Room;
use crate::search::{BLOCK, front_of_block, split_escaped};
use interpolator_render::{Refusal, TextWrite};
use interpolator_syntax::split_first;

/// How full a room may be before a step: it then has place for a block and an escape.
const MOST: usize = 298;

/// Writes one character.
#[tactic(auto, using(interpolator_render::proofs::LayoutLemmas::one_write))]
#[inline(always)]
fn put_char<W: TextWrite>(out: &mut W, c: char) -> Result<(), Refusal>
    ensures { Puts (W.written out.old) (c ∷ []) result (W.written out.new) }
{
    out.write_char(c)
}

/// Writes a text by one call, or by none if it is empty.
#[tactic(auto, using(interpolator_render::proofs::LayoutLemmas::one_write))]
#[inline(always)]
fn put_text<W: TextWrite>(out: &mut W, text: &str) -> Result<(), Refusal>
    ensures { Puts (W.written out.old) (chars text.now) result (W.written out.new) }
{
    if text.is_empty() {
        return Ok(());
    }
    out.write_str(text)
}

/// Lays a front of a text that has a block or more, and returns what comes after it.
#[inline(always)]
fn lay_run<'t>(room: &mut Room, text: &'t str, count: usize) -> &'t str
    requires place { HasPlace room.old 16 }
    requires block { 16 ≤ length text.now }
    requires few { count ≤ 16 }
    requires cut { IsCharBoundary text.now count }
    ensures text { room.new ≡ room.old ++ chars (take count text.now) }
    ensures size { byte_count room.new ≡ byte_count room.old + count }
    ensures rest { result.now ≡ drop count text.now }
    ensures utf8 { IsUtf8 result.now }
{
    room.lay_front(text, count);
    let (_, rest) = text.split_at(count);
    rest
}

/// Lays the first character of a text, escaped if it is to be, and returns what comes after it.
#[inline(always)]
fn lay_first<'t>(room: &mut Room, escape: Escape, text: &'t str) -> &'t str
    requires { HasPlace room.old 6 }
    ensures same { room.new ++ escaped escape (chars result.now)
        ≡ room.old ++ escaped escape (chars text.now) }
    ensures size { byte_count room.new ≤ byte_count room.old + 6 }
    ensures shorter { 0 < length text.now → length result.now < length text.now }
    ensures utf8 { IsUtf8 result.now }
{
    match split_first(text) {
        Some((c, after)) => {
            lay_one(room, escape, c);
            after
        }
        None => text,
    }
}

/// Lays a text of less than a block up to the first character that may be escaped, and that one.
#[inline(always)]
fn lay_short<'t>(room: &mut Room, escape: Escape, text: &'t str) -> &'t str
    requires place { HasPlace room.old 22 }
    requires short { length text.now < 16 }
    requires some { 0 < length text.now }
    ensures same { room.new ++ escaped escape (chars result.now)
        ≡ room.old ++ escaped escape (chars text.now) }
    ensures size { byte_count room.new ≤ byte_count room.old + 22 }
    ensures shorter { length result.now < length text.now }
    ensures utf8 { IsUtf8 result.now }
{
    match split_escaped(escape, text) {
        Some((run, c, after)) => {
            room.lay(run);
            lay_one(room, escape, c);
            after
        }
        None => {
            room.lay(text);
            ""
        }
    }
}

/// Lays a beginning of a text, escaped: up to the first character of a block that may be escaped,
/// and that one, or else the whole block. Returns what comes after it.
#[inline(always)]
fn lay_next<'t>(room: &mut Room, escape: Escape, text: &'t str) -> &'t str
    requires place { HasPlace room.old 22 }
    requires some { 0 < length text.now }
    ensures same { room.new ++ escaped escape (chars result.now)
        ≡ room.old ++ escaped escape (chars text.now) }
    ensures size { byte_count room.new ≤ byte_count room.old + 22 }
    ensures shorter { length result.now < length text.now }
    ensures utf8 { IsUtf8 result.now }
{
    if text.len() < BLOCK {
        return lay_short(room, escape, text);
    }
    let front = front_of_block(escape, text.as_bytes(), 0);
    if front < BLOCK {
        let rest = lay_run(room, text, front);
        return lay_first(room, escape, rest);
    }
    lay_run(room, text, text.floor_char_boundary(BLOCK))
}

/// Writes what was laid, and empties the room.
fn put_room<W: TextWrite>(out: &mut W, room: &mut Room) -> Result<(), Refusal>
    ensures moved { MatchResult result
        (λ _. Moves (W.written out.old) room.old room.new (W.written out.new))
        (λ _. AppendsBeginning (W.written out.old) room.old (W.written out.new)) }
    ensures place { OnOk result (room.new ≡ []) }
{
    put_text(out, room.as_str())?;
    room.clear();
    Ok(())
}

/// Writes what was laid, if the room has no place for a step.
#[inline(always)]
fn make_place<W: TextWrite>(out: &mut W, room: &mut Room) -> Result<(), Refusal>
    ensures moved { MatchResult result
        (λ _. Moves (W.written out.old) room.old room.new (W.written out.new))
        (λ _. AppendsBeginning (W.written out.old) room.old (W.written out.new)) }
    ensures place { OnOk result (HasPlace room.new 22) }
{
    if room.len() <= MOST {
        return Ok(());
    }
    put_room(out, room)
}

/// Writes a character and the text after it escaped, by way of a room.
#[inline(always)]
fn put_from<W: TextWrite>(out: &mut W, escape: Escape, c: char, after: &str) -> Result<(), Refusal>
    ensures { Writes (W.written out.old)
        (escape_of escape c ++ escaped escape (chars after.now)) result (W.written out.new) }
{
    let mut room = Room::new();
    lay_one(&mut room, escape, c);
    put_rest(out, &mut room, escape, after)
}

/// Returns the escape, which its number tells as well: where that is a constant, so is the answer.
#[inline(always)]
fn known(way: u8, escape: Escape) -> Escape
    requires { way ≡ way_of escape }
    ensures { result ≡ escape }
{
    match way {
        0 => Escape::Line,
        1 => Escape::Html,
        2 => Escape::Csv,
        3 => Escape::Json,
        _ => Escape::Shell,
    }
}

/// As [`lay_next`], compiled for one escape.
#[inline(always)]
fn lay_known<'t, const WAY: u8>(room: &mut Room, escape: Escape, text: &'t str) -> &'t str
    requires way { WAY ≡ way_of escape }
    requires place { HasPlace room.old 22 }
    requires some { 0 < length text.now }
    ensures same { room.new ++ escaped escape (chars result.now)
        ≡ room.old ++ escaped escape (chars text.now) }
    ensures size { byte_count room.new ≤ byte_count room.old + 22 }
    ensures shorter { length result.now < length text.now }
    ensures utf8 { IsUtf8 result.now }
{
    lay_next(room, known(WAY, escape), text)
}

/// Writes what was laid in a room and a text after it, escaped.
fn put_steps<W: TextWrite, const WAY: u8>(
    out: &mut W,
    room: &mut Room,
    escape: Escape,
    text: &str,
) -> Result<(), Refusal>
    requires way { WAY ≡ way_of escape }
    requires place { HasPlace room.old 22 }
    ensures { Writes (W.written out.old)
        (room.old ++ escaped escape (chars text.now)) result (W.written out.new) }
{
    let mut rest = text;
    while !rest.is_empty() {
        rest = lay_known::<WAY>(room, escape, rest);
        make_place(out, room)?;
    }
    put_text(out, room.as_str())
}

/// As [`put_steps`].
#[inline(never)]
fn put_rest<W: TextWrite>(
    out: &mut W,
    room: &mut Room,
    escape: Escape,
    text: &str,
) -> Result<(), Refusal>
    requires { HasPlace room.old 22 }
    ensures { Writes (W.written out.old) (room.old ++ escaped escape (chars text.now)) result
        (W.written out.new) }
{
    match escape {
        Escape::Line => put_steps::<W, 0>(out, room, Escape::Line, text),
        Escape::Html => put_steps::<W, 1>(out, room, Escape::Html, text),
        Escape::Csv => put_steps::<W, 2>(out, room, Escape::Csv, text),
        Escape::Json => put_steps::<W, 3>(out, room, Escape::Json, text),
        Escape::Shell => put_steps::<W, 4>(out, room, Escape::Shell, text),
    }
}

/// Writes a text escaped: what comes before the first character that may be escaped as it is, and
/// the others by way of a room. It is compiled for each escape by itself.
#[inline(always)]
fn put_runs<W: TextWrite>(out: &mut W, escape: Escape, text: &str) -> Result<(), Refusal>
    ensures { Writes (W.written out.old) (escaped escape (chars text.now)) result
        (W.written out.new) }
{
    match split_escaped(escape, text) {
        Some((run, c, after)) => {
            put_text(out, run)?;
            put_from(out, escape, c, after)
        }
        None => put_text(out, text),
    }
}

/// Writes a text escaped as a string of JSON, and the quote after it.
#[tactic(auto, using(interpolator_render::proofs::LayoutLemmas::run_outcomes))]
fn put_string_to_quote<W: TextWrite>(out: &mut W, text: &str) -> Result<(), Refusal>
    ensures { Writes (W.written out.old) (flat_map json_escape (chars text.now) ++ 34 ∷ []) result
        (W.written out.new) }
{
    put_escaped(out, Escape::Json, text)?;
    put_char(out, '"')
}

/// Writes a text as a string of JSON, with its quotes.
pub(crate) fn put_json_string<W: TextWrite>(out: &mut W, text: &str) -> Result<(), Refusal>
    ensures { Writes (W.written out.old) (json_string (chars text.now)) result (W.written out.new) }
{
    put_char(out, '"')?;
    put_string_to_quote(out, text)
}

/// Writes `null`.
pub(crate) fn put_json_null<W: TextWrite>(out: &mut W) -> Result<(), Refusal>
    ensures { Writes (W.written out.old) json_null result (W.written out.new) }
{
    put_text(out, "null")
}

/// Writes a text escaped. What comes before the first character that is escaped is written by one
/// call, so a text without any costs little more than a copy; what comes then by parts of some 300
/// bytes.
///
/// An `Err` means that the writer refused a part: it then has a beginning of the escaped text,
/// which may end amid an escape.
///
/// ```text
/// put_escaped(&mut out, Escape::Csv, "5\" nails")?;    // 5"" nails
/// put_escaped(&mut out, Escape::Shell, "it's")?;       // it'\''s
/// ```
pub fn put_escaped<W: TextWrite>(out: &mut W, escape: Escape, text: &str) -> Result<(), Refusal>
    ensures { Writes (W.written out.old) (escaped escape (chars text.now)) result
        (W.written out.new) }
{
    match escape {
        Escape::Line => put_runs(out, Escape::Line, text),
        Escape::Html => put_runs(out, Escape::Html, text),
        Escape::Csv => put_runs(out, Escape::Csv, text),
        Escape::Json => put_runs(out, Escape::Json, text),
        Escape::Shell => put_runs(out, Escape::Shell, text),
    }
}
