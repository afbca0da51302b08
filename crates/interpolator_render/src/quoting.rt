//! Texts between quotes, with escapes.
ghost use Rattle.std.specs.Prelude.{◌≡◌, ◌<◌, ◌++◌, ◌∷◌, [], false, true, codes};
ghost use Rattle.std.specs.{List.flat_map, Str.chars};
ghost use Rattle.interpolator_render.specs.Quoting.{escape_letter, escape_of, quotation};
ghost use Rattle.interpolator_render.specs.{Characters.backslash, Writers.Puts, Writers.Writes};
ghost use Rattle.interpolator_digits.specs.Digits.{digit_text};

use crate::digits::digit_str;
use crate::layout::{Part, put_char, put_parts, put_text};
use crate::text_write::{Refusal, TextWrite};

/// Writes an ASCII character by its number in base sixteen, as `\u{1}`.
fn put_code<W: TextWrite>(out: &mut W, c: char) -> Result<(), Refusal>
    requires { c < 128 }
    ensures { Puts (W.written out.old) (codes "\\u{" ++ (digit_text 16 false c ++ codes "}"))
        result (W.written out.new) }
{
    let mut buffer = [0u8; 128];
    let code = digit_str(c as u128, 16, false, &mut buffer);
    put_parts(
        out,
        &[Part::Text("\\u{"), Part::Text(code), Part::Text("}")],
    )
}

/// The character that is written after a backslash for `c`, if there is one.
fn escape_letter(quote: char, c: char) -> Option<char>
    ensures { result ≡ escape_letter quote c }
{
    if c == quote {
        Some(quote)
    } else if c == '\\' {
        Some('\\')
    } else if c == '\0' {
        Some('0')
    } else if c == '\t' {
        Some('t')
    } else if c == '\r' {
        Some('r')
    } else if c == '\n' {
        Some('n')
    } else {
        None
    }
}

/// Writes a character after a backslash.
fn put_letter<W: TextWrite>(out: &mut W, letter: char) -> Result<(), Refusal>
    ensures { Puts (W.written out.old) (backslash ∷ letter ∷ []) result (W.written out.new) }
{
    let mut bytes = [0u8; 4];
    put_parts(
        out,
        &[Part::Text("\\"), Part::Text(letter.encode_utf8(&mut bytes))],
    )
}

/// Writes a character as it is written between quotes.
fn put_escaped<W: TextWrite>(out: &mut W, quote: char, c: char) -> Result<(), Refusal>
    ensures { Puts (W.written out.old) (escape_of quote c) result (W.written out.new) }
{
    match escape_letter(quote, c) {
        Some(letter) => put_letter(out, letter),
        None => {
            if c < ' ' || c == '\x7f' {
                put_code(out, c)
            } else {
                put_char(out, c)
            }
        }
    }
}

/// Whether a character of one byte is escaped between quotes.
fn is_escaped(quote: char, byte: u8) -> bool
    requires { quote < 128 }
    ensures ascii { result ≡ true → byte < 128 }
    ensures plain { result ≡ false → escape_of quote byte ≡ byte ∷ [] }
{
    byte < b' ' || byte == b'\x7f' || byte == b'\\' || byte == quote as u8
}

/// Writes a run of characters as they are, and the escaped one after it.
#[tactic(auto, using(crate::proofs::LayoutLemmas::run_outcomes))]
fn put_run<W: TextWrite>(out: &mut W, quote: char, run: &str, c: char) -> Result<(), Refusal>
    ensures { Writes (W.written out.old) (chars run.now ++ escape_of quote c) result
        (W.written out.new) }
{
    put_text(out, run)?;
    put_escaped(out, quote, c)
}

/// Writes what is between the quotes: the characters between two escapes by one call.
fn put_inside<W: TextWrite>(out: &mut W, quote: char, text: &str) -> Result<(), Refusal>
    requires { quote < 128 }
    ensures { Writes (W.written out.old) (flat_map (escape_of quote) (chars text.now)) result
        (W.written out.new) }
{
    let bytes = text.as_bytes();
    let mut start = 0;
    for index in 0..bytes.len() {
        if is_escaped(quote, bytes[index]) {
            put_run(out, quote, &text[start..index], bytes[index] as char)?;
            start = index + 1;
        }
    }
    put_text(out, &text[start..])
}

/// Writes a text between quotes, with escapes.
#[inline(never)]
pub(crate) fn put_quoted<W: TextWrite>(out: &mut W, quote: char, text: &str) -> Result<(), Refusal>
    requires { quote < 128 }
    ensures { Writes (W.written out.old) (quotation quote (chars text.now)) result
        (W.written out.new) }
{
    put_char(out, quote)?;
    put_inside(out, quote, text)?;
    put_char(out, quote)
}
