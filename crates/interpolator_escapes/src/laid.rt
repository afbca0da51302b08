//! Characters, laid escaped.
ghost use Rattle.std.specs.Prelude.{◌≡◌, ◌<◌, ◌≤◌, ◌∷◌, ◌+◌, ◌++◌, length};
ghost use Rattle.std.specs.Str.{chars};
ghost use Rattle.interpolator_render.specs.Writers.{byte_count};
ghost use Rattle.interpolator_escapes.specs.Escapes.{escape_of, line_escape, html_escape};
ghost use Rattle.interpolator_escapes.specs.Escapes.{csv_escape, json_escape, shell_escape};
ghost use Rattle.interpolator_escapes.specs.Escapes.{hex_digit, two_digits, four_digits};
ghost use Rattle.interpolator_escapes.specs.Escapes.{is_control, control_escape};
ghost use Rattle.interpolator_escapes.specs.Rooms.{HasPlace};

use crate::escape::Escape;
use crate::room::Room;

/// Returns the digit of a number below 16, in base sixteen.
fn hex_digit(number: u32) -> char
    requires { number < 16 }
    ensures digit { result ≡ hex_digit number }
    ensures ascii { result < 128 }
{
    let number = number as u8;
    if number < 10 {
        (b'0' + number) as char
    } else {
        (b'a' + (number - 10)) as char
    }
}

/// Lays a beginning, and the last two digits of a code in base sixteen.
#[inline(always)]
fn lay_two_digits(room: &mut Room, front: &str, code: u32)
    requires { HasPlace room.old (length front.now + 2) }
    ensures text { room.new ≡ room.old ++ (chars front.now ++ two_digits code) }
    ensures size { byte_count room.new ≡ byte_count room.old + (length front.now + 2) }
{
    room.lay(front);
    room.lay_ascii(hex_digit(code / 16 % 16));
    room.lay_ascii(hex_digit(code % 16));
}

/// Lays a `\u` and the last four digits of a code in base sixteen.
#[inline(never)]
fn lay_four_digits(room: &mut Room, code: u32)
    requires { HasPlace room.old 6 }
    ensures text { room.new ≡ room.old ++ 92 ∷ 117 ∷ four_digits code }
    ensures size { byte_count room.new ≡ byte_count room.old + 6 }
{
    lay_two_digits(room, "\\u", code / 256);
    lay_two_digits(room, "", code);
}

/// Returns whether a character is a control of a line.
pub(crate) fn is_control(c: char) -> bool
    ensures { result ≡ is_control c }
{
    match c {
        '\0'..='\x1f' | '\x7f'..='\u{9f}' => true,
        '\u{61c}' | '\u{200e}' | '\u{200f}' => true,
        '\u{2028}'..='\u{202e}' | '\u{2066}'..='\u{2069}' => true,
        _ => false,
    }
}

/// Lays a character as `\x1b` or `\u202e`.
#[inline(never)]
fn lay_control(room: &mut Room, c: char)
    requires { HasPlace room.old 6 }
    ensures text { room.new ≡ room.old ++ control_escape c }
    ensures size { byte_count room.new ≤ byte_count room.old + 6 }
{
    if c < '\u{100}' {
        lay_two_digits(room, "\\x", c as u32);
    } else {
        lay_four_digits(room, c as u32);
    }
}

/// Lays a character of a line.
#[inline(always)]
fn lay_line(room: &mut Room, c: char)
    requires { HasPlace room.old 6 }
    ensures text { room.new ≡ room.old ++ line_escape c }
    ensures size { byte_count room.new ≤ byte_count room.old + 6 }
{
    if c == '\\' {
        room.lay("\\\\");
    } else if c == '\n' {
        room.lay("\\n");
    } else if c == '\r' {
        room.lay("\\r");
    } else if c == '\t' {
        room.lay("\\t");
    } else if is_control(c) {
        lay_control(room, c);
    } else {
        room.lay_char(c);
    }
}

/// Lays a character of text or of an attribute's value.
#[inline(always)]
fn lay_html(room: &mut Room, c: char)
    requires { HasPlace room.old 6 }
    ensures text { room.new ≡ room.old ++ html_escape c }
    ensures size { byte_count room.new ≤ byte_count room.old + 6 }
{
    if c == '&' {
        room.lay("&amp;");
    } else if c == '<' {
        room.lay("&lt;");
    } else if c == '>' {
        room.lay("&gt;");
    } else if c == '"' {
        room.lay("&quot;");
    } else if c == '\'' {
        room.lay("&#39;");
    } else {
        room.lay_char(c);
    }
}

/// Lays a character of a quoted field.
#[inline(always)]
fn lay_csv(room: &mut Room, c: char)
    requires { HasPlace room.old 6 }
    ensures text { room.new ≡ room.old ++ csv_escape c }
    ensures size { byte_count room.new ≤ byte_count room.old + 6 }
{
    if c == '"' {
        room.lay("\"\"");
    } else {
        room.lay_char(c);
    }
}

/// Lays a character of a string.
#[inline(always)]
fn lay_json(room: &mut Room, c: char)
    requires { HasPlace room.old 6 }
    ensures text { room.new ≡ room.old ++ json_escape c }
    ensures size { byte_count room.new ≤ byte_count room.old + 6 }
{
    if c == '\\' {
        room.lay("\\\\");
    } else if c == '"' {
        room.lay("\\\"");
    } else if c == '\n' {
        room.lay("\\n");
    } else if c == '\r' {
        room.lay("\\r");
    } else if c == '\t' {
        room.lay("\\t");
    } else if c < ' ' || c == '<' {
        lay_four_digits(room, c as u32);
    } else {
        room.lay_char(c);
    }
}

/// Lays a character of a word.
#[inline(always)]
fn lay_shell(room: &mut Room, c: char)
    requires { HasPlace room.old 6 }
    ensures text { room.new ≡ room.old ++ shell_escape c }
    ensures size { byte_count room.new ≤ byte_count room.old + 6 }
{
    if c == '\'' {
        room.lay("'\\''");
    } else {
        room.lay_char(c);
    }
}

/// Lays a character, escaped if it is to be.
#[inline(always)]
pub(crate) fn lay_one(room: &mut Room, escape: Escape, c: char)
    requires { HasPlace room.old 6 }
    ensures text { room.new ≡ room.old ++ escape_of escape c }
    ensures size { byte_count room.new ≤ byte_count room.old + 6 }
{
    match escape {
        Escape::Line => lay_line(room, c),
        Escape::Html => lay_html(room, c),
        Escape::Csv => lay_csv(room, c),
        Escape::Json => lay_json(room, c),
        Escape::Shell => lay_shell(room, c),
    }
}
