//! The spec after the colon of an argument, up to and including the letter of a list.
ghost use Rattle.std.specs.Prelude.{◌≡◌, ◌<◌, ℕ, Err, Ok, None, Some, false};
ghost use Rattle.interpolator_syntax.specs.Places.{At, at, first, strip};
ghost use Rattle.interpolator_syntax.specs.SpecTexts.{alignment_letter, sign_letter, width_at};
ghost use Rattle.interpolator_syntax.specs.SpecTexts.{no_trait, precision_at, trait_letter};
ghost use Rattle.interpolator_syntax.specs.SpecTexts.{hexadecimal, plain_spec, spec_from_sign};
ghost use Rattle.interpolator_syntax.specs.SpecTexts.{fill_at, spec_from_alignment, spec_after};
ghost use Rattle.interpolator_syntax.specs.SpecReads.{part_read, part_left, trait_left};
ghost use Rattle.interpolator_syntax.specs.SpecReads.{HasNoOptions, options_left, spec_left};
ghost use Rattle.interpolator_syntax.specs.{Classes.question_mark, Readers.flag, Readers.letter};
ghost use Rattle.interpolator_syntax.specs.declared.argument_fault.ArgumentFault.TheVariants as faults;
ghost use Rattle.interpolator_syntax.specs.declared.error.ParseError.TheVariants as errors;
ghost use Rattle.interpolator_render.specs.declared.view.Alignment.TheVariants as alignments;
ghost use Rattle.interpolator_render.specs.declared.view.HexDebug.TheVariants as hex_debugs;
ghost use Rattle.interpolator_render.specs.declared.view.Sign.TheVariants as signs;
ghost use Rattle.interpolator_render.specs.{declared.view.Spec.Spec, declared.view.Trait.Trait};
ghost use Rattle.interpolator_render.specs.declared.view.Trait.TheVariants as traits;

use crate::argument_fault::ArgumentFault;
use crate::cursor::Cursor;
use crate::error::{NumberError, ParseError};
use crate::number::{take_digits, take_natural};
use interpolator_render::{Alignment, HexDebug, Sign, Spec, Trait};

/// Reads the alignment here, if there is one. Here and below, what is read is filled in place: what
/// is not there takes no time, and a spec that is returned would be copied.
fn take_alignment(here: &mut Cursor<'_>, alignment: &mut Alignment)
    requires unset { alignment.old ≡ alignments.Unset }
    ensures { part_read (alignment.new, here.new)
        ≡ letter alignment_letter alignments.Unset (at here.old) }
{
    match here.byte() {
        Some(b'<'..=b'^') => {}
        _ => return,
    }
    if here.eat(b'<') {
        *alignment = Alignment::Left;
    } else if here.eat(b'^') {
        *alignment = Alignment::Center;
    } else if here.eat(b'>') {
        *alignment = Alignment::Right;
    }
}

/// Reads the sign here, if there is one.
fn take_sign(here: &mut Cursor<'_>, sign: &mut Sign)
    requires unset { sign.old ≡ signs.Unset }
    ensures { part_read (sign.new, here.new) ≡ letter sign_letter signs.Unset (at here.old) }
{
    if here.eat(b'+') {
        *sign = Sign::Plus;
    } else if here.eat(b'-') {
        *sign = Sign::Minus;
    }
}

/// Reads this character, if it is here.
fn take_flag(here: &mut Cursor<'_>, wanted: u8, found: &mut bool)
    requires ascii { wanted < 128 }
    requires unset { found.old ≡ false }
    ensures { part_read (found.new, here.new) ≡ flag wanted (at here.old) }
{
    if here.eat(wanted) {
        *found = true;
    }
}

/// The fault of the argument that begins at `start`, whose text ends too early. It and the next two
/// are functions of their own, since a function zeroes the space for its faults on entry.
pub(crate) fn unclosed(start: usize) -> Result<(), ArgumentFault>
    ensures { result ≡ Err (faults.Text (errors.FormatSpecUnclosed start)) }
{
    Err(ArgumentFault::Text(ParseError::FormatSpecUnclosed(start)))
}

/// The fault of a width that begins at `place`.
fn bad_width(kind: NumberError, place: usize) -> Result<(), ArgumentFault>
    ensures { result ≡ Err (faults.Text (errors.InvalidWidth kind place)) }
{
    Err(ArgumentFault::Text(ParseError::InvalidWidth(kind, place)))
}

/// The fault of a precision that begins at `place`.
fn bad_precision(kind: NumberError, place: usize) -> Result<(), ArgumentFault>
    ensures { result ≡ Err (faults.Text (errors.InvalidPrecision kind place)) }
{
    Err(ArgumentFault::Text(ParseError::InvalidPrecision(kind, place)))
}

/// Reads the width here, if there is one, in the argument that begins at `start`.
fn take_width(
    here: &mut Cursor<'_>,
    width: &mut Option<usize>,
    start: usize,
) -> Result<(), ArgumentFault>
    requires unset { width.old ≡ None }
    ensures { part_left result width.new (at here.new) ≡ width_at start (at here.old) }
{
    let place = here.place;
    let Some(digit) = here.eat_digit() else {
        return Ok(());
    };
    let number = take_digits(here, digit, usize::MAX, NumberError::PosOverflow);
    if here.is_at_end() {
        return unclosed(start);
    }
    match number {
        Ok(n) => {
            *width = Some(n);
            Ok(())
        }
        Err(kind) => bad_width(kind, place),
    }
}

/// Reads the precision here, if there is one, in the argument that begins at `start`.
fn take_precision(
    here: &mut Cursor<'_>,
    precision: &mut Option<usize>,
    start: usize,
) -> Result<(), ArgumentFault>
    requires unset { precision.old ≡ None }
    ensures { part_left result precision.new (at here.new) ≡ precision_at start (at here.old) }
{
    if !here.eat(b'.') {
        return Ok(());
    }
    let place = here.place;
    let number = take_natural(here);
    if here.is_at_end() {
        return unclosed(start);
    }
    match number {
        Ok(n) => {
            *precision = Some(n);
            Ok(())
        }
        Err(kind) => bad_precision(kind, place),
    }
}

/// Reads those of sign, flags, width and precision that are here, in this order.
#[tactic(auto, unfolding(crate::specs::SpecTexts::spec_from_sign))]
fn take_each_option(
    here: &mut Cursor<'_>,
    spec: &mut Spec,
    start: usize,
) -> Result<(), ArgumentFault>
    requires { HasNoOptions spec.old }
    ensures read { options_left start result spec.new (at here.new)
        ≡ spec_from_sign start spec.old.fill spec.old.alignment (at here.old) }
    ensures hex_debug { spec.new.hex_debug ≡ spec.old.hex_debug }
{
    take_sign(here, &mut spec.sign);
    take_flag(here, b'#', &mut spec.alternate);
    take_flag(here, b'0', &mut spec.zero);
    take_width(here, &mut spec.width, start)?;
    take_precision(here, &mut spec.precision, start)
}

/// As [`take_each_option`], but looks only if the byte here is at most `9`: each option begins with
/// such a byte, and no letter does.
#[tactic(auto, unfolding(crate::specs::SpecTexts::spec_from_sign))]
fn take_options(here: &mut Cursor<'_>, spec: &mut Spec, start: usize) -> Result<(), ArgumentFault>
    requires { HasNoOptions spec.old }
    ensures read { options_left start result spec.new (at here.new)
        ≡ spec_from_sign start spec.old.fill spec.old.alignment (at here.old) }
    ensures hex_debug { spec.new.hex_debug ≡ spec.old.hex_debug }
{
    match here.byte() {
        Some(0..=b'9') => take_each_option(here, spec, start),
        _ => Ok(()),
    }
}

/// Returns the trait of a letter that stands alone.
fn trait_of(letter: u8) -> Option<Trait>
    ensures { result ≡ trait_letter letter }
{
    match letter {
        b'?' => Some(Trait::Debug),
        b'o' => Some(Trait::Octal),
        b'b' => Some(Trait::Binary),
        b'e' => Some(Trait::LowerExp),
        b'E' => Some(Trait::UpperExp),
        b'i' => Some(Trait::Iter),
        _ => None,
    }
}

/// The fault of a character at `place` that begins no trait, by its first byte.
fn no_trait(first: u8, place: usize) -> Result<(), ArgumentFault>
    ensures { (argument : ℕ) (x : Spec) (t : Trait) (end : At)
        → spec_left argument result x t end ≡ Err (no_trait first place) }
{
    if first == b'p' {
        return Err(ArgumentFault::Pointer(place));
    }
    Err(ArgumentFault::Text(ParseError::Expected("}", place)))
}

/// Reads the `?` here, if there is one, after the letter of a hexadecimal trait: it stands for
/// debug with such numbers.
fn take_debug(here: &mut Cursor<'_>, slot: &mut Trait, hex_debug: &mut HexDebug, debug: HexDebug)
    requires unset { hex_debug.old ≡ hex_debugs.No }
    ensures { Ok (record { slot = slot.new; hex_debug = hex_debug.new }, at here.new)
        ≡ hexadecimal slot.old debug (at here.old) (strip question_mark (at here.old)) }
{
    if here.eat(b'?') {
        *slot = Trait::Debug;
        *hex_debug = debug;
    }
}

/// Reads the trait here, and how debug writes numbers, after the other options.
fn take_trait(
    here: &mut Cursor<'_>,
    spec: &mut Spec,
    slot: &mut Trait,
    start: usize,
) -> Result<(), ArgumentFault>
    requires unset { spec.old.hex_debug ≡ hex_debugs.No }
    requires display { slot.old ≡ traits.Display }
    ensures { spec_left start result spec.new slot.new (at here.new)
        ≡ trait_left start spec.old (at here.old) }
{
    let Some(letter) = here.byte() else {
        if spec.alternate || spec.zero {
            return unclosed(start);
        }
        return Ok(());
    };
    if letter == b'}' {
        return Ok(());
    }
    // With this test between them, a `}` is not looked up in the table of the letters.
    if !letter.is_ascii() {
        return no_trait(letter, here.place);
    }
    if here.eat(b'x') {
        *slot = Trait::LowerHex;
        take_debug(here, slot, &mut spec.hex_debug, HexDebug::Lower);
        return Ok(());
    }
    if here.eat(b'X') {
        *slot = Trait::UpperHex;
        take_debug(here, slot, &mut spec.hex_debug, HexDebug::Upper);
        return Ok(());
    }
    match trait_of(letter) {
        Some(wanted) => {
            here.eat(letter);
            *slot = wanted;
            Ok(())
        }
        None => no_trait(letter, here.place),
    }
}

/// Reads the parts of a spec from the alignment on, in their order, in the argument that begins at
/// `start`, up to and including the letter of a list.
fn take_parts(
    here: &mut Cursor<'_>,
    spec: &mut Spec,
    slot: &mut Trait,
    start: usize,
) -> Result<(), ArgumentFault>
    requires plain { HasNoOptions spec.old }
    requires alignment { spec.old.alignment ≡ alignments.Unset }
    requires hex_debug { spec.old.hex_debug ≡ hex_debugs.No }
    requires display { slot.old ≡ traits.Display }
    ensures { spec_left start result spec.new slot.new (at here.new)
        ≡ spec_from_alignment start spec.old.fill (at here.old) }
{
    take_alignment(here, &mut spec.alignment);
    take_options(here, spec, start)?;
    take_trait(here, spec, slot, start)
}

/// Reads the fill here, if there is one: the first character `c`, if an alignment begins the text
/// `after` it.
fn take_fill<'a>(
    here: &mut Cursor<'a>,
    fill: &mut Option<char>,
    c: char,
    after: Cursor<'a>,
) -> Result<(), ArgumentFault>
    requires first { first (at here.old) ≡ Some (c, at after) }
    requires unset { fill.old ≡ None }
    ensures { part_left result fill.new (at here.new) ≡ fill_at (at here.old) }
{
    match after.byte() {
        Some(b'<' | b'^' | b'>') => {}
        _ => return Ok(()),
    }
    if c == '{' {
        return Err(ArgumentFault::Text(ParseError::Fill(here.place)));
    }
    *here = after;
    *fill = Some(c);
    Ok(())
}

/// Reads the spec after the colon of the argument that begins at `start`, up to and including the
/// letter of a list. If one character is left, or a `}` comes first, nothing is read.
#[tactic(auto, unfolding(crate::specs::SpecTexts::spec_after))]
#[inline(always)]
pub(crate) fn take_spec(
    here: &mut Cursor<'_>,
    spec: &mut Spec,
    slot: &mut Trait,
    start: usize,
) -> Result<(), ArgumentFault>
    requires plain { spec.old ≡ plain_spec }
    requires display { slot.old ≡ traits.Display }
    ensures { spec_left start result spec.new slot.new (at here.new)
        ≡ spec_after start (at here.old) }
{
    let Some((c, after)) = here.next() else {
        return Ok(());
    };
    if c == '}' || after.is_at_end() {
        return Ok(());
    }
    take_fill(here, &mut spec.fill, c, after)?;
    take_parts(here, spec, slot, start)
}
