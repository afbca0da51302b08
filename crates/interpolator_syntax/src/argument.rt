//! Arguments in braces.
ghost use Rattle.std.specs.Prelude.{◌≡◌, ◌+◌, option_map, None, IfOk};
ghost use Rattle.std.specs.Str.{IsCharBoundary, chars};
ghost use Rattle.interpolator_syntax.specs.Places.{at, after, size, strip};
ghost use Rattle.interpolator_syntax.specs.Classes.{in_class, front_of, close_brace};
ghost use Rattle.interpolator_syntax.specs.declared.class.Class.TheVariants.{WhiteSpace, Name};
ghost use Rattle.interpolator_syntax.specs.Arguments.{argument_at, argument_after, plain_argument};
ghost use Rattle.interpolator_syntax.specs.Arguments.{IsPlain, asked_at, asked_read, taken_read};
ghost use Rattle.interpolator_syntax.specs.Arguments.{kind_of, kind_of_request, argument_reported};
ghost use Rattle.interpolator_syntax.specs.Arguments.{answering, with_end, from_byte};
ghost use Rattle.interpolator_syntax.specs.Arguments.{argument_of, named_argument, request_of};

use crate::argument_fault::ArgumentFault;
use crate::class::Class;
use crate::cursor::Cursor;
use crate::error::Error;
use crate::group::Group;
use crate::list::{ListForm, take_list};
use crate::range::Range;
use crate::spec::{take_spec, unclosed};
use interpolator_render::{Alignment, HexDebug, Sign, Spec, Trait};

/// What an argument writes: a value, or a list.
#[derive(Clone, Copy, Debug, PartialEq)]
pub enum Kind<'a> {
    /// A value, written through this trait.
    Value(Trait),
    /// A list, written item by item.
    List {
        /// Which of its items are written; without a range, all of them.
        range: Option<Range>,
        /// The format of an item, in which the empty name is the item. Without one, each item is
        /// displayed plainly.
        item: Option<Group<'a>>,
        /// The format of what is written between two items; without one, nothing is.
        join: Option<Group<'a>>,
    },
}

/// The argument in braces: a name, and how its value is written.
#[derive(Clone, Copy, Debug, PartialEq)]
pub struct Argument<'a> {
    /// The name, a slice of the text.
    pub name: &'a str,
    /// The byte of the text at which the name begins.
    pub name_place: usize,
    /// How the value is written.
    pub spec: Spec,
    /// Whether it is written as a value or as a list.
    pub kind: Kind<'a>,
}

/// The name of an argument, and the text after it.
#[derive(Clone, Copy)]
pub struct ArgumentName<'a> {
    /// The name, a slice of the text.
    pub name: &'a str,
    /// The byte of the text at which it begins.
    pub place: usize,
    /// The text after it.
    pub end: Cursor<'a>,
}

/// Reads the white space here, after an opening brace, and the name after it.
#[tactic(auto, unfolding(crate::specs::Arguments::argument_at))]
#[inline(always)]
pub fn take_name(here: Cursor<'_>) -> ArgumentName<'_>
    ensures name { let from = after (in_class WhiteSpace) (at here.entry) in
        chars result.name.now ≡ front_of (in_class Name) from.text }
    ensures place { let from = after (in_class WhiteSpace) (at here.entry) in
        result.place ≡ from.place }
    ensures end { let from = after (in_class WhiteSpace) (at here.entry) in
        at result.end ≡ after (in_class Name) from }
    ensures end_place { result.end.place ≡ result.place + size (chars result.name.now) }
    ensures read { argument_at (at here.entry)
        ≡ argument_after here.entry.place (plain_argument result) (at result.end) }
{
    let (_, from) = here.take_class(Class::WhiteSpace);
    let (name, end) = from.take_class(Class::Name);
    ArgumentName {
        name,
        place: from.place,
        end,
    }
}

/// How the value of a name is written.
#[derive(Clone, Copy)]
pub struct Request<'a> {
    /// The trait through which it is written; `Iter` stands for a list.
    pub slot: Trait,
    /// How the value is written.
    pub spec: Spec,
    /// How a list is written.
    pub list: ListForm<'a>,
}

impl<'a> Request<'a> {
    ghost use Rattle.interpolator_syntax.specs.Arguments.{IsPlain};

    /// Returns the request for plain display. Its spec is written out, since that of a call would
    /// be made first and then copied.
    #[inline(always)]
    pub fn plain() -> Self
        ensures { IsPlain result }
    {
        Request {
            slot: Trait::Display,
            spec: Spec {
                fill: None,
                alignment: Alignment::Unset,
                sign: Sign::Unset,
                alternate: false,
                zero: false,
                width: None,
                precision: None,
                hex_debug: HexDebug::No,
            },
            list: ListForm::plain(),
        }
    }
}

/// Reads how the value is written, after the name of the argument that begins at `start`, if no
/// closing brace follows that name; goes past the spec. `asked` is filled in place, since returning
/// it would copy the whole of it.
#[inline(never)]
pub fn take_request<'a>(
    here: &mut Cursor<'a>,
    asked: &mut Request<'a>,
    start: usize,
) -> Result<(), ArgumentFault>
    requires open { strip close_brace (at here.old) ≡ None }
    requires plain { IsPlain asked.old }
    ensures { asked_read result asked.new (at here.new) ≡ asked_at start (at here.old) }
{
    let Some(mut rest) = here.strip(b':') else {
        return unclosed(start);
    };
    take_spec(&mut rest, &mut asked.spec, &mut asked.slot, start)?;
    *here = rest;
    if let Trait::Iter = asked.slot {
        return take_list(here, &mut asked.list, start);
    }
    Ok(())
}

/// An argument that was read.
#[derive(Clone, Copy)]
pub struct TakenArgument<'a> {
    /// Its name.
    pub name: ArgumentName<'a>,
    /// How its value is written.
    pub asked: Request<'a>,
    /// The text after its spec.
    pub end: Cursor<'a>,
    /// The text after its closing brace; none if no closing brace follows its spec.
    pub rest: Option<Cursor<'a>>,
}

/// Reads the argument that begins here, after its opening brace; the result also has the text after
/// its closing brace.
///
/// A caller that only writes the value calls [`take_name`] and [`take_request`] instead: a name
/// alone then makes no [`Request`].
pub fn take_argument(here: Cursor<'_>) -> Result<TakenArgument<'_>, ArgumentFault>
    ensures read { taken_read result ≡ argument_at (at here.entry) }
    ensures rest { IfOk result (λ t. option_map at t.rest ≡ strip close_brace (at t.end)) }
    ensures end_place { IfOk result
        (λ t. t.name.end.place ≡ t.name.place + size (chars t.name.name.now)) }
{
    let name = take_name(here);
    let mut end = name.end;
    let mut asked = Request::plain();
    let mut rest = end.strip(b'}');
    if rest.is_none() {
        take_request(&mut end, &mut asked, here.place)?;
        rest = end.strip(b'}');
    }
    Ok(TakenArgument {
        name,
        asked,
        end,
        rest,
    })
}

/// Converts the request to the [`Kind`] that a caller of [`parse_argument`] gets.
fn kind_asked(asked: Request<'_>) -> Kind<'_>
    ensures { kind_of result ≡ kind_of_request asked.entry }
{
    match asked.slot {
        Trait::Iter => Kind::List {
            range: asked.list.range,
            item: asked.list.item,
            join: asked.list.join,
        },
        slot => Kind::Value(slot),
    }
}

/// Converts an argument that was read to the one that [`parse_argument`] returns.
pub fn argument_of<'a>(taken: &TakenArgument<'a>) -> Argument<'a>
    ensures { argument_of result ≡ named_argument taken.now.name (request_of taken.now.asked) }
{
    Argument {
        name: taken.name.name,
        name_place: taken.name.place,
        spec: taken.asked.spec,
        kind: kind_asked(taken.asked),
    }
}

/// Reads the argument that starts at byte `start` of the text, after its opening brace.
///
/// Returns the argument, and the byte after its spec, where its closing brace should be. No value
/// is looked up, and nothing is allocated: the name is a slice of the text. Places count bytes from
/// the beginning of the text. A fill is one character, of any number of bytes.
///
/// The caller proves that a character begins at `start`, or that the text ends there, which is what
/// `text.is_char_boundary(start)` returns. A call with any other `start` does not pass the check.
///
/// Two faults are left to `write`: that there is no closing brace at the returned byte, and that a
/// list has a precision, a sign, `#` or the zero flag (`Iter`).
///
/// # Errors
///
/// The first fault from left to right:
///
/// - `Parse`: the text is no argument.
/// - `UnsupportedOption`: the argument uses the pointer trait, `p`.
///
/// # Example
///
/// ```text
/// let (argument, end) = parse_argument("{x:*>8}", 1)?;
/// // the name `x` at byte 1, display, filled with `*`, aligned to the right, of width 8; end is 6
/// ```
pub fn parse_argument(text: &str, start: usize) -> Result<(Argument<'_>, usize), Error>
    requires boundary { IsCharBoundary text.now start }
    ensures read { argument_reported result
        ≡ answering (with_end (argument_at (from_byte text.now start))) }
{
    let (_, rest) = text.split_at(start);
    let taken = take_argument(Cursor { place: start, rest })?;
    Ok((argument_of(&taken), taken.end.place))
}
