//! The rule of a file, which chooses the form of a message by numbers and texts.

ghost use Rattle.std.specs.Prelude.{◌≡◌, IfOk};
ghost use Rattle.std.specs.Option.{option_map};
ghost use Rattle.catalogue.specs.Rules.{as_wrong, counted, declared_for, whole_number};
ghost use Rattle.catalogue.specs.Rules.{number_under, numbers_of, problem_text, rule_in, text_of};
ghost use Rattle.catalogue.specs.Rules.{texts_of, wrong_in};
ghost use Rattle.plurals.specs.Values.{as_lack};
ghost use Rattle.words.specs.Declarations.{as_declaration};

use crate::declarations::begin_of;
use crate::entries::Object;
use crate::picks::last_named;
use interpolator::View;
use plurals::{Missing, ParseError, Problem, Values, parse};
use std::alloc::{AllocError, Global};
use words::{Declaration, Kind};

/// What a line with a rule begins with.
pub const HEAD: &str = "plural:";

/// What is reported of a rule whose choices do not all come to forms.
const NO_FORM: &str = "each part of a rule ends in a form, as in `n == 1 ? one : other`";

/// 10^38: what a negative number is taken as, without its sign.
const BEYOND: u128 = 100_000_000_000_000_000_000_000_000_000_000_000_000;

/// The rule of a line, after `plural:`, if it has one.
pub fn rule_in(line: &str) -> Option<&str>
    ensures { option_map (λ x. x.now) result ≡ rule_in line.now }
{
    line.strip_prefix(HEAD)
}

/// The whole number that a view has. A decimal or a float is none.
fn whole_number(view: &View<'_>) -> Option<i128>
    ensures { result ≡ whole_number view.now }
{
    match view {
        View::Signed(number, _) => Some(*number),
        _ => None,
    }
}

/// The number under a name.
fn number_under(objects: &[Object<'_>], name: &str) -> Option<i128>
    ensures { result ≡ number_under objects.now name.now }
{
    match last_named(objects, name) {
        Some(object) => whole_number(&object.value),
        None => None,
    }
}

/// What a rule takes for a number: a negative one is so large that it is none that a rule names,
/// and has the last digits of the number without its sign.
fn counted(number: i128) -> u128
    ensures { result ≡ counted number }
{
    let size = number.unsigned_abs();
    if number < 0 {
        return BEYOND + size;
    }
    size
}

/// The text that a view has.
fn text_of<'a>(view: &View<'a>) -> Option<&'a str>
    ensures { option_map (λ x. x.now) result ≡ text_of view.now }
{
    match view {
        View::Text(text) => Some(*text),
        _ => None,
    }
}

/// The text under a name.
fn text_under<'a>(objects: &[Object<'a>], name: &str) -> Option<&'a str>
    ensures { option_map (λ x. x.now) result ≡ texts_of objects.now name.now }
{
    match last_named(objects, name) {
        Some(object) => text_of(&object.value),
        None => None,
    }
}

/// The numbers and texts that a rule finds under the names of objects.
#[derive(Clone, Copy)]
pub struct Named<'o, 'a>(pub &'o [Object<'a>]);

impl Values for Named<'_, '_> {
    ghost use Rattle.catalogue.specs.Rules.{numbers_of, texts_of};

    ghost number = { λ given name. numbers_of given.0.now name };

    ghost text = { λ given name. texts_of given.0.now name };

    fn text(&self, name: &str) -> Option<&str> {
        text_under(self.0, name)
    }

    fn number(&self, name: &str) -> Option<u128> {
        match number_under(self.0, name) {
            Some(number) => Some(counted(number)),
            None => None,
        }
    }
}

/// What has to be given for what is missing.
pub fn declared_for(missing: Missing<'_>) -> Declaration<'_>
    ensures { as_declaration result ≡ declared_for (as_lack missing.entry) }
{
    match missing {
        Missing::Number(name) => Declaration {
            name,
            kind: Kind::Number,
        },
        Missing::Text(name) => Declaration {
            name,
            kind: Kind::Text,
        },
    }
}

/// What is reported of a problem in a rule.
pub fn problem_text(problem: Problem) -> &'static str
    ensures { result.now ≡ problem_text problem }
{
    match problem {
        Problem::Token =>
            "a rule has names, numbers below 2^64 and `! % < <= > >= == != && || ? : ( )`",
        Problem::Text => "a text in quotes follows a name and `==` or `!=`",
        Problem::Quote => "a quote is not closed",
        Problem::Divisor => "a number that is not 0 follows a `%`",
        Problem::Operand => "a name, a number, `!` or `(` is missing here",
        Problem::Operator => "an operator is missing here, or the end of the rule",
        Problem::Unfinished => "a `(` is not closed, or a `?` has no `:`",
        Problem::Long => "a rule has at most 1000 words",
    }
}

/// What is wrong with a rule, if anything is, and at which byte of its line.
pub fn wrong_in(alloc: Global, rule: &str) -> Result<Option<(usize, &'static str)>, AllocError>
    ensures { IfOk result (λ wrong. option_map as_wrong wrong ≡ wrong_in rule.now) }
{
    match parse(alloc, rule) {
        Ok(read) => {
            if read.has_forms() {
                return Ok(None);
            }
            Ok(Some((begin_of(HEAD.len(), rule), NO_FORM)))
        }
        Err(ParseError::Broken(fault)) => {
            let place = HEAD.len().saturating_add(fault.place);
            Ok(Some((place, problem_text(fault.problem))))
        }
        Err(ParseError::NoMemory) => Err(AllocError),
    }
}
