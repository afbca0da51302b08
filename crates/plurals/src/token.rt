//! The tokens of a rule.

ghost use Rattle.std.specs.Prelude.{◌≡◌, ◌<◌, ◌∷◌, ◌++◌, [], IfOk, IfSome, codes, map};
ghost use Rattle.std.specs.Prelude.{option_map};
ghost use Rattle.std.specs.List.{position, position_or_len, list_any};
ghost use Rattle.std.specs.{Char.is_whitespace, Str.chars, Str.trim_start};
ghost use Rattle.plurals.specs.Tokens.{Gives, as_next, end_of, as_pair, as_read, as_spot, as_word};
ghost use Rattle.plurals.specs.Tokens.{divisor_at, divisor_in, between, double, double_at};
ghost use Rattle.plurals.specs.Tokens.{ends_run, is_name, is_numeral, named_at, next_at, number_in};
ghost use Rattle.plurals.specs.Tokens.{operand_at, quoted_after, quoted_at, run_at, run_of};
ghost use Rattle.plurals.specs.Tokens.{after_run, seen, single, single_at, stray, twice};
ghost use Rattle.plurals.specs.Tokens.{with_equals, word_at, word_in, words_of};

use crate::expression::Operator;
use crate::fault::{Fault, ParseError, Problem};
use crate::numeral::{is_numeral, number_in};
use std::alloc::{AllocError, Global};

/// How many tokens a rule may have.
pub const LIMIT: usize = 1000;

/// What a token is.
#[derive(Clone, Copy)]
pub(crate) enum Token<'a> {
    /// A name.
    Name(&'a str),
    /// A number.
    Number(u64),
    /// `%` and a number.
    Remainder(u64),
    /// What stands between two operands.
    Binary(Operator),
    /// `!`
    Not,
    /// `(`
    Open,
    /// `)`
    Close,
    /// `?`
    Question,
    /// `:`
    Colon,
    /// A name, `==` and a text in quotes.
    Is(&'a str, &'a str),
    /// A name, `!=` and a text in quotes.
    IsNot(&'a str, &'a str),
}

/// A token, and where it begins.
#[derive(Clone, Copy)]
pub(crate) struct Placed<'a> {
    /// The byte of the rule.
    pub(crate) place: usize,
    pub(crate) token: Token<'a>,
}

/// What is left of a rule.
#[derive(Clone, Copy)]
pub(crate) struct Rest<'a> {
    pub(crate) text: &'a str,
    /// The byte at which the rule ends.
    pub(crate) end: usize,
}

/// The operator that ends with `=`.
fn with_equals(b: u8) -> Option<Operator>
    ensures { option_map between result ≡ with_equals b }
{
    match b {
        b'=' => Some(Operator::Equal),
        b'!' => Some(Operator::Unequal),
        b'<' => Some(Operator::LessOrEqual),
        b'>' => Some(Operator::GreaterOrEqual),
        _ => None,
    }
}

/// The operator that is a character twice.
fn twice(b: u8) -> Option<Operator>
    ensures { option_map between result ≡ twice b }
{
    match b {
        b'|' => Some(Operator::Or),
        b'&' => Some(Operator::And),
        _ => None,
    }
}

/// The operator of two characters.
fn double(b: u8, c: u8) -> Option<Operator>
    ensures operator { option_map between result ≡ double b c }
    ensures ascii { IfSome result (λ _. c < 128) }
{
    if c == b'=' {
        return with_equals(b);
    }
    if b == c { twice(b) } else { None }
}

/// The sign that is one character.
fn single(b: u8) -> Option<Token<'static>>
    ensures sign { option_map as_word result ≡ single b }
    ensures ascii { IfSome result (λ _. b < 128) }
{
    match b {
        b'!' => Some(Token::Not),
        b'(' => Some(Token::Open),
        b')' => Some(Token::Close),
        b'?' => Some(Token::Question),
        b':' => Some(Token::Colon),
        b'<' => Some(Token::Binary(Operator::Less)),
        b'>' => Some(Token::Binary(Operator::Greater)),
        _ => None,
    }
}

/// The operator of two characters that a text begins with, and the text after it.
fn double_at(text: &str) -> Option<(Token<'_>, &str)>
    ensures { option_map as_read result ≡ double_at text.now }
{
    let [b, c, ..] = text.as_bytes() else {
        return None;
    };
    let operator = double(*b, *c)?;
    let (_, rest) = text.split_at(2);
    Some((Token::Binary(operator), rest))
}

/// The sign of one character that a text begins with, and the text after it.
fn single_at(text: &str) -> Option<(Token<'_>, &str)>
    ensures { option_map as_read result ≡ single_at text.now }
{
    let first = text.as_bytes().first()?;
    let token = single(*first)?;
    let (_, rest) = text.split_at(1);
    Some((token, rest))
}

/// Whether a byte ends a name or a number.
fn ends_run(b: u8) -> bool
    ensures { result ≡ ends_run b }
{
    b == b' '
        || b == b'\t'
        || b == b'!'
        || b == b'%'
        || b == b'&'
        || b == b'('
        || b == b')'
        || b == b':'
        || b == b'<'
        || b == b'='
        || b == b'>'
        || b == b'?'
        || b == b'|'
}

/// The index of the first byte that ends a name or a number.
fn end_in(bytes: &[u8]) -> Option<usize>
    ensures { result ≡ position ends_run bytes.now }
{
    bytes.iter().position(|b| ends_run(*b))
}

/// How many bytes come before the first that ends a name or a number.
#[tactic(auto, using(crate::proofs::TokenLemmas::first_or_all))]
fn run_len(bytes: &[u8]) -> usize
    ensures { result ≡ position_or_len ends_run bytes.now }
{
    end_in(bytes).unwrap_or(bytes.len())
}

/// Splits a text after the longest front that may be a name or a number.
fn split_run(text: &str) -> (&str, &str)
    ensures run { result.0.now ≡ run_of text.now }
    ensures after { result.1.now ≡ after_run text.now }
{
    text.split_at(run_len(text.as_bytes()))
}

/// Whether a text has white space.
fn has_space(text: &str) -> bool
    ensures { result ≡ list_any is_whitespace (chars text.now) }
{
    text.chars().any(|c| c.is_whitespace())
}

/// Whether a text can be a name: it is not empty, and has no white space.
pub fn is_name(text: &str) -> bool
    ensures { result ≡ is_name text.now }
{
    !text.is_empty() && !has_space(text)
}

/// The text between quotes that a text begins with, and what is after it.
fn quoted_at(text: &str) -> Option<(&str, &str)>
    ensures { option_map as_pair result ≡ quoted_at text.now }
{
    let rest = text.strip_prefix("'")?;
    rest.split_once('\'')
}

/// The text between quotes after an `==`, if a text begins with that, and what is after it.
fn quoted_equal(text: &str) -> Option<(&str, &str)>
    ensures { option_map as_pair result ≡ quoted_after (codes "==") text.now }
{
    let rest = text.trim_start().strip_prefix("==")?;
    quoted_at(rest.trim_start())
}

/// The text between quotes after a `!=`, if a text begins with that, and what is after it.
fn quoted_unequal(text: &str) -> Option<(&str, &str)>
    ensures { option_map as_pair result ≡ quoted_after (codes "!=") text.now }
{
    let rest = text.trim_start().strip_prefix("!=")?;
    quoted_at(rest.trim_start())
}

/// The token that a name is, with the text with which it is compared, if what is after the name
/// begins so; and what is after that.
fn named_at<'a>(name: &'a str, rest: &'a str) -> (Token<'a>, &'a str)
    ensures { as_read result ≡ named_at name.now rest.now }
{
    if let Some((text, after)) = quoted_equal(rest) {
        return (Token::Is(name, text), after);
    }
    if let Some((text, after)) = quoted_unequal(rest) {
        return (Token::IsNot(name, text), after);
    }
    (Token::Name(name), rest)
}

/// The token that a run is, a number below 2^64 or a name, and what is after it.
fn word_in<'a>(run: &'a str, rest: &'a str) -> Option<(Token<'a>, &'a str)>
    ensures { option_map as_read result ≡ word_in run.now rest.now (number_in run.now) }
{
    if let Some(number) = number_in(run) {
        return Some((Token::Number(number), rest));
    }
    if !is_numeral(run) && is_name(run) {
        Some(named_at(run, rest))
    } else {
        None
    }
}

/// The number or name that a text begins with, and the text after it.
fn run_at(text: &str) -> Result<(Token<'_>, &str), Problem>
    ensures { seen as_read result ≡ run_at text.now }
{
    let (run, rest) = split_run(text);
    match word_in(run, rest) {
        Some(found) => Ok(found),
        None => Err(Problem::Token),
    }
}

/// What is wrong with a text in quotes before which no name is compared, by what is after its first
/// quote.
fn stray(rest: &str) -> Problem
    ensures { result ≡ stray rest.now }
{
    match rest.split_once('\'') {
        Some(_) => Problem::Text,
        None => Problem::Quote,
    }
}

/// The number or name that a text begins with, and the text after it. A text in quotes is none.
fn operand_at(text: &str) -> Result<(Token<'_>, &str), Problem>
    ensures { seen as_read result ≡ operand_at text.now }
{
    match text.strip_prefix("'") {
        Some(rest) => Err(stray(rest)),
        None => run_at(text),
    }
}

/// The divisor that a run is: a number that is not 0.
fn divisor_in(number: Option<u64>) -> Option<Token<'static>>
    ensures { option_map as_word result ≡ divisor_in number }
{
    let number = number?;
    if number == 0 {
        return None;
    }
    Some(Token::Remainder(number))
}

/// The divisor that a text after a `%` begins with, and the text after it.
fn divisor_at(text: &str) -> Result<(Token<'_>, &str), Problem>
    ensures { seen as_read result ≡ divisor_at text.now }
{
    let (run, rest) = split_run(text);
    match divisor_in(number_in(run)) {
        Some(token) => Ok((token, rest)),
        None => Err(Problem::Divisor),
    }
}

/// The token that a text begins with, and the text after it: the longest sign, or else a run.
fn token_at(text: &str) -> Result<(Token<'_>, &str), Problem>
    ensures { seen as_read result ≡ word_at text.now }
{
    if let Some(found) = double_at(text) {
        return Ok(found);
    }
    if let Some(found) = single_at(text) {
        return Ok(found);
    }
    match text.strip_prefix("%") {
        Some(rest) => divisor_at(rest.trim_start()),
        None => operand_at(text),
    }
}

/// The next token of a rule, if it has one, and what is left after it.
fn next<'a>(rest: Rest<'a>) -> Result<Option<(Placed<'a>, Rest<'a>)>, Fault>
    ensures next { seen (option_map as_next) result
        ≡ next_at rest.entry.end (trim_start rest.entry.text.now) }
    ensures end { IfOk result (λ next. IfSome next (λ n. n.1.end ≡ rest.entry.end)) }
{
    let text = rest.text.trim_start();
    if text.is_empty() {
        return Ok(None);
    }
    let place = rest.end.saturating_sub(text.len());
    match token_at(text) {
        Ok((token, after)) => {
            let rest = Rest {
                text: after,
                end: rest.end,
            };
            Ok(Some((Placed { place, token }, rest)))
        }
        Err(problem) => Err(Fault { place, problem }),
    }
}

/// What is wrong with a rule that has another token after as many as it may have.
fn long(next: Result<Option<(Placed<'_>, Rest<'_>)>, Fault>) -> Result<(), Fault>
    ensures { seen (λ _. []) result ≡ end_of (seen (option_map as_next) next.entry) }
{
    match next {
        Ok(None) => Ok(()),
        Ok(Some((token, _))) => Err(Fault {
            place: token.place,
            problem: Problem::Long,
        }),
        Err(fault) => Err(fault),
    }
}

/// Appends a token.
fn push_token<'a>(tokens: &mut Vec<Placed<'a>>, token: Placed<'a>) -> Result<(), AllocError>
    ensures { IfOk result (λ _. map as_spot tokens.new.items
        ≡ map as_spot tokens.old.items ++ (as_spot token.entry ∷ [])) }
{
    tokens.push(token)?;
    Ok(())
}

/// The tokens of a rule.
pub(crate) fn tokens_of<'a>(alloc: Global, rule: &'a str) -> Result<Vec<Placed<'a>>, ParseError>
    ensures { Gives (λ tokens. map as_spot tokens.items) result (words_of rule.now) }
{
    let mut tokens = Vec::new(alloc);
    let mut rest = Rest {
        text: rule,
        end: rule.len(),
    };
    for _taken in 0..LIMIT {
        match next(rest) {
            Err(fault) => return Err(ParseError::Broken(fault)),
            Ok(None) => return Ok(tokens),
            Ok(Some((token, after))) => {
                push_token(&mut tokens, token)?;
                rest = after;
            }
        }
    }
    match long(next(rest)) {
        Ok(()) => Ok(tokens),
        Err(fault) => Err(ParseError::Broken(fault)),
    }
}
