//! How a rule is read, token by token.

ghost use Rattle.std.specs.Prelude.{◌≡◌, [], IfOk, map};
ghost use Rattle.plurals.specs.Readings.{Says, bracketed, finish, frames, halved, has, state_of, step};
ghost use Rattle.plurals.specs.Readings.{tree_at, tree_in, wants};
ghost use Rattle.plurals.specs.Tokens.{Gives, as_spot, as_word, at, broken};
ghost use Rattle.plurals.specs.Trees.{Tree, tree_of};

use crate::expression::Expression;
use crate::fault::{Fault, ParseError, Problem};
use crate::reduce::{Frame, close_from, grouped, pop, push_frame, remainder_of, strength};
use crate::token::{Placed, Token, tokens_of};
use std::alloc::Global;

/// A problem at a place.
fn broken(place: usize, problem: Problem) -> ParseError
    ensures { result ≡ broken place problem }
{
    ParseError::Broken(Fault { place, problem })
}

/// Goes on with a token where an operand is wanted.
fn operand_step<'a>(
    stack: &mut Vec<Frame<'a>>,
    next: Placed<'a>,
) -> Result<Option<Expression<'a>>, ParseError>
    ensures { Gives (λ last. state_of stack.new.items last) result
        (at next.entry.place (step (wants (frames stack.old.items)) (as_word next.entry.token))) }
{
    match next.token {
        Token::Name(name) => Ok(Some(Expression::Name(name))),
        Token::Number(number) => Ok(Some(Expression::Number(number))),
        Token::Is(name, text) => Ok(Some(Expression::Is(name, text))),
        Token::IsNot(name, text) => Ok(Some(Expression::IsNot(name, text))),
        Token::Not => {
            push_frame(stack, Frame::Not)?;
            Ok(None)
        }
        Token::Open => {
            push_frame(stack, Frame::Open)?;
            Ok(None)
        }
        _ => Err(broken(next.place, Problem::Operand)),
    }
}

/// Goes on after a `:`, before which something is closed.
fn after_colon<'a>(
    stack: &mut Vec<Frame<'a>>,
    place: usize,
    first: Expression<'a>,
) -> Result<Option<Expression<'a>>, ParseError>
    ensures { Gives (λ last. state_of stack.new.items last) result
        (at place (halved (frames stack.old.items) (tree_of first.entry))) }
{
    match pop(stack) {
        Some(Frame::Asking(test)) => {
            push_frame(stack, Frame::Choosing(test, first))?;
            Ok(None)
        }
        _ => Err(broken(place, Problem::Operator)),
    }
}

/// Goes on after a `)`, before which something is closed.
fn after_bracket<'a>(
    alloc: Global,
    stack: &mut Vec<Frame<'a>>,
    place: usize,
    inner: Expression<'a>,
) -> Result<Option<Expression<'a>>, ParseError>
    ensures { Gives (λ last. state_of stack.new.items last) result
        (at place (bracketed (frames stack.old.items) (tree_of inner.entry))) }
{
    match pop(stack) {
        Some(Frame::Open) => Ok(Some(grouped(alloc, inner)?)),
        _ => Err(broken(place, Problem::Operator)),
    }
}

/// Goes on with a token after an operand.
fn operator_step<'a>(
    alloc: Global,
    stack: &mut Vec<Frame<'a>>,
    last: Expression<'a>,
    next: Placed<'a>,
) -> Result<Option<Expression<'a>>, ParseError>
    ensures { Gives (λ last. state_of stack.new.items last) result
        (at next.entry.place
        (step (has (frames stack.old.items) (tree_of last.entry)) (as_word next.entry.token))) }
{
    match next.token {
        Token::Remainder(divisor) => {
            let first = close_from(alloc, stack, 6, last)?;
            Ok(Some(remainder_of(alloc, first, divisor)?))
        }
        Token::Binary(operator) => {
            let first = close_from(alloc, stack, strength(operator), last)?;
            push_frame(stack, Frame::Joining(first, operator))?;
            Ok(None)
        }
        Token::Question => {
            let test = close_from(alloc, stack, 2, last)?;
            push_frame(stack, Frame::Asking(test))?;
            Ok(None)
        }
        Token::Colon => {
            let first = close_from(alloc, stack, 1, last)?;
            after_colon(stack, next.place, first)
        }
        Token::Close => {
            let inner = close_from(alloc, stack, 1, last)?;
            after_bracket(alloc, stack, next.place, inner)
        }
        _ => Err(broken(next.place, Problem::Operator)),
    }
}

/// Goes on with a token.
fn step<'a>(
    alloc: Global,
    stack: &mut Vec<Frame<'a>>,
    last: Option<Expression<'a>>,
    next: Placed<'a>,
) -> Result<Option<Expression<'a>>, ParseError>
    ensures { Gives (λ last. state_of stack.new.items last) result
        (at next.entry.place (step (state_of stack.old.items last.entry)
        (as_word next.entry.token))) }
{
    match last {
        None => operand_step(stack, next),
        Some(last) => operator_step(alloc, stack, last, next),
    }
}

/// Closes everything at the end of a rule.
fn finish<'a>(
    alloc: Global,
    stack: &mut Vec<Frame<'a>>,
    last: Option<Expression<'a>>,
    end: usize,
) -> Result<Expression<'a>, ParseError>
    ensures { Gives tree_of result (at end (finish (state_of stack.old.items last.entry))) }
{
    let Some(last) = last else {
        return Err(broken(end, Problem::Operand));
    };
    let whole = close_from(alloc, stack, 1, last)?;
    match pop(stack) {
        Some(_) => Err(broken(end, Problem::Unfinished)),
        None => Ok(whole),
    }
}

/// The expression that tokens are, in a rule that ends at a byte.
fn expression_of<'a>(
    alloc: Global,
    tokens: &[Placed<'a>],
    end: usize,
) -> Result<Expression<'a>, ParseError>
    ensures { Gives tree_of result (tree_in end (map as_spot tokens.now)) }
{
    let mut stack = Vec::new(alloc);
    let mut last = None;
    for token in tokens {
        last = step(alloc, &mut stack, last, *token)?;
    }
    finish(alloc, &mut stack, last, end)
}

/// The expression that a rule is.
fn read<'a>(alloc: Global, rule: &'a str) -> Result<Expression<'a>, ParseError>
    ensures { Gives tree_of result (tree_at rule.now) }
{
    let tokens = tokens_of(alloc, rule)?;
    expression_of(alloc, tokens.as_slice(), rule.len())
}

/// The expression that a rule is.
///
/// `n % 10 == 1 && n % 100 != 11 ? one : other` is a choice by what `&&` makes of two comparisons.
///
/// # Errors
///
/// The rule is none, and the fault says where, or memory ran out.
pub fn parse<'a>(alloc: Global, rule: &'a str) -> Result<Expression<'a>, ParseError>
    // What is read is what the rule says.
    ensures found { IfOk result (λ expression. Says rule.now (tree_of expression)) }
    // What the rule says is read, unless memory runs out.
    ensures only { (tree : Tree) → Says rule.now tree → Gives tree_of result (Ok tree) }
    // Which fault it is.
    ensures exact { Gives tree_of result (tree_at rule.now) }
{
    read(alloc, rule)
}
