//! What waits for its last part while a rule is read.

ghost use Rattle.std.specs.Prelude.{◌≡◌, ◌∷◌, [], IfOk, MatchOption};
ghost use Rattle.plurals.specs.Readings.{as_frame, close_from, closed, frames, grip};
ghost use Rattle.plurals.specs.Trees.{grouped, reduced, strength, tree_of};

use crate::expression::{Expression, Operator};
use std::alloc::{AllocError, Global};

/// What waits for its last part.
#[derive(Drop)]
pub(crate) enum Frame<'a> {
    /// `!`
    Not,
    /// `(`
    Open,
    /// `a &&`
    Joining(Expression<'a>, Operator),
    /// `a ?`
    Asking(Expression<'a>),
    /// `a ? b :`
    Choosing(Expression<'a>, Expression<'a>),
}

/// How tightly an operator binds, as in C.
pub(crate) fn strength(operator: Operator) -> u8
    ensures { result ≡ strength operator }
{
    match operator {
        Operator::Or => 2,
        Operator::And => 3,
        Operator::Equal => 4,
        Operator::Unequal => 4,
        Operator::Less => 5,
        Operator::LessOrEqual => 5,
        Operator::Greater => 5,
        Operator::GreaterOrEqual => 5,
    }
}

/// How tightly what waits binds. What a bracket or a `:` has to close is closed by no operator.
fn grip(frame: &Frame<'_>) -> u8
    ensures { result ≡ grip (as_frame frame.now) }
{
    match frame {
        Frame::Not => 7,
        Frame::Open => 0,
        Frame::Joining(_, operator) => strength(*operator),
        Frame::Asking(_) => 0,
        Frame::Choosing(_, _) => 1,
    }
}

/// An expression in brackets.
pub(crate) fn grouped<'a>(
    alloc: Global,
    inner: Expression<'a>,
) -> Result<Expression<'a>, AllocError>
    ensures { IfOk result (λ whole. tree_of whole ≡ grouped (tree_of inner.entry)) }
{
    Ok(Expression::Group(Box::new(alloc, inner)?))
}

/// What is left of an expression after a division.
pub(crate) fn remainder_of<'a>(
    alloc: Global,
    first: Expression<'a>,
    divisor: u64,
) -> Result<Expression<'a>, AllocError>
    ensures { IfOk result (λ whole. tree_of whole ≡ reduced (tree_of first.entry) divisor) }
{
    Ok(Expression::Remainder(Box::new(alloc, first)?, divisor))
}

/// The expression that its last part makes of what waits.
fn closed<'a>(
    alloc: Global,
    frame: Frame<'a>,
    last: Expression<'a>,
) -> Result<Expression<'a>, AllocError>
    ensures { IfOk result (λ whole.
        tree_of whole ≡ closed (as_frame frame.entry) (tree_of last.entry)) }
{
    match frame {
        Frame::Not => Ok(Expression::Not(Box::new(alloc, last)?)),
        Frame::Open => Ok(last),
        Frame::Joining(first, operator) => {
            let first = Box::new(alloc, first)?;
            Ok(Expression::Binary(operator, first, Box::new(alloc, last)?))
        }
        Frame::Asking(_) => Ok(last),
        Frame::Choosing(test, first) => {
            let test = Box::new(alloc, test)?;
            let first = Box::new(alloc, first)?;
            Ok(Expression::Choice(test, first, Box::new(alloc, last)?))
        }
    }
}

/// Takes the last of what waits.
#[tactic(auto, using(crate::proofs::ReadingLemmas::one_more_frame))]
pub(crate) fn pop<'a>(stack: &mut Vec<Frame<'a>>) -> Option<Frame<'a>>
    ensures { MatchOption result
        ((frames stack.old.items ≡ []) × (frames stack.new.items ≡ []))
        (λ frame. frames stack.old.items ≡ as_frame frame ∷ frames stack.new.items) }
{
    stack.pop()
}

/// Adds what waits for its last part.
#[tactic(auto, using(crate::proofs::ReadingLemmas::one_more_frame))]
pub(crate) fn push_frame<'a>(stack: &mut Vec<Frame<'a>>, frame: Frame<'a>) -> Result<(), AllocError>
    ensures { IfOk result (λ _.
        frames stack.new.items ≡ as_frame frame.entry ∷ frames stack.old.items) }
{
    stack.push(frame)?;
    Ok(())
}

/// Closes what binds at least so tightly.
pub(crate) fn close_from<'a>(
    alloc: Global,
    stack: &mut Vec<Frame<'a>>,
    least: u8,
    last: Expression<'a>,
) -> Result<Expression<'a>, AllocError>
    ensures { IfOk result (λ whole. close_from least (frames stack.old.items) (tree_of last.entry)
        ≡ (frames stack.new.items, tree_of whole)) }
{
    let mut whole = last;
    while let Some(frame) = pop(stack) {
        if grip(&frame) < least {
            push_frame(stack, frame)?;
            return Ok(whole);
        }
        whole = closed(alloc, frame, whole)?;
    }
    Ok(whole)
}
