//! An expression, and its value.

ghost use Rattle.std.specs.Prelude.{◌≡◌, ◌∷◌, ◌++◌, [], IfOk, map};
ghost use Rattle.std.specs.Option.{option_map};
ghost use Rattle.plurals.specs.Trees.{tree_of};
ghost use Rattle.plurals.specs.Values.{applied, as_form, as_lack, form_by, forms, has_forms, holds};
ghost use Rattle.plurals.specs.Values.{missing_for, missing_in, remainder, truth, value_by};

use crate::given::{Missing, Values, is_text, or_zero, unless};
use std::alloc::AllocError;

/// What stands between two operands.
#[derive(Clone, Copy, Debug, PartialEq, Eq)]
pub enum Operator {
    /// `||`
    Or,
    /// `&&`
    And,
    /// `==`
    Equal,
    /// `!=`
    Unequal,
    /// `<`
    Less,
    /// `<=`
    LessOrEqual,
    /// `>`
    Greater,
    /// `>=`
    GreaterOrEqual,
}

/// An expression.
#[derive(Drop)]
pub enum Expression<'a> {
    /// A name, which stands for a number, or for a form.
    Name(&'a str),
    /// A number.
    Number(u64),
    /// `!a`
    Not(Box<Expression<'a>>),
    /// `(a)`
    Group(Box<Expression<'a>>),
    /// `a % 10`
    Remainder(Box<Expression<'a>>, u64),
    /// `a && b`
    Binary(Operator, Box<Expression<'a>>, Box<Expression<'a>>),
    /// `a ? b : c`
    Choice(Box<Expression<'a>>, Box<Expression<'a>>, Box<Expression<'a>>),
    /// `a == 'b'`: the text under the name `a` is `b`.
    Is(&'a str, &'a str),
    /// `a != 'b'`
    IsNot(&'a str, &'a str),
}

/// What an expression chooses.
#[derive(Clone, Copy, Debug, PartialEq, Eq)]
pub enum Form<'a> {
    /// A name.
    Name(&'a str),
    /// A number, whose name is its digits.
    Number(u64),
}

/// 1 for what is true, and 0 for what is not.
fn truth(is_true: bool) -> u128
    ensures { result ≡ truth is_true }
{
    u128::from(is_true)
}

/// What an operator makes of two numbers.
fn applied(operator: Operator, left: u128, right: u128) -> u128
    ensures { result ≡ applied operator left right }
{
    truth(match operator {
        Operator::Or => left != 0 || right != 0,
        Operator::And => left != 0 && right != 0,
        Operator::Equal => left == right,
        Operator::Unequal => left != right,
        Operator::Less => left < right,
        Operator::LessOrEqual => left <= right,
        Operator::Greater => right < left,
        Operator::GreaterOrEqual => right <= left,
    })
}

/// What is left of a number after a division. By 0, which no rule that was read has, it is 0.
fn remainder(number: u128, divisor: u64) -> u128
    ensures { result ≡ remainder number divisor }
{
    if divisor == 0 {
        return 0;
    }
    number % u128::from(divisor)
}

/// Appends a form.
fn push_form<'a>(found: &mut Vec<Form<'a>>, form: Form<'a>) -> Result<(), AllocError>
    ensures { IfOk result (λ _. map as_form found.new.items
        ≡ map as_form found.old.items ++ (as_form form.entry ∷ [])) }
{
    found.push(form)?;
    Ok(())
}

impl<'a> Expression<'a> {
    /// The value of an expression. What is true has the value 1, and what is not 0; a number that
    /// is missing counts as 0, and a text that is missing is none.
    pub fn value<V: Values>(&self, values: &V) -> u128
        ensures { result ≡ value_by (V.number values.now) (V.text values.now) (tree_of self.now) }
    {
        match self {
            Expression::Name(name) => or_zero(values.number(name)),
            Expression::Number(number) => u128::from(*number),
            Expression::Not(a) => truth(a.value(values) == 0),
            Expression::Group(a) => a.value(values),
            Expression::Remainder(a, divisor) => remainder(a.value(values), *divisor),
            Expression::Binary(operator, a, b) => {
                applied(*operator, a.value(values), b.value(values))
            }
            Expression::Choice(test, a, b) => {
                if test.value(values) == 0 {
                    b.value(values)
                } else {
                    a.value(values)
                }
            }
            Expression::Is(name, text) => truth(is_text(values.text(name), text)),
            Expression::IsNot(name, text) => truth(!is_text(values.text(name), text)),
        }
    }

    /// Whether a choice by an expression takes its first part: it is true, or something is missing
    /// for it.
    fn holds<V: Values>(&self, values: &V) -> bool
        ensures { result ≡ holds (V.number values.now) (V.text values.now) (tree_of self.now) }
    {
        self.missing_for(values).is_some() || self.value(values) != 0
    }

    /// The form that an expression chooses: the name or number to which its choices come, of which
    /// each is by its test, or its first part if something is missing for that. None, if that is no
    /// name or number.
    pub fn form<V: Values>(&self, values: &V) -> Option<Form<'a>>
        ensures { option_map as_form result
            ≡ form_by (V.number values.now) (V.text values.now) (tree_of self.now) }
    {
        match self {
            Expression::Name(name) => Some(Form::Name(*name)),
            Expression::Number(number) => Some(Form::Number(*number)),
            Expression::Group(a) => a.form(values),
            Expression::Choice(test, a, b) => {
                if test.holds(values) {
                    a.form(values)
                } else {
                    b.form(values)
                }
            }
            _ => None,
        }
    }

    /// Whether an expression chooses a form, whatever the numbers and texts are.
    pub fn has_forms(&self) -> bool
        ensures { result ≡ has_forms (tree_of self.now) }
    {
        match self {
            Expression::Name(_) => true,
            Expression::Number(_) => true,
            Expression::Group(a) => a.has_forms(),
            Expression::Choice(_, a, b) => a.has_forms() && b.has_forms(),
            _ => false,
        }
    }

    /// Appends the forms that an expression can choose, in their order.
    pub fn push_forms(&self, found: &mut Vec<Form<'a>>) -> Result<(), AllocError>
        ensures { IfOk result (λ _. map as_form found.new.items
            ≡ map as_form found.old.items ++ forms (tree_of self.now)) }
    {
        match self {
            Expression::Name(name) => push_form(found, Form::Name(*name)),
            Expression::Number(number) => push_form(found, Form::Number(*number)),
            Expression::Group(a) => a.push_forms(found),
            Expression::Choice(_, a, b) => {
                a.push_forms(found)?;
                b.push_forms(found)
            }
            _ => Ok(()),
        }
    }

    /// The first that is missing of all that an expression names.
    pub fn missing_for<V: Values>(&self, values: &V) -> Option<Missing<'a>>
        ensures { option_map as_lack result
            ≡ missing_for (V.number values.now) (V.text values.now) (tree_of self.now) }
    {
        match self {
            Expression::Name(name) => {
                unless(values.number(name).is_some(), Missing::Number(*name))
            }
            Expression::Number(_) => None,
            Expression::Not(a) => a.missing_for(values),
            Expression::Group(a) => a.missing_for(values),
            Expression::Remainder(a, _) => a.missing_for(values),
            Expression::Binary(_, a, b) => a.missing_for(values).or(b.missing_for(values)),
            Expression::Choice(test, a, b) => test
                .missing_for(values)
                .or(a.missing_for(values).or(b.missing_for(values))),
            Expression::Is(name, _) => unless(values.text(name).is_some(), Missing::Text(*name)),
            Expression::IsNot(name, _) => {
                unless(values.text(name).is_some(), Missing::Text(*name))
            }
        }
    }

    /// The first that is missing in the tests by which an expression comes to its form.
    pub fn missing<V: Values>(&self, values: &V) -> Option<Missing<'a>>
        ensures { option_map as_lack result
            ≡ missing_in (V.number values.now) (V.text values.now) (tree_of self.now) }
    {
        match self {
            Expression::Group(a) => a.missing(values),
            Expression::Choice(test, a, b) => {
                if let Some(missing) = test.missing_for(values) {
                    return Some(missing);
                }
                if test.value(values) == 0 {
                    b.missing(values)
                } else {
                    a.missing(values)
                }
            }
            _ => None,
        }
    }
}
