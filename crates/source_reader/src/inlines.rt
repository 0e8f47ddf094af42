// What is inserted where an inline function is used: its value, with arguments in place of parameters.
ghost use Rattle.std.specs.Prelude.{◌≡◌, IfOk, map};
ghost use Rattle.source_reader.specs.Faults.{Gives};
ghost use Rattle.source_reader.specs.Inlines.{argument_of, put, put_test, put_value, one_more_than, operators_in, test_operators, value_operators, if_short, short_number, given_in, inserted};
ghost use Rattle.source_reader.specs.Trees.{tree_of, test_tree_of, value_tree_of, inline_tree_of};
ghost use Rattle.source_reader.specs.Values.{no_argument};

use crate::faults::{ReadError, Wrong, fault_at};
use crate::folding::{two, two_of};
use crate::joining::{Value, number_in};
use crate::marks::{after_first, is_close};
use crate::truths::may_divide;
use source_language::{Expr, Test};
use source_tokens::Token;
use std::alloc::{AllocError, Global};

/// How many operators what is inserted may have, and what it is made of. A procedure has 256 instructions.
pub const OPERATORS: u16 = 250;

/// An inline function: how many parameters it has, and its value, where they are variables with the numbers from 0 on.
#[derive(Drop)]
pub(crate) struct Inline {
    pub(crate) parameters: u8,
    pub(crate) value: Value,
}

pub(crate) fn copied(alloc: Global, e: &Expr) -> Result<Expr, AllocError>
    ensures { IfOk result (λ r. tree_of r ≡ tree_of e.now) }
{
    match e {
        Expr::Number(n) => Ok(Expr::Number(*n)),
        Expr::Variable(x) => Ok(Expr::Variable(*x)),
        Expr::Slot => Ok(Expr::Slot),
        Expr::Width => Ok(Expr::Width),
        Expr::Two(op, a, b) => {
            let first = copied(alloc, a)?;
            let second = copied(alloc, b)?;
            two(alloc, *op, first, second)
        }
    }
}

/// What the parameter of that number stands for.
fn argument_of(alloc: Global, arguments: &[Expr], number: u8) -> Result<Expr, AllocError>
    ensures { IfOk result (λ e. tree_of e ≡ argument_of (map tree_of arguments.now) number) }
{
    match arguments.split_first() {
        Some((first, others)) => {
            if number == 0 {
                copied(alloc, first)
            } else {
                argument_of(alloc, others, number - 1)
            }
        }
        None => Ok(Expr::Number(0)),
    }
}

/// An expression, with these arguments in place of its variables.
fn put(alloc: Global, arguments: &[Expr], e: &Expr) -> Result<Expr, AllocError>
    ensures { IfOk result (λ r. tree_of r ≡ put (map tree_of arguments.now) (tree_of e.now)) }
{
    match e {
        Expr::Number(n) => Ok(Expr::Number(*n)),
        Expr::Variable(x) => argument_of(alloc, arguments, *x),
        Expr::Slot => Ok(Expr::Slot),
        Expr::Width => Ok(Expr::Width),
        Expr::Two(op, a, b) => {
            let first = put(alloc, arguments, a)?;
            let second = put(alloc, arguments, b)?;
            two_of(alloc, *op, first, second)
        }
    }
}

fn put_test(alloc: Global, arguments: &[Expr], t: &Test) -> Result<Test, AllocError>
    ensures { IfOk result
        (λ r. test_tree_of r ≡ put_test (map tree_of arguments.now) (test_tree_of t.now)) }
{
    match t {
        Test::Holds(e) => Ok(Test::Holds(put(alloc, arguments, e)?)),
        Test::Not(t) => {
            let opposite = put_test(alloc, arguments, t)?;
            Ok(Test::Not(Box::new(alloc, opposite)?))
        }
        Test::Both(a, b) => {
            let first = put_test(alloc, arguments, a)?;
            let second = put_test(alloc, arguments, b)?;
            Ok(Test::Both(Box::new(alloc, first)?, Box::new(alloc, second)?))
        }
        Test::Either(a, b) => {
            let first = put_test(alloc, arguments, a)?;
            let second = put_test(alloc, arguments, b)?;
            Ok(Test::Either(Box::new(alloc, first)?, Box::new(alloc, second)?))
        }
    }
}

fn put_value(alloc: Global, arguments: &[Expr], value: &Value) -> Result<Value, AllocError>
    ensures { IfOk result
        (λ r. value_tree_of r ≡ put_value (map tree_of arguments.now) (value_tree_of value.now)) }
{
    match value {
        Value::Number(e) => Ok(Value::Number(put(alloc, arguments, e)?)),
        Value::Truth(t) => Ok(Value::Truth(put_test(alloc, arguments, t)?)),
    }
}

/// With an operator between so many and so many.
fn one_more_than(a: u16, b: u16) -> u16
    ensures { result ≡ one_more_than a b }
{
    if u32::from(a) + u32::from(b) < 1000 {
        a + b + 1
    } else {
        1000
    }
}

fn operators_in(e: &Expr) -> u16
    ensures { result ≡ operators_in (tree_of e.now) }
{
    match e {
        Expr::Two(_, a, b) => one_more_than(operators_in(a), operators_in(b)),
        _ => 0,
    }
}

fn test_operators(t: &Test) -> u16
    ensures { result ≡ test_operators (test_tree_of t.now) }
{
    match t {
        Test::Holds(e) => operators_in(e),
        Test::Not(t) => test_operators(t),
        Test::Both(a, b) => one_more_than(test_operators(a), test_operators(b)),
        Test::Either(a, b) => one_more_than(test_operators(a), test_operators(b)),
    }
}

fn value_operators(value: &Value) -> u16
    ensures { result ≡ value_operators (value_tree_of value.now) }
{
    match value {
        Value::Number(e) => operators_in(e),
        Value::Truth(t) => test_operators(t),
    }
}

/// A value that is not too long to be inserted.
pub(crate) fn if_short(value: Value, tokens: &[Token]) -> Result<Value, ReadError>
    ensures { Gives value_tree_of result (if_short (value_tree_of value) tokens.now) }
{
    if value_operators(&value) > OPERATORS {
        Err(fault_at(tokens, Wrong::TooLong))
    } else {
        Ok(value)
    }
}

pub(crate) fn short_number(e: Expr, tokens: &[Token]) -> Result<Expr, ReadError>
    ensures { Gives tree_of result (short_number (tree_of e) tokens.now) }
{
    if operators_in(&e) > OPERATORS {
        Err(fault_at(tokens, Wrong::TooLong))
    } else {
        Ok(e)
    }
}

/// What an inline function is given. It does not divide, except by a constant.
pub(crate) fn given_in(alloc: Global, value: Value, tokens: &[Token]) -> Result<Expr, ReadError>
    ensures { Gives tree_of result (given_in (value_tree_of value) tokens.now) }
{
    let e = number_in(alloc, value, tokens)?;
    if may_divide(&e) {
        Err(fault_at(tokens, Wrong::GivenDivision))
    } else {
        short_number(e, tokens)
    }
}

/// What is inserted. The first of the tokens is the name of the inline function.
pub(crate) fn inserted(
    alloc: Global,
    inline: &Inline,
    arguments: &[Expr],
    called: &[Token],
) -> Result<Value, ReadError>
    ensures { Gives value_tree_of result
        (inserted (inline_tree_of inline.now) (map tree_of arguments.now) called.now) }
{
    let value = put_value(alloc, arguments, &inline.value)?;
    if_short(value, called)
}

/// What is inserted for an inline function without parameters, behind `(`.
pub(crate) fn no_argument<'a>(
    alloc: Global,
    inline: &Inline,
    called: &[Token],
    tokens: &'a [Token],
) -> Result<(Value, &'a [Token]), ReadError>
    ensures { Gives (λ x. (value_tree_of x.0, x.1.now)) result
        (no_argument (inline_tree_of inline.now) called.now tokens.entry.now) }
{
    if is_close(tokens) {
        Ok((inserted(alloc, inline, &[], called)?, after_first(tokens)))
    } else {
        Err(fault_at(called, Wrong::ArgumentCount))
    }
}
