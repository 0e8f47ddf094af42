// Values, and operators between them.
ghost use Rattle.std.specs.Prelude.{◌≡◌, Ok, IfOk};
ghost use Rattle.source_language.specs.declared.syntax.Operator.TheVariants as op;
ghost use Rattle.source_reader.specs.Faults.{Gives};
ghost use Rattle.source_reader.specs.Trees.{tree_of, test_tree_of, value_tree_of, NotTree, BothTree, EitherTree, TruthTree};
ghost use Rattle.source_reader.specs.Joining.{level_of, number_in, test_in, operation, minus, complement, joined, a_number, a_difference};
ghost use Rattle.source_reader.specs.Values.{sign_at};

use crate::faults::{ReadError, Wrong, fault_at};
use crate::folding::two_of;
use crate::truths::{bit_of, may_skip};
use source_language::{Expr, Operator, Test};
use source_tokens::{Kind, Sign, Token};
use std::alloc::{AllocError, Global};

/// A value: a number, or a condition.
#[derive(Drop)]
pub(crate) enum Value {
    Number(Expr),
    Truth(Test),
}

/// How tight an operator binds.
fn level_of(sign: Sign) -> u8
    ensures { result ≡ level_of sign }
{
    match sign {
        Sign::Or => 0,
        Sign::And => 1,
        Sign::Equal => 2,
        Sign::Unequal => 2,
        Sign::Below => 2,
        Sign::AtMost => 2,
        Sign::Above => 2,
        Sign::AtLeast => 2,
        Sign::BitOr => 3,
        Sign::BitXor => 4,
        Sign::BitAnd => 5,
        Sign::ShiftLeft => 6,
        Sign::ShiftRight => 6,
        Sign::Plus => 7,
        Sign::Minus => 7,
        Sign::Times => 8,
        Sign::Over => 8,
        Sign::Remainder => 8,
    }
}

/// The operator of that level at the front.
pub(crate) fn sign_at(level: u8, tokens: &[Token]) -> Option<Sign>
    ensures { result ≡ sign_at level tokens.now }
{
    match tokens.split_first() {
        Some((first, _)) => match first.kind {
            Kind::Sign(sign) => {
                if level_of(sign) == level {
                    Some(sign)
                } else {
                    None
                }
            }
            _ => None,
        },
        None => None,
    }
}

/// A value as a number. A condition is 1 or 0, if it skips no division.
pub(crate) fn number_in(alloc: Global, value: Value, tokens: &[Token]) -> Result<Expr, ReadError>
    ensures { Gives tree_of result (number_in (value_tree_of value) tokens.now) }
{
    match value {
        Value::Number(e) => Ok(e),
        Value::Truth(t) => {
            if may_skip(&t) {
                return Err(fault_at(tokens, Wrong::SkippedDivision));
            }
            Ok(bit_of(alloc, true, t)?)
        }
    }
}

/// A value as a condition: a number holds if it is not 0.
pub(crate) fn test_in(value: Value) -> Test
    ensures { test_tree_of result ≡ test_in (value_tree_of value) }
{
    match value {
        Value::Number(e) => Test::Holds(e),
        Value::Truth(t) => t,
    }
}

fn not(alloc: Global, t: Test) -> Result<Test, AllocError>
    ensures { IfOk result (λ r. test_tree_of r ≡ NotTree (test_tree_of t)) }
{
    Ok(Test::Not(Box::new(alloc, t)?))
}

/// The number 0 less a value.
pub(crate) fn minus(alloc: Global, value: Value, tokens: &[Token]) -> Result<Value, ReadError>
    ensures { Gives value_tree_of result (minus (value_tree_of value) tokens.now) }
{
    let e = number_in(alloc, value, tokens)?;
    Ok(Value::Number(two_of(alloc, Operator::Minus, Expr::Number(0), e)?))
}

/// A value with each bit the other way round.
pub(crate) fn complement(alloc: Global, value: Value, tokens: &[Token]) -> Result<Value, ReadError>
    ensures { Gives value_tree_of result (complement (value_tree_of value) tokens.now) }
{
    let e = number_in(alloc, value, tokens)?;
    Ok(Value::Number(two_of(alloc, Operator::BitXor, e, Expr::Number(-1))?))
}

/// Whether a value is 0, as a condition.
pub(crate) fn opposite(alloc: Global, value: Value) -> Result<Value, ReadError>
    ensures { Gives value_tree_of result (Ok (TruthTree (NotTree (test_in (value_tree_of value))))) }
{
    Ok(Value::Truth(not(alloc, test_in(value))?))
}

/// What the operator of the first of these tokens makes of two values.
pub(crate) fn joined(
    alloc: Global,
    sign: Sign,
    a: Value,
    b: Value,
    tokens: &[Token],
) -> Result<Value, ReadError>
    ensures { Gives value_tree_of result
        (joined sign (value_tree_of a) (value_tree_of b) tokens.now) }
{
    match sign {
        Sign::Or => either(alloc, a, b),
        Sign::And => both(alloc, a, b),
        Sign::Equal => arithmetic(alloc, Operator::Equal, a, b, tokens),
        Sign::Unequal => difference(alloc, a, b, tokens),
        Sign::Below => arithmetic(alloc, Operator::Below, a, b, tokens),
        Sign::AtMost => arithmetic(alloc, Operator::AtMost, a, b, tokens),
        Sign::Above => arithmetic(alloc, Operator::Below, b, a, tokens),
        Sign::AtLeast => arithmetic(alloc, Operator::AtMost, b, a, tokens),
        Sign::BitOr => arithmetic(alloc, Operator::BitOr, a, b, tokens),
        Sign::BitXor => arithmetic(alloc, Operator::BitXor, a, b, tokens),
        Sign::BitAnd => arithmetic(alloc, Operator::BitAnd, a, b, tokens),
        Sign::ShiftLeft => arithmetic(alloc, Operator::ShiftLeft, a, b, tokens),
        Sign::ShiftRight => arithmetic(alloc, Operator::ShiftRight, a, b, tokens),
        Sign::Plus => arithmetic(alloc, Operator::Plus, a, b, tokens),
        Sign::Minus => arithmetic(alloc, Operator::Minus, a, b, tokens),
        Sign::Times => arithmetic(alloc, Operator::Times, a, b, tokens),
        Sign::Over => arithmetic(alloc, Operator::Over, a, b, tokens),
        Sign::Remainder => arithmetic(alloc, Operator::Remainder, a, b, tokens),
    }
}

fn either(alloc: Global, a: Value, b: Value) -> Result<Value, ReadError>
    ensures { Gives value_tree_of result
        (Ok (TruthTree (EitherTree (test_in (value_tree_of a)) (test_in (value_tree_of b))))) }
{
    let first = Box::new(alloc, test_in(a))?;
    let second = Box::new(alloc, test_in(b))?;
    Ok(Value::Truth(Test::Either(first, second)))
}

fn both(alloc: Global, a: Value, b: Value) -> Result<Value, ReadError>
    ensures { Gives value_tree_of result
        (Ok (TruthTree (BothTree (test_in (value_tree_of a)) (test_in (value_tree_of b))))) }
{
    let first = Box::new(alloc, test_in(a))?;
    let second = Box::new(alloc, test_in(b))?;
    Ok(Value::Truth(Test::Both(first, second)))
}

/// The number of an operation.
pub(crate) fn operation(
    alloc: Global,
    op: Operator,
    a: Value,
    b: Value,
    tokens: &[Token],
) -> Result<Expr, ReadError>
    ensures { Gives tree_of result (operation op (value_tree_of a) (value_tree_of b) tokens.now) }
{
    let first = number_in(alloc, a, tokens)?;
    let second = number_in(alloc, b, tokens)?;
    Ok(two_of(alloc, op, first, second)?)
}

pub(crate) fn arithmetic(
    alloc: Global,
    op: Operator,
    a: Value,
    b: Value,
    tokens: &[Token],
) -> Result<Value, ReadError>
    ensures { Gives value_tree_of result
        (a_number (operation op (value_tree_of a) (value_tree_of b) tokens.now)) }
{
    Ok(Value::Number(operation(alloc, op, a, b, tokens)?))
}

/// Whether two values differ, as a condition.
fn difference(alloc: Global, a: Value, b: Value, tokens: &[Token]) -> Result<Value, ReadError>
    ensures { Gives value_tree_of result
        (a_difference (operation op.Minus (value_tree_of a) (value_tree_of b) tokens.now)) }
{
    Ok(Value::Truth(Test::Holds(operation(alloc, Operator::Minus, a, b, tokens)?)))
}
