// Operations: of two numbers that are written, one is its result.
ghost use Rattle.std.specs.Prelude.{◌≡◌, IfOk, Bool, if◌then◌else◌, pos};
ghost use Rattle.std.specs.Int.{int_shl, int_shr, w64};
ghost use Rattle.source_language.specs.Meaning.{shift_of, result_of};
ghost use Rattle.source_reader.specs.Trees.{tree_of, TwoTree};
ghost use Rattle.source_reader.specs.Folding.{two_of};

use source_language::{Expr, Operator};
use std::alloc::{AllocError, Global};

/// By how many bits a number shifts another: its lowest six bits.
fn shift_of(number: i64) -> u32
    ensures { result ≡ shift_of number }
{
    (number.cast_unsigned() % 64) as u32
}

/// A number, shifted left by the lowest six bits of another.
fn left(number: i64, by: i64) -> i64
    ensures { result ≡ int_shl w64 number (shift_of by) }
{
    number.wrapping_shl(shift_of(by))
}

/// A number, shifted right by the lowest six bits of another; it keeps its sign.
pub(crate) fn right(number: i64, by: i64) -> i64
    ensures { result ≡ int_shr number (shift_of by) }
{
    number.wrapping_shr(shift_of(by))
}

/// The result of an operator, unless it divides by 0.
fn result_of(op: Operator, x: i64, y: i64) -> Option<i64>
    ensures { result ≡ result_of op x y }
{
    match op {
        Operator::Plus => Some(x.wrapping_add(y)),
        Operator::Minus => Some(x.wrapping_sub(y)),
        Operator::Times => Some(x.wrapping_mul(y)),
        Operator::Over => {
            if y == 0 {
                None
            } else {
                Some(x.wrapping_div(y))
            }
        }
        Operator::Remainder => {
            if y == 0 {
                None
            } else {
                Some(x.wrapping_rem(y))
            }
        }
        Operator::BitAnd => Some(x & y),
        Operator::BitOr => Some(x | y),
        Operator::BitXor => Some(x ^ y),
        Operator::ShiftLeft => Some(left(x, y)),
        Operator::ShiftRight => Some(right(x, y)),
        Operator::Below => Some(i64::from(x < y)),
        Operator::AtMost => Some(i64::from(x <= y)),
        Operator::Equal => Some(i64::from(x == y)),
    }
}

/// An operation that is to be done.
pub(crate) fn two(alloc: Global, op: Operator, a: Expr, b: Expr) -> Result<Expr, AllocError>
    ensures { IfOk result (λ e. tree_of e ≡ TwoTree op (tree_of a) (tree_of b)) }
{
    Ok(Expr::Two(op, Box::new(alloc, a)?, Box::new(alloc, b)?))
}

/// An operation, or its result.
pub(crate) fn two_of(alloc: Global, op: Operator, a: Expr, b: Expr) -> Result<Expr, AllocError>
    ensures { IfOk result (λ e. tree_of e ≡ two_of op (tree_of a) (tree_of b)) }
{
    if let (Expr::Number(x), Expr::Number(y)) = (&a, &b) {
        if let Some(z) = result_of(op, *x, *y) {
            return Ok(Expr::Number(z));
        }
    }
    two(alloc, op, a, b)
}
