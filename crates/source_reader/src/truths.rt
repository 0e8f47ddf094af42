// Conditions as numbers: 1 if they hold, else 0.
ghost use Rattle.std.specs.Prelude.{◌≡◌, IfOk};
ghost use Rattle.source_reader.specs.Trees.{tree_of, test_tree_of};
ghost use Rattle.source_reader.specs.Truths.{may_be_nought, may_fail, may_divide, test_may_divide, may_skip, is_comparison, is_bit, is_0, holding, joining, bit_of};

use crate::folding::two_of;
use source_language::{Expr, Operator, Test};
use std::alloc::{AllocError, Global};

fn may_be_nought(e: &Expr) -> bool
    ensures { result ≡ may_be_nought (tree_of e.now) }
{
    match e {
        Expr::Number(n) => *n == 0,
        _ => true,
    }
}

/// Whether an operator may have no result, by its right operand.
fn may_fail(op: Operator, b: &Expr) -> bool
    ensures { result ≡ may_fail op (tree_of b.now) }
{
    match op {
        Operator::Over => may_be_nought(b),
        Operator::Remainder => may_be_nought(b),
        _ => false,
    }
}

/// Whether an expression may divide by 0.
pub(crate) fn may_divide(e: &Expr) -> bool
    ensures { result ≡ may_divide (tree_of e.now) }
{
    match e {
        Expr::Two(op, a, b) => may_divide(a) || may_divide(b) || may_fail(*op, b),
        _ => false,
    }
}

/// Whether a condition may divide by 0.
fn test_may_divide(t: &Test) -> bool
    ensures { result ≡ test_may_divide (test_tree_of t.now) }
{
    match t {
        Test::Holds(e) => may_divide(e),
        Test::Not(t) => test_may_divide(t),
        Test::Both(a, b) => test_may_divide(a) || test_may_divide(b),
        Test::Either(a, b) => test_may_divide(a) || test_may_divide(b),
    }
}

/// Whether what is skipped, which stands behind `&&` or `||`, may divide by 0.
pub(crate) fn may_skip(t: &Test) -> bool
    ensures { result ≡ may_skip (test_tree_of t.now) }
{
    match t {
        Test::Holds(_) => false,
        Test::Not(t) => may_skip(t),
        Test::Both(a, b) => may_skip(a) || test_may_divide(b),
        Test::Either(a, b) => may_skip(a) || test_may_divide(b),
    }
}

fn is_comparison(op: Operator) -> bool
    ensures { result ≡ is_comparison op }
{
    match op {
        Operator::Below => true,
        Operator::AtMost => true,
        Operator::Equal => true,
        _ => false,
    }
}

/// Whether an expression is always 1 or 0.
fn is_bit(e: &Expr) -> bool
    ensures { result ≡ is_bit (tree_of e.now) }
{
    match e {
        Expr::Two(op, _, _) => is_comparison(*op),
        _ => false,
    }
}

fn is_0(alloc: Global, e: Expr) -> Result<Expr, AllocError>
    ensures { IfOk result (λ r. tree_of r ≡ is_0 (tree_of e)) }
{
    two_of(alloc, Operator::Equal, e, Expr::Number(0))
}

/// 1 if a number is not 0, else 0; or, without `want`, the other way round.
fn holding(alloc: Global, want: bool, e: Expr) -> Result<Expr, AllocError>
    ensures { IfOk result (λ r. tree_of r ≡ holding want (tree_of e)) }
{
    if !want {
        return is_0(alloc, e);
    }
    if is_bit(&e) {
        return Ok(e);
    }
    let opposite = is_0(alloc, e)?;
    is_0(alloc, opposite)
}

fn joining(want: bool) -> Operator
    ensures { result ≡ joining want }
{
    if want {
        Operator::BitAnd
    } else {
        Operator::BitOr
    }
}

/// 1 if the condition is as `want` says, else 0.
pub(crate) fn bit_of(alloc: Global, want: bool, t: Test) -> Result<Expr, AllocError>
    ensures { IfOk result (λ r. tree_of r ≡ bit_of want (test_tree_of t)) }
{
    match t {
        Test::Holds(e) => holding(alloc, want, e),
        Test::Not(t) => bit_of(alloc, !want, Box::into_inner(t)),
        Test::Both(a, b) => {
            let first = bit_of(alloc, want, Box::into_inner(a))?;
            let second = bit_of(alloc, want, Box::into_inner(b))?;
            two_of(alloc, joining(want), first, second)
        }
        Test::Either(a, b) => {
            let first = bit_of(alloc, want, Box::into_inner(a))?;
            let second = bit_of(alloc, want, Box::into_inner(b))?;
            two_of(alloc, joining(!want), first, second)
        }
    }
}
