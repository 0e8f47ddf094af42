// Which expressions have a value, and which have the same one.
ghost use Rattle.std.specs.Prelude.{◌≡◌, ◌≢◌, ℕ, ℤ, List, IsTrue};
ghost use Rattle.source_language.specs.declared.syntax.Expr.{Expr};
ghost use Rattle.source_language.specs.declared.syntax.Operator.{Operator};
ghost use Rattle.source_language.specs.Meaning.{value_of};
ghost use Rattle.kept_values.specs.Given.{HasValue, HasResult, IsDivisor};

use source_language::{Expr, Operator};

/// Whether an expression has a value whatever the variables are: it divides by nothing but numbers other than 0.
pub(crate) fn has_value(e: &Expr) -> bool
    ensures { IsTrue result → HasValue e.now }
{
    match e {
        Expr::Number(_) => true,
        Expr::Variable(_) => true,
        Expr::Slot => true,
        Expr::Width => true,
        Expr::Two(op, a, b) => {
            if !has_value(a) {
                return false;
            }
            if !has_value(b) {
                return false;
            }
            has_result(*op, b)
        }
    }
}

// Whether the operator has a result on all numbers that the right side may be.
fn has_result(op: Operator, b: &Expr) -> bool
    ensures { IsTrue result → HasResult op b.now }
{
    if is_total(op) {
        return true;
    }
    is_divisor(b)
}

fn is_total(op: Operator) -> bool
    ensures { IsTrue result → (op ≢ Operator.Over) × (op ≢ Operator.Remainder) }
{
    op != Operator::Over && op != Operator::Remainder
}

fn is_divisor(e: &Expr) -> bool
    ensures { IsTrue result → IsDivisor e.now }
{
    match e {
        Expr::Number(n) => *n != 0,
        _ => false,
    }
}

/// Whether two expressions are the same, so that they have the same values.
pub(crate) fn is_same(d: &Expr, e: &Expr) -> bool
    ensures { IsTrue result → (slot width : ℕ) (vars : List ℤ)
        → value_of d.now slot width vars ≡ value_of e.now slot width vars }
{
    match d {
        Expr::Number(n) => is_number(e, *n),
        Expr::Variable(x) => is_variable(e, *x),
        Expr::Slot => matches!(e, Expr::Slot),
        Expr::Width => matches!(e, Expr::Width),
        Expr::Two(op, a, b) => match e {
            Expr::Two(other, c, d) => *op == *other && is_same(a, c) && is_same(b, d),
            _ => false,
        },
    }
}

fn is_number(e: &Expr, n: i64) -> bool
    ensures { IsTrue result → e.now ≡ Expr.Number n }
{
    match e {
        Expr::Number(m) => *m == n,
        _ => false,
    }
}

fn is_variable(e: &Expr, x: u8) -> bool
    ensures { IsTrue result → e.now ≡ Expr.Variable x }
{
    match e {
        Expr::Variable(y) => *y == x,
        _ => false,
    }
}
