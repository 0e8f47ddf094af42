// How many instructions there will be.
ghost use Rattle.std.specs.Prelude.{◌≡◌, ◌+◌, ◌≤◌, length, option_map, SomeIff};
ghost use Rattle.job_compiler.specs.Code.{above, operand_code, both_code, opposite, opposed, is_zero, compared, jumps, over_size, test_size, stmt_size};
ghost use Rattle.job_compiler.specs.Registers.{IsOperandLow, AreBothLow, IsWantedLow, IsTestLow, IsStmtLow};
ghost use Rattle.job_compiler.specs.Wanted.{wanted_code};

use crate::needs::is_right_first;
use crate::registers::VIRTUAL_REGISTERS;
use source_language::{Expr, Operator, Stmt, Test};

/// How many instructions the body of a function may have: two more follow it.
pub(crate) const MAX_BODY: u8 = 254;

// A sum of two sizes, if it is one of a body.
fn sum(a: u8, b: u8) -> Option<u8>
    ensures { SomeIff result (a + b ≤ MAX_BODY) (a + b) }
{
    match a.checked_add(b) {
        Some(n) => { if n <= MAX_BODY { Some(n) } else { None } }
        None => None,
    }
}

/// The first free register beside an operand.
pub(crate) fn above(e: &Expr, free: u8) -> u8
    requires { IsOperandLow VIRTUAL_REGISTERS e.now free }
    ensures { result ≡ above e.now free }
{
    match e {
        Expr::Variable(_) => free,
        _ => free + 1,
    }
}

/// The size of an expression's code: as an operand, or with a register to be written.
#[cycle(size)]
pub(crate) fn expr_size(e: &Expr, into: Option<u8>, free: u8) -> Option<u8>
    requires { IsWantedLow VIRTUAL_REGISTERS e.now into free }
    ensures { SomeIff result (length (wanted_code e.now into free) ≤ MAX_BODY) (length (wanted_code e.now into free)) }
{
    match e {
        Expr::Number(_) => Some(1),
        Expr::Variable(_) => match into {
            Some(_) => Some(1),
            None => Some(0),
        },
        Expr::Slot => Some(1),
        Expr::Width => Some(1),
        Expr::Two(_, a, b) => sum(both_size(a, b, free)?, 1),
    }
}

/// The size of the code of two operands.
#[cycle(size)]
fn both_size(a: &Expr, b: &Expr, free: u8) -> Option<u8>
    requires { AreBothLow VIRTUAL_REGISTERS a.now b.now free }
    ensures { SomeIff result (length (both_code a.now b.now free) ≤ MAX_BODY) (length (both_code a.now b.now free)) }
{
    if is_right_first(a, b) {
        let right = expr_size(b, None, free)?;
        sum(expr_size(a, None, above(b, free))?, right)
    } else {
        let left = expr_size(a, None, free)?;
        sum(left, expr_size(b, None, above(a, free))?)
    }
}

/// The operator that gives 0 for two numbers, exchanged, exactly if this one does not give 0 for them.
pub(crate) fn opposite(op: Operator) -> Option<Operator>
    ensures { result ≡ opposite op }
{
    match op {
        Operator::Below => Some(Operator::AtMost),
        Operator::AtMost => Some(Operator::Below),
        Operator::Equal => Some(Operator::Minus),
        Operator::Minus => Some(Operator::Equal),
        Operator::Plus => None,
        Operator::Times => None,
        Operator::Over => None,
        Operator::Remainder => None,
        Operator::BitAnd => None,
        Operator::BitOr => None,
        Operator::BitXor => None,
        Operator::ShiftLeft => None,
        Operator::ShiftRight => None,
    }
}

/// The same of the operator of an expression.
fn opposed(e: &Expr) -> Option<Operator>
    ensures { result ≡ opposed e.now }
{
    match e {
        Expr::Two(op, _, _) => opposite(*op),
        Expr::Number(_) => None,
        Expr::Variable(_) => None,
        Expr::Slot => None,
        Expr::Width => None,
    }
}

// How many instructions jump if an expression is not 0, or if it is.
fn jumps(want: bool, opposed: Option<Operator>) -> u8
    ensures { result ≡ jumps want opposed }
{
    match (want, opposed) {
        (false, _) => 1,
        (true, Some(_)) => 1,
        (true, None) => 2,
    }
}

/// How many instructions jump over a side of a choice that has so many.
pub(crate) fn over_size(size: u8) -> u8
    ensures { result ≡ over_size size }
{
    if 0 < size { 1 } else { 0 }
}

fn is_zero(e: &Expr) -> bool
    ensures { result ≡ is_zero e.now }
{
    match e {
        Expr::Number(n) => *n == 0,
        Expr::Variable(_) => false,
        Expr::Slot => false,
        Expr::Width => false,
        Expr::Two(_, _, _) => false,
    }
}

/// What is only compared with 0: that holds exactly if it is 0.
pub(crate) fn compared(e: &Expr) -> Option<&Expr>
    ensures { option_map (λ a. a.now) result ≡ compared e.now }
{
    match e {
        Expr::Two(Operator::Equal, a, b) => { if is_zero(b) { Some(a) } else { None } }
        _ => None,
    }
}

fn jump_size(e: &Expr, want: bool, free: u8) -> Option<u8>
    requires { IsOperandLow VIRTUAL_REGISTERS e.now free }
    ensures { SomeIff result (length (operand_code e.now free) + jumps want (opposed e.now) ≤ MAX_BODY)
        (length (operand_code e.now free) + jumps want (opposed e.now)) }
{
    sum(expr_size(e, None, free)?, jumps(want, opposed(e)))
}

fn test_size(c: &Test, want: bool, free: u8) -> Option<u8>
    requires { IsTestLow VIRTUAL_REGISTERS c.now free }
    ensures { SomeIff result (test_size c.now want free ≤ MAX_BODY) (test_size c.now want free) }
{
    match c {
        Test::Holds(e) => match compared(e) {
            Some(a) => jump_size(a, !want, free),
            None => jump_size(e, want, free),
        },
        Test::Not(t) => test_size(t, !want, free),
        Test::Both(a, b) => sum(test_size(a, false, free)?, test_size(b, want, free)?),
        Test::Either(a, b) => sum(test_size(a, true, free)?, test_size(b, want, free)?),
    }
}

/// The size of a statement's code, if it is one of a body.
pub(crate) fn stmt_size(s: &Stmt, free: u8) -> Option<u8>
    requires { IsStmtLow VIRTUAL_REGISTERS s.now free }
    ensures { SomeIff result (stmt_size s.now free ≤ MAX_BODY) (stmt_size s.now free) }
{
    match s {
        Stmt::Skip => Some(0),
        Stmt::Then(a, b) => sum(stmt_size(a, free)?, stmt_size(b, free)?),
        Stmt::Assign(x, e) => expr_size(e, Some(*x), free),
        Stmt::If(c, a, b) => {
            let before = sum(test_size(c, false, free)?, stmt_size(a, free)?)?;
            let other = stmt_size(b, free)?;
            sum(sum(before, over_size(other))?, other)
        }
        Stmt::Loop(c, b, s) => {
            let parts = sum(stmt_size(b, free)?, stmt_size(s, free)?)?;
            sum(1, sum(parts, test_size(c, true, free)?)?)
        }
        Stmt::Repeat(c, b, s) => {
            let parts = sum(stmt_size(b, free)?, stmt_size(s, free)?)?;
            sum(parts, test_size(c, true, free)?)
        }
        Stmt::Break(_) => Some(1),
        Stmt::Continue(_) => Some(1),
        Stmt::Return(e) => sum(expr_size(e, None, free)?, 1),
        Stmt::Make(_, _, a, b) => sum(both_size(a, b, free)?, 1),
        Stmt::Wait(_, _, _) => Some(1),
        Stmt::Cancel(_) => Some(1),
        Stmt::Read(_, _) => Some(1),
        Stmt::Store(_, e) => sum(expr_size(e, None, free)?, 1),
    }
}

/// The size of a condition's code in a body.
pub(crate) fn size_of_test(c: &Test, want: bool, free: u8) -> u8
    requires low { IsTestLow VIRTUAL_REGISTERS c.now free }
    requires room { test_size c.now want free ≤ MAX_BODY }
    ensures { result ≡ test_size c.now want free }
{
    test_size(c, want, free).unwrap()
}

/// The size of a statement's code in a body.
pub(crate) fn size_of_stmt(s: &Stmt, free: u8) -> u8
    requires low { IsStmtLow VIRTUAL_REGISTERS s.now free }
    requires room { stmt_size s.now free ≤ MAX_BODY }
    ensures { result ≡ stmt_size s.now free }
{
    stmt_size(s, free).unwrap()
}
