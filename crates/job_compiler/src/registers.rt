// Whether the variables and the values on the way fit the virtual registers.
ghost use Rattle.std.specs.Prelude.{IsTrue, ◌≡◌, ◌+◌, ◌<◌, ◌↔◌, SomeIff};
ghost use Rattle.job_compiler.specs.Code.{above, register_for};
ghost use Rattle.job_compiler.specs.Registers.{IsOperandLow, AreBothLow, IsValueLow, IsTestLow, IsMakerLow, IsStmtLow};

use crate::needs::is_right_first;
use crate::sizes::compared;
use source_language::{Expr, Maker, Stmt, Test};

/// How many virtual registers there are.
pub(crate) const VIRTUAL_REGISTERS: u8 = 255;

// Whether there is a virtual register of this number.
fn is_low(number: u8) -> bool
    ensures { IsTrue result ↔ (number < VIRTUAL_REGISTERS) }
{
    number < VIRTUAL_REGISTERS
}

// The next free register beside what is written into the first free one.
fn next_low(free: u8) -> Option<u8>
    ensures { SomeIff result (free < VIRTUAL_REGISTERS) (free + 1) }
{
    if is_low(free) { Some(free + 1) } else { None }
}

/// The first free register beside an operand, if there are enough registers for it.
#[cycle(low)]
fn operand_low(e: &Expr, free: u8) -> Option<u8>
    ensures { SomeIff result (IsOperandLow VIRTUAL_REGISTERS e.now free) (above e.now free) }
{
    match e {
        Expr::Number(_) => next_low(free),
        Expr::Variable(x) => { if is_low(*x) { Some(free) } else { None } }
        Expr::Slot => next_low(free),
        Expr::Width => next_low(free),
        Expr::Two(_, a, b) => {
            if both_low(a, b, free) {
                next_low(free)
            } else {
                None
            }
        }
    }
}

fn value_low(e: &Expr, free: u8) -> bool
    ensures { IsTrue result ↔ IsValueLow VIRTUAL_REGISTERS e.now free }
{
    match e {
        Expr::Number(_) => true,
        Expr::Variable(x) => is_low(*x),
        Expr::Slot => true,
        Expr::Width => true,
        Expr::Two(_, a, b) => both_low(a, b, free),
    }
}

fn test_low(c: &Test, free: u8) -> bool
    ensures { IsTrue result ↔ IsTestLow VIRTUAL_REGISTERS c.now free }
{
    match c {
        Test::Holds(e) => match compared(e) {
            Some(a) => operand_low(a, free).is_some(),
            None => operand_low(e, free).is_some(),
        },
        Test::Not(t) => test_low(t, free),
        Test::Both(a, b) => test_low(a, free) && test_low(b, free),
        Test::Either(a, b) => test_low(a, free) && test_low(b, free),
    }
}

fn maker_low(m: Maker) -> bool
    ensures { IsTrue result ↔ IsMakerLow VIRTUAL_REGISTERS m }
{
    match m {
        Maker::Isolate(d) => is_low(d),
        Maker::Spawn(_) => true,
        Maker::Post => true,
    }
}

// Whether there are enough registers for two operands.
#[cycle(low)]
fn both_low(a: &Expr, b: &Expr, free: u8) -> bool
    ensures { IsTrue result ↔ AreBothLow VIRTUAL_REGISTERS a.now b.now free }
{
    if is_right_first(a, b) {
        match operand_low(b, free) {
            Some(next) => operand_low(a, next).is_some(),
            None => false,
        }
    } else {
        match operand_low(a, free) {
            Some(next) => operand_low(b, next).is_some(),
            None => false,
        }
    }
}

fn one_low(into: Option<u8>, free: u8) -> bool
    ensures { IsTrue result ↔ (register_for into free < VIRTUAL_REGISTERS) }
{
    match into {
        Some(d) => is_low(d),
        None => is_low(free),
    }
}

/// Whether a statement's variables and the values on the way fit the virtual registers.
pub(crate) fn stmt_low(s: &Stmt, free: u8) -> bool
    ensures { IsTrue result ↔ IsStmtLow VIRTUAL_REGISTERS s.now free }
{
    match s {
        Stmt::Skip => true,
        Stmt::Then(a, b) => stmt_low(a, free) && stmt_low(b, free),
        Stmt::Assign(x, e) => is_low(*x) && value_low(e, free),
        Stmt::If(c, a, b) => test_low(c, free) && stmt_low(a, free) && stmt_low(b, free),
        Stmt::Loop(c, b, s) => test_low(c, free) && stmt_low(b, free) && stmt_low(s, free),
        Stmt::Repeat(c, b, s) => test_low(c, free) && stmt_low(b, free) && stmt_low(s, free),
        Stmt::Break(_) => true,
        Stmt::Continue(_) => true,
        Stmt::Return(e) => operand_low(e, free).is_some(),
        Stmt::Make(m, _, a, b) => maker_low(*m) && both_low(a, b, free),
        Stmt::Wait(d, e, _) => one_low(*d, free) && one_low(*e, free),
        Stmt::Cancel(_) => true,
        Stmt::Read(d, _) => is_low(*d),
        Stmt::Store(_, e) => operand_low(e, free).is_some(),
    }
}
