// What it costs to compute the value of a variable again. Nothing rests on this.
use crate::touching::{is_free, is_untouched};
use source_language::{Expr, Function, Operator, Stmt, Test};

/// How often a loop is taken to turn.
const TURNS: u32 = 8;

/// How many instructions more a function is taken to do, if the value of a variable is computed again wherever that can be;
/// none, if it can be nowhere, or depends on a variable that is not alive.
pub fn cost_of(function: &Function, v: u8, alive: &[bool; 256]) -> Option<u32> {
    stmt_cost(&function.body, v, alive)
}

fn stmt_cost(s: &Stmt, v: u8, alive: &[bool; 256]) -> Option<u32> {
    match s {
        Stmt::Then(a, b) => match behind_cost(a, b, v, alive) {
            Some(cost) => Some(cost),
            None => sum(stmt_cost(a, v, alive), stmt_cost(b, v, alive)),
        },
        Stmt::If(_, a, b) => sum(stmt_cost(a, v, alive), stmt_cost(b, v, alive)),
        Stmt::Loop(_, b, s) => sum(stmt_cost(b, v, alive), stmt_cost(s, v, alive)),
        Stmt::Repeat(_, b, s) => sum(stmt_cost(b, v, alive), stmt_cost(s, v, alive)),
        _ => None,
    }
}

fn sum(a: Option<u32>, b: Option<u32>) -> Option<u32> {
    match (a, b) {
        (Some(a), Some(b)) => Some(a.saturating_add(b)),
        (Some(a), None) => Some(a),
        (None, b) => b,
    }
}

fn behind_cost(first: &Stmt, s: &Stmt, v: u8, alive: &[bool; 256]) -> Option<u32> {
    match first {
        Stmt::Assign(x, e) => {
            let again = *x == v && is_free(v, e) && is_untouched(v, e, s);
            if again && is_alive(e, alive) && !is_divided(e) {
                Some(size_of(e).saturating_mul(reads_in(s, v, 1)))
            } else {
                None
            }
        }
        _ => None,
    }
}

fn is_alive(e: &Expr, alive: &[bool; 256]) -> bool {
    match e {
        Expr::Variable(x) => alive[usize::from(*x)],
        Expr::Two(_, a, b) => is_alive(a, alive) && is_alive(b, alive),
        _ => true,
    }
}

fn is_divided(e: &Expr) -> bool {
    match e {
        Expr::Two(op, a, b) => {
            matches!(op, Operator::Over | Operator::Remainder) || is_divided(a) || is_divided(b)
        }
        _ => false,
    }
}

fn size_of(e: &Expr) -> u32 {
    match e {
        Expr::Variable(_) => 0,
        Expr::Two(_, a, b) => size_of(a).saturating_add(size_of(b)).saturating_add(1),
        _ => 1,
    }
}

fn reads_of(e: &Expr, v: u8) -> u32 {
    match e {
        Expr::Variable(x) => { if *x == v { 1 } else { 0 } }
        Expr::Two(_, a, b) => reads_of(a, v).saturating_add(reads_of(b, v)),
        _ => 0,
    }
}

fn reads_of_test(c: &Test, v: u8) -> u32 {
    match c {
        Test::Holds(e) => reads_of(e, v),
        Test::Not(t) => reads_of_test(t, v),
        Test::Both(a, b) => reads_of_test(a, v).saturating_add(reads_of_test(b, v)),
        Test::Either(a, b) => reads_of_test(a, v).saturating_add(reads_of_test(b, v)),
    }
}

fn reads_in(s: &Stmt, v: u8, times: u32) -> u32 {
    let more = times.saturating_mul(TURNS);
    match s {
        Stmt::Then(a, b) => reads_in(a, v, times).saturating_add(reads_in(b, v, times)),
        Stmt::Assign(_, e) => reads_of(e, v).saturating_mul(times),
        Stmt::If(c, a, b) => reads_of_test(c, v)
            .saturating_mul(times)
            .saturating_add(reads_in(a, v, times))
            .saturating_add(reads_in(b, v, times)),
        Stmt::Loop(c, b, s) => reads_of_test(c, v)
            .saturating_mul(more)
            .saturating_add(reads_in(b, v, more))
            .saturating_add(reads_in(s, v, more)),
        Stmt::Repeat(c, b, s) => reads_of_test(c, v)
            .saturating_mul(more)
            .saturating_add(reads_in(b, v, more))
            .saturating_add(reads_in(s, v, more)),
        Stmt::Return(e) => reads_of(e, v).saturating_mul(times),
        Stmt::Make(_, _, a, b) => reads_of(a, v)
            .saturating_add(reads_of(b, v))
            .saturating_mul(times),
        Stmt::Store(_, e) => reads_of(e, v).saturating_mul(times),
        _ => 0,
    }
}
