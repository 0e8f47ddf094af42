// A value in place of its variable.
ghost use Rattle.std.specs.Prelude.{◌≡◌, ◌<◌, ℕ, ℤ, List, Some, None, IfOk, OnOk};
ghost use Rattle.source_language.specs.Meaning.{value_of};
ghost use Rattle.values_again.specs.Again.{IsUntouched, IsAlike, IsTestAlike, IsAgain, IsBehind, ReadsAgain};

use crate::touching::{is_free, is_untouched};
use source_language::{Expr, Function, Stmt, Test};
use std::alloc::{AllocError, Global};

/// An expression that has the same value.
pub fn copy_of(alloc: Global, e: &Expr) -> Result<Expr, AllocError>
    ensures { IfOk result (λ r. (slot width : ℕ) (vars : List ℤ)
        → value_of r slot width vars ≡ value_of e.now slot width vars) }
{
    match e {
        Expr::Number(n) => Ok(Expr::Number(*n)),
        Expr::Variable(x) => Ok(Expr::Variable(*x)),
        Expr::Slot => Ok(Expr::Slot),
        Expr::Width => Ok(Expr::Width),
        Expr::Two(op, a, b) => {
            let a = Box::new(alloc, copy_of(alloc, a)?)?;
            let b = Box::new(alloc, copy_of(alloc, b)?)?;
            Ok(Expr::Two(*op, a, b))
        }
    }
}

// The value of a variable in its place.
fn read_in_expr(alloc: Global, d: &mut Expr, v: u8, e: &Expr) -> Result<(), AllocError>
    ensures { OnOk result (IsAlike v (Some e.now) d.old d.new) }
{
    match d {
        Expr::Number(_) => Ok(()),
        Expr::Variable(x) => {
            if *x == v {
                *d = copy_of(alloc, e)?;
            }
            Ok(())
        }
        Expr::Slot => Ok(()),
        Expr::Width => Ok(()),
        Expr::Two(_, a, b) => {
            read_in_expr(alloc, a, v, e)?;
            read_in_expr(alloc, b, v, e)
        }
    }
}

fn read_in_test(alloc: Global, c: &mut Test, v: u8, e: &Expr) -> Result<(), AllocError>
    ensures { OnOk result (IsTestAlike v (Some e.now) c.old c.new) }
{
    match c {
        Test::Holds(d) => read_in_expr(alloc, d, v, e),
        Test::Not(t) => read_in_test(alloc, t, v, e),
        Test::Both(a, b) => {
            read_in_test(alloc, a, v, e)?;
            read_in_test(alloc, b, v, e)
        }
        Test::Either(a, b) => {
            read_in_test(alloc, a, v, e)?;
            read_in_test(alloc, b, v, e)
        }
    }
}

#[tactic(auto, using(crate::proofs::Same::kept_rules))]
fn read_in_stmt(alloc: Global, s: &mut Stmt, v: u8, e: &Expr) -> Result<(), AllocError>
    requires { IsUntouched v e.now s.old }
    ensures { OnOk result (IsAgain v (Some e.now) s.old s.new) }
{
    match s {
        Stmt::Then(a, b) => {
            read_in_stmt(alloc, a, v, e)?;
            read_in_stmt(alloc, b, v, e)?;
            Ok(())
        }
        Stmt::Assign(_, d) => Ok(read_in_expr(alloc, d, v, e)?),
        Stmt::If(c, a, b) => {
            read_in_test(alloc, c, v, e)?;
            read_in_stmt(alloc, a, v, e)?;
            read_in_stmt(alloc, b, v, e)?;
            Ok(())
        }
        Stmt::Loop(c, b, s) => {
            read_in_test(alloc, c, v, e)?;
            read_in_stmt(alloc, b, v, e)?;
            read_in_stmt(alloc, s, v, e)?;
            Ok(())
        }
        Stmt::Repeat(c, b, s) => {
            read_in_test(alloc, c, v, e)?;
            read_in_stmt(alloc, b, v, e)?;
            read_in_stmt(alloc, s, v, e)?;
            Ok(())
        }
        Stmt::Return(d) => Ok(read_in_expr(alloc, d, v, e)?),
        Stmt::Make(_, _, a, b) => {
            read_in_expr(alloc, a, v, e)?;
            read_in_expr(alloc, b, v, e)?;
            Ok(())
        }
        Stmt::Store(_, d) => Ok(read_in_expr(alloc, d, v, e)?),
        Stmt::Skip => Ok(()),
        Stmt::Break(_) => Ok(()),
        Stmt::Continue(_) => Ok(()),
        Stmt::Wait(_, _, _) => Ok(()),
        Stmt::Cancel(_) => Ok(()),
        Stmt::Read(_, _) => Ok(()),
    }
}

// What follows a statement, if that gives the variable a value that can be computed again there; whether it does.
fn read_behind(alloc: Global, v: u8, first: &Stmt, s: &mut Stmt) -> Result<bool, AllocError>
    ensures { IfOk result (λ again. IsBehind v again first.now s.old s.new) }
{
    match first {
        Stmt::Assign(x, e) => {
            if *x == v && is_free(v, e) && is_untouched(v, e, s) {
                read_in_stmt(alloc, s, v, e)?;
                Ok(true)
            } else {
                Ok(false)
            }
        }
        _ => Ok(false),
    }
}

// Wherever the variable is given a value that can be computed again in what follows, it is.
#[tactic(auto, using(crate::proofs::Same::kept_rules))]
fn again_in(alloc: Global, s: &mut Stmt, v: u8) -> Result<(), AllocError>
    ensures { OnOk result (IsAgain v None s.old s.new) }
{
    match s {
        Stmt::Then(a, b) => {
            if read_behind(alloc, v, a, b)? {
                return Ok(());
            }
            again_in(alloc, a, v)?;
            again_in(alloc, b, v)?;
            Ok(())
        }
        Stmt::If(_, a, b) => {
            again_in(alloc, a, v)?;
            again_in(alloc, b, v)?;
            Ok(())
        }
        Stmt::Loop(_, b, s) => {
            again_in(alloc, b, v)?;
            again_in(alloc, s, v)?;
            Ok(())
        }
        Stmt::Repeat(_, b, s) => {
            again_in(alloc, b, v)?;
            again_in(alloc, s, v)?;
            Ok(())
        }
        _ => Ok(()),
    }
}

/// Wherever a variable is given a value, and neither it nor what the value is made of changes in the block behind that, the
/// value is computed again where the block reads the variable. If an allocation fails, the function is no longer what it
/// was.
pub fn read_again(alloc: Global, function: &mut Function, v: u8) -> Result<(), AllocError>
    requires { v < function.old.variables }
    ensures { OnOk result (ReadsAgain v function.old function.new) }
{
    again_in(alloc, &mut function.body, v)
}
