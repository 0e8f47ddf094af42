// A value in a variable of its own, in the part of a function that reads it.
ghost use Rattle.std.specs.Prelude.{◌<◌, Some, IfOk, OnOk};
ghost use Rattle.values_again.specs.Again.{IsAgain, IsAlike, IsFree, IsTestAlike, IsUntouched};
ghost use Rattle.kept_values.specs.Given.{HasValue};
ghost use Rattle.kept_values.specs.Kept.{IsKept, KeepsIf, KeepsValue};

use crate::best::best_saving;
use crate::values::{has_value, is_same};
use source_language::{Expr, Function, Operator, Stmt, Test};
use std::alloc::{AllocError, Global};
use std::mem;
use values_again::{copy_of, is_free, is_untouched};

// The variable for the value.
fn keep_in_expr(d: &mut Expr, v: u8, e: &Expr)
    ensures { IsAlike v (Some e.now) d.old d.new }
{
    if is_same(d, e) {
        *d = Expr::Variable(v);
        return;
    }
    match d {
        Expr::Number(_) => (),
        Expr::Variable(_) => (),
        Expr::Slot => (),
        Expr::Width => (),
        Expr::Two(_, a, b) => {
            keep_in_expr(a, v, e);
            keep_in_expr(b, v, e);
        }
    }
}

// The same in what goes to a variable: a number is given to it by one instruction.
fn keep_in_value(d: &mut Expr, v: u8, e: &Expr)
    ensures { IsAlike v (Some e.now) d.old d.new }
{
    match d {
        Expr::Number(_) => (),
        Expr::Variable(_) => (),
        Expr::Slot => keep_in_expr(d, v, e),
        Expr::Width => keep_in_expr(d, v, e),
        Expr::Two(_, _, _) => keep_in_expr(d, v, e),
    }
}

// The same in what holds if it is not 0: a 0 with which a value is compared is not needed.
fn keep_in_held(d: &mut Expr, v: u8, e: &Expr)
    ensures { IsAlike v (Some e.now) d.old d.new }
{
    match d {
        Expr::Two(Operator::Equal, a, b) => {
            keep_in_expr(a, v, e);
            keep_in_value(b, v, e);
        }
        _ => keep_in_expr(d, v, e),
    }
}

fn keep_in_test(c: &mut Test, v: u8, e: &Expr)
    ensures { IsTestAlike v (Some e.now) c.old c.new }
{
    match c {
        Test::Holds(d) => keep_in_held(d, v, e),
        Test::Not(t) => keep_in_test(t, v, e),
        Test::Both(a, b) => {
            keep_in_test(a, v, e);
            keep_in_test(b, v, e);
        }
        Test::Either(a, b) => {
            keep_in_test(a, v, e);
            keep_in_test(b, v, e);
        }
    }
}

#[tactic(auto, using(crate::proofs::Parts::kept_rules))]
fn keep_in_stmt(s: &mut Stmt, v: u8, e: &Expr)
    requires { IsUntouched v e.now s.old }
    ensures { IsAgain v (Some e.now) s.old s.new }
{
    match s {
        Stmt::Then(a, b) => {
            keep_in_stmt(a, v, e);
            keep_in_stmt(b, v, e);
        }
        Stmt::Assign(_, d) => keep_in_value(d, v, e),
        Stmt::If(c, a, b) => {
            keep_in_test(c, v, e);
            keep_in_stmt(a, v, e);
            keep_in_stmt(b, v, e);
        }
        Stmt::Loop(c, b, s) => {
            keep_in_test(c, v, e);
            keep_in_stmt(b, v, e);
            keep_in_stmt(s, v, e);
        }
        Stmt::Repeat(c, b, s) => {
            keep_in_test(c, v, e);
            keep_in_stmt(b, v, e);
            keep_in_stmt(s, v, e);
        }
        Stmt::Return(d) => keep_in_expr(d, v, e),
        Stmt::Make(_, _, a, b) => {
            keep_in_expr(a, v, e);
            keep_in_expr(b, v, e);
        }
        Stmt::Store(_, d) => keep_in_expr(d, v, e),
        Stmt::Skip => (),
        Stmt::Break(_) => (),
        Stmt::Continue(_) => (),
        Stmt::Wait(_, _, _) => (),
        Stmt::Cancel(_) => (),
        Stmt::Read(_, _) => (),
    }
}

// Gives the variable the value before a statement, which then reads it.
fn keep_before(alloc: Global, s: &mut Stmt, v: u8, value: Expr) -> Result<(), AllocError>
    requires has { HasValue value }
    requires free { IsFree v value }
    requires untouched { IsUntouched v value s.old }
    ensures { OnOk result (IsKept v s.old s.new) }
{
    keep_in_stmt(s, v, &value);
    let part = mem::replace(s, Stmt::Skip);
    let first = Box::new(alloc, Stmt::Assign(v, value))?;
    *s = Stmt::Then(first, Box::new(alloc, part)?);
    Ok(())
}

// The same if the value is one, and the statement changes nothing of it.
#[tactic(auto, using(crate::proofs::Parts::kept_rules))]
fn keep_here(alloc: Global, s: &mut Stmt, v: u8, e: &Expr) -> Result<(), AllocError>
    ensures { OnOk result (IsKept v s.old s.new) }
{
    let value = copy_of(alloc, e)?;
    if has_value(&value) && is_free(v, &value) && is_untouched(v, &value, s) {
        return keep_before(alloc, s, v, value);
    }
    Ok(())
}

// The same before the statement of that number, counted from 0, each one before its parts.
#[tactic(auto, using(crate::proofs::Parts::kept_rules))]
fn keep_at(alloc: Global, s: &mut Stmt, v: u8, e: &Expr, left: &mut u32) -> Result<(), AllocError>
    ensures { OnOk result (IsKept v s.old s.new) }
{
    if *left == 0 {
        *left = u32::MAX;
        return keep_here(alloc, s, v, e);
    }
    *left = *left - 1;
    match s {
        Stmt::Then(a, b) => {
            keep_at(alloc, a, v, e, left)?;
            keep_at(alloc, b, v, e, left)?;
            Ok(())
        }
        Stmt::If(_, a, b) => {
            keep_at(alloc, a, v, e, left)?;
            keep_at(alloc, b, v, e, left)?;
            Ok(())
        }
        Stmt::Loop(_, b, s) => {
            keep_at(alloc, b, v, e, left)?;
            keep_at(alloc, s, v, e, left)?;
            Ok(())
        }
        Stmt::Repeat(_, b, s) => {
            keep_at(alloc, b, v, e, left)?;
            keep_at(alloc, s, v, e, left)?;
            Ok(())
        }
        _ => Ok(()),
    }
}

// Keeps a value in one more variable, before and in the statement of that number.
fn keep_value(
    alloc: Global,
    function: &mut Function,
    e: &Expr,
    place: u32,
) -> Result<(), AllocError>
    requires { function.old.variables < u8.MAX }
    ensures { OnOk result (KeepsValue function.old function.new) }
{
    let v = function.variables;
    let mut left = place;
    keep_at(alloc, &mut function.body, v, e, &mut left)?;
    function.variables = v + 1;
    Ok(())
}

/// Keeps the value that saves most instructions in one more variable, which is given it before a part of the function
/// and read there in its place; whether there is such a value. If an allocation fails, the function is no longer what it
/// was.
pub fn keep_best(alloc: Global, function: &mut Function) -> Result<bool, AllocError>
    ensures { IfOk result (λ kept. KeepsIf kept function.old function.new) }
{
    if function.variables == u8::MAX {
        return Ok(false);
    }
    match best_saving(function) {
        Some(saving) => {
            let place = saving.place;
            let value = copy_of(alloc, saving.value)?;
            keep_value(alloc, function, &value, place)?;
            Ok(true)
        }
        None => Ok(false),
    }
}
