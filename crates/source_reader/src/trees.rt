// Statements of parts.
ghost use Rattle.std.specs.Prelude.{◌≡◌, IfOk};
ghost use Rattle.source_reader.specs.Trees.{tree_of, test_tree_of, stmt_tree_of, value_tree_of, ThenTree, IfTree, LoopTree};
ghost use Rattle.source_reader.specs.Lines.{assigned, returned, leaves};

use crate::joining::Value;
use source_language::{Expr, Stmt, Test};
use std::alloc::{AllocError, Global};

pub(crate) fn then(alloc: Global, a: Stmt, b: Stmt) -> Result<Stmt, AllocError>
    ensures { IfOk result (λ s. stmt_tree_of s ≡ ThenTree (stmt_tree_of a) (stmt_tree_of b)) }
{
    Ok(Stmt::Then(Box::new(alloc, a)?, Box::new(alloc, b)?))
}

pub(crate) fn choice(alloc: Global, c: Test, a: Stmt, b: Stmt) -> Result<Stmt, AllocError>
    ensures { IfOk result
        (λ s. stmt_tree_of s ≡ IfTree (test_tree_of c) (stmt_tree_of a) (stmt_tree_of b)) }
{
    Ok(Stmt::If(c, Box::new(alloc, a)?, Box::new(alloc, b)?))
}

/// A loop that goes on as long as the condition holds.
pub(crate) fn looped(alloc: Global, c: Test, body: Stmt, step: Stmt) -> Result<Stmt, AllocError>
    ensures { IfOk result (λ s. stmt_tree_of s
        ≡ LoopTree (test_tree_of c) (stmt_tree_of body) (stmt_tree_of step)) }
{
    let body = Box::new(alloc, body)?;
    Ok(Stmt::Loop(c, body, Box::new(alloc, step)?))
}

/// A variable is given a value.
pub(crate) fn assigned(alloc: Global, number: u8, value: Value) -> Result<Stmt, AllocError>
    ensures { IfOk result (λ s. stmt_tree_of s ≡ assigned number (value_tree_of value)) }
{
    match value {
        Value::Number(e) => Ok(Stmt::Assign(number, e)),
        Value::Truth(t) => choice(
            alloc,
            t,
            Stmt::Assign(number, Expr::Number(1)),
            Stmt::Assign(number, Expr::Number(0)),
        ),
    }
}

/// A value is returned.
pub(crate) fn returned(alloc: Global, value: Value) -> Result<Stmt, AllocError>
    ensures { IfOk result (λ s. stmt_tree_of s ≡ returned (value_tree_of value)) }
{
    match value {
        Value::Number(e) => Ok(Stmt::Return(e)),
        Value::Truth(t) => choice(
            alloc,
            t,
            Stmt::Return(Expr::Number(1)),
            Stmt::Return(Expr::Number(0)),
        ),
    }
}

/// Whether what follows is never reached.
pub(crate) fn leaves(s: &Stmt) -> bool
    ensures { result ≡ leaves (stmt_tree_of s.now) }
{
    match s {
        Stmt::Then(a, b) => leaves(a) || leaves(b),
        Stmt::If(_, a, b) => leaves(a) && leaves(b),
        Stmt::Break(_) => true,
        Stmt::Continue(_) => true,
        Stmt::Return(_) => true,
        _ => false,
    }
}
