// What a value depends on, and whether a statement changes that.
ghost use Rattle.std.specs.Prelude.{IsTrue};
ghost use Rattle.values_again.specs.Again.{IsFree, IsKept, IsOneKept, IsMakerKept, IsUntouched};

use source_language::{Expr, Maker, Stmt};

/// Whether an expression does not read a variable.
pub fn is_free(x: u8, e: &Expr) -> bool
    ensures { IsTrue result → IsFree x e.now }
{
    match e {
        Expr::Number(_) => true,
        Expr::Variable(y) => *y != x,
        Expr::Slot => true,
        Expr::Width => true,
        Expr::Two(_, a, b) => is_free(x, a) && is_free(x, b),
    }
}

// Whether a variable that is given something is neither this one nor read by its value.
fn is_kept(v: u8, e: &Expr, x: u8) -> bool
    ensures { IsTrue result → IsKept v e.now x }
{
    x != v && is_free(x, e)
}

fn is_one_kept(v: u8, e: &Expr, x: Option<u8>) -> bool
    ensures { IsTrue result → IsOneKept v e.now x }
{
    match x {
        Some(x) => is_kept(v, e, x),
        None => true,
    }
}

fn is_maker_kept(v: u8, e: &Expr, maker: Maker) -> bool
    ensures { IsTrue result → IsMakerKept v e.now maker }
{
    match maker {
        Maker::Isolate(x) => is_kept(v, e, x),
        Maker::Spawn(_) => true,
        Maker::Post => true,
    }
}

/// Whether a statement gives nothing to a variable, nor to what its value reads.
pub fn is_untouched(v: u8, e: &Expr, s: &Stmt) -> bool
    ensures { IsTrue result → IsUntouched v e.now s.now }
{
    match s {
        Stmt::Then(a, b) => is_untouched(v, e, a) && is_untouched(v, e, b),
        Stmt::Assign(x, _) => is_kept(v, e, *x),
        Stmt::If(_, a, b) => is_untouched(v, e, a) && is_untouched(v, e, b),
        Stmt::Loop(_, b, s) => is_untouched(v, e, b) && is_untouched(v, e, s),
        Stmt::Repeat(_, b, s) => is_untouched(v, e, b) && is_untouched(v, e, s),
        Stmt::Make(maker, _, _, _) => is_maker_kept(v, e, *maker),
        Stmt::Wait(x, y, _) => is_one_kept(v, e, *x) && is_one_kept(v, e, *y),
        Stmt::Read(x, _) => is_kept(v, e, *x),
        Stmt::Skip => true,
        Stmt::Break(_) => true,
        Stmt::Continue(_) => true,
        Stmt::Return(_) => true,
        Stmt::Cancel(_) => true,
        Stmt::Store(_, _) => true,
    }
}
