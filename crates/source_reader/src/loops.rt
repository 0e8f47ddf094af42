// Loops that count, and what leaves a loop.
ghost use Rattle.std.specs.Prelude.{◌≡◌, IfOk};
ghost use Rattle.source_reader.specs.declared.tasks.Reach.TheVariants as reach;
ghost use Rattle.source_reader.specs.Faults.{Gives};
ghost use Rattle.source_reader.specs.Lines.{if_in_loop};
ghost use Rattle.source_reader.specs.Names.{names_of};
ghost use Rattle.source_reader.specs.Tasks.{leaving};
ghost use Rattle.source_reader.specs.Trees.{tree_of, test_tree_of, stmt_tree_of, value_tree_of};
ghost use Rattle.source_reader.specs.Counting.{before_end, to_end, is_behind, is_further, advanced, next_number, turns, counting_loop};

use crate::faults::ReadError;
use crate::folding::two;
use crate::joining::Value;
use crate::lines::if_in_loop;
use crate::names::Names;
use crate::tasks::{Reach, leaving};
use crate::trees::{assigned, choice, then};
use source_language::{Expr, Operator, Stmt, Test};
use source_tokens::Token;
use std::alloc::{AllocError, Global};

/// Whether the end is not reached.
fn before_end(alloc: Global, index: u8, end: u8, by: i64) -> Result<Expr, AllocError>
    ensures { IfOk result (λ e. tree_of e ≡ before_end index end by) }
{
    let index = Expr::Variable(index);
    let end = Expr::Variable(end);
    if by < 0 {
        two(alloc, Operator::Below, end, index)
    } else {
        two(alloc, Operator::Below, index, end)
    }
}

/// How far the end is, which may wrap.
pub(crate) fn to_end(alloc: Global, index: u8, end: u8) -> Result<Expr, AllocError>
    ensures { IfOk result (λ e. tree_of e ≡ to_end index end) }
{
    two(
        alloc,
        Operator::Minus,
        Expr::Variable(end),
        Expr::Variable(index),
    )
}

fn is_behind(alloc: Global, e: Expr) -> Result<Test, AllocError>
    ensures { IfOk result (λ t. test_tree_of t ≡ is_behind (tree_of e)) }
{
    Ok(Test::Holds(two(alloc, Operator::Below, e, Expr::Number(0))?))
}

/// Whether the end, which is not reached, is further than a step.
fn is_further(alloc: Global, index: u8, end: u8, by: i64) -> Result<Test, AllocError>
    ensures { IfOk result (λ t. test_tree_of t ≡ is_further index end by) }
{
    let has_wrapped = is_behind(alloc, to_end(alloc, index, end)?)?;
    let left = to_end(alloc, index, end)?;
    if by < 0 {
        let is_less = Test::Holds(two(alloc, Operator::Below, left, Expr::Number(by))?);
        let first = Box::new(alloc, Test::Not(Box::new(alloc, has_wrapped)?))?;
        return Ok(Test::Either(first, Box::new(alloc, is_less)?));
    }
    let is_more = Test::Holds(two(alloc, Operator::Below, Expr::Number(by), left)?);
    let first = Box::new(alloc, has_wrapped)?;
    Ok(Test::Either(first, Box::new(alloc, is_more)?))
}

fn advanced(alloc: Global, index: u8, by: i64) -> Result<Stmt, AllocError>
    ensures { IfOk result (λ s. stmt_tree_of s ≡ advanced index by) }
{
    let next = two(
        alloc,
        Operator::Plus,
        Expr::Variable(index),
        Expr::Number(by),
    )?;
    Ok(Stmt::Assign(index, next))
}

/// To the next number of the index, or to the end.
fn next_number(alloc: Global, index: u8, end: u8, by: i64) -> Result<Stmt, AllocError>
    ensures { IfOk result (λ s. stmt_tree_of s ≡ next_number index end by) }
{
    let next = advanced(alloc, index, by)?;
    if by == 1 {
        return Ok(next);
    }
    let further = is_further(alloc, index, end, by)?;
    choice(
        alloc,
        further,
        next,
        Stmt::Assign(index, Expr::Variable(end)),
    )
}

/// The turns of a loop whose index is set already.
pub(crate) fn turns(
    alloc: Global,
    index: u8,
    end: u8,
    by: i64,
    body: Stmt,
) -> Result<Stmt, AllocError>
    ensures { IfOk result (λ s. stmt_tree_of s ≡ turns index end by (stmt_tree_of body)) }
{
    let before = before_end(alloc, index, end, by)?;
    let step = next_number(alloc, index, end, by)?;
    let body = Box::new(alloc, body)?;
    let step = Box::new(alloc, step)?;
    Ok(Stmt::Loop(Test::Holds(before), body, step))
}

/// A loop whose index counts up to an end that is computed once, or down to it.
pub(crate) fn counting_loop(
    alloc: Global,
    index: u8,
    end: u8,
    by: i64,
    low: Value,
    high: Value,
    body: Stmt,
) -> Result<Stmt, AllocError>
    ensures { IfOk result (λ s. stmt_tree_of s
        ≡ counting_loop index end by (value_tree_of low) (value_tree_of high) (stmt_tree_of body)) }
{
    let turns = turns(alloc, index, end, by, body)?;
    let last = then(alloc, assigned(alloc, end, high)?, turns)?;
    then(alloc, assigned(alloc, index, low)?, last)
}

/// `break` or `continue`, which is the first of the tokens.
pub(crate) fn loop_left<'a>(
    alloc: Global,
    names: &Names,
    in_loop: bool,
    s: Stmt,
    rest: &'a [Token],
    tokens: &[Token],
) -> Result<(Stmt, &'a [Token]), ReadError>
    ensures { Gives (λ x. (stmt_tree_of x.0, x.1.now)) result
        (if_in_loop in_loop (leaving reach.Loop (names_of names.now) (stmt_tree_of s)) rest.entry.now tokens.now) }
{
    let left = leaving(alloc, Reach::Loop, names, s)?;
    if_in_loop(in_loop, left, rest, tokens)
}
