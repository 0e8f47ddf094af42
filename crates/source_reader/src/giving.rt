// What leaves the body of a parallel loop, for one number of its range.
ghost use Rattle.std.specs.Prelude.{◌≡◌, IfOk, Some};
ghost use Rattle.source_reader.specs.Faults.{Gives};
ghost use Rattle.source_reader.specs.Giving.{gathers_in, one_loop_more, loops_in, group_given, behind_group, takes, number_taken, value_taken, taken_from, give_in, give_at, return_in};
ghost use Rattle.source_reader.specs.Givers.{giver_at};
ghost use Rattle.source_reader.specs.Names.{names_of};
ghost use Rattle.source_reader.specs.Tasks.{leaving};
ghost use Rattle.source_reader.specs.Trees.{tree_of, value_tree_of, stmt_tree_of, ContinueTree};
ghost use Rattle.source_reader.specs.declared.tasks.Reach.TheVariants as reach;

use crate::faults::{ReadError, Wrong, fault_at};
use crate::givers::{Giver, given_by, giver_at};
use crate::halving::taken;
use crate::joining::Value;
use crate::names::{Names, TaskGroup, new_number};
use crate::returns::{is_there, return_at};
use crate::tasks::{Reach, leaving};
use crate::trees::{choice, then};
use crate::values::whole_value;
use source_language::{Expr, Stmt};
use source_tokens::{Gathers, Token};
use std::alloc::{AllocError, Global};

/// The parallel loop whose body this is.
fn gathers_in(names: &Names) -> Option<Gathers>
    ensures { result ≡ gathers_in (names_of names.now) }
{
    match names {
        Names::Functions(_) => None,
        Names::Name(_, _, others) => gathers_in(others),
        Names::Inline(_, _, others) => gathers_in(others),
        Names::Waited(_, others) => gathers_in(others),
        Names::Inner(_, others) => gathers_in(others),
        Names::Gathering(gathers, _) => Some(*gathers),
        Names::Asked(_, _, _, others) => gathers_in(others),
    }
}

fn one_loop_more(loops: u8, tokens: &[Token]) -> Result<u8, ReadError>
    ensures { Gives (λ n. n) result (one_loop_more loops tokens.now) }
{
    if loops < 240 {
        Ok(loops + 1)
    } else {
        Err(fault_at(tokens, Wrong::TooLong))
    }
}

/// How many loops of this body are around the place.
fn loops_in(names: &Names, tokens: &[Token]) -> Result<u8, ReadError>
    ensures { Gives (λ n. n) result (loops_in (names_of names.now) tokens.now) }
{
    match names {
        Names::Functions(_) => Ok(0),
        Names::Name(_, _, others) => loops_in(others, tokens),
        Names::Inline(_, _, others) => loops_in(others, tokens),
        Names::Waited(_, others) => loops_in(others, tokens),
        Names::Inner(is_loop, others) => {
            let loops = loops_in(others, tokens)?;
            if *is_loop {
                one_loop_more(loops, tokens)
            } else {
                Ok(loops)
            }
        }
        Names::Gathering(_, _) => Ok(0),
        Names::Asked(_, _, _, others) => loops_in(others, tokens),
    }
}

/// The group that is waited for, if that gives the value.
pub(crate) fn group_given(giver: Option<Giver>) -> Option<TaskGroup>
    ensures { result ≡ group_given giver }
{
    match giver {
        Some(Giver::Wait(group)) => Some(group),
        _ => None,
    }
}

/// To the next number, behind a wait for a group, if there is one, and waits for all tasks.
fn next_behind(
    alloc: Global,
    group: Option<TaskGroup>,
    names: &Names,
    loops: u8,
) -> Result<Stmt, AllocError>
    ensures { IfOk result (λ s. stmt_tree_of s
        ≡ leaving reach.Function (behind_group group (names_of names.now)) (ContinueTree loops)) }
{
    let next = Stmt::Continue(loops);
    match group {
        Some(group) => {
            let behind = Names::Waited(group, &*names);
            leaving(alloc, Reach::Function, &behind, next)
        }
        None => leaving(alloc, Reach::Function, names, next),
    }
}

/// Whether the total takes a number as it stands.
fn takes(gathers: Gathers, e: &Expr) -> bool
    ensures { result ≡ takes gathers (tree_of e.now) }
{
    match gathers {
        Gathers::Sum => true,
        Gathers::Least => is_there(e),
        Gathers::Greatest => is_there(e),
    }
}

/// The total with a number more, which goes to one more variable if that is needed.
fn number_taken(
    alloc: Global,
    gathers: Gathers,
    names: &Names,
    e: Expr,
    tokens: &[Token],
) -> Result<Stmt, ReadError>
    ensures { Gives stmt_tree_of result
        (number_taken gathers (names_of names.now) (tree_of e) tokens.now) }
{
    if takes(gathers, &e) {
        return Ok(taken(alloc, gathers, e)?);
    }
    let number = new_number(names, tokens)?;
    let taken = taken(alloc, gathers, Expr::Variable(number))?;
    Ok(then(alloc, Stmt::Assign(number, e), taken)?)
}

/// The total with a value more. A condition is 1 or 0.
fn value_taken(
    alloc: Global,
    gathers: Gathers,
    names: &Names,
    value: Value,
    tokens: &[Token],
) -> Result<Stmt, ReadError>
    ensures { Gives stmt_tree_of result
        (value_taken gathers (names_of names.now) (value_tree_of value) tokens.now) }
{
    match value {
        Value::Number(e) => number_taken(alloc, gathers, names, e, tokens),
        Value::Truth(t) => {
            let holds = taken(alloc, gathers, Expr::Number(1))?;
            let fails = taken(alloc, gathers, Expr::Number(0))?;
            Ok(choice(alloc, t, holds, fails)?)
        }
    }
}

/// The total with what is given, behind `give`.
fn taken_from<'a>(
    alloc: Global,
    gathers: Gathers,
    names: &Names,
    tokens: &'a [Token],
) -> Result<(Stmt, &'a [Token]), ReadError>
    ensures { Gives (λ x. (stmt_tree_of x.0, x.1.now)) result
        (taken_from (giver_at (names_of names.now) tokens.entry.now) gathers (names_of names.now) tokens.entry.now) }
{
    match giver_at(names, tokens) {
        Some(giver) => {
            let number = new_number(names, tokens)?;
            let (given, after) = given_by(alloc, giver, names, number, tokens)?;
            let taken = taken(alloc, gathers, Expr::Variable(number))?;
            Ok((then(alloc, given, taken)?, after))
        }
        None => {
            let (value, after) = whole_value(alloc, names, tokens)?;
            Ok((value_taken(alloc, gathers, names, value, tokens)?, after))
        }
    }
}

/// A value for this number, behind `give`.
fn give_in<'a>(
    alloc: Global,
    gathers: Gathers,
    names: &Names,
    tokens: &'a [Token],
) -> Result<(Stmt, &'a [Token]), ReadError>
    ensures { Gives (λ x. (stmt_tree_of x.0, x.1.now)) result
        (give_in gathers (names_of names.now) tokens.entry.now) }
{
    let loops = loops_in(names, tokens)?;
    let (taken, after) = taken_from(alloc, gathers, names, tokens)?;
    let group = group_given(giver_at(names, tokens));
    let next = next_behind(alloc, group, names, loops)?;
    Ok((then(alloc, taken, next)?, after))
}

/// `give v`, of which the word is the first of the tokens.
pub(crate) fn give_at<'a>(
    alloc: Global,
    names: &Names,
    tokens: &[Token],
    rest: &'a [Token],
) -> Result<(Stmt, &'a [Token]), ReadError>
    ensures { Gives (λ x. (stmt_tree_of x.0, x.1.now)) result
        (give_at (names_of names.now) tokens.now rest.entry.now) }
{
    match gathers_in(names) {
        Some(gathers) => give_in(alloc, gathers, names, rest),
        None => Err(fault_at(tokens, Wrong::NotGathered)),
    }
}

/// `return v` or `return`, of which the word is the first of the tokens. It is not in the body of a parallel loop.
pub(crate) fn return_in<'a>(
    alloc: Global,
    names: &Names,
    tokens: &[Token],
    rest: &'a [Token],
) -> Result<(Stmt, &'a [Token]), ReadError>
    ensures { Gives (λ x. (stmt_tree_of x.0, x.1.now)) result
        (return_in (names_of names.now) tokens.now rest.entry.now) }
{
    if gathers_in(names).is_none() {
        return_at(alloc, names, rest)
    } else {
        Err(fault_at(tokens, Wrong::GatheringReturn))
    }
}
