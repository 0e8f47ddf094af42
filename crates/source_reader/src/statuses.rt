// What a group or a task gives, and whether it was cancelled: `let x, s = wait g`.
ghost use Rattle.std.specs.Prelude.{◌≡◌, IfOk};
ghost use Rattle.source_reader.specs.Faults.{Gives};
ghost use Rattle.source_reader.specs.Names.{names_of};
ghost use Rattle.source_reader.specs.Statuses.{group_in, group_named_at, group_awaited, first_name, status_name, waited_with, status_of, awaited_with, after_wait, status_at};
ghost use Rattle.source_reader.specs.Trees.{stmt_tree_of};

use crate::faults::{ReadError, Wrong, fault_at};
use crate::lines::{after_set, free_name, name_in};
use crate::marks::after_first;
use crate::names::{Meaning, Names, Task, TaskGroup, meaning_of, new_number};
use crate::tasks::group_of;
use crate::trees::then;
use crate::widths::is_comma;
use source_language::{Expr, Stmt};
use source_tokens::{Kind, Token};
use std::alloc::{AllocError, Global};

/// The group of what a name stands for, if it is a task or a group of this block that was not waited for.
fn group_in(meaning: Option<Meaning>) -> Option<TaskGroup>
    ensures { result ≡ group_in meaning }
{
    match meaning {
        Some(Meaning::Task(task)) => Some(task.group),
        _ => None,
    }
}

fn group_named_at(names: &Names, tokens: &[Token]) -> Option<TaskGroup>
    ensures { result ≡ group_named_at (names_of names.now) tokens.now }
{
    let (first, _) = tokens.split_first()?;
    match first.kind {
        Kind::Name(name) => group_in(meaning_of(name, names)),
        _ => None,
    }
}

/// The group of what is waited for, if `wait` and its name are at the front.
pub(crate) fn group_awaited(names: &Names, tokens: &[Token]) -> Option<TaskGroup>
    ensures { result ≡ group_awaited (names_of names.now) tokens.now }
{
    let (first, rest) = tokens.split_first()?;
    match first.kind {
        Kind::Wait => group_named_at(names, rest),
        _ => None,
    }
}

fn first_name(tokens: &[Token]) -> Option<usize>
    ensures { result ≡ first_name tokens.now }
{
    let (first, _) = tokens.split_first()?;
    name_in(first.kind)
}

/// The name of the second variable, if there is one, behind `let`.
pub(crate) fn status_name(tokens: &[Token]) -> Option<usize>
    ensures { result ≡ status_name tokens.now }
{
    let behind = after_first(tokens);
    if is_comma(behind) {
        first_name(after_first(behind))
    } else {
        None
    }
}

/// A wait whose total and status go to these variables. The value of a task goes to its own variable, too.
fn waited_with(alloc: Global, total: u8, status: u8, task: Task) -> Result<Stmt, AllocError>
    ensures { IfOk result (λ s. stmt_tree_of s ≡ waited_with total status task) }
{
    let group = group_of(task.group);
    if task.is_group {
        Ok(Stmt::Wait(Some(total), Some(status), group))
    } else {
        let wait = Stmt::Wait(Some(task.variable), Some(status), group);
        then(
            alloc,
            wait,
            Stmt::Assign(total, Expr::Variable(task.variable)),
        )
    }
}

/// The wait for what that name stands for, which is the first of the tokens.
fn status_of<'a>(
    alloc: Global,
    total: u8,
    status: u8,
    meaning: Option<Meaning>,
    tokens: &'a [Token],
) -> Result<(Stmt, &'a [Token]), ReadError>
    ensures { Gives (λ x. (stmt_tree_of x.0, x.1.now)) result
        (status_of total status meaning tokens.entry.now) }
{
    match meaning {
        Some(Meaning::Task(task)) => Ok((
            waited_with(alloc, total, status, task)?,
            after_first(tokens),
        )),
        Some(Meaning::OuterTask(_)) => Err(fault_at(tokens, Wrong::WaitSkipped)),
        Some(_) => Err(fault_at(tokens, Wrong::NoTask)),
        None => Err(fault_at(tokens, Wrong::UnknownName)),
    }
}

/// What is waited for, behind `wait`.
fn awaited_with<'a>(
    alloc: Global,
    names: &Names,
    total: u8,
    status: u8,
    tokens: &'a [Token],
) -> Result<(Stmt, &'a [Token]), ReadError>
    ensures { Gives (λ x. (stmt_tree_of x.0, x.1.now)) result
        (awaited_with (names_of names.now) total status tokens.entry.now) }
{
    match tokens.split_first() {
        Some((first, _)) => match first.kind {
            Kind::Name(name) => status_of(alloc, total, status, meaning_of(name, names), tokens),
            _ => Err(fault_at(tokens, Wrong::Unexpected)),
        },
        None => Err(fault_at(tokens, Wrong::Unexpected)),
    }
}

/// What follows `wait`.
fn after_wait(tokens: &[Token]) -> Result<&[Token], ReadError>
    ensures { Gives (λ ts. ts.now) result (after_wait tokens.now) }
{
    match tokens.split_first() {
        Some((first, rest)) => match first.kind {
            Kind::Wait => Ok(rest),
            _ => Err(fault_at(tokens, Wrong::Unexpected)),
        },
        None => Err(fault_at(tokens, Wrong::Unexpected)),
    }
}

/// `x, s = wait g`, behind `let`.
pub(crate) fn status_at<'a>(
    alloc: Global,
    names: &Names,
    tokens: &'a [Token],
) -> Result<(Stmt, &'a [Token]), ReadError>
    ensures { Gives (λ x. (stmt_tree_of x.0, x.1.now)) result
        (status_at (names_of names.now) tokens.entry.now) }
{
    let name = free_name(names, tokens)?;
    let total = new_number(names, tokens)?;
    let inner = Names::Name(name, Meaning::Variable(total), &*names);
    let second = after_first(after_first(tokens));
    let _other = free_name(&inner, second)?;
    let status = new_number(&inner, second)?;
    let from = after_set(after_first(second))?;
    let awaited = after_wait(from)?;
    awaited_with(alloc, names, total, status, awaited)
}
