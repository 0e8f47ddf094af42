// Groups that have names: any number of tasks, which are waited for at once.
ghost use Rattle.std.specs.Prelude.{◌≡◌};
ghost use Rattle.source_reader.specs.Faults.{Gives};
ghost use Rattle.source_reader.specs.Groups.{if_group, own_group, own_group_at, waited_group, let_gathered, gathered, into_group, open_group, open_task, open_group_at, open_task_at, after_colon, group_at, nameless_at, into_at, spawned_at, cancel_at};
ghost use Rattle.source_reader.specs.Names.{names_of};
ghost use Rattle.source_reader.specs.Trees.{stmt_tree_of};

use crate::calls::{Run, run_at};
use crate::faults::{ReadError, Wrong, fault_at};
use crate::lines::free_name;
use crate::marks::{after_first, is_open};
use crate::names::{Meaning, NAMELESS, Names, Task, TaskGroup, meaning_of};
use crate::statuses::group_awaited;
use crate::tasks::{free_group, group_of};
use crate::widths::is_comma;
use source_language::Stmt;
use source_tokens::{Kind, Token};
use std::alloc::Global;

fn if_group(task: Task) -> Option<TaskGroup>
    ensures { result ≡ if_group task }
{
    if task.is_group {
        Some(task.group)
    } else {
        None
    }
}

/// The group that a name stands for, if it is one of this block that was not waited for.
fn own_group(meaning: Option<Meaning>) -> Option<TaskGroup>
    ensures { result ≡ own_group meaning }
{
    match meaning {
        Some(Meaning::Task(task)) => if_group(task),
        _ => None,
    }
}

/// The group of this block that was not waited for, if its name is at the front.
pub(crate) fn own_group_at(names: &Names, tokens: &[Token]) -> Option<TaskGroup>
    ensures { result ≡ own_group_at (names_of names.now) tokens.now }
{
    let (first, _) = tokens.split_first()?;
    match first.kind {
        Kind::Name(name) => own_group(meaning_of(name, names)),
        _ => None,
    }
}

/// Such a group, if `wait` and its name are at the front.
fn waited_group(names: &Names, tokens: &[Token]) -> Option<TaskGroup>
    ensures { result ≡ waited_group (names_of names.now) tokens.now }
{
    let (first, rest) = tokens.split_first()?;
    match first.kind {
        Kind::Wait => own_group_at(names, rest),
        _ => None,
    }
}

/// The group that is waited for, behind `let` and a name.
fn let_gathered(names: &Names, tokens: &[Token]) -> Option<TaskGroup>
    ensures { result ≡ let_gathered (names_of names.now) tokens.now }
{
    let second = after_first(tokens);
    if is_comma(tokens) {
        group_awaited(names, after_first(after_first(second)))
    } else {
        waited_group(names, second)
    }
}

/// The group that the line at the front waits for. Where that gives a status, it may be that of a task.
pub(crate) fn gathered(names: &Names, tokens: &[Token]) -> Option<TaskGroup>
    ensures { result ≡ gathered (names_of names.now) tokens.now }
{
    let (first, _) = tokens.split_first()?;
    match first.kind {
        Kind::Wait => waited_group(names, tokens),
        Kind::Let => let_gathered(names, after_first(after_first(tokens))),
        Kind::Name(_) => waited_group(names, after_first(after_first(tokens))),
        _ => None,
    }
}

fn into_group(task: Task, tokens: &[Token]) -> Result<TaskGroup, ReadError>
    ensures { Gives (λ g. g) result (into_group task tokens.now) }
{
    if task.is_group {
        Ok(task.group)
    } else {
        Err(fault_at(tokens, Wrong::NotGroup))
    }
}

/// A group that was not waited for, of this block or one around it.
fn open_group(meaning: Option<Meaning>, tokens: &[Token]) -> Result<TaskGroup, ReadError>
    ensures { Gives (λ g. g) result (open_group meaning tokens.now) }
{
    match meaning {
        None => Err(fault_at(tokens, Wrong::UnknownName)),
        Some(Meaning::Task(task)) => into_group(task, tokens),
        Some(Meaning::OuterTask(task)) => into_group(task, tokens),
        Some(_) => Err(fault_at(tokens, Wrong::NotGroup)),
    }
}

/// The group of what can be cancelled: a task or a group that was not waited for.
fn open_task(meaning: Option<Meaning>, tokens: &[Token]) -> Result<TaskGroup, ReadError>
    ensures { Gives (λ g. g) result (open_task meaning tokens.now) }
{
    match meaning {
        None => Err(fault_at(tokens, Wrong::UnknownName)),
        Some(Meaning::Task(task)) => Ok(task.group),
        Some(Meaning::OuterTask(task)) => Ok(task.group),
        Some(_) => Err(fault_at(tokens, Wrong::NotGroup)),
    }
}

fn open_group_at(names: &Names, tokens: &[Token]) -> Result<TaskGroup, ReadError>
    ensures { Gives (λ g. g) result (open_group_at (names_of names.now) tokens.now) }
{
    match tokens.split_first() {
        Some((first, _)) => match first.kind {
            Kind::Name(name) => open_group(meaning_of(name, names), tokens),
            _ => Err(fault_at(tokens, Wrong::Unexpected)),
        },
        None => Err(fault_at(tokens, Wrong::Unexpected)),
    }
}

fn open_task_at(names: &Names, tokens: &[Token]) -> Result<TaskGroup, ReadError>
    ensures { Gives (λ g. g) result (open_task_at (names_of names.now) tokens.now) }
{
    match tokens.split_first() {
        Some((first, _)) => match first.kind {
            Kind::Name(name) => open_task(meaning_of(name, names), tokens),
            _ => Err(fault_at(tokens, Wrong::Unexpected)),
        },
        None => Err(fault_at(tokens, Wrong::Unexpected)),
    }
}

/// What follows `:`.
fn after_colon(tokens: &[Token]) -> Result<&[Token], ReadError>
    ensures { Gives (λ ts. ts.now) result (after_colon tokens.now) }
{
    match tokens.split_first() {
        Some((first, rest)) => match first.kind {
            Kind::Colon => Ok(rest),
            _ => Err(fault_at(tokens, Wrong::Unexpected)),
        },
        None => Err(fault_at(tokens, Wrong::Unexpected)),
    }
}

/// `group g`, behind the word. Nothing is done.
pub(crate) fn group_at<'a>(
    names: &Names,
    tokens: &'a [Token],
) -> Result<(Stmt, &'a [Token]), ReadError>
    ensures { Gives (λ x. (stmt_tree_of x.0, x.1.now)) result
        (group_at (names_of names.now) tokens.entry.now) }
{
    let _name = free_name(names, tokens)?;
    let _group = free_group(names, tokens)?;
    Ok((Stmt::Skip, after_first(tokens)))
}

/// `f(v, w)`, behind `spawn`. The function has a group for such tasks.
fn nameless_at<'a>(
    alloc: Global,
    names: &Names,
    tokens: &'a [Token],
) -> Result<(Stmt, &'a [Token]), ReadError>
    ensures { Gives (λ x. (stmt_tree_of x.0, x.1.now)) result
        (nameless_at (names_of names.now) tokens.entry.now) }
{
    let group = open_group(meaning_of(NAMELESS, names), tokens)?;
    run_at(alloc, names, Run::Spawn(group), tokens)
}

/// `g: f(v, w)`, behind `spawn`.
fn into_at<'a>(
    alloc: Global,
    names: &Names,
    tokens: &'a [Token],
) -> Result<(Stmt, &'a [Token]), ReadError>
    ensures { Gives (λ x. (stmt_tree_of x.0, x.1.now)) result
        (into_at (names_of names.now) tokens.entry.now) }
{
    let group = open_group_at(names, tokens)?;
    let rest = after_colon(after_first(tokens))?;
    run_at(alloc, names, Run::Spawn(group), rest)
}

/// A task that has no name, behind `spawn`.
pub(crate) fn spawned_at<'a>(
    alloc: Global,
    names: &Names,
    tokens: &'a [Token],
) -> Result<(Stmt, &'a [Token]), ReadError>
    ensures { Gives (λ x. (stmt_tree_of x.0, x.1.now)) result
        (spawned_at (names_of names.now) tokens.entry.now) }
{
    if is_open(after_first(tokens)) {
        nameless_at(alloc, names, tokens)
    } else {
        into_at(alloc, names, tokens)
    }
}

/// `cancel g`, behind the word.
pub(crate) fn cancel_at<'a>(
    names: &Names,
    tokens: &'a [Token],
) -> Result<(Stmt, &'a [Token]), ReadError>
    ensures { Gives (λ x. (stmt_tree_of x.0, x.1.now)) result
        (cancel_at (names_of names.now) tokens.entry.now) }
{
    let group = open_task_at(names, tokens)?;
    Ok((Stmt::Cancel(group_of(group)), after_first(tokens)))
}
