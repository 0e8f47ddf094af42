// Tasks and groups that have names: which of them were not waited for, and the waits of what leaves them.
ghost use Rattle.std.specs.Prelude.{◌≡◌, IfOk};
ghost use Rattle.source_reader.specs.Faults.{Gives};
ghost use Rattle.source_reader.specs.Names.{names_of};
ghost use Rattle.source_reader.specs.Tasks.{group_number, ends_at, of_group, task_in, pending, if_task, pending_task, free_group, is_outermost, waited, dropped, leaving, block_end};
ghost use Rattle.source_reader.specs.Trees.{stmt_tree_of};

use crate::calls::CALLS;
use crate::faults::{ReadError, Wrong, fault_at};
use crate::names::{Meaning, Names, Task, TaskGroup, is_same_group};
use crate::trees::then;
use job_language::Group;
use source_language::Stmt;
use source_tokens::Token;
use std::alloc::{AllocError, Global};

/// How far a look at the tasks that were not waited for goes.
#[derive(Clone, Copy)]
pub(crate) enum Reach {
    /// To the beginning of the innermost block.
    Block,
    /// To the beginning of the innermost loop's block.
    Loop,
    Function,
}

pub(crate) fn group_of(group: TaskGroup) -> Group
    ensures { result ≡ group_number group }
{
    match group {
        TaskGroup::First => Group::new(1).unwrap(),
        TaskGroup::Second => Group::new(2).unwrap(),
        TaskGroup::Third => Group::new(3).unwrap(),
        TaskGroup::Fourth => Group::new(CALLS).unwrap(),
    }
}

/// Whether a look ends at the beginning of a block.
fn ends_at(reach: Reach, is_loop: bool) -> bool
    ensures { result ≡ ends_at reach is_loop }
{
    match reach {
        Reach::Block => true,
        Reach::Loop => is_loop,
        Reach::Function => false,
    }
}

fn of_group(group: TaskGroup, meaning: Meaning) -> Option<Task>
    ensures { result ≡ of_group group meaning }
{
    match meaning {
        Meaning::Task(task) => {
            if is_same_group(task.group, group) {
                Some(task)
            } else {
                None
            }
        }
        _ => None,
    }
}

/// The task of that group which was not waited for.
pub(crate) fn task_in(reach: Reach, group: TaskGroup, names: &Names) -> Option<Task>
    ensures { result ≡ task_in reach group (names_of names.now) }
{
    match names {
        Names::Functions(_) => None,
        Names::Name(_, meaning, others) => match of_group(group, *meaning) {
            Some(task) => Some(task),
            None => task_in(reach, group, others),
        },
        Names::Inline(_, _, others) => task_in(reach, group, others),
        Names::Waited(other, others) => {
            if is_same_group(*other, group) {
                None
            } else {
                task_in(reach, group, others)
            }
        }
        Names::Inner(is_loop, others) => {
            if ends_at(reach, *is_loop) {
                None
            } else {
                task_in(reach, group, others)
            }
        }
        Names::Gathering(_, others) => task_in(reach, group, others),
        Names::Asked(_, _, _, others) => task_in(reach, group, others),
    }
}

/// The first task that was not waited for, by their groups.
pub(crate) fn pending(reach: Reach, names: &Names) -> Option<Task>
    ensures { result ≡ pending reach (names_of names.now) }
{
    match task_in(reach, TaskGroup::First, names) {
        Some(task) => Some(task),
        None => match task_in(reach, TaskGroup::Second, names) {
            Some(task) => Some(task),
            None => match task_in(reach, TaskGroup::Third, names) {
                Some(task) => Some(task),
                None => task_in(reach, TaskGroup::Fourth, names),
            },
        },
    }
}

/// A task that is no group.
pub(crate) fn if_task(task: Option<Task>) -> Option<Task>
    ensures { result ≡ if_task task }
{
    match task {
        Some(task) => { if task.is_group { None } else { Some(task) } }
        None => None,
    }
}

/// The first task that was not waited for and is no group.
pub(crate) fn pending_task(reach: Reach, names: &Names) -> Option<Task>
    ensures { result ≡ pending_task reach (names_of names.now) }
{
    match if_task(task_in(reach, TaskGroup::First, names)) {
        Some(task) => Some(task),
        None => match if_task(task_in(reach, TaskGroup::Second, names)) {
            Some(task) => Some(task),
            None => match if_task(task_in(reach, TaskGroup::Third, names)) {
                Some(task) => Some(task),
                None => if_task(task_in(reach, TaskGroup::Fourth, names)),
            },
        },
    }
}

/// A group for one more task. The first of the tokens is its name.
pub(crate) fn free_group(names: &Names, tokens: &[Token]) -> Result<TaskGroup, ReadError>
    ensures { Gives (λ g. g) result (free_group (names_of names.now) tokens.now) }
{
    if task_in(Reach::Function, TaskGroup::First, names).is_none() {
        Ok(TaskGroup::First)
    } else if task_in(Reach::Function, TaskGroup::Second, names).is_none() {
        Ok(TaskGroup::Second)
    } else if task_in(Reach::Function, TaskGroup::Third, names).is_none() {
        Ok(TaskGroup::Third)
    } else if task_in(Reach::Function, TaskGroup::Fourth, names).is_none() {
        Ok(TaskGroup::Fourth)
    } else {
        Err(fault_at(tokens, Wrong::NoGroup))
    }
}

/// Whether the innermost block is that of the function.
fn is_outermost(names: &Names) -> bool
    ensures { result ≡ is_outermost (names_of names.now) }
{
    match names {
        Names::Functions(_) => true,
        Names::Name(_, _, others) => is_outermost(others),
        Names::Inline(_, _, others) => is_outermost(others),
        Names::Waited(_, others) => is_outermost(others),
        Names::Inner(_, _) => false,
        Names::Gathering(_, _) => false,
        Names::Asked(_, _, _, others) => is_outermost(others),
    }
}

/// A wait for a task, whose value goes to its variable.
pub(crate) fn waited(task: Task) -> Stmt
    ensures { stmt_tree_of result ≡ waited task }
{
    Stmt::Wait(Some(task.variable), None, group_of(task.group))
}

/// A wait for a task whose value is dropped, and then the statement.
fn dropped(alloc: Global, task: Option<Task>, s: Stmt) -> Result<Stmt, AllocError>
    ensures { IfOk result (λ r. stmt_tree_of r ≡ dropped task (stmt_tree_of s)) }
{
    match task {
        Some(task) => then(alloc, Stmt::Wait(None, None, group_of(task.group)), s),
        None => Ok(s),
    }
}

/// A statement that leaves so much, behind waits for the tasks there.
pub(crate) fn leaving(
    alloc: Global,
    reach: Reach,
    names: &Names,
    s: Stmt,
) -> Result<Stmt, AllocError>
    ensures { IfOk result (λ r. stmt_tree_of r
        ≡ leaving reach (names_of names.now) (stmt_tree_of s)) }
{
    let fourth = dropped(alloc, task_in(reach, TaskGroup::Fourth, names), s)?;
    let third = dropped(alloc, task_in(reach, TaskGroup::Third, names), fourth)?;
    let second = dropped(alloc, task_in(reach, TaskGroup::Second, names), third)?;
    dropped(alloc, task_in(reach, TaskGroup::First, names), second)
}

/// The end of a block, which is the first of the tokens. `left` says that it is not reached.
pub(crate) fn block_end(
    alloc: Global,
    left: bool,
    names: &Names,
    tokens: &[Token],
) -> Result<Stmt, ReadError>
    ensures { Gives stmt_tree_of result (block_end left (names_of names.now) tokens.now) }
{
    if left {
        Ok(Stmt::Skip)
    } else if is_outermost(names) || pending(Reach::Block, names).is_none() {
        Ok(leaving(alloc, Reach::Block, names, Stmt::Skip)?)
    } else {
        Err(fault_at(tokens, Wrong::TaskLeft))
    }
}
