// Functions that are run: called, spawned, as regions, or posted.
ghost use Rattle.std.specs.Prelude.{◌≡◌, IfOk, option_map};
ghost use Rattle.source_reader.specs.Calls.{found, callee_titled, callee_at, argument_at, view_arguments, made, if_group_left, run_at, spawn_at, is_spawn};
ghost use Rattle.source_reader.specs.Faults.{Gives};
ghost use Rattle.source_reader.specs.Headers.{callee_in};
ghost use Rattle.source_reader.specs.Names.{names_of, functions_in};
ghost use Rattle.source_reader.specs.Trees.{callee_tree_of, tree_of, stmt_tree_of};

use crate::arguments::arguments_at;
use crate::faults::{ReadError, Wrong, fault_at};
use crate::headers::{Callee, Title, callee_in, title_at};
use crate::joining::number_in;
use crate::marks::{after_first, after_open};
use crate::names::{Names, TaskGroup};
use crate::tasks::{Reach, free_group, group_of, task_in};
use crate::trees::then;
use crate::values::whole_value;
use job_language::Group;
use source_language::{Expr, Maker, Stmt};
use source_tokens::{Kind, Token};
use std::alloc::{AllocError, Global};

/// The group of tasks that are called. A function that has named tasks in it calls nothing meanwhile.
pub const CALLS: u64 = 0;

/// The function of that name.
fn callee_of<'a>(title: Title, names: &'a Names) -> Option<Callee<'a>>
    ensures { option_map callee_tree_of result
        ≡ callee_in title (functions_in (names_of names.entry.now)) 0 }
{
    match names {
        Names::Functions(functions) => callee_in(title, functions, 0),
        Names::Name(_, _, others) => callee_of(title, others),
        Names::Inline(_, _, others) => callee_of(title, others),
        Names::Waited(_, others) => callee_of(title, others),
        Names::Inner(_, others) => callee_of(title, others),
        Names::Gathering(_, others) => callee_of(title, others),
        Names::Asked(_, _, _, others) => callee_of(title, others),
    }
}

fn found<'a>(callee: Option<Callee<'a>>, tokens: &[Token]) -> Result<Callee<'a>, ReadError>
    ensures { Gives callee_tree_of result (found (option_map callee_tree_of callee.entry) tokens.now) }
{
    match callee {
        Some(callee) => Ok(callee),
        None => Err(fault_at(tokens, Wrong::UnknownFunction)),
    }
}

/// The function of that title, which the first of the tokens says.
pub(crate) fn callee_titled<'a>(
    title: Title,
    names: &'a Names,
    tokens: &[Token],
) -> Result<Callee<'a>, ReadError>
    ensures { Gives callee_tree_of result
        (callee_titled title (names_of names.entry.now) tokens.now) }
{
    match title {
        Title::Missing => Err(fault_at(tokens, Wrong::Unexpected)),
        Title::Main => found(callee_of(title, names), tokens),
        Title::Name(_) => found(callee_of(title, names), tokens),
        Title::Gathering(_) => found(callee_of(title, names), tokens),
    }
}

/// The function whose name is at the front.
fn callee_at<'a>(names: &'a Names, tokens: &[Token]) -> Result<Callee<'a>, ReadError>
    ensures { Gives callee_tree_of result (callee_at (names_of names.entry.now) tokens.now) }
{
    callee_titled(title_at(tokens), names, tokens)
}

/// An argument, and the tokens after it.
pub(crate) fn argument_at<'a>(
    alloc: Global,
    names: &Names,
    tokens: &'a [Token],
) -> Result<(Expr, &'a [Token]), ReadError>
    ensures { Gives (λ x. (tree_of x.0, x.1.now)) result
        (argument_at (names_of names.now) tokens.entry.now) }
{
    let (value, rest) = whole_value(alloc, names, tokens)?;
    let number = number_in(alloc, value, tokens)?;
    Ok((number, rest))
}

/// The two numbers that a task gets.
#[derive(Drop)]
pub(crate) struct Arguments {
    pub(crate) first: Expr,
    pub(crate) second: Expr,
}

fn calls() -> Group
    ensures { result ≡ CALLS }
{
    Group::new(CALLS).unwrap()
}

/// How a function is run.
#[derive(Clone, Copy)]
pub(crate) enum Run {
    /// As a task that is waited for at once. Its value goes to the variable, if there is one.
    Call(Option<u8>),
    /// As a task in that group.
    Spawn(TaskGroup),
    /// As a region, whose value goes to the variable.
    Isolate(u8),
    /// As a task that nothing waits for.
    Post,
}

/// What is made of the function of that number.
pub(crate) fn made(
    alloc: Global,
    run: Run,
    number: u8,
    arguments: Arguments,
) -> Result<Stmt, AllocError>
    ensures { IfOk result (λ s. stmt_tree_of s ≡ made run number (view_arguments arguments)) }
{
    let Arguments { first, second } = arguments;
    match run {
        Run::Call(value) => {
            let task = Stmt::Make(Maker::Spawn(calls()), number, first, second);
            then(alloc, task, Stmt::Wait(value, None, calls()))
        }
        Run::Spawn(group) => Ok(Stmt::Make(Maker::Spawn(group_of(group)), number, first, second)),
        Run::Isolate(value) => Ok(Stmt::Make(Maker::Isolate(value), number, first, second)),
        Run::Post => Ok(Stmt::Make(Maker::Post, number, first, second)),
    }
}

/// A call has a group as long as no task or group of the function has the fourth one.
pub(crate) fn if_group_left(run: Run, names: &Names, tokens: &[Token]) -> Result<Run, ReadError>
    ensures { Gives (λ r. r) result (if_group_left run (names_of names.now) tokens.now) }
{
    match run {
        Run::Call(_) => {
            if task_in(Reach::Function, TaskGroup::Fourth, names).is_none() {
                Ok(run)
            } else {
                Err(fault_at(tokens, Wrong::NoGroup))
            }
        }
        _ => Ok(run),
    }
}

/// `f(v, w)`, behind `call`, `spawn`, `isolate` or `post`.
pub(crate) fn run_at<'a>(
    alloc: Global,
    names: &Names,
    run: Run,
    tokens: &'a [Token],
) -> Result<(Stmt, &'a [Token]), ReadError>
    ensures { Gives (λ x. (stmt_tree_of x.0, x.1.now)) result
        (run_at (names_of names.now) run tokens.entry.now) }
{
    let callee = callee_at(names, tokens)?;
    let run = if_group_left(run, names, tokens)?;
    let inside = after_open(after_first(tokens))?;
    let (arguments, rest) = arguments_at(alloc, names, callee.widths, tokens, inside)?;
    Ok((made(alloc, run, callee.number, arguments)?, rest))
}

/// `f(v, w)`, behind `spawn`: a task in a group that is free. Its name is the first of the tokens `name`.
pub(crate) fn spawn_at<'a>(
    alloc: Global,
    names: &Names,
    name: &[Token],
    tokens: &'a [Token],
) -> Result<(Stmt, &'a [Token]), ReadError>
    ensures { Gives (λ x. (stmt_tree_of x.0, x.1.now)) result
        (spawn_at (names_of names.now) name.now tokens.entry.now) }
{
    let group = free_group(names, name)?;
    run_at(alloc, names, Run::Spawn(group), tokens)
}

/// Whether there is a `spawn` at the front.
pub(crate) fn is_spawn(tokens: &[Token]) -> bool
    ensures { result ≡ is_spawn tokens.now }
{
    match tokens.split_first() {
        Some((first, _)) => match first.kind {
            Kind::Spawn => true,
            _ => false,
        },
        None => false,
    }
}
