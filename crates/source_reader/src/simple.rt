// Statements without blocks.
ghost use Rattle.std.specs.Prelude.{◌≡◌, IfOk};
ghost use Rattle.source_reader.specs.Faults.{Gives};
ghost use Rattle.source_reader.specs.Trees.{stmt_tree_of, test_tree_of, value_tree_of};
ghost use Rattle.source_reader.specs.Names.{names_of, meaning_of, new_number};
ghost use Rattle.source_reader.specs.Counting.{counting_loop};
ghost use Rattle.source_reader.specs.Simple.{condition_at, new_name, given_at, let_at, updated, assigned_to, assigned_at, declared_at, wait_at, nameless_waited, sync_at, region_at, view_count, count_at};

use crate::calls::{Run, is_spawn, run_at, spawn_at};
use crate::cells::store_at;
use crate::constants::step_at;
use crate::faults::{ReadError, Wrong, fault_at};
use crate::givers::{Giver, given_by, giver_at};
use crate::groups::own_group_at;
use crate::joining::{Value, arithmetic, test_in};
use crate::lines::{after_in, after_range, after_set, free_name};
use crate::loops::counting_loop;
use crate::marks::after_first;
use crate::names::{Meaning, NAMELESS, Names, meaning_of, new_number, number_behind};
use crate::statuses::status_at;
use crate::tasks::{Reach, group_of, pending_task};
use crate::trees::assigned;
use crate::values::whole_value;
use crate::waits::awaited_at;
use crate::widths::is_comma;
use source_language::{Expr, Stmt, Test};
use source_tokens::{Kind, Token};
use std::alloc::{AllocError, Global};

/// A condition, and the tokens after it.
pub(crate) fn condition_at<'a>(
    alloc: Global,
    names: &Names,
    tokens: &'a [Token],
) -> Result<(Test, &'a [Token]), ReadError>
    ensures { Gives (λ x. (test_tree_of x.0, x.1.now)) result
        (condition_at (names_of names.now) tokens.entry.now) }
{
    let (value, rest) = whole_value(alloc, names, tokens)?;
    Ok((test_in(value), rest))
}

/// The number of a new variable with the name at the front.
pub(crate) fn new_name(names: &Names, tokens: &[Token]) -> Result<u8, ReadError>
    ensures { Gives (λ n. n) result (new_name (names_of names.now) tokens.now) }
{
    let _name = free_name(names, tokens)?;
    new_number(names, tokens)
}

/// What is given to a variable, behind `=`.
pub(crate) fn given_at<'a>(
    alloc: Global,
    names: &Names,
    number: u8,
    tokens: &'a [Token],
) -> Result<(Stmt, &'a [Token]), ReadError>
    ensures { Gives (λ x. (stmt_tree_of x.0, x.1.now)) result
        (given_at (names_of names.now) number tokens.entry.now) }
{
    if let Some(giver) = giver_at(names, tokens) {
        return given_by(alloc, giver, names, number, tokens);
    }
    let (value, after) = whole_value(alloc, names, tokens)?;
    Ok((assigned(alloc, number, value)?, after))
}

/// `let x = v`, `let a = spawn f(v, w)` or `let x, s = wait g`, behind `let`.
pub(crate) fn let_at<'a>(
    alloc: Global,
    names: &Names,
    tokens: &'a [Token],
) -> Result<(Stmt, &'a [Token]), ReadError>
    ensures { Gives (λ x. (stmt_tree_of x.0, x.1.now)) result
        (let_at (names_of names.now) tokens.entry.now) }
{
    if is_comma(after_first(tokens)) {
        return status_at(alloc, names, tokens);
    }
    let number = new_name(names, tokens)?;
    let rest = after_set(after_first(tokens))?;
    declared_at(alloc, names, number, tokens, rest)
}

/// What a new variable stands for, behind `=`: a task, or what it is given. The first of the tokens `name` is its name.
fn declared_at<'a>(
    alloc: Global,
    names: &Names,
    number: u8,
    name: &[Token],
    tokens: &'a [Token],
) -> Result<(Stmt, &'a [Token]), ReadError>
    ensures { Gives (λ x. (stmt_tree_of x.0, x.1.now)) result
        (declared_at (names_of names.now) number name.now tokens.entry.now) }
{
    if is_spawn(tokens) {
        spawn_at(alloc, names, name, after_first(tokens))
    } else {
        given_at(alloc, names, number, tokens)
    }
}

/// `x = v`, `x += v`, `c.local = v` and the like, of which the first token is the name of a variable or a cell.
pub(crate) fn assigned_at<'a>(
    alloc: Global,
    names: &Names,
    name: usize,
    tokens: &[Token],
    rest: &'a [Token],
) -> Result<(Stmt, &'a [Token]), ReadError>
    ensures { Gives (λ x. (stmt_tree_of x.0, x.1.now)) result
        (assigned_at (names_of names.now) (meaning_of name (names_of names.now)) tokens.now rest.entry.now) }
{
    match meaning_of(name, names) {
        Some(meaning) => assigned_to(alloc, names, meaning, tokens, rest),
        None => Err(fault_at(tokens, Wrong::UnknownName)),
    }
}

/// Only variables, tasks that were waited for, and cells are assigned to. The first of the tokens is the name.
fn assigned_to<'a>(
    alloc: Global,
    names: &Names,
    meaning: Meaning,
    tokens: &[Token],
    rest: &'a [Token],
) -> Result<(Stmt, &'a [Token]), ReadError>
    ensures { Gives (λ x. (stmt_tree_of x.0, x.1.now)) result
        (assigned_to (names_of names.now) meaning tokens.now rest.entry.now) }
{
    match meaning {
        Meaning::Variable(number) => updated(alloc, names, number, rest),
        Meaning::Awaited(number) => updated(alloc, names, number, rest),
        Meaning::Closed(_) => Err(fault_at(tokens, Wrong::NotAssigned)),
        Meaning::Task(_) => Err(fault_at(tokens, Wrong::NotWaited)),
        Meaning::OuterTask(_) => Err(fault_at(tokens, Wrong::NotWaited)),
        Meaning::Counter(_) => Err(fault_at(tokens, Wrong::NotAssigned)),
        Meaning::Constant(_) => Err(fault_at(tokens, Wrong::NotAssigned)),
        Meaning::Cell(key) => store_at(alloc, names, key, rest),
        Meaning::Inline => Err(fault_at(tokens, Wrong::NotAssigned)),
    }
}

fn updated<'a>(
    alloc: Global,
    names: &Names,
    number: u8,
    tokens: &'a [Token],
) -> Result<(Stmt, &'a [Token]), ReadError>
    ensures { Gives (λ x. (stmt_tree_of x.0, x.1.now)) result
        (updated (names_of names.now) number tokens.entry.now) }
{
    let Some((sign, rest)) = tokens.split_first() else {
        return Err(fault_at(tokens, Wrong::Unexpected));
    };
    match sign.kind {
        Kind::Set => given_at(alloc, names, number, rest),
        Kind::Update(op) => {
            let (value, after) = whole_value(alloc, names, rest)?;
            let before = Value::Number(Expr::Variable(number));
            let both = arithmetic(alloc, op, before, value, tokens)?;
            Ok((assigned(alloc, number, both)?, after))
        }
        _ => Err(fault_at(tokens, Wrong::Unexpected)),
    }
}

/// `wait a`, behind `wait`. For a task the wait itself stands before the statement.
pub(crate) fn wait_at<'a>(
    names: &Names,
    tokens: &'a [Token],
) -> Result<(Stmt, &'a [Token]), ReadError>
    ensures { Gives (λ x. (stmt_tree_of x.0, x.1.now)) result
        (wait_at (names_of names.now) tokens.entry.now) }
{
    if let Some(group) = own_group_at(names, tokens) {
        return Ok((Stmt::Wait(None, None, group_of(group)), after_first(tokens)));
    }
    let _variable = awaited_at(names, tokens)?;
    Ok((Stmt::Skip, after_first(tokens)))
}

/// The wait for the tasks of the function that have no name and no group, if it has some.
fn nameless_waited(meaning: Option<Meaning>) -> Stmt
    ensures { stmt_tree_of result ≡ nameless_waited meaning }
{
    match meaning {
        Some(Meaning::Task(task)) => Stmt::Wait(None, None, group_of(task.group)),
        Some(Meaning::OuterTask(task)) => Stmt::Wait(None, None, group_of(task.group)),
        _ => Stmt::Skip,
    }
}

/// `sync`, which is the first of the tokens. Its waits for tasks that have names stand before it, and the blocks around have
/// none to wait for.
pub(crate) fn sync_at<'a>(
    names: &Names,
    tokens: &[Token],
    rest: &'a [Token],
) -> Result<(Stmt, &'a [Token]), ReadError>
    ensures { Gives (λ x. (stmt_tree_of x.0, x.1.now)) result
        (sync_at (names_of names.now) tokens.now rest.entry.now) }
{
    if pending_task(Reach::Function, names).is_none() {
        Ok((nameless_waited(meaning_of(NAMELESS, names)), rest))
    } else {
        Err(fault_at(tokens, Wrong::WaitSkipped))
    }
}

/// `isolate f(v, w)` alone. Its value goes to one more variable, which nothing reads.
pub(crate) fn region_at<'a>(
    alloc: Global,
    names: &Names,
    tokens: &'a [Token],
) -> Result<(Stmt, &'a [Token]), ReadError>
    ensures { Gives (λ x. (stmt_tree_of x.0, x.1.now)) result
        (region_at (names_of names.now) tokens.entry.now) }
{
    let number = new_number(names, tokens)?;
    run_at(alloc, names, Run::Isolate(number), after_first(tokens))
}

/// The head of a loop that counts: its index and that one's variable, the variable of the end, both values, and by how
/// much it counts.
#[derive(Drop)]
pub(crate) struct Count {
    pub(crate) name: usize,
    pub(crate) index: u8,
    pub(crate) end: u8,
    pub(crate) low: Value,
    pub(crate) high: Value,
    pub(crate) by: i64,
}

/// `i in a..b`, or `i in a..b step n`, behind `for`.
pub(crate) fn count_at<'a>(
    alloc: Global,
    names: &Names,
    tokens: &'a [Token],
) -> Result<(Count, &'a [Token]), ReadError>
    ensures { Gives (λ x. (view_count x.0, x.1.now)) result
        (count_at (names_of names.now) tokens.entry.now) }
{
    let name = free_name(&Names::Inner(true, &*names), tokens)?;
    let index = new_number(names, tokens)?;
    let end = number_behind(index, tokens)?;
    let from = after_in(after_first(tokens))?;
    let (low, rest) = whole_value(alloc, names, from)?;
    let to = after_range(rest)?;
    let (high, rest) = whole_value(alloc, names, to)?;
    let (by, rest) = step_at(alloc, names, rest)?;
    let count = Count {
        name,
        index,
        end,
        low,
        high,
        by,
    };
    Ok((count, rest))
}

/// The loop of that head.
pub(crate) fn counted(alloc: Global, count: Count, body: Stmt) -> Result<Stmt, AllocError>
    ensures { IfOk result (λ s. stmt_tree_of s ≡ counting_loop count.index count.end count.by
        (value_tree_of count.low) (value_tree_of count.high) (stmt_tree_of body)) }
{
    counting_loop(
        alloc,
        count.index,
        count.end,
        count.by,
        count.low,
        count.high,
        body,
    )
}
