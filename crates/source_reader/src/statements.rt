// Statements and blocks.
ghost use Rattle.std.specs.Prelude.{◌≡◌, false};
ghost use Rattle.source_reader.specs.Faults.{Gives};
ghost use Rattle.source_reader.specs.Trees.{stmt_tree_of};
ghost use Rattle.source_reader.specs.Names.{names_of};
ghost use Rattle.source_reader.specs.Statements.{ask_and_rest, line_and_rest, for_at, stmt_at, Block, Rest, Line, Branch, Otherwise};

use crate::ahead::{next_ask, next_wait};
use crate::calls::{Run, run_at};
use crate::declaring::{behind_set, declared_in};
use crate::faults::{ReadError, Wrong, fault_at};
use crate::givers::giver_at;
use crate::giving::{give_at, group_given, return_in};
use crate::groups::{cancel_at, gathered, group_at, spawned_at};
use crate::lines::{after_begin, after_else, after_end, after_line_ends, ended, is_if, let_name};
use crate::loops::loop_left;
use crate::marks::after_first;
use crate::names::{Meaning, Names, new_number};
use crate::questions::asked_again;
use crate::simple::{
    assigned_at, condition_at, count_at, counted, given_at, let_at, region_at, sync_at, wait_at,
};
use crate::statuses::status_name;
use crate::tasks::{block_end, waited};
use crate::trees::{choice, leaves, looped, then};
use crate::variables::Declared;
use source_language::Stmt;
use source_tokens::{Kind, Token};
use std::alloc::Global;

/// `{ .. }`.
#[tactic(auto, using(crate::proofs::StmtSteps::stmt_steps))]
#[cycle(statements)]
pub(crate) fn block_at<'a>(
    alloc: Global,
    names: &Names,
    seen: &mut Declared,
    in_loop: bool,
    fuel: u16,
    tokens: &'a [Token],
) -> Result<(Stmt, &'a [Token]), ReadError>
    ensures { Gives (λ x. (stmt_tree_of x.0, x.1.now)) result
        (stmt_at fuel (names_of names.now) (Block in_loop) tokens.entry.now) }
{
    if fuel == 0 {
        return Err(fault_at(tokens, Wrong::TooLong));
    }
    let inside = after_begin(tokens)?;
    rest_at(alloc, names, seen, in_loop, false, fuel - 1, inside)
}

/// The statements up to the end of a block. If they are never reached, there are none.
#[tactic(auto, using(crate::proofs::StmtSteps::stmt_steps))]
#[cycle(statements)]
fn rest_at<'a>(
    alloc: Global,
    names: &Names,
    seen: &mut Declared,
    in_loop: bool,
    left: bool,
    fuel: u16,
    tokens: &'a [Token],
) -> Result<(Stmt, &'a [Token]), ReadError>
    ensures { Gives (λ x. (stmt_tree_of x.0, x.1.now)) result
        (stmt_at fuel (names_of names.now) (Rest in_loop left) tokens.entry.now) }
{
    if fuel == 0 {
        return Err(fault_at(tokens, Wrong::TooLong));
    }
    let lines = after_line_ends(tokens);
    if let Some(after) = after_end(lines) {
        return Ok((block_end(alloc, left, names, lines)?, after));
    }
    if left {
        return Err(fault_at(lines, Wrong::NeverReached));
    }
    match next_wait(names, lines) {
        None => match next_ask(names, lines) {
            None => match gathered(names, lines) {
                None => lines_at(alloc, names, names, seen, in_loop, fuel - 1, lines),
                Some(group) => {
                    let behind = Names::Waited(group, &*names);
                    lines_at(alloc, names, &behind, seen, in_loop, fuel - 1, lines)
                }
            },
            Some(asked) => asked_before(alloc, names, seen, in_loop, fuel - 1, asked, lines),
        },
        Some(task) => {
            let behind = Names::Waited(task.group, &*names);
            let (others, after) = rest_at(alloc, &behind, seen, in_loop, false, fuel - 1, lines)?;
            Ok((then(alloc, waited(task), others)?, after))
        }
    }
}

/// What gives a value inside a line goes to one more variable, and then comes the line.
#[cycle(statements)]
fn asked_before<'a>(
    alloc: Global,
    names: &Names,
    seen: &mut Declared,
    in_loop: bool,
    fuel: u16,
    asked: &[Token],
    tokens: &'a [Token],
) -> Result<(Stmt, &'a [Token]), ReadError>
    ensures { Gives (λ x. (stmt_tree_of x.0, x.1.now)) result
        (ask_and_rest (stmt_at fuel) (names_of names.now) in_loop asked.now tokens.entry.now) }
{
    let number = new_number(names, tokens)?;
    let (given, behind) = given_at(alloc, names, number, asked)?;
    let (left, right) = (asked.len(), behind.len());
    match group_given(giver_at(names, asked)) {
        Some(group) => {
            let gathered = Names::Waited(group, &*names);
            let inner = Names::Asked(left, right, number, &gathered);
            let (others, after) = rest_at(alloc, &inner, seen, in_loop, false, fuel, tokens)?;
            Ok((then(alloc, given, others)?, after))
        }
        None => {
            let inner = Names::Asked(left, right, number, &*names);
            let (others, after) = rest_at(alloc, &inner, seen, in_loop, false, fuel, tokens)?;
            Ok((then(alloc, given, others)?, after))
        }
    }
}

/// A statement, and those behind it, up to the end of a block. Behind it other names are seen.
#[cycle(statements)]
fn lines_at<'a>(
    alloc: Global,
    names: &Names,
    behind: &Names,
    seen: &mut Declared,
    in_loop: bool,
    fuel: u16,
    tokens: &'a [Token],
) -> Result<(Stmt, &'a [Token]), ReadError>
    ensures { Gives (λ x. (stmt_tree_of x.0, x.1.now)) result
        (line_and_rest (stmt_at fuel) (names_of names.now) (names_of behind.now) in_loop tokens.entry.now) }
{
    let (first, rest) = line_at(alloc, names, seen, in_loop, fuel, tokens)?;
    let rest = ended(rest)?;
    let left = leaves(&first);
    match let_name(tokens) {
        None => {
            let (others, after) = rest_at(alloc, behind, seen, in_loop, left, fuel, rest)?;
            Ok((then(alloc, first, others)?, after))
        }
        Some(name) => {
            let meaning = declared_in(behind, tokens)?;
            let inner = Names::Name(name, meaning, &*behind);
            seen.add(meaning, after_first(tokens))?;
            let Some(status) = status_name(after_first(tokens)) else {
                let (others, after) = rest_at(alloc, &inner, seen, in_loop, left, fuel, rest)?;
                return Ok((then(alloc, first, others)?, after));
            };
            let second = new_number(&inner, tokens)?;
            let both = Names::Name(status, Meaning::Variable(second), &inner);
            seen.add(Meaning::Variable(second), behind_set(tokens))?;
            let (others, after) = rest_at(alloc, &both, seen, in_loop, left, fuel, rest)?;
            Ok((then(alloc, first, others)?, after))
        }
    }
}

/// A statement.
#[tactic(auto, using(crate::proofs::StmtSteps::stmt_steps))]
#[cycle(statements)]
fn line_at<'a>(
    alloc: Global,
    names: &Names,
    seen: &mut Declared,
    in_loop: bool,
    fuel: u16,
    tokens: &'a [Token],
) -> Result<(Stmt, &'a [Token]), ReadError>
    ensures { Gives (λ x. (stmt_tree_of x.0, x.1.now)) result
        (stmt_at fuel (names_of names.now) (Line in_loop) tokens.entry.now) }
{
    if fuel == 0 {
        return Err(fault_at(tokens, Wrong::TooLong));
    }
    let Some((first, rest)) = tokens.split_first() else {
        return Err(fault_at(tokens, Wrong::Unexpected));
    };
    match first.kind {
        Kind::Let => let_at(alloc, names, rest),
        Kind::Name(name) => assigned_at(alloc, names, name, tokens, rest),
        Kind::Return => return_in(alloc, names, tokens, rest),
        Kind::Give => give_at(alloc, names, tokens, rest),
        Kind::Call => run_at(alloc, names, Run::Call(None), rest),
        Kind::Isolate => region_at(alloc, names, tokens),
        Kind::Post => run_at(alloc, names, Run::Post, rest),
        Kind::Wait => wait_at(names, rest),
        Kind::Group => group_at(names, rest),
        Kind::Spawn => spawned_at(alloc, names, rest),
        Kind::Cancel => cancel_at(names, rest),
        Kind::Sync => sync_at(names, tokens, rest),
        Kind::Break => loop_left(alloc, names, in_loop, Stmt::Break(0), rest, tokens),
        Kind::Continue => loop_left(alloc, names, in_loop, Stmt::Continue(0), rest, tokens),
        Kind::While => {
            let (condition, after) = condition_at(alloc, names, rest)?;
            let inner = Names::Inner(true, &*names);
            let (body, after) = block_at(alloc, &inner, seen, true, fuel - 1, after)?;
            let step = asked_again(alloc, names, rest)?;
            Ok((looped(alloc, condition, body, step)?, after))
        }
        Kind::For => for_at(alloc, names, seen, fuel - 1, rest),
        Kind::If => {
            let (condition, after) = condition_at(alloc, names, rest)?;
            let inner = Names::Inner(false, &*names);
            let (then, after) = block_at(alloc, &inner, seen, in_loop, fuel - 1, after)?;
            let (other, after) = otherwise_at(alloc, names, seen, in_loop, fuel - 1, after)?;
            Ok((choice(alloc, condition, then, other)?, after))
        }
        _ => Err(fault_at(tokens, Wrong::Unexpected)),
    }
}

/// An `if` behind `else`. What its condition asks is asked before it.
#[tactic(auto, using(crate::proofs::StmtSteps::stmt_steps))]
#[cycle(statements)]
fn branch_at<'a>(
    alloc: Global,
    names: &Names,
    seen: &mut Declared,
    in_loop: bool,
    fuel: u16,
    tokens: &'a [Token],
) -> Result<(Stmt, &'a [Token]), ReadError>
    ensures { Gives (λ x. (stmt_tree_of x.0, x.1.now)) result
        (stmt_at fuel (names_of names.now) (Branch in_loop) tokens.entry.now) }
{
    if fuel == 0 {
        return Err(fault_at(tokens, Wrong::TooLong));
    }
    match next_ask(names, tokens) {
        None => line_at(alloc, names, seen, in_loop, fuel - 1, tokens),
        Some(asked) => {
            let number = new_number(names, tokens)?;
            let (given, behind) = given_at(alloc, names, number, asked)?;
            let inner = Names::Asked(asked.len(), behind.len(), number, &*names);
            let (branch, after) = branch_at(alloc, &inner, seen, in_loop, fuel - 1, tokens)?;
            Ok((then(alloc, given, branch)?, after))
        }
    }
}

/// A loop that counts, behind `for`.
#[cycle(statements)]
fn for_at<'a>(
    alloc: Global,
    names: &Names,
    seen: &mut Declared,
    fuel: u16,
    tokens: &'a [Token],
) -> Result<(Stmt, &'a [Token]), ReadError>
    ensures { Gives (λ x. (stmt_tree_of x.0, x.1.now)) result
        (for_at (stmt_at fuel) (names_of names.now) tokens.entry.now) }
{
    let (count, rest) = count_at(alloc, names, tokens)?;
    let index = Meaning::Counter(count.index);
    let named = Names::Name(count.name, index, &*names);
    seen.add(index, tokens)?;
    let inner = Names::Inner(true, &named);
    let (body, after) = block_at(alloc, &inner, seen, true, fuel, rest)?;
    Ok((counted(alloc, count, body)?, after))
}

/// What may follow the block of an `if`: `else`, which may stand on a line of its own.
#[tactic(auto, using(crate::proofs::StmtSteps::stmt_steps))]
#[cycle(statements)]
fn otherwise_at<'a>(
    alloc: Global,
    names: &Names,
    seen: &mut Declared,
    in_loop: bool,
    fuel: u16,
    tokens: &'a [Token],
) -> Result<(Stmt, &'a [Token]), ReadError>
    ensures { Gives (λ x. (stmt_tree_of x.0, x.1.now)) result
        (stmt_at fuel (names_of names.now) (Otherwise in_loop) tokens.entry.now) }
{
    if fuel == 0 {
        return Err(fault_at(tokens, Wrong::TooLong));
    }
    let Some(rest) = after_else(after_line_ends(tokens)) else {
        return Ok((Stmt::Skip, tokens));
    };
    let inner = Names::Inner(false, &*names);
    if is_if(rest) {
        branch_at(alloc, &inner, seen, in_loop, fuel - 1, rest)
    } else {
        block_at(alloc, &inner, seen, in_loop, fuel - 1, rest)
    }
}
