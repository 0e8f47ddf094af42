// What gives a value that no expression computes.
ghost use Rattle.std.specs.Prelude.{◌≡◌, Some};
ghost use Rattle.source_reader.specs.Faults.{Gives};
ghost use Rattle.source_reader.specs.Givers.{part_at, named_giver, giver_of, giver_at, cancelled_at, given_by};
ghost use Rattle.source_reader.specs.Names.{names_of, meaning_of};
ghost use Rattle.source_reader.specs.Trees.{stmt_tree_of};

use crate::calls::{Run, run_at};
use crate::cells::question_of;
use crate::faults::ReadError;
use crate::groups::own_group_at;
use crate::marks::{after_close, after_first, after_open};
use crate::names::{Meaning, Names, TaskGroup, asked_in, meaning_of};
use crate::ranges::parallel_at;
use crate::tasks::group_of;
use job_language::Key;
use source_language::{Question, Stmt};
use source_tokens::{Kind, Token};
use std::alloc::Global;

/// What gives a value that no expression computes.
#[derive(Clone, Copy)]
pub(crate) enum Giver {
    Call,
    Isolate,
    Cancelled,
    /// A wait for the tasks of a group.
    Wait(TaskGroup),
    /// A parallel loop.
    Gathering,
    /// A cell, or all of a key.
    Cell(Question),
}

/// `.local`, `.sum` or `.count`, behind the name of a cell.
fn part_at(key: Key, tokens: &[Token]) -> Option<Giver>
    ensures { result ≡ part_at key tokens.now }
{
    let (first, _) = tokens.split_first()?;
    match first.kind {
        Kind::Part(part) => Some(Giver::Cell(question_of(part, key))),
        _ => None,
    }
}

/// A cell, if that is what is meant.
fn meant_giver(meaning: Meaning, tokens: &[Token]) -> Option<Giver>
    ensures { result ≡ named_giver (Some meaning) tokens.now }
{
    match meaning {
        Meaning::Cell(key) => part_at(key, tokens),
        _ => None,
    }
}

/// A cell, if that is what the name stands for.
fn named_giver(name: usize, names: &Names, tokens: &[Token]) -> Option<Giver>
    ensures { result ≡ named_giver (meaning_of name (names_of names.now)) tokens.now }
{
    match meaning_of(name, names) {
        Some(meaning) => meant_giver(meaning, tokens),
        None => None,
    }
}

/// The one whose word, or whose cell, stands before these tokens.
pub(crate) fn giver_of(names: &Names, kind: Kind, rest: &[Token]) -> Option<Giver>
    ensures { result ≡ giver_of kind (names_of names.now) rest.now }
{
    match kind {
        Kind::Call => Some(Giver::Call),
        Kind::Isolate => Some(Giver::Isolate),
        Kind::Cancelled => Some(Giver::Cancelled),
        Kind::Wait => Some(Giver::Wait(own_group_at(names, rest)?)),
        Kind::Gathers(_) => Some(Giver::Gathering),
        Kind::Name(name) => named_giver(name, names, rest),
        _ => None,
    }
}

/// The one whose word, or whose cell, is at the front, if it was not asked before.
pub(crate) fn giver_at(names: &Names, tokens: &[Token]) -> Option<Giver>
    ensures { result ≡ giver_at (names_of names.now) tokens.now }
{
    let (first, rest) = tokens.split_first()?;
    if asked_in(tokens.len(), names).is_some() {
        return None;
    }
    giver_of(names, first.kind, rest)
}

/// `()`, behind `cancelled`.
fn cancelled_at(number: u8, tokens: &[Token]) -> Result<(Stmt, &[Token]), ReadError>
    ensures { Gives (λ x. (stmt_tree_of x.0, x.1.now)) result (cancelled_at number tokens.now) }
{
    let inside = after_open(tokens)?;
    let after = after_close(inside)?;
    Ok((Stmt::Read(number, Question::Cancelled), after))
}

/// What it gives to the variable of that number. Its word, or its cell, is the first of the tokens.
pub(crate) fn given_by<'a>(
    alloc: Global,
    giver: Giver,
    names: &Names,
    number: u8,
    tokens: &'a [Token],
) -> Result<(Stmt, &'a [Token]), ReadError>
    ensures { Gives (λ x. (stmt_tree_of x.0, x.1.now)) result
        (given_by giver (names_of names.now) number tokens.entry.now) }
{
    let rest = after_first(tokens);
    match giver {
        Giver::Call => run_at(alloc, names, Run::Call(Some(number)), rest),
        Giver::Isolate => run_at(alloc, names, Run::Isolate(number), rest),
        Giver::Cancelled => cancelled_at(number, rest),
        Giver::Wait(group) => {
            let wait = Stmt::Wait(Some(number), None, group_of(group));
            Ok((wait, after_first(rest)))
        }
        Giver::Gathering => parallel_at(alloc, names, number, rest),
        Giver::Cell(question) => Ok((Stmt::Read(number, question), after_first(rest))),
    }
}
