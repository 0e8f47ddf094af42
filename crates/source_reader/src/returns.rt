// Statements that return.
ghost use Rattle.std.specs.Prelude.{◌≡◌, IfOk};
ghost use Rattle.source_reader.specs.Faults.{Gives};
ghost use Rattle.source_reader.specs.Trees.{tree_of, stmt_tree_of, value_tree_of};
ghost use Rattle.source_reader.specs.Names.{names_of};
ghost use Rattle.source_reader.specs.Returns.{is_there, stays, variable_returned, kept_returned, returned_from, behind, returned_by, something_returned, return_at};

use crate::faults::{ReadError, Wrong, fault_at};
use crate::givers::{Giver, given_by, giver_at};
use crate::joining::Value;
use crate::lines::{is_end, is_line_end};
use crate::names::{Names, new_number};
use crate::tasks::{Reach, leaving, pending};
use crate::trees::{assigned, returned, then};
use crate::values::whole_value;
use source_language::{Expr, Stmt};
use source_tokens::Token;
use std::alloc::{AllocError, Global};

/// `return v` or `return`, behind the word.
pub(crate) fn return_at<'a>(
    alloc: Global,
    names: &Names,
    tokens: &'a [Token],
) -> Result<(Stmt, &'a [Token]), ReadError>
    ensures { Gives (λ x. (stmt_tree_of x.0, x.1.now)) result
        (return_at (names_of names.now) tokens.entry.now) }
{
    let Some((first, _)) = tokens.split_first() else {
        return Err(fault_at(tokens, Wrong::Unexpected));
    };
    if is_line_end(first.kind) || is_end(first.kind) {
        let nothing = Stmt::Return(Expr::Number(0));
        return Ok((leaving(alloc, Reach::Function, names, nothing)?, tokens));
    }
    something_returned(alloc, names, tokens)
}

fn something_returned<'a>(
    alloc: Global,
    names: &Names,
    tokens: &'a [Token],
) -> Result<(Stmt, &'a [Token]), ReadError>
    ensures { Gives (λ x. (stmt_tree_of x.0, x.1.now)) result
        (something_returned (names_of names.now) tokens.entry.now) }
{
    if let Some(giver) = giver_at(names, tokens) {
        return returned_by(alloc, giver, names, tokens);
    }
    let (value, after) = whole_value(alloc, names, tokens)?;
    Ok((returned_from(alloc, names, value, tokens)?, after))
}

/// A variable is returned, behind waits for all tasks.
fn variable_returned(alloc: Global, names: &Names, number: u8) -> Result<Stmt, AllocError>
    ensures { IfOk result (λ s. stmt_tree_of s ≡ variable_returned (names_of names.now) number) }
{
    let value = Stmt::Return(Expr::Variable(number));
    leaving(alloc, Reach::Function, names, value)
}

/// A variable is returned, behind what gives its value.
fn returned_behind(
    alloc: Global,
    giver: Giver,
    names: &Names,
    number: u8,
) -> Result<Stmt, AllocError>
    ensures { IfOk result (λ s. stmt_tree_of s
        ≡ variable_returned (behind giver (names_of names.now)) number) }
{
    match giver {
        Giver::Wait(group) => {
            let behind = Names::Waited(group, &*names);
            variable_returned(alloc, &behind, number)
        }
        _ => variable_returned(alloc, names, number),
    }
}

/// Whether nothing computes it.
pub(crate) fn is_there(e: &Expr) -> bool
    ensures { result ≡ is_there (tree_of e.now) }
{
    match e {
        Expr::Number(_) => true,
        Expr::Variable(_) => true,
        _ => false,
    }
}

/// Whether a value is the same behind waits, with nothing to keep it.
fn stays(value: &Value) -> bool
    ensures { result ≡ stays (value_tree_of value.now) }
{
    match value {
        Value::Number(e) => is_there(e),
        Value::Truth(_) => false,
    }
}

/// A value is returned. If a task was not waited for, one more variable keeps it until then, where that is needed.
fn returned_from(
    alloc: Global,
    names: &Names,
    value: Value,
    tokens: &[Token],
) -> Result<Stmt, ReadError>
    ensures { Gives stmt_tree_of result
        (returned_from (names_of names.now) (value_tree_of value) tokens.now) }
{
    if pending(Reach::Function, names).is_none() {
        return Ok(returned(alloc, value)?);
    }
    if stays(&value) {
        let last = returned(alloc, value)?;
        return Ok(leaving(alloc, Reach::Function, names, last)?);
    }
    kept_returned(alloc, names, value, tokens)
}

fn kept_returned(
    alloc: Global,
    names: &Names,
    value: Value,
    tokens: &[Token],
) -> Result<Stmt, ReadError>
    ensures { Gives stmt_tree_of result
        (kept_returned (names_of names.now) (value_tree_of value) tokens.now) }
{
    let number = new_number(names, tokens)?;
    let kept = assigned(alloc, number, value)?;
    let last = variable_returned(alloc, names, number)?;
    Ok(then(alloc, kept, last)?)
}

/// The value that this gives is returned: one more variable has it.
fn returned_by<'a>(
    alloc: Global,
    giver: Giver,
    names: &Names,
    tokens: &'a [Token],
) -> Result<(Stmt, &'a [Token]), ReadError>
    ensures { Gives (λ x. (stmt_tree_of x.0, x.1.now)) result
        (returned_by giver (names_of names.now) tokens.entry.now) }
{
    let number = new_number(names, tokens)?;
    let (given, after) = given_by(alloc, giver, names, number, tokens)?;
    let last = returned_behind(alloc, giver, names, number)?;
    Ok((then(alloc, given, last)?, after))
}
