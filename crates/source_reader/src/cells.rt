// Cells: what is asked of them, and what is stored.
ghost use Rattle.std.specs.Prelude.{◌≡◌, IfOk};
ghost use Rattle.source_reader.specs.Cells.{question_of, after_local, stored, stored_at, store_at};
ghost use Rattle.source_reader.specs.Faults.{Gives};
ghost use Rattle.source_reader.specs.Names.{names_of};
ghost use Rattle.source_reader.specs.Trees.{stmt_tree_of, value_tree_of};

use crate::faults::{ReadError, Wrong, fault_at};
use crate::joining::{Value, operation};
use crate::names::{Names, new_number};
use crate::trees::{choice, then};
use crate::values::whole_value;
use job_language::Key;
use source_language::{Expr, Question, Stmt};
use source_tokens::{Kind, Part, Token};
use std::alloc::{AllocError, Global};

/// What is asked of the cells of that key.
pub(crate) fn question_of(part: Part, key: Key) -> Question
    ensures { result ≡ question_of part key }
{
    match part {
        Part::Local => Question::Cell(key),
        Part::Sum => Question::CellSum(key),
        Part::Count => Question::CellCount(key),
    }
}

/// What follows `.local`.
fn after_local(tokens: &[Token]) -> Result<&[Token], ReadError>
    ensures { Gives (λ ts. ts.now) result (after_local tokens.now) }
{
    match tokens.split_first() {
        Some((first, rest)) => match first.kind {
            Kind::Part(Part::Local) => Ok(rest),
            _ => Err(fault_at(tokens, Wrong::Unexpected)),
        },
        None => Err(fault_at(tokens, Wrong::Unexpected)),
    }
}

/// A cell is given a value.
fn stored(alloc: Global, key: Key, value: Value) -> Result<Stmt, AllocError>
    ensures { IfOk result (λ s. stmt_tree_of s ≡ stored key (value_tree_of value)) }
{
    match value {
        Value::Number(e) => Ok(Stmt::Store(key, e)),
        Value::Truth(t) => choice(
            alloc,
            t,
            Stmt::Store(key, Expr::Number(1)),
            Stmt::Store(key, Expr::Number(0)),
        ),
    }
}

/// `= v`, `+= v` and the like, behind `c.local`. What the cell is before goes to one more variable, and then the value
/// is computed.
fn stored_at<'a>(
    alloc: Global,
    names: &Names,
    key: Key,
    tokens: &'a [Token],
) -> Result<(Stmt, &'a [Token]), ReadError>
    ensures { Gives (λ x. (stmt_tree_of x.0, x.1.now)) result
        (stored_at (names_of names.now) key tokens.entry.now) }
{
    let Some((sign, rest)) = tokens.split_first() else {
        return Err(fault_at(tokens, Wrong::Unexpected));
    };
    match sign.kind {
        Kind::Set => {
            let (value, after) = whole_value(alloc, names, rest)?;
            Ok((stored(alloc, key, value)?, after))
        }
        Kind::Update(op) => {
            let number = new_number(names, tokens)?;
            let (value, after) = whole_value(alloc, names, rest)?;
            let before = Value::Number(Expr::Variable(number));
            let both = operation(alloc, op, before, value, tokens)?;
            let read = Stmt::Read(number, Question::Cell(key));
            Ok((then(alloc, read, Stmt::Store(key, both))?, after))
        }
        _ => Err(fault_at(tokens, Wrong::Unexpected)),
    }
}

/// `c.local = v`, `c.local += v` and the like, behind the name of the cell.
pub(crate) fn store_at<'a>(
    alloc: Global,
    names: &Names,
    key: Key,
    tokens: &'a [Token],
) -> Result<(Stmt, &'a [Token]), ReadError>
    ensures { Gives (λ x. (stmt_tree_of x.0, x.1.now)) result
        (store_at (names_of names.now) key tokens.entry.now) }
{
    let sign = after_local(tokens)?;
    stored_at(alloc, names, key, sign)
}
