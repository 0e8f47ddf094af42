// Values that are numbers before anything is computed.
ghost use Rattle.std.specs.Prelude.{◌≡◌};
ghost use Rattle.source_reader.specs.Constants.{constant_of, constant_in, is_step_of, is_step, unless_nought, step_in, step_at};
ghost use Rattle.source_reader.specs.Faults.{Gives};
ghost use Rattle.source_reader.specs.Names.{names_of};
ghost use Rattle.source_reader.specs.Trees.{tree_of, value_tree_of};

use crate::faults::{ReadError, Wrong, fault_at};
use crate::joining::{Value, number_in};
use crate::marks::after_first;
use crate::names::Names;
use crate::values::whole_value;
use source_language::Expr;
use source_tokens::{Kind, Token};
use std::alloc::Global;

fn constant_of(e: &Expr, tokens: &[Token]) -> Result<i64, ReadError>
    ensures { Gives (λ n. n) result (constant_of (tree_of e.now) tokens.now) }
{
    match e {
        Expr::Number(n) => Ok(*n),
        _ => Err(fault_at(tokens, Wrong::NoConstant)),
    }
}

/// A value that is a number before anything is computed.
pub(crate) fn constant_in(alloc: Global, value: Value, tokens: &[Token]) -> Result<i64, ReadError>
    ensures { Gives (λ n. n) result (constant_in (value_tree_of value) tokens.now) }
{
    let e = number_in(alloc, value, tokens)?;
    constant_of(&e, tokens)
}

/// Whether it is `step`.
pub(crate) fn is_step_of(kind: Kind) -> bool
    ensures { result ≡ is_step_of kind }
{
    match kind {
        Kind::Step => true,
        _ => false,
    }
}

/// Whether there is a `step` at the front.
pub(crate) fn is_step(tokens: &[Token]) -> bool
    ensures { result ≡ is_step tokens.now }
{
    match tokens.split_first() {
        Some((first, _)) => is_step_of(first.kind),
        None => false,
    }
}

fn unless_nought(number: i64, tokens: &[Token]) -> Result<i64, ReadError>
    ensures { Gives (λ n. n) result (unless_nought number tokens.now) }
{
    if number == 0 {
        Err(fault_at(tokens, Wrong::NoStep))
    } else {
        Ok(number)
    }
}

/// By how much a loop counts, behind `step`.
fn step_in<'a>(
    alloc: Global,
    names: &Names,
    tokens: &'a [Token],
) -> Result<(i64, &'a [Token]), ReadError>
    ensures { Gives (λ x. (x.0, x.1.now)) result (step_in (names_of names.now) tokens.entry.now) }
{
    let (value, rest) = whole_value(alloc, names, tokens)?;
    let number = constant_in(alloc, value, tokens)?;
    let by = unless_nought(number, tokens)?;
    Ok((by, rest))
}

/// By how much a loop counts, behind its ends.
pub(crate) fn step_at<'a>(
    alloc: Global,
    names: &Names,
    tokens: &'a [Token],
) -> Result<(i64, &'a [Token]), ReadError>
    ensures { Gives (λ x. (x.0, x.1.now)) result (step_at (names_of names.now) tokens.entry.now) }
{
    if is_step(tokens) {
        step_in(alloc, names, after_first(tokens))
    } else {
        Ok((1, tokens))
    }
}
