// Functions that the language has: `min`, `max` and `abs`.
ghost use Rattle.std.specs.Prelude.{◌≡◌, IfOk, map};
ghost use Rattle.source_reader.specs.BuiltIns.{extreme, sign_of, size_of, extreme_of, extreme_in, size_in, built_in};
ghost use Rattle.source_reader.specs.Faults.{Gives};
ghost use Rattle.source_reader.specs.Trees.{tree_of};

use crate::faults::{ReadError, Wrong, fault_at};
use crate::folding::two_of;
use crate::inlines::{copied, short_number};
use source_language::{Expr, Operator};
use source_tokens::{BuiltIn, Token};
use std::alloc::{AllocError, Global};

/// Which of two numbers is taken.
#[derive(Clone, Copy)]
enum Taken {
    Least,
    Greatest,
}

/// The one of two numbers that is taken. To the second the difference is added if it is the first.
fn extreme(alloc: Global, which: Taken, a: &Expr, b: &Expr) -> Result<Expr, AllocError>
    ensures { IfOk result (λ e. tree_of e ≡ extreme which (tree_of a.now) (tree_of b.now)) }
{
    let first = copied(alloc, a)?;
    let second = copied(alloc, b)?;
    let is_first = match which {
        Taken::Least => two_of(alloc, Operator::Below, first, second)?,
        Taken::Greatest => two_of(alloc, Operator::Below, second, first)?,
    };
    let difference = two_of(alloc, Operator::Minus, copied(alloc, a)?, copied(alloc, b)?)?;
    let added = two_of(alloc, Operator::Times, difference, is_first)?;
    two_of(alloc, Operator::Plus, copied(alloc, b)?, added)
}

/// -1 if a number is negative, else 0.
fn sign_of(alloc: Global, e: &Expr) -> Result<Expr, AllocError>
    ensures { IfOk result (λ r. tree_of r ≡ sign_of (tree_of e.now)) }
{
    two_of(
        alloc,
        Operator::ShiftRight,
        copied(alloc, e)?,
        Expr::Number(63),
    )
}

/// How far a number is from 0. That of -2^63 wraps.
fn size_of(alloc: Global, e: &Expr) -> Result<Expr, AllocError>
    ensures { IfOk result (λ r. tree_of r ≡ size_of (tree_of e.now)) }
{
    let turned = two_of(
        alloc,
        Operator::BitXor,
        copied(alloc, e)?,
        sign_of(alloc, e)?,
    )?;
    two_of(alloc, Operator::Minus, turned, sign_of(alloc, e)?)
}

/// The one that is taken of a number and others. What is made on the way is not too long.
fn extreme_of(
    alloc: Global,
    which: Taken,
    first: Expr,
    others: &[Expr],
    called: &[Token],
) -> Result<Expr, ReadError>
    ensures { Gives tree_of result (extreme_of which (tree_of first) (map tree_of others.now) called.now) }
{
    match others.split_first() {
        Some((second, rest)) => {
            let both = short_number(extreme(alloc, which, &first, second)?, called)?;
            extreme_of(alloc, which, both, rest, called)
        }
        None => Ok(first),
    }
}

/// `min` or `max`, which take two arguments or more.
fn extreme_in(
    alloc: Global,
    which: Taken,
    arguments: &[Expr],
    called: &[Token],
) -> Result<Expr, ReadError>
    ensures { Gives tree_of result (extreme_in which (map tree_of arguments.now) called.now) }
{
    match arguments.split_first() {
        Some((first, others)) => {
            if others.is_empty() {
                Err(fault_at(called, Wrong::ArgumentCount))
            } else {
                extreme_of(alloc, which, copied(alloc, first)?, others, called)
            }
        }
        None => Err(fault_at(called, Wrong::ArgumentCount)),
    }
}

/// `abs`, which takes one argument.
fn size_in(alloc: Global, arguments: &[Expr], called: &[Token]) -> Result<Expr, ReadError>
    ensures { Gives tree_of result (size_in (map tree_of arguments.now) called.now) }
{
    match arguments {
        [only] => short_number(size_of(alloc, only)?, called),
        _ => Err(fault_at(called, Wrong::ArgumentCount)),
    }
}

/// What is inserted for a function of the language. Its name is the first of the tokens `called`.
pub(crate) fn built_in(
    alloc: Global,
    function: BuiltIn,
    arguments: &[Expr],
    called: &[Token],
) -> Result<Expr, ReadError>
    ensures { Gives tree_of result (built_in function (map tree_of arguments.now) called.now) }
{
    match function {
        BuiltIn::Min => extreme_in(alloc, Taken::Least, arguments, called),
        BuiltIn::Max => extreme_in(alloc, Taken::Greatest, arguments, called),
        BuiltIn::Abs => size_in(alloc, arguments, called),
    }
}
