// The arguments of functions that are run.
ghost use Rattle.std.specs.Prelude.{◌≡◌, IfOk};
ghost use Rattle.source_reader.specs.Calls.{view_arguments, no_arguments, no_argument, does_fit, if_fits, with_argument, behind_argument, arguments_from, arguments_at};
ghost use Rattle.source_reader.specs.Faults.{Gives};
ghost use Rattle.source_reader.specs.Names.{names_of};
ghost use Rattle.source_reader.specs.Trees.{tree_of};

use crate::calls::{Arguments, argument_at};
use crate::faults::{ReadError, Wrong, fault_at};
use crate::folding::right;
use crate::layouts::{Taken, nothing_taken, packed_with, with_one};
use crate::marks::{after_first, after_last, before_next, is_close};
use crate::names::Names;
use source_language::Expr;
use source_tokens::Token;
use std::alloc::{AllocError, Global};

fn no_arguments() -> Arguments
    ensures { view_arguments result ≡ no_arguments }
{
    Arguments {
        first: Expr::Number(0),
        second: Expr::Number(0),
    }
}

fn no_argument<'a>(
    called: &[Token],
    tokens: &'a [Token],
) -> Result<(Arguments, &'a [Token]), ReadError>
    ensures { Gives (λ x. (view_arguments x.0, x.1.now)) result
        (no_argument called.now tokens.entry.now) }
{
    if is_close(tokens) {
        Ok((no_arguments(), after_first(tokens)))
    } else {
        Err(fault_at(called, Wrong::ArgumentCount))
    }
}

/// Whether nothing is left of a number above so many bits, if there is a width.
fn does_fit(number: i64, bits: u8) -> bool
    ensures { result ≡ does_fit number bits }
{
    bits == 0 || right(number, i64::from(bits)) == 0
}

/// An argument, unless it is a number that does not fit the width of its parameter.
fn if_fits(value: Expr, bits: u8, tokens: &[Token]) -> Result<Expr, ReadError>
    ensures { Gives tree_of result (if_fits (tree_of value) bits tokens.now) }
{
    match value {
        Expr::Number(number) => {
            if does_fit(number, bits) {
                Ok(Expr::Number(number))
            } else {
                Err(fault_at(tokens, Wrong::TooWide))
            }
        }
        _ => Ok(value),
    }
}

/// The two numbers, with one more argument, for a parameter of that width.
fn with_argument(
    alloc: Global,
    taken: Taken,
    bits: u8,
    before: Arguments,
    value: Expr,
) -> Result<Arguments, AllocError>
    ensures { IfOk result (λ a. view_arguments a
        ≡ with_argument taken bits (view_arguments before) (tree_of value)) }
{
    let Arguments { first, second } = before;
    let (first, second) = packed_with(alloc, taken, bits, first, second, value)?;
    Ok(Arguments { first, second })
}

/// What follows an argument, where others are wanted, or the end.
fn behind_argument<'a>(
    others: &[u8],
    called: &[Token],
    tokens: &'a [Token],
) -> Result<&'a [Token], ReadError>
    ensures { Gives (λ ts. ts.now) result
        (behind_argument others.now called.now tokens.entry.now) }
{
    match others.split_first() {
        Some(_) => before_next(called, tokens),
        None => after_last(called, tokens),
    }
}

/// The arguments before, and those for parameters of these widths, and the tokens after `)`.
fn arguments_from<'a>(
    alloc: Global,
    names: &Names,
    taken: Taken,
    before: Arguments,
    widths: &[u8],
    called: &[Token],
    tokens: &'a [Token],
) -> Result<(Arguments, &'a [Token]), ReadError>
    ensures { Gives (λ x. (view_arguments x.0, x.1.now)) result
        (arguments_from (names_of names.now) taken (view_arguments before) widths.now called.now tokens.entry.now) }
{
    let Some((bits, others)) = widths.split_first() else {
        return Ok((before, tokens));
    };
    let (value, rest) = argument_at(alloc, names, tokens)?;
    let value = if_fits(value, *bits, tokens)?;
    let rest = behind_argument(others, called, rest)?;
    let arguments = with_argument(alloc, taken, *bits, before, value)?;
    let taken = with_one(taken, *bits);
    arguments_from(alloc, names, taken, arguments, others, called, rest)
}

/// The arguments of a function whose parameters have these widths, behind `(`, and the tokens after `)`. The name of the
/// function is the first of those that are `called`.
pub(crate) fn arguments_at<'a>(
    alloc: Global,
    names: &Names,
    widths: &[u8],
    called: &[Token],
    tokens: &'a [Token],
) -> Result<(Arguments, &'a [Token]), ReadError>
    ensures { Gives (λ x. (view_arguments x.0, x.1.now)) result
        (arguments_at (names_of names.now) widths.now called.now tokens.entry.now) }
{
    if widths.is_empty() {
        no_argument(called, tokens)
    } else if is_close(tokens) {
        Err(fault_at(called, Wrong::ArgumentCount))
    } else {
        arguments_from(
            alloc,
            names,
            nothing_taken(),
            no_arguments(),
            widths,
            called,
            tokens,
        )
    }
}
