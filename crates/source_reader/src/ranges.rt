// The heads of parallel loops: an index, its range, and how many numbers one task takes by itself.
ghost use Rattle.std.specs.Prelude.{◌≡◌, option_map};
ghost use Rattle.source_reader.specs.Faults.{Gives};
ghost use Rattle.source_reader.specs.Names.{names_of};
ghost use Rattle.source_reader.specs.Ranges.{is_grain_of, is_grain, from_one, grain_in, grain_at, short_step, distance_in, distance_at, is_begin, after_block, ends_there, parallel_at};
ghost use Rattle.source_reader.specs.Trees.{stmt_tree_of};

use crate::calls::{Arguments, Run, argument_at, callee_titled, if_group_left, made};
use crate::constants::{constant_in, is_step};
use crate::faults::{ReadError, Wrong, fault_at};
use crate::headers::Title;
use crate::lines::{after_begin, after_in, after_range, free_name, is_end};
use crate::marks::after_first;
use crate::names::Names;
use crate::values::whole_value;
use source_language::Stmt;
use source_tokens::{Kind, Token};
use std::alloc::Global;

/// How many numbers of a parallel loop one task takes by itself, unless `grain` says so.
pub const GRAIN: i64 = 64;

/// Whether it is `grain`.
pub(crate) fn is_grain_of(kind: Kind) -> bool
    ensures { result ≡ is_grain_of kind }
{
    match kind {
        Kind::Grain => true,
        _ => false,
    }
}

fn is_grain(tokens: &[Token]) -> bool
    ensures { result ≡ is_grain tokens.now }
{
    match tokens.split_first() {
        Some((first, _)) => is_grain_of(first.kind),
        None => false,
    }
}

fn from_one(number: i64, tokens: &[Token]) -> Result<i64, ReadError>
    ensures { Gives (λ n. n) result (from_one number tokens.now) }
{
    if number < 1 {
        Err(fault_at(tokens, Wrong::NoGrain))
    } else {
        Ok(number)
    }
}

/// How many numbers one task takes by itself, behind `grain`.
fn grain_in<'a>(
    alloc: Global,
    names: &Names,
    tokens: &'a [Token],
) -> Result<(i64, &'a [Token]), ReadError>
    ensures { Gives (λ x. (x.0, x.1.now)) result (grain_in (names_of names.now) tokens.entry.now) }
{
    let (value, rest) = whole_value(alloc, names, tokens)?;
    let number = constant_in(alloc, value, tokens)?;
    let most = from_one(number, tokens)?;
    Ok((most, rest))
}

/// How many numbers one task takes by itself, behind the range and its step.
pub(crate) fn grain_at<'a>(
    alloc: Global,
    names: &Names,
    tokens: &'a [Token],
) -> Result<(i64, &'a [Token]), ReadError>
    ensures { Gives (λ x. (x.0, x.1.now)) result (grain_at (names_of names.now) tokens.entry.now) }
{
    if is_grain(tokens) {
        grain_in(alloc, names, after_first(tokens))
    } else {
        Ok((GRAIN, tokens))
    }
}

fn short_step(number: i64, tokens: &[Token]) -> Result<i64, ReadError>
    ensures { Gives (λ n. n) result (short_step number tokens.now) }
{
    if number < 1 || number > 1_048_576 {
        Err(fault_at(tokens, Wrong::NoStep))
    } else {
        Ok(number)
    }
}

/// How far the numbers are from each other, behind `step`.
fn distance_in<'a>(
    alloc: Global,
    names: &Names,
    tokens: &'a [Token],
) -> Result<(i64, &'a [Token]), ReadError>
    ensures { Gives (λ x. (x.0, x.1.now)) result (distance_in (names_of names.now) tokens.entry.now) }
{
    let (value, rest) = whole_value(alloc, names, tokens)?;
    let number = constant_in(alloc, value, tokens)?;
    let by = short_step(number, tokens)?;
    Ok((by, rest))
}

/// How far the numbers are from each other, behind the range.
pub(crate) fn distance_at<'a>(
    alloc: Global,
    names: &Names,
    tokens: &'a [Token],
) -> Result<(i64, &'a [Token]), ReadError>
    ensures { Gives (λ x. (x.0, x.1.now)) result (distance_at (names_of names.now) tokens.entry.now) }
{
    if is_step(tokens) {
        distance_in(alloc, names, after_first(tokens))
    } else {
        Ok((1, tokens))
    }
}

/// Whether it is `{`.
pub(crate) fn is_begin(kind: Kind) -> bool
    ensures { result ≡ is_begin kind }
{
    match kind {
        Kind::Begin => true,
        _ => false,
    }
}

/// What follows the end of the block in which these tokens are, if it ends.
pub(crate) fn after_block(tokens: &[Token]) -> Option<&[Token]>
    ensures { option_map (λ ts. ts.now) result ≡ after_block 0 tokens.now }
{
    let mut left = tokens;
    let mut inner = 0usize;
    while let [first, rest @ ..] = left {
        left = rest;
        if is_begin(first.kind) {
            inner += 1;
        } else if is_end(first.kind) {
            if inner == 0 {
                return Some(rest);
            }
            inner -= 1;
        }
    }
    None
}

/// The same, where the block must end.
fn behind_block(tokens: &[Token]) -> Result<&[Token], ReadError>
    ensures { Gives (λ ts. ts.now) result (ends_there (after_block 0 tokens.now)) }
{
    match after_block(tokens) {
        Some(rest) => Ok(rest),
        None => Err(fault_at(&[], Wrong::Unexpected)),
    }
}

/// A parallel loop, behind its word: a call of its function, whose value goes to the variable. The block is read with
/// that function.
pub(crate) fn parallel_at<'a>(
    alloc: Global,
    names: &Names,
    number: u8,
    tokens: &'a [Token],
) -> Result<(Stmt, &'a [Token]), ReadError>
    ensures { Gives (λ x. (stmt_tree_of x.0, x.1.now)) result
        (parallel_at (names_of names.now) number tokens.entry.now) }
{
    let _index = free_name(&Names::Inner(true, &*names), tokens)?;
    let call = if_group_left(Run::Call(Some(number)), names, tokens)?;
    let from = after_in(after_first(tokens))?;
    let (first, rest) = argument_at(alloc, names, from)?;
    let to = after_range(rest)?;
    let (second, rest) = argument_at(alloc, names, to)?;
    let (_by, rest) = distance_at(alloc, names, rest)?;
    let (_most, rest) = grain_at(alloc, names, rest)?;
    let inside = after_begin(rest)?;
    let after = behind_block(inside)?;
    let function = callee_titled(Title::Gathering(tokens.len()), names, tokens)?;
    let ends = Arguments { first, second };
    Ok((made(alloc, call, function.number, ends)?, after))
}
