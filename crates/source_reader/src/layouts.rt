// How the parameters of a function share the two numbers that a task gets.
ghost use Rattle.std.specs.Prelude.{◌≡◌, ◌-◌, ◌||◌, IfOk};
ghost use Rattle.source_reader.specs.Layouts.{has_room, bits_taken, nothing_taken, with_one, with_all, shifted, packed, packed_with, ones, without_low, part_of, unpacked, unpacking, has_width, first_variable, with_unpacking};
ghost use Rattle.source_reader.specs.Trees.{tree_of, stmt_tree_of};

use crate::folding::{two, two_of};
use crate::names::number_after;
use crate::trees::then;
use source_language::{Expr, Operator, Stmt};
use std::alloc::{AllocError, Global};

/// How many bits of the two numbers are taken, 64 by a parameter without a width.
#[derive(Clone, Copy)]
pub(crate) struct Taken {
    first: u8,
    second: u8,
}

pub(crate) fn nothing_taken() -> Taken
    ensures { result ≡ nothing_taken }
{
    Taken {
        first: 0,
        second: 0,
    }
}

/// Whether a number of which so many bits are taken has room for a parameter of that width.
fn has_room(taken: u8, bits: u8) -> bool
    ensures { result ≡ has_room taken bits }
{
    taken == 0 || 0 < bits && u16::from(taken) + u16::from(bits) < 64
}

/// Whether one of the two numbers has room for a parameter of that width.
pub(crate) fn have_room(taken: Taken, bits: u8) -> bool
    ensures { result ≡ (has_room taken.first bits || has_room taken.second bits) }
{
    has_room(taken.first, bits) || has_room(taken.second, bits)
}

/// What a parameter takes.
fn bits_taken(bits: u8) -> u8
    ensures { result ≡ bits_taken bits }
{
    if bits == 0 { 64 } else { bits }
}

/// Behind a parameter of that width, which goes to the first number that has room, or to none.
pub(crate) fn with_one(taken: Taken, bits: u8) -> Taken
    ensures { result ≡ with_one taken bits }
{
    let Taken { first, second } = taken;
    if has_room(first, bits) {
        Taken {
            first: first + bits_taken(bits),
            second,
        }
    } else if has_room(second, bits) {
        Taken {
            first,
            second: second + bits_taken(bits),
        }
    } else {
        taken
    }
}

/// Behind parameters of these widths.
fn with_all(taken: Taken, widths: &[u8]) -> Taken
    ensures { result ≡ with_all taken widths.now }
{
    match widths.split_first() {
        Some((first, others)) => with_all(with_one(taken, *first), others),
        None => taken,
    }
}

/// A number with so many bits behind it.
fn shifted(alloc: Global, value: Expr, bits: u8) -> Result<Expr, AllocError>
    ensures { IfOk result (λ e. tree_of e ≡ shifted (tree_of value) bits) }
{
    two_of(
        alloc,
        Operator::ShiftLeft,
        value,
        Expr::Number(i64::from(bits)),
    )
}

/// What is packed behind so many bits, with those before above it.
fn packed(alloc: Global, taken: u8, bits: u8, before: Expr, value: Expr) -> Result<Expr, AllocError>
    ensures { IfOk result (λ e. tree_of e ≡ packed taken bits (tree_of before) (tree_of value)) }
{
    if taken == 0 {
        return Ok(value);
    }
    let above = shifted(alloc, before, bits)?;
    two_of(alloc, Operator::Plus, above, value)
}

/// The two numbers, with one more value, of a parameter of that width.
pub(crate) fn packed_with(
    alloc: Global,
    taken: Taken,
    bits: u8,
    first: Expr,
    second: Expr,
    value: Expr,
) -> Result<(Expr, Expr), AllocError>
    ensures { IfOk result (λ x. (tree_of x.0, tree_of x.1)
        ≡ packed_with taken bits (tree_of first) (tree_of second) (tree_of value)) }
{
    if has_room(taken.first, bits) {
        Ok((packed(alloc, taken.first, bits, first, value)?, second))
    } else {
        Ok((first, packed(alloc, taken.second, bits, second, value)?))
    }
}

/// So many ones, as a number.
fn ones(alloc: Global, bits: u8) -> Result<Expr, AllocError>
    ensures { IfOk result (λ e. tree_of e ≡ ones bits) }
{
    let above = shifted(alloc, Expr::Number(1), bits)?;
    two_of(alloc, Operator::Minus, above, Expr::Number(1))
}

/// A variable without so many of its lowest bits.
fn without_low(alloc: Global, variable: u8, low: u8) -> Result<Expr, AllocError>
    ensures { IfOk result (λ e. tree_of e ≡ without_low variable low) }
{
    let all = Expr::Variable(variable);
    if low == 0 {
        Ok(all)
    } else {
        two(
            alloc,
            Operator::ShiftRight,
            all,
            Expr::Number(i64::from(low)),
        )
    }
}

/// What stands in a variable below so many bits that are taken, and above so many others.
fn part_of(alloc: Global, variable: u8, above: u8, low: u8, bits: u8) -> Result<Expr, AllocError>
    ensures { IfOk result (λ e. tree_of e ≡ part_of variable above low bits) }
{
    let shifted = without_low(alloc, variable, low)?;
    if above == 0 {
        Ok(shifted)
    } else {
        let mask = ones(alloc, bits)?;
        two(alloc, Operator::BitAnd, shifted, mask)
    }
}

/// How many bits are taken behind a parameter.
fn low_bits(all: u8, before: u8, bits: u8) -> u8
    ensures { result ≡ all - before - bits_taken bits }
{
    all.saturating_sub(before).saturating_sub(bits_taken(bits))
}

/// The value of a parameter behind those that took some bits, where all take so many.
fn unpacked(alloc: Global, all: Taken, before: Taken, bits: u8) -> Result<Expr, AllocError>
    ensures { IfOk result (λ e. tree_of e ≡ unpacked all before bits) }
{
    if has_room(before.first, bits) {
        let low = low_bits(all.first, before.first, bits);
        part_of(alloc, 0, before.first, low, bits)
    } else {
        let low = low_bits(all.second, before.second, bits);
        part_of(alloc, 1, before.second, low, bits)
    }
}

/// Each parameter is given to a variable of its own, from that one on.
fn unpacking(
    alloc: Global,
    all: Taken,
    before: Taken,
    variable: u8,
    widths: &[u8],
) -> Result<Stmt, AllocError>
    ensures { IfOk result (λ s. stmt_tree_of s ≡ unpacking all before variable widths.now) }
{
    match widths.split_first() {
        Some((first, others)) => {
            let value = unpacked(alloc, all, before, *first)?;
            let behind = with_one(before, *first);
            let rest = unpacking(alloc, all, behind, number_after(variable), others)?;
            then(alloc, Stmt::Assign(variable, value), rest)
        }
        None => Ok(Stmt::Skip),
    }
}

/// Whether one of the parameters has a width.
fn has_width(widths: &[u8]) -> bool
    ensures { result ≡ has_width widths.now }
{
    match widths.split_first() {
        Some((first, others)) => 0 < *first || has_width(others),
        None => false,
    }
}

/// The variable of the first parameter. Without widths the two numbers are the parameters.
pub(crate) fn first_variable(widths: &[u8]) -> u8
    ensures { result ≡ first_variable widths.now }
{
    if has_width(widths) { 2 } else { 0 }
}

/// The body of a function with parameters of these widths.
pub(crate) fn with_unpacking(alloc: Global, widths: &[u8], body: Stmt) -> Result<Stmt, AllocError>
    ensures { IfOk result (λ s. stmt_tree_of s ≡ with_unpacking widths.now (stmt_tree_of body)) }
{
    if !has_width(widths) {
        return Ok(body);
    }
    let all = with_all(nothing_taken(), widths);
    let before = unpacking(alloc, all, nothing_taken(), 2, widths)?;
    then(alloc, before, body)
}
