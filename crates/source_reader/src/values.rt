// Values: operators of nine levels between numbers, variables and values in parentheses.
ghost use Rattle.std.specs.Prelude.{◌≡◌, map};
ghost use Rattle.source_reader.specs.Faults.{Gives};
ghost use Rattle.source_reader.specs.Trees.{tree_of, value_tree_of, inline_tree_of};
ghost use Rattle.source_reader.specs.Names.{names_of};
ghost use Rattle.source_reader.specs.Values.{applied, behind_argument, operands_of, behind_operand, value_at, whole_value, Level, More, Single, Argument, Operand};

use crate::built_ins::built_in;
use crate::faults::{ReadError, Wrong, fault_at};
use crate::inlines::{Inline, given_in, inserted, no_argument};
use crate::joining::{Value, complement, joined, minus, opposite, sign_at};
use crate::lines::after_comma;
use crate::marks::{
    after_close, after_first, after_last, after_open, before_next, is_close, left_behind,
};
use crate::names::{Names, asked_in, inline_of};
use crate::operands::{awaited_value, has_opposite, named, without_arguments};
use source_language::Expr;
use source_tokens::{BuiltIn, Kind, Sign, Token};
use std::alloc::Global;

/// How long a value may be.
pub const VALUE_FUEL: u16 = 600;

/// The level above the tightest operators.
const LEVELS: u8 = 9;

/// A value of operators of that level and of tighter ones, and the tokens after it.
#[tactic(auto, using(crate::proofs::ValueSteps::value_steps))]
#[cycle(values)]
pub(crate) fn value_at<'a>(
    alloc: Global,
    names: &Names,
    fuel: u16,
    level: u8,
    tokens: &'a [Token],
) -> Result<(Value, &'a [Token]), ReadError>
    ensures { Gives (λ x. (value_tree_of x.0, x.1.now)) result
        (value_at fuel (names_of names.now) (Level level) tokens.entry.now) }
{
    if fuel == 0 {
        return Err(fault_at(tokens, Wrong::TooLong));
    }
    if level >= LEVELS {
        return single_at(alloc, names, fuel - 1, tokens);
    }
    let (first, rest) = value_at(alloc, names, fuel - 1, level + 1, tokens)?;
    more_at(alloc, names, fuel - 1, level, first, rest)
}

/// More operators of that level behind a value.
#[tactic(auto, using(crate::proofs::ValueSteps::value_steps))]
#[cycle(values)]
fn more_at<'a>(
    alloc: Global,
    names: &Names,
    fuel: u16,
    level: u8,
    left: Value,
    tokens: &'a [Token],
) -> Result<(Value, &'a [Token]), ReadError>
    ensures { Gives (λ x. (value_tree_of x.0, x.1.now)) result
        (value_at fuel (names_of names.now) (More level (value_tree_of left)) tokens.entry.now) }
{
    if fuel == 0 {
        return Err(fault_at(tokens, Wrong::TooLong));
    }
    match sign_at(level, tokens) {
        None => Ok((left, tokens)),
        Some(sign) => {
            let (right, rest) = value_at(alloc, names, fuel - 1, level + 1, after_first(tokens))?;
            let both = joined(alloc, sign, left, right, tokens)?;
            more_at(alloc, names, fuel - 1, level, both, rest)
        }
    }
}

/// A value without operators, or with one before it.
#[tactic(auto, using(crate::proofs::ValueSteps::value_steps))]
#[cycle(values)]
fn single_at<'a>(
    alloc: Global,
    names: &Names,
    fuel: u16,
    tokens: &'a [Token],
) -> Result<(Value, &'a [Token]), ReadError>
    ensures { Gives (λ x. (value_tree_of x.0, x.1.now)) result
        (value_at fuel (names_of names.now) Single tokens.entry.now) }
{
    if fuel == 0 {
        return Err(fault_at(tokens, Wrong::TooLong));
    }
    let Some((first, rest)) = tokens.split_first() else {
        return Err(fault_at(tokens, Wrong::Unexpected));
    };
    if let Some((number, behind)) = asked_in(tokens.len(), names) {
        let asked = Value::Number(Expr::Variable(number));
        return Ok((asked, left_behind(tokens, behind)));
    }
    match first.kind {
        Kind::Number(n) => Ok((Value::Number(Expr::Number(n)), rest)),
        Kind::Name(name) => match inline_of(name, names) {
            Some(inline) => applied_at(alloc, names, fuel - 1, inline, tokens, rest),
            None => named(name, names, tokens, rest),
        },
        Kind::BuiltIn(function, _) => {
            operands_of(alloc, names, fuel - 1, function, tokens, rest)
        }
        Kind::Slot => without_arguments(Expr::Slot, rest),
        Kind::Width => without_arguments(Expr::Width, rest),
        Kind::Wait => awaited_value(names, rest),
        Kind::Sign(Sign::Minus) => {
            if !has_opposite(rest) {
                return Err(fault_at(rest, Wrong::Unexpected));
            }
            let (value, after) = single_at(alloc, names, fuel - 1, rest)?;
            Ok((minus(alloc, value, tokens)?, after))
        }
        Kind::Complement => {
            let (value, after) = single_at(alloc, names, fuel - 1, rest)?;
            Ok((complement(alloc, value, tokens)?, after))
        }
        Kind::Not => {
            let (value, after) = single_at(alloc, names, fuel - 1, rest)?;
            Ok((opposite(alloc, value)?, after))
        }
        Kind::Open => {
            let (value, inside) = value_at(alloc, names, fuel - 1, 0, rest)?;
            Ok((value, after_close(inside)?))
        }
        _ => Err(fault_at(tokens, Wrong::Unexpected)),
    }
}

/// What is inserted for an inline function, behind its name, which is the first of the tokens `called`.
#[cycle(values)]
fn applied_at<'a>(
    alloc: Global,
    names: &Names,
    fuel: u16,
    inline: &Inline,
    called: &[Token],
    tokens: &'a [Token],
) -> Result<(Value, &'a [Token]), ReadError>
    ensures { Gives (λ x. (value_tree_of x.0, x.1.now)) result
        (applied (value_at fuel (names_of names.now)) (inline_tree_of inline.now) called.now tokens.entry.now) }
{
    let inside = after_open(tokens)?;
    if inline.parameters == 0 {
        no_argument(alloc, inline, called, inside)
    } else if is_close(inside) {
        Err(fault_at(called, Wrong::ArgumentCount))
    } else {
        argument_at(alloc, names, fuel, inline, Vec::new(alloc), called, inside)
    }
}

/// One more argument of an inline function, behind those before, and what is inserted for the function.
#[tactic(auto, using(crate::proofs::ValueSteps::value_steps))]
#[cycle(values)]
fn argument_at<'a>(
    alloc: Global,
    names: &Names,
    fuel: u16,
    inline: &Inline,
    before: Vec<Expr>,
    called: &[Token],
    tokens: &'a [Token],
) -> Result<(Value, &'a [Token]), ReadError>
    ensures { Gives (λ x. (value_tree_of x.0, x.1.now)) result
        (value_at fuel (names_of names.now)
        (Argument (inline_tree_of inline.now) (map tree_of before.items) called.now) tokens.entry.now) }
{
    if fuel == 0 {
        return Err(fault_at(tokens, Wrong::TooLong));
    }
    let (value, rest) = value_at(alloc, names, fuel - 1, 0, tokens)?;
    let argument = given_in(alloc, value, tokens)?;
    let mut arguments = before;
    arguments.push(argument)?;
    behind_argument(alloc, names, fuel - 1, inline, arguments, called, rest)
}

/// What is inserted for an inline function, behind an argument, which is the last one of these.
#[cycle(values)]
fn behind_argument<'a>(
    alloc: Global,
    names: &Names,
    fuel: u16,
    inline: &Inline,
    arguments: Vec<Expr>,
    called: &[Token],
    tokens: &'a [Token],
) -> Result<(Value, &'a [Token]), ReadError>
    ensures { Gives (λ x. (value_tree_of x.0, x.1.now)) result
        (behind_argument (value_at fuel (names_of names.now))
        (inline_tree_of inline.now) (map tree_of arguments.items) called.now tokens.entry.now) }
{
    if arguments.len() == usize::from(inline.parameters) {
        let after = after_last(called, tokens)?;
        let value = inserted(alloc, inline, arguments.as_slice(), called)?;
        Ok((value, after))
    } else {
        let rest = before_next(called, tokens)?;
        argument_at(alloc, names, fuel, inline, arguments, called, rest)
    }
}

/// What is inserted for a function of the language, behind its name, which is the first of the tokens `called`.
#[cycle(values)]
fn operands_of<'a>(
    alloc: Global,
    names: &Names,
    fuel: u16,
    function: BuiltIn,
    called: &[Token],
    tokens: &'a [Token],
) -> Result<(Value, &'a [Token]), ReadError>
    ensures { Gives (λ x. (value_tree_of x.0, x.1.now)) result
        (operands_of (value_at fuel (names_of names.now)) function called.now tokens.entry.now) }
{
    let inside = after_open(tokens)?;
    if is_close(inside) {
        Err(fault_at(called, Wrong::ArgumentCount))
    } else {
        operand_at(
            alloc,
            names,
            fuel,
            function,
            Vec::new(alloc),
            called,
            inside,
        )
    }
}

/// One more argument of a function of the language, behind those before, and what is inserted for the function.
#[tactic(auto, using(crate::proofs::ValueSteps::value_steps))]
#[cycle(values)]
fn operand_at<'a>(
    alloc: Global,
    names: &Names,
    fuel: u16,
    function: BuiltIn,
    before: Vec<Expr>,
    called: &[Token],
    tokens: &'a [Token],
) -> Result<(Value, &'a [Token]), ReadError>
    ensures { Gives (λ x. (value_tree_of x.0, x.1.now)) result
        (value_at fuel (names_of names.now)
        (Operand function (map tree_of before.items) called.now) tokens.entry.now) }
{
    if fuel == 0 {
        return Err(fault_at(tokens, Wrong::TooLong));
    }
    let (value, rest) = value_at(alloc, names, fuel - 1, 0, tokens)?;
    let argument = given_in(alloc, value, tokens)?;
    let mut arguments = before;
    arguments.push(argument)?;
    behind_operand(alloc, names, fuel - 1, function, arguments, called, rest)
}

/// What is inserted for a function of the language, behind an argument, which is the last one of these.
#[cycle(values)]
fn behind_operand<'a>(
    alloc: Global,
    names: &Names,
    fuel: u16,
    function: BuiltIn,
    arguments: Vec<Expr>,
    called: &[Token],
    tokens: &'a [Token],
) -> Result<(Value, &'a [Token]), ReadError>
    ensures { Gives (λ x. (value_tree_of x.0, x.1.now)) result
        (behind_operand (value_at fuel (names_of names.now))
        function (map tree_of arguments.items) called.now tokens.entry.now) }
{
    if is_close(tokens) {
        let e = built_in(alloc, function, arguments.as_slice(), called)?;
        Ok((Value::Number(e), after_first(tokens)))
    } else {
        let rest = after_comma(tokens)?;
        operand_at(alloc, names, fuel, function, arguments, called, rest)
    }
}

/// A value, and the tokens after it.
#[tactic(auto, unfolding(crate::specs::Values::whole_value))]
pub(crate) fn whole_value<'a>(
    alloc: Global,
    names: &Names,
    tokens: &'a [Token],
) -> Result<(Value, &'a [Token]), ReadError>
    ensures { Gives (λ x. (value_tree_of x.0, x.1.now)) result
        (whole_value (names_of names.now) tokens.entry.now) }
{
    value_at(alloc, names, VALUE_FUEL, 0, tokens)
}
