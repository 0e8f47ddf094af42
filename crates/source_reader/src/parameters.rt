// Inline functions that are declared.
ghost use Rattle.std.specs.Prelude.{◌≡◌};
ghost use Rattle.source_reader.specs.Faults.{Gives};
ghost use Rattle.source_reader.specs.Trees.{inline_tree_of};
ghost use Rattle.source_reader.specs.Names.{names_of};
ghost use Rattle.source_reader.specs.Parameters.{after_word, value_with, parameters_from, inside_of, inline_at};

use crate::faults::{ReadError, Wrong, fault_at};
use crate::inlines::{Inline, if_short};
use crate::lines::{after_comma, after_set, free_name};
use crate::marks::{after_first, after_open, is_close};
use crate::names::{Meaning, Names, number_after};
use crate::values::whole_value;
use source_tokens::{Kind, Token};
use std::alloc::Global;

/// How many parameters an inline function may have.
pub const PARAMETERS: u8 = 100;

/// What follows `fn`.
fn after_word(tokens: &[Token]) -> Result<&[Token], ReadError>
    ensures { Gives (λ ts. ts.now) result (after_word tokens.now) }
{
    match tokens.split_first() {
        Some((first, rest)) => match first.kind {
            Kind::Fn => Ok(rest),
            _ => Err(fault_at(tokens, Wrong::Unexpected)),
        },
        None => Err(fault_at(tokens, Wrong::Unexpected)),
    }
}

/// `= v`, where v sees so many parameters.
fn value_with<'a>(
    alloc: Global,
    names: &Names,
    count: u8,
    tokens: &'a [Token],
) -> Result<(Inline, &'a [Token]), ReadError>
    ensures { Gives (λ x. (inline_tree_of x.0, x.1.now)) result
        (value_with (names_of names.now) count tokens.entry.now) }
{
    let from = after_set(tokens)?;
    let (value, rest) = whole_value(alloc, names, from)?;
    let value = if_short(value, from)?;
    let parameters = count;
    Ok((Inline { parameters, value }, rest))
}

/// So many parameters more at most, behind so many, and the value.
#[tactic(auto, using(crate::proofs::ParameterSteps::parameter_steps))]
fn parameters_from<'a>(
    alloc: Global,
    left: u8,
    names: &Names,
    count: u8,
    tokens: &'a [Token],
) -> Result<(Inline, &'a [Token]), ReadError>
    ensures { Gives (λ x. (inline_tree_of x.0, x.1.now)) result
        (parameters_from left (names_of names.now) count tokens.entry.now) }
{
    if left == 0 {
        return Err(fault_at(tokens, Wrong::TooLong));
    }
    let name = free_name(names, tokens)?;
    let inner = Names::Name(name, Meaning::Variable(count), &*names);
    let after = after_first(tokens);
    if is_close(after) {
        value_with(alloc, &inner, number_after(count), after_first(after))
    } else {
        let rest = after_comma(after)?;
        parameters_from(alloc, left - 1, &inner, number_after(count), rest)
    }
}

/// `a, b) = v`, behind `(`.
fn inside_of<'a>(
    alloc: Global,
    names: &Names,
    tokens: &'a [Token],
) -> Result<(Inline, &'a [Token]), ReadError>
    ensures { Gives (λ x. (inline_tree_of x.0, x.1.now)) result
        (inside_of (names_of names.now) tokens.entry.now) }
{
    if is_close(tokens) {
        value_with(alloc, names, 0, after_first(tokens))
    } else {
        parameters_from(alloc, PARAMETERS, names, 0, tokens)
    }
}

/// `fn f(a, b) = v`, behind `inline`.
pub(crate) fn inline_at<'a>(
    alloc: Global,
    names: &Names,
    tokens: &'a [Token],
) -> Result<(usize, (Inline, &'a [Token])), ReadError>
    ensures { Gives (λ d. (d.0, inline_tree_of d.1.0, d.1.1.now)) result
        (inline_at (names_of names.now) tokens.entry.now) }
{
    let named = after_word(tokens)?;
    let name = free_name(names, named)?;
    let inside = after_open(after_first(named))?;
    let (inline, rest) = inside_of(alloc, names, inside)?;
    Ok((name, (inline, rest)))
}
