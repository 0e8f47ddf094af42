// Parameters and bodies of functions.
ghost use Rattle.std.specs.Prelude.{◌≡◌};
ghost use Rattle.source_reader.specs.Faults.{Gives};
ghost use Rattle.source_reader.specs.Trees.{stmt_tree_of};
ghost use Rattle.source_reader.specs.Names.{names_of};
ghost use Rattle.source_reader.specs.Bodies.{width_at, with_parameter, body_at, parameters_from, inside_at};

use crate::faults::{ReadError, Wrong, fault_at};
use crate::functions::BODY_FUEL;
use crate::layouts::{Taken, have_room, nothing_taken, with_one};
use crate::lines::{after_comma, free_name};
use crate::marks::{after_first, is_close};
use crate::nameless::nameless_in;
use crate::names::{Meaning, NAMELESS, Names, number_after};
use crate::statements::block_at;
use crate::variables::Declared;
use crate::widths::{MOST_PARAMETERS, width_in};
use source_language::Stmt;
use source_tokens::Token;
use std::alloc::Global;

/// The width of a parameter, behind its name, and what follows it. The function that the root runs has none.
fn width_at(is_root: bool, tokens: &[Token]) -> Result<(u8, &[Token]), ReadError>
    ensures { Gives (λ x. (x.0, x.1.now)) result (width_at is_root tokens.now) }
{
    match width_in(tokens) {
        Some((bits, rest)) => {
            if is_root && 0 < bits {
                Err(fault_at(after_first(tokens), Wrong::RootWidth))
            } else {
                Ok((bits, rest))
            }
        }
        None => Err(fault_at(after_first(tokens), Wrong::NoWidth)),
    }
}

/// Behind a parameter of that width, whose name is the first of the tokens.
fn with_parameter(taken: Taken, bits: u8, tokens: &[Token]) -> Result<Taken, ReadError>
    ensures { Gives (λ t. t) result (with_parameter taken bits tokens.now) }
{
    if have_room(taken, bits) {
        Ok(with_one(taken, bits))
    } else {
        Err(fault_at(tokens, Wrong::NoRoom))
    }
}

/// The body of a function whose parameters are among these names, or that of a parallel loop.
pub(crate) fn body_at<'a>(
    alloc: Global,
    names: &Names,
    seen: &mut Declared,
    tokens: &'a [Token],
) -> Result<(Stmt, &'a [Token]), ReadError>
    ensures { Gives (λ x. (stmt_tree_of x.0, x.1.now)) result
        (body_at (names_of names.now) tokens.entry.now) }
{
    match nameless_in(names, tokens)? {
        Some(task) => {
            let inner = Names::Name(NAMELESS, Meaning::Task(task), &*names);
            block_at(alloc, &inner, seen, false, BODY_FUEL, tokens)
        }
        None => block_at(alloc, names, seen, false, BODY_FUEL, tokens),
    }
}

/// So many parameters more at most, from that variable on, and the body.
#[tactic(auto, using(crate::proofs::BodySteps::body_steps))]
fn parameters_from<'a>(
    alloc: Global,
    left: u8,
    is_root: bool,
    names: &Names,
    seen: &mut Declared,
    variable: u8,
    taken: Taken,
    tokens: &'a [Token],
) -> Result<(Stmt, &'a [Token]), ReadError>
    ensures { Gives (λ x. (stmt_tree_of x.0, x.1.now)) result
        (parameters_from left is_root (names_of names.now) variable taken tokens.entry.now) }
{
    if left == 0 {
        return Err(fault_at(tokens, Wrong::TooManyParameters));
    }
    let name = free_name(names, tokens)?;
    let (bits, after) = width_at(is_root, after_first(tokens))?;
    let taken = with_parameter(taken, bits, tokens)?;
    let inner = Names::Name(name, Meaning::Variable(variable), &*names);
    seen.add(Meaning::Variable(variable), tokens)?;
    if is_close(after) {
        body_at(alloc, &inner, seen, after_first(after))
    } else {
        let rest = after_comma(after)?;
        let next = number_after(variable);
        parameters_from(alloc, left - 1, is_root, &inner, seen, next, taken, rest)
    }
}

/// The parameters, behind `(`, from that variable on, and the body.
pub(crate) fn inside_at<'a>(
    alloc: Global,
    is_root: bool,
    names: &Names,
    seen: &mut Declared,
    variable: u8,
    tokens: &'a [Token],
) -> Result<(Stmt, &'a [Token]), ReadError>
    ensures { Gives (λ x. (stmt_tree_of x.0, x.1.now)) result
        (inside_at is_root (names_of names.now) variable tokens.entry.now) }
{
    if is_close(tokens) {
        body_at(alloc, names, seen, after_first(tokens))
    } else {
        let taken = nothing_taken();
        parameters_from(
            alloc,
            MOST_PARAMETERS,
            is_root,
            names,
            seen,
            variable,
            taken,
            tokens,
        )
    }
}
