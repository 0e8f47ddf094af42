// The functions of parallel loops, behind those of the source, in the order of their words.
ghost use Rattle.std.specs.Prelude.{◌≡◌, ◌++◌, ◌∷◌, [], map};
ghost use Rattle.source_reader.specs.Faults.{Gives};
ghost use Rattle.source_reader.specs.Gathering.{head_end, gathering_at, one_gathering, gatherings_from};
ghost use Rattle.source_reader.specs.Names.{names_of};
ghost use Rattle.source_reader.specs.Trees.{function_tree_of};

use crate::bodies::body_at;
use crate::constants::is_step_of;
use crate::faults::{ReadError, Wrong, fault_at};
use crate::functions::{FUNCTIONS, larger, variables_of, with_function};
use crate::halving::{LOW, VARIABLES, gathered};
use crate::headers::gathers_of;
use crate::lines::free_name;
use crate::names::{Meaning, Names};
use crate::ranges::{distance_at, grain_at, is_begin, is_grain_of};
use crate::variables::Declared;
use source_language::Function;
use source_tokens::{Gathers, Token};
use std::alloc::Global;

/// What follows the range of a parallel loop: `step`, `grain`, or the block.
fn head_end(tokens: &[Token]) -> &[Token]
    ensures { result.now ≡ head_end tokens.now }
{
    let mut left = tokens;
    while let [first, rest @ ..] = left {
        if is_step_of(first.kind) || is_grain_of(first.kind) || is_begin(first.kind) {
            return left;
        }
        left = rest;
    }
    left
}

/// The function of that number, behind the word of its parallel loop. Its body sees the index, and what stands above all
/// functions.
fn gathering_at(
    alloc: Global,
    gathers: Gathers,
    names: &Names,
    seen: &mut Declared,
    number: u8,
    tokens: &[Token],
) -> Result<Function, ReadError>
    ensures { Gives function_tree_of result (gathering_at gathers (names_of names.now) number tokens.now) }
{
    let index = free_name(names, tokens)?;
    let (by, rest) = distance_at(alloc, names, head_end(tokens))?;
    let (most, block) = grain_at(alloc, names, rest)?;
    let named = Names::Name(index, Meaning::Counter(LOW), names);
    let inner = Names::Gathering(gathers, &named);
    seen.begin(number);
    seen.add(Meaning::Counter(LOW), tokens)?;
    let (body, _) = body_at(alloc, &inner, seen, block)?;
    let variables = larger(VARIABLES, variables_of(&body));
    let body = gathered(alloc, gathers, number, most, by, body)?;
    Ok(Function { variables, body })
}

/// The functions before, and that of the parallel loop whose word is the first of the tokens, if it is one.
fn one_gathering(
    alloc: Global,
    names: &Names,
    seen: &mut Declared,
    gathers: Option<Gathers>,
    before: Vec<Function>,
    tokens: &[Token],
    rest: &[Token],
) -> Result<Vec<Function>, ReadError>
    ensures { Gives (λ v. map function_tree_of v.items) result
        (one_gathering (names_of names.now) gathers (map function_tree_of before.items) tokens.now rest.now) }
{
    let Some(gathers) = gathers else {
        return Ok(before);
    };
    let number = before.len();
    if number < usize::from(FUNCTIONS) {
        let function = gathering_at(alloc, gathers, names, seen, number as u8, rest)?;
        with_function(before, function)
    } else {
        Err(fault_at(tokens, Wrong::TooManyFunctions))
    }
}

/// The functions before, and those of all parallel loops in the tokens.
pub(crate) fn gatherings_from(
    alloc: Global,
    names: &Names,
    seen: &mut Declared,
    before: Vec<Function>,
    tokens: &[Token],
) -> Result<Vec<Function>, ReadError>
    ensures { Gives (λ v. map function_tree_of v.items) result
        (gatherings_from (names_of names.now) (map function_tree_of before.items) tokens.now) }
{
    let mut functions = before;
    let mut left = tokens;
    while let [first, rest @ ..] = left {
        functions = one_gathering(
            alloc,
            names,
            seen,
            gathers_of(first.kind),
            functions,
            left,
            rest,
        )?;
        left = rest;
    }
    Ok(functions)
}
