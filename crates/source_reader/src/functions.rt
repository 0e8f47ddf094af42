// Functions.
ghost use Rattle.std.specs.Prelude.{◌≡◌, ◌++◌, ◌∷◌, [], Ok, IfOk, map};
ghost use Rattle.source_reader.specs.Faults.{Gives};
ghost use Rattle.source_reader.specs.Trees.{stmt_tree_of, function_tree_of};
ghost use Rattle.source_reader.specs.Names.{names_of};
ghost use Rattle.source_reader.specs.Functions.{larger, given, made_for, variables_of, after_fn, is_this, is_known, function_name, function_of, is_first, view_named, function_at, functions_from};

use crate::bodies::inside_at;
use crate::faults::{ReadError, Wrong, fault_at};
use crate::layouts::{first_variable, with_unpacking};
use crate::lines::{after_line_ends, free_name, item_ended};
use crate::marks::{after_first, after_open};
use crate::names::{Names, number_after};
use crate::variables::Declared;
use crate::widths::widths_in;
use source_language::{Function, Maker, Stmt};
use source_tokens::{Kind, Token};
use std::alloc::{AllocError, Global};

/// How long the body of a function may be.
pub const BODY_FUEL: u16 = 600;

/// How many functions a source may have.
pub const FUNCTIONS: u8 = 16;

/// How many variables a statement needs.
pub(crate) fn variables_of(s: &Stmt) -> u8
    ensures { result ≡ variables_of (stmt_tree_of s.now) }
{
    match s {
        Stmt::Then(a, b) => larger(variables_of(a), variables_of(b)),
        Stmt::If(_, a, b) => larger(variables_of(a), variables_of(b)),
        Stmt::Loop(_, a, b) => larger(variables_of(a), variables_of(b)),
        Stmt::Repeat(_, a, b) => larger(variables_of(a), variables_of(b)),
        Stmt::Assign(x, _) => number_after(*x),
        Stmt::Wait(x, y, _) => larger(given(*x), given(*y)),
        Stmt::Make(maker, _, _, _) => made_for(*maker),
        Stmt::Read(x, _) => number_after(*x),
        _ => 0,
    }
}

/// How many variables there are with that one, if there is one.
fn given(variable: Option<u8>) -> u8
    ensures { result ≡ given variable }
{
    match variable {
        Some(number) => number_after(number),
        None => 0,
    }
}

/// How many variables there are with the one that the value of a region goes to.
fn made_for(maker: Maker) -> u8
    ensures { result ≡ made_for maker }
{
    match maker {
        Maker::Isolate(number) => number_after(number),
        _ => 0,
    }
}

pub(crate) fn larger(a: u8, b: u8) -> u8
    ensures { result ≡ larger a b }
{
    if a < b { b } else { a }
}

/// What follows `fn`. No constant, no cell and no inline function stands below a function.
fn after_fn(tokens: &[Token]) -> Result<&[Token], ReadError>
    ensures { Gives (λ ts. ts.now) result (after_fn tokens.now) }
{
    match tokens.split_first() {
        Some((first, rest)) => match first.kind {
            Kind::Fn => Ok(rest),
            Kind::Const => Err(fault_at(tokens, Wrong::LateItem)),
            Kind::Param(_) => Err(fault_at(tokens, Wrong::LateItem)),
            Kind::Cell => Err(fault_at(tokens, Wrong::LateItem)),
            Kind::Inline => Err(fault_at(tokens, Wrong::LateItem)),
            _ => Err(fault_at(tokens, Wrong::Unexpected)),
        },
        None => Err(fault_at(tokens, Wrong::Unexpected)),
    }
}

/// The name of a function, at the front, which no other one has, and no constant or cell: none if it is
/// `main`.
fn function_name(
    names: &Names,
    known: &[Option<usize>],
    tokens: &[Token],
) -> Result<Option<usize>, ReadError>
    ensures { Gives (λ n. n) result (function_name (names_of names.now) known.now tokens.now) }
{
    match tokens.split_first() {
        Some((first, _)) => match first.kind {
            Kind::Main => {
                if known.is_empty() {
                    Ok(None)
                } else {
                    Err(fault_at(tokens, Wrong::KnownFunction))
                }
            }
            Kind::Name(name) => {
                if is_known(name, known) {
                    Err(fault_at(tokens, Wrong::KnownFunction))
                } else {
                    let free = free_name(names, tokens)?;
                    Ok(Some(free))
                }
            }
            _ => Err(fault_at(tokens, Wrong::Unexpected)),
        },
        None => Err(fault_at(tokens, Wrong::Unexpected)),
    }
}

fn is_known(name: usize, known: &[Option<usize>]) -> bool
    ensures { result ≡ is_known name known.now }
{
    match known.split_first() {
        Some((first, others)) => is_this(name, *first) || is_known(name, others),
        None => false,
    }
}

fn is_this(name: usize, known: Option<usize>) -> bool
    ensures { result ≡ is_this name known }
{
    match known {
        Some(other) => other == name,
        None => false,
    }
}

/// A function with parameters of these widths, and with that body.
fn function_of(alloc: Global, widths: &[u8], body: Stmt) -> Result<Function, AllocError>
    ensures { IfOk result (λ f. function_tree_of f ≡ function_of widths.now (stmt_tree_of body)) }
{
    let body = with_unpacking(alloc, widths, body)?;
    let variables = larger(2, variables_of(&body));
    Ok(Function { variables, body })
}

fn is_first(known: &[Option<usize>]) -> bool
    ensures { result ≡ is_first known.now }
{
    known.is_empty()
}

/// A function, its name, and what follows it.
#[derive(Drop)]
pub(crate) struct Named<'a> {
    pub(crate) name: Option<usize>,
    pub(crate) function: Function,
    pub(crate) rest: &'a [Token],
}

/// A function, of which the first token is `fn`.
fn function_at<'a>(
    alloc: Global,
    names: &Names,
    seen: &mut Declared,
    known: &[Option<usize>],
    tokens: &'a [Token],
) -> Result<Named<'a>, ReadError>
    ensures { Gives view_named result (function_at (names_of names.now) known.now tokens.entry.now) }
{
    let named = after_fn(tokens)?;
    let name = function_name(names, known, named)?;
    let inside = after_open(after_first(named))?;
    let widths = widths_in(alloc, inside)?;
    let variable = first_variable(widths.as_slice());
    let (body, rest) = inside_at(alloc, is_first(known), names, seen, variable, inside)?;
    let function = function_of(alloc, widths.as_slice(), body)?;
    Ok(Named {
        name,
        function,
        rest,
    })
}

/// The functions, so many more at most, behind those that were read before. They see these constants and
/// cells.
#[tactic(auto, using(crate::proofs::FunctionSteps::function_steps))]
pub(crate) fn functions_from(
    alloc: Global,
    left: u8,
    names: &Names,
    seen: &mut Declared,
    known: Vec<Option<usize>>,
    before: Vec<Function>,
    tokens: &[Token],
) -> Result<Vec<Function>, ReadError>
    ensures { Gives (λ v. map function_tree_of v.items) result
        (functions_from left (names_of names.now) known.items (map function_tree_of before.items) tokens.now) }
{
    let lines = after_line_ends(tokens);
    let Some(_) = lines.split_first() else {
        return Ok(before);
    };
    if left == 0 {
        return Err(fault_at(lines, Wrong::TooManyFunctions));
    }
    seen.begin(FUNCTIONS.saturating_sub(left));
    let named = function_at(alloc, names, seen, known.as_slice(), lines)?;
    let rest = item_ended(named.rest)?;
    let known = with_name(known, named.name)?;
    let before = with_function(before, named.function)?;
    functions_from(alloc, left - 1, names, seen, known, before, rest)
}

fn with_name(
    known: Vec<Option<usize>>,
    name: Option<usize>,
) -> Result<Vec<Option<usize>>, ReadError>
    ensures { Gives (λ v. v.items) result (Ok (known.items ++ name ∷ [])) }
{
    let mut known = known;
    known.push(name)?;
    Ok(known)
}

pub(crate) fn with_function(
    before: Vec<Function>,
    function: Function,
) -> Result<Vec<Function>, ReadError>
    ensures { Gives (λ v. map function_tree_of v.items) result
        (Ok (map function_tree_of before.items ++ function_tree_of function ∷ [])) }
{
    let mut before = before;
    before.push(function)?;
    Ok(before)
}
