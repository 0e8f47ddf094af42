// Whole sources.
ghost use Rattle.std.specs.Prelude.{◌≡◌, IfOk, map, drop};
ghost use Rattle.source_tokens.specs.Givens.{view_given};
ghost use Rattle.source_reader.specs.Faults.{Gives};
ghost use Rattle.source_reader.specs.Trees.{function_tree_of, header_tree_of};
ghost use Rattle.source_reader.specs.Places.{beginning, place_left, place_of};
ghost use Rattle.source_reader.specs.Items.{items_from};
ghost use Rattle.source_reader.specs.Names.{Functions};
ghost use Rattle.source_reader.specs.declared.items.TheConstants.{ITEMS};
ghost use Rattle.source_reader.specs.Source.{read_tokens, read_params, some_functions, GivesSource, nth_gathering, nth_fn, function_place};

use crate::faults::{Fault, ReadError, Wrong, fault_at};
use crate::headers::{Header, begins, gathers_of, headers_in, is_inline};
use crate::inlines::Inline;
use crate::items::{ITEMS, items_from};
use crate::lines::after_line_ends;
use crate::names::Names;
use crate::places::{Place, place_of};
use crate::variables::{Declared, NamedVariable};
use source_language::Function;
use source_tokens::{Given, Kind, Token, are_params, tokens_in, tokens_with};
use std::alloc::{AllocError, Global};

/// The first fault of a source, and its place.
#[derive(Clone, Copy, Debug, PartialEq, Eq)]
pub struct SourceFault {
    pub place: Place,
    pub wrong: Wrong,
}

/// Why a source is not read.
#[derive(Clone, Copy, Debug, PartialEq, Eq)]
pub enum SourceError {
    /// An allocation failed.
    Memory,
    Fault(SourceFault),
}

/// Where the first token begins, or where the text ends.
fn beginning(tokens: &[Token], text: &[u8]) -> usize
    ensures { result ≡ beginning tokens.now text.now }
{
    match tokens.split_first() {
        Some((first, _)) => first.at,
        None => text.len(),
    }
}

/// The tokens behind so many.
fn behind(tokens: &[Token], count: usize) -> &[Token]
    ensures { result.now ≡ drop count tokens.now }
{
    if count < tokens.len() {
        tokens.split_at(count).1
    } else {
        tokens.split_at(tokens.len()).1
    }
}

/// The place where so many tokens are left.
fn place_left(tokens: &[Token], text: &[u8], left: usize) -> Place
    ensures { result ≡ place_left tokens.now text.now left }
{
    let gone = tokens.len().saturating_sub(left);
    place_of(text, beginning(behind(tokens, gone), text))
}

/// Where the parallel loop of that number begins, or else the end.
fn nth_gathering(tokens: &[Token], number: usize, end: usize) -> usize
    ensures { result ≡ nth_gathering tokens.now number end }
{
    let mut number = number;
    for token in tokens {
        if gathers_of(token.kind).is_some() {
            if number == 0 {
                return token.at;
            }
            number -= 1;
        }
    }
    end
}

/// Where the function of that number begins. Those of parallel loops come behind those of the source.
fn nth_fn(behind_inline: bool, tokens: &[Token], all: &[Token], number: usize, end: usize) -> usize
    ensures { result ≡ nth_fn behind_inline tokens.now all.now number end }
{
    let mut behind_inline = behind_inline;
    let mut number = number;
    for token in tokens {
        if begins(behind_inline, token.kind) {
            if number == 0 {
                return token.at;
            }
            number -= 1;
        }
        behind_inline = is_inline(token.kind);
    }
    nth_gathering(all, number, end)
}

/// The place where the function of that number begins, from 0.
pub fn function_place(alloc: Global, text: &[u8], number: usize) -> Result<Place, AllocError>
    ensures { IfOk result (λ place. place ≡ function_place text.now number) }
{
    let tokens = tokens_in(alloc, text)?;
    let all = tokens.as_slice();
    Ok(place_of(text, nth_fn(false, all, all, number, text.len())))
}

/// There has to be a function.
fn some_functions(functions: Vec<Function>) -> Result<Vec<Function>, ReadError>
    ensures { Gives (λ v. map function_tree_of v.items) result
        (some_functions (map function_tree_of functions.items)) }
{
    if functions.is_empty() {
        Err(fault_at(&[], Wrong::NoFunction))
    } else {
        Ok(functions)
    }
}

/// The functions of a source that declares those of these headers.
fn items_with(
    alloc: Global,
    headers: &[Header],
    seen: &mut Declared,
    _inlines: &Vec<Inline>,
    tokens: &[Token],
) -> Result<Vec<Function>, ReadError>
    ensures { Gives (λ v. map function_tree_of v.items) result
        (items_from ITEMS (Functions (map header_tree_of headers.now)) tokens.now) }
{
    let names = Names::Functions(headers);
    items_from(alloc, ITEMS, &names, seen, tokens)
}

fn read_tokens(
    alloc: Global,
    seen: &mut Declared,
    tokens: &[Token],
) -> Result<Vec<Function>, ReadError>
    ensures { Gives (λ v. map function_tree_of v.items) result (read_tokens tokens.now) }
{
    let headers = headers_in(alloc, tokens)?;
    let functions = items_with(alloc, headers.as_slice(), seen, &Vec::new(alloc), tokens)?;
    some_functions(functions)
}

/// Each name that is given a number has to be that of a `param`.
fn read_params(
    alloc: Global,
    seen: &mut Declared,
    givens: &[Given],
    text: &[u8],
    tokens: &[Token],
) -> Result<Vec<Function>, ReadError>
    ensures { Gives (λ v. map function_tree_of v.items) result
        (read_params (map view_given givens.now) text.now tokens.now) }
{
    if are_params(text, givens, tokens) {
        read_tokens(alloc, seen, tokens)
    } else {
        Err(fault_at(after_line_ends(tokens), Wrong::NoParam))
    }
}

/// The functions of a source whose params are given these numbers, in its order. The first fault has its place.
pub fn read_source(
    alloc: Global,
    givens: &[Given],
    text: &[u8],
) -> Result<Vec<Function>, SourceError>
    ensures { GivesSource (map view_given givens.now) text.now result }
{
    let Ok(tokens) = tokens_with(alloc, givens, text) else {
        return Err(SourceError::Memory);
    };
    let mut seen = Declared::new(alloc);
    match read_params(alloc, &mut seen, givens, text, tokens.as_slice()) {
        Ok(functions) => Ok(functions),
        Err(ReadError::Memory) => Err(SourceError::Memory),
        Err(ReadError::Fault(fault)) => Err(SourceError::Fault(SourceFault {
            place: place_left(tokens.as_slice(), text, fault.left),
            wrong: fault.wrong,
        })),
    }
}

/// The variables that have names, as far as the source has no fault. Its params are given these numbers.
pub fn named_variables(
    alloc: Global,
    givens: &[Given],
    text: &[u8],
) -> Result<Vec<NamedVariable>, AllocError> {
    let tokens = tokens_with(alloc, givens, text)?;
    let mut seen = Declared::new(alloc);
    match read_params(alloc, &mut seen, givens, text, tokens.as_slice()) {
        Ok(_) | Err(ReadError::Fault(_)) => Ok(seen.variables()),
        Err(ReadError::Memory) => Err(AllocError),
    }
}

/// Where the name of the function of that number stands, or else the word of its parallel loop.
pub fn function_title(alloc: Global, text: &[u8], number: usize) -> Result<usize, AllocError> {
    let tokens = tokens_in(alloc, text)?;
    let all = tokens.as_slice();
    let at = nth_fn(false, all, all, number, text.len());
    let mut title = at;
    for (word, next) in all.iter().zip(all.iter().skip(1)) {
        if word.at == at && matches!(word.kind, Kind::Fn) {
            title = next.at;
        }
    }
    Ok(title)
}
