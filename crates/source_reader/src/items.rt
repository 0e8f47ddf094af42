// Constants and cells, inline functions below them, and the functions below these.
ghost use Rattle.std.specs.Prelude.{◌≡◌, map};
ghost use Rattle.source_reader.specs.Faults.{Gives};
ghost use Rattle.source_reader.specs.Trees.{function_tree_of};
ghost use Rattle.source_reader.specs.Names.{names_of};
ghost use Rattle.source_reader.specs.Items.{constant_at, is_item, is_cell, is_inline, number_of, declared_at, inlines_from, items_from};

use crate::constants::constant_in;
use crate::faults::{ReadError, Wrong, fault_at};
use crate::functions::{FUNCTIONS, functions_from};
use crate::gathering::gatherings_from;
use crate::headers::is_inline as is_inline_of;
use crate::keys::cell_at;
use crate::lines::{after_line_ends, after_set, free_name, item_ended};
use crate::marks::after_first;
use crate::names::{Meaning, Names};
use crate::parameters::inline_at;
use crate::values::whole_value;
use crate::variables::Declared;
use source_language::Function;
use source_tokens::{Kind, Token};
use std::alloc::Global;

/// How many constants and cells a source may have.
pub const ITEMS: u8 = 100;

/// How many inline functions a source may have.
pub const INLINES: u8 = 100;

/// `N = v`, behind `const` or `param`.
pub(crate) fn constant_at<'a>(
    alloc: Global,
    names: &Names,
    tokens: &'a [Token],
) -> Result<(usize, (i64, &'a [Token])), ReadError>
    ensures { Gives (λ d. (d.0, d.1.0, d.1.1.now)) result
        (constant_at (names_of names.now) tokens.entry.now) }
{
    let name = free_name(names, tokens)?;
    let from = after_set(after_first(tokens))?;
    let (value, rest) = whole_value(alloc, names, from)?;
    let number = constant_in(alloc, value, from)?;
    Ok((name, (number, rest)))
}

/// Whether there is a constant or a cell at the front.
fn is_item(tokens: &[Token]) -> bool
    ensures { result ≡ is_item tokens.now }
{
    match tokens.split_first() {
        Some((first, _)) => match first.kind {
            Kind::Const => true,
            Kind::Param(_) => true,
            Kind::Cell => true,
            _ => false,
        },
        None => false,
    }
}

fn is_cell(tokens: &[Token]) -> bool
    ensures { result ≡ is_cell tokens.now }
{
    match tokens.split_first() {
        Some((first, _)) => match first.kind {
            Kind::Cell => true,
            _ => false,
        },
        None => false,
    }
}

fn is_inline(tokens: &[Token]) -> bool
    ensures { result ≡ is_inline tokens.now }
{
    match tokens.split_first() {
        Some((first, _)) => is_inline_of(first.kind),
        None => false,
    }
}

/// The number of a constant whose word is at the front, and which has its own number in the text. A `param` may be given
/// another one.
fn number_of(tokens: &[Token], own: i64) -> i64
    ensures { result ≡ number_of tokens.now own }
{
    match tokens.split_first() {
        Some((first, _)) => match first.kind {
            Kind::Param(Some(given)) => given,
            _ => own,
        },
        None => own,
    }
}

/// The name of a constant or a cell, whose word is at the front, what it stands for, and the tokens after it.
fn declared_at<'a>(
    alloc: Global,
    names: &Names,
    tokens: &'a [Token],
) -> Result<(usize, (Meaning, &'a [Token])), ReadError>
    ensures { Gives (λ d. (d.0, d.1.0, d.1.1.now)) result
        (declared_at (names_of names.now) tokens.entry.now) }
{
    if is_cell(tokens) {
        match cell_at(names, after_first(tokens)) {
            Ok((name, (key, rest))) => Ok((name, (Meaning::Cell(key), rest))),
            Err(error) => Err(error),
        }
    } else {
        let (name, (number, rest)) = constant_at(alloc, names, after_first(tokens))?;
        Ok((name, (Meaning::Constant(number_of(tokens, number)), rest)))
    }
}

/// So many inline functions at most, behind what has these names, and the functions below them.
#[tactic(auto, using(crate::proofs::ItemSteps::inline_steps))]
fn inlines_from(
    alloc: Global,
    left: u8,
    names: &Names,
    seen: &mut Declared,
    tokens: &[Token],
) -> Result<Vec<Function>, ReadError>
    ensures { Gives (λ v. map function_tree_of v.items) result
        (inlines_from left (names_of names.now) tokens.now) }
{
    let lines = after_line_ends(tokens);
    if !is_inline(lines) {
        let known = Vec::new(alloc);
        let functions = functions_from(
            alloc,
            FUNCTIONS,
            names,
            seen,
            known,
            Vec::new(alloc),
            lines,
        )?;
        return gatherings_from(alloc, names, seen, functions, lines);
    }
    if left == 0 {
        return Err(fault_at(lines, Wrong::TooManyItems));
    }
    match inline_at(alloc, names, after_first(lines)) {
        Ok((name, (inline, rest))) => {
            let rest = item_ended(rest)?;
            let inner = Names::Inline(name, &inline, &*names);
            inlines_from(alloc, left - 1, &inner, seen, rest)
        }
        Err(error) => Err(error),
    }
}

/// So many constants and cells at most, behind those of these names, and what stands below them.
#[tactic(auto, using(crate::proofs::ItemSteps::item_steps))]
pub(crate) fn items_from(
    alloc: Global,
    left: u8,
    names: &Names,
    seen: &mut Declared,
    tokens: &[Token],
) -> Result<Vec<Function>, ReadError>
    ensures { Gives (λ v. map function_tree_of v.items) result
        (items_from left (names_of names.now) tokens.now) }
{
    let lines = after_line_ends(tokens);
    if !is_item(lines) {
        return inlines_from(alloc, INLINES, names, seen, lines);
    }
    if left == 0 {
        return Err(fault_at(lines, Wrong::TooManyItems));
    }
    match declared_at(alloc, names, lines) {
        Ok((name, (meaning, rest))) => {
            let rest = item_ended(rest)?;
            let inner = Names::Name(name, meaning, &*names);
            items_from(alloc, left - 1, &inner, seen, rest)
        }
        Err(error) => Err(error),
    }
}
