// How far what gives a value reaches, and whether it stands alone.
ghost use Rattle.std.specs.Prelude.{◌≡◌};
ghost use Rattle.source_reader.specs.Extents.{is_open, after_parentheses, behind_begin, or_nothing, giver_end, is_ended, if_alone, is_set, behind_set, given_place, alone};
ghost use Rattle.source_reader.specs.Marks.{is_close_of};
ghost use Rattle.source_reader.specs.Names.{names_of};
ghost use Rattle.source_reader.specs.Ranges.{after_block};

use crate::givers::giver_at;
use crate::lines::{is_end, is_line_end};
use crate::marks::after_first;
use crate::names::Names;
use crate::ranges::{after_block, is_begin};
use source_tokens::{Kind, Token};

fn is_open(kind: Kind) -> bool
    ensures { result ≡ is_open kind }
{
    match kind {
        Kind::Open => true,
        _ => false,
    }
}

fn is_close_of(kind: Kind) -> bool
    ensures { result ≡ is_close_of kind }
{
    match kind {
        Kind::Close => true,
        _ => false,
    }
}

/// What follows the end of the parentheses in which these tokens are.
fn after_parentheses(tokens: &[Token]) -> &[Token]
    ensures { result.now ≡ after_parentheses 0 tokens.now }
{
    let mut left = tokens;
    let mut inner = 0usize;
    while let [first, rest @ ..] = left {
        left = rest;
        if is_open(first.kind) {
            inner += 1;
        } else if is_close_of(first.kind) {
            if inner == 0 {
                return rest;
            }
            inner -= 1;
        }
    }
    left
}

/// What follows the first `{`.
fn behind_begin(tokens: &[Token]) -> &[Token]
    ensures { result.now ≡ behind_begin tokens.now }
{
    let mut left = tokens;
    while let [first, rest @ ..] = left {
        left = rest;
        if is_begin(first.kind) {
            return rest;
        }
    }
    left
}

/// What follows the end of the block in which these tokens are, or nothing.
fn behind_block(tokens: &[Token]) -> &[Token]
    ensures { result.now ≡ or_nothing (after_block 0 tokens.now) }
{
    match after_block(tokens) {
        Some(rest) => rest,
        None => &[],
    }
}

/// What follows what gives a value. Its word is of that kind, and stands before the tokens.
fn giver_end(kind: Kind, tokens: &[Token]) -> &[Token]
    ensures { result.now ≡ giver_end kind tokens.now }
{
    match kind {
        Kind::Call => after_parentheses(after_first(after_first(tokens))),
        Kind::Isolate => after_parentheses(after_first(after_first(tokens))),
        Kind::Cancelled => after_parentheses(after_first(tokens)),
        Kind::Gathers(_) => behind_block(behind_begin(tokens)),
        _ => after_first(tokens),
    }
}

/// Whether a statement may end here.
fn is_ended(tokens: &[Token]) -> bool
    ensures { result ≡ is_ended tokens.now }
{
    match tokens.split_first() {
        Some((first, _)) => is_line_end(first.kind) || is_end(first.kind),
        None => false,
    }
}

/// How many tokens are left, if what gives a value is at the front and stands alone; else 0.
fn if_alone(names: &Names, tokens: &[Token]) -> usize
    ensures { result ≡ if_alone (names_of names.now) tokens.now }
{
    match tokens.split_first() {
        Some((first, rest)) => {
            if giver_at(names, tokens).is_some() && is_ended(giver_end(first.kind, rest)) {
                tokens.len()
            } else {
                0
            }
        }
        None => 0,
    }
}

pub(crate) fn is_set(kind: Kind) -> bool
    ensures { result ≡ is_set kind }
{
    match kind {
        Kind::Set => true,
        _ => false,
    }
}

/// What follows `=`, if it is at the front.
fn behind_set(tokens: &[Token]) -> &[Token]
    ensures { result.now ≡ behind_set tokens.now }
{
    match tokens.split_first() {
        Some((first, rest)) => { if is_set(first.kind) { rest } else { &[] } }
        None => &[],
    }
}

/// What a statement gives, behind its first token.
fn given_place(kind: Kind, tokens: &[Token]) -> &[Token]
    ensures { result.now ≡ given_place kind tokens.now }
{
    match kind {
        Kind::Let => behind_set(after_first(tokens)),
        Kind::Name(_) => behind_set(tokens),
        Kind::Return => tokens,
        Kind::Give => tokens,
        _ => &[],
    }
}

/// How many tokens are left where something gives all of the value that the statement at the front gives; else 0.
pub(crate) fn alone(names: &Names, tokens: &[Token]) -> usize
    ensures { result ≡ alone (names_of names.now) tokens.now }
{
    match tokens.split_first() {
        Some((first, rest)) => if_alone(names, given_place(first.kind, rest)),
        None => 0,
    }
}
