// Numbers that params are given from outside, in place of those in the text.
ghost use Rattle.std.specs.Prelude.{◌≡◌, map, drop, take, IfOk};
ghost use Rattle.source_tokens.specs.Givens.{view_given, word_at, first_word, given_to, given_kind, given_from, tokens_with, is_param, has_param, are_params};

use crate::bytes::word_len;
use crate::lexemes::front;
use crate::scanning::tokens_in;
use crate::tokens::{Kind, Token};
use crate::words::is;
use std::alloc::{AllocError, Global};

/// A name, and the number that its `param` is given.
#[derive(Clone, Copy, Debug)]
pub struct Given<'a> {
    pub name: &'a [u8],
    pub number: i64,
}

/// The bytes of a text from a place on.
fn behind(text: &[u8], at: usize) -> &[u8]
    ensures { result.now ≡ drop at text.now }
{
    if at < text.len() {
        text.split_at(at).1
    } else {
        text.split_at(text.len()).1
    }
}

/// The word that begins at a place of a text.
fn word_at(text: &[u8], at: usize) -> &[u8]
    ensures { result.now ≡ word_at at text.now }
{
    let rest = behind(text, at);
    front(rest, word_len(rest))
}

/// The word of the first token.
fn first_word<'a>(text: &'a [u8], tokens: &[Token]) -> &'a [u8]
    ensures { result.now ≡ first_word text.entry.now tokens.now }
{
    match tokens.split_first() {
        Some((first, _)) => word_at(text, first.at),
        None => front(text, 0),
    }
}

/// The number that a name is given: the last one, if there are several.
fn given_to(name: &[u8], givens: &[Given]) -> Option<i64>
    ensures { result ≡ given_to name.now (map view_given givens.now) }
{
    let mut number = None;
    let mut left = givens;
    while let [first, rest @ ..] = left {
        if is(first.name, name) {
            number = Some(first.number);
        }
        left = rest;
    }
    number
}

/// What a token is, behind which are the others, if params are given these numbers.
fn given_kind(text: &[u8], givens: &[Given], kind: Kind, rest: &[Token]) -> Kind
    ensures { result ≡ given_kind text.now (map view_given givens.now) kind rest.now }
{
    match kind {
        Kind::Param(_) => Kind::Param(given_to(first_word(text, rest), givens)),
        _ => kind,
    }
}

/// The tokens of a text whose params are given these numbers.
pub fn tokens_with(alloc: Global, givens: &[Given], text: &[u8]) -> Result<Vec<Token>, AllocError>
    ensures { IfOk result (λ ts. ts.items ≡ tokens_with (map view_given givens.now) text.now) }
{
    let tokens = tokens_in(alloc, text)?;
    let mut out = Vec::new(alloc);
    let mut left = tokens.as_slice();
    while let [first, rest @ ..] = left {
        let kind = given_kind(text, givens, first.kind, rest);
        out.push(Token { kind, ..*first })?;
        left = rest;
    }
    Ok(out)
}

fn is_param(kind: Kind) -> bool
    ensures { result ≡ is_param kind }
{
    match kind {
        Kind::Param(_) => true,
        _ => false,
    }
}

/// Whether there is a `param` of that name.
fn has_param(text: &[u8], name: &[u8], tokens: &[Token]) -> bool
    ensures { result ≡ has_param text.now name.now tokens.now }
{
    for (place, token) in tokens.iter().enumerate() {
        if is_param(token.kind) && is(first_word(text, tokens.split_at(place + 1).1), name) {
            return true;
        }
    }
    false
}

/// Whether each of these names is that of a `param`.
pub fn are_params(text: &[u8], givens: &[Given], tokens: &[Token]) -> bool
    ensures { result ≡ are_params text.now (map view_given givens.now) tokens.now }
{
    match givens.split_first() {
        Some((first, others)) => {
            has_param(text, first.name, tokens) && are_params(text, others, tokens)
        }
        None => true,
    }
}
