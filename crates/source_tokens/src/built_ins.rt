// Functions that the language has.
ghost use Rattle.std.specs.Prelude.{◌≡◌, IfOk};
ghost use Rattle.source_tokens.specs.BuiltIns.{built_in_word, name_kind, is_fn, is_open, has_name, is_own, settled_kind, settled_from, settled};

use crate::tokens::{BuiltIn, Kind, Token};
use crate::words::is;
use std::alloc::{AllocError, Global};

/// `min`, `max` or `abs`.
fn built_in_word(lexeme: &[u8]) -> Option<BuiltIn>
    ensures { result ≡ built_in_word lexeme.now }
{
    if is(lexeme, b"min") {
        Some(BuiltIn::Min)
    } else if is(lexeme, b"max") {
        Some(BuiltIn::Max)
    } else if is(lexeme, b"abs") {
        Some(BuiltIn::Abs)
    } else {
        None
    }
}

/// The kind of a name that is known by the first lexeme of that number. Where it is a function that the language has is
/// said later.
pub(crate) fn name_kind(lexeme: &[u8], number: usize) -> Kind
    ensures { result ≡ name_kind lexeme.now number }
{
    match built_in_word(lexeme) {
        Some(function) => Kind::BuiltIn(function, number),
        None => Kind::Name(number),
    }
}

fn is_fn(kind: Kind) -> bool
    ensures { result ≡ is_fn kind }
{
    match kind {
        Kind::Fn => true,
        _ => false,
    }
}

/// Whether there is a `(` at the front.
fn is_open(tokens: &[Token]) -> bool
    ensures { result ≡ is_open tokens.now }
{
    match tokens.split_first() {
        Some((first, _)) => match first.kind {
            Kind::Open => true,
            _ => false,
        },
        None => false,
    }
}

/// Whether that name is at the front.
fn has_name(name: usize, tokens: &[Token]) -> bool
    ensures { result ≡ has_name name tokens.now }
{
    match tokens.split_first() {
        Some((first, _)) => match first.kind {
            Kind::BuiltIn(_, other) => other == name,
            _ => false,
        },
        None => false,
    }
}

/// Whether a function of the source has that name.
fn is_own(name: usize, tokens: &[Token]) -> bool
    ensures { result ≡ is_own name tokens.now }
{
    for (place, token) in tokens.iter().enumerate() {
        if is_fn(token.kind) && has_name(name, tokens.split_at(place + 1).1) {
            return true;
        }
    }
    false
}

/// The kind of a token, behind which are the others. All tokens of the source are given, too.
fn settled_kind(all: &[Token], kind: Kind, rest: &[Token]) -> Kind
    ensures { result ≡ settled_kind all.now kind rest.now }
{
    match kind {
        Kind::BuiltIn(_, name) => {
            if is_open(rest) && !is_own(name, all) {
                kind
            } else {
                Kind::Name(name)
            }
        }
        _ => kind,
    }
}

/// The tokens of a source, where it is said which names are functions that the language has.
pub(crate) fn settled(alloc: Global, all: &[Token]) -> Result<Vec<Token>, AllocError>
    ensures { IfOk result (λ ts. ts.items ≡ settled all.now) }
{
    let mut out = Vec::new(alloc);
    let mut left = all;
    while let [first, rest @ ..] = left {
        let kind = settled_kind(all, first.kind, rest);
        out.push(Token { kind, ..*first })?;
        left = rest;
    }
    Ok(out)
}
