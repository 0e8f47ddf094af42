// Tokens of a text.
ghost use Rattle.std.specs.Prelude.{◌≡◌, ◌++◌, ◌+◌, ◌<◌, ◌^◌, length, map, IfOk, OnOk};
ghost use Rattle.source_tokens.specs.Lexemes.{view_lexeme};
ghost use Rattle.source_tokens.specs.Tokens.{is_blank, first_with, number_kind, name_kind, other_kind, kind_of, token_of, each_token, tokens_of};

use crate::breaks::unbroken;
use crate::built_ins::{name_kind as name_kind_of, settled};
use crate::bytes::{is_digit, is_letter, is_space};
use crate::lexemes::{Lexeme, lexemes_of};
use crate::numbers::{number_of, width_of};
use crate::tokens::{Kind, Token};
use crate::words::kind_named;
use std::alloc::{AllocError, Global};

/// Whether a lexeme is a space or a comment.
fn is_blank(text: &[u8]) -> bool
    ensures { result ≡ is_blank text.now }
{
    match text.split_first() {
        Some((first, rest)) => match rest.split_first() {
            Some((second, _)) => *first == b'#' || *first == b'/' && *second == b'/',
            None => is_space(*first) || *first == b'#',
        },
        None => true,
    }
}

/// The place of the first lexeme with that text, if the first of all is at `place`.
fn first_with(text: &[u8], all: &[Lexeme], place: usize) -> Option<usize>
    requires { place + length all.now < 2 ^ 64 }
    ensures { result ≡ first_with text.now place (map view_lexeme all.now) }
{
    let mut place = place;
    for lexeme in all {
        if lexeme.text == text {
            return Some(place);
        }
        place += 1;
    }
    None
}

fn number_kind(text: &[u8]) -> Kind
    ensures { result ≡ number_kind text.now }
{
    match number_of(text) {
        Some(number) => Kind::Number(number),
        None => Kind::Other,
    }
}

fn name_kind(text: &[u8], all: &[Lexeme]) -> Kind
    ensures { result ≡ name_kind text.now (map view_lexeme all.now) }
{
    match first_with(text, all, 0) {
        Some(place) => name_kind_of(text, place),
        None => Kind::Other,
    }
}

/// The kind of a lexeme that is no word or sign of the language.
fn other_kind(text: &[u8], all: &[Lexeme]) -> Kind
    ensures { result ≡ other_kind text.now (map view_lexeme all.now) }
{
    match text.split_first() {
        Some((first, _)) => {
            if is_digit(*first) {
                number_kind(text)
            } else if is_letter(*first) {
                name_kind(text, all)
            } else {
                Kind::Other
            }
        }
        None => Kind::Other,
    }
}

fn kind_of(text: &[u8], all: &[Lexeme]) -> Kind
    ensures { result ≡ kind_of text.now (map view_lexeme all.now) }
{
    match kind_named(text) {
        Some(kind) => kind,
        None => other_kind(text, all),
    }
}

/// Adds the token of a lexeme, if it has one.
fn add_token(out: &mut Vec<Token>, lexeme: &Lexeme, all: &[Lexeme]) -> Result<(), AllocError>
    ensures { OnOk result (out.new.items
        ≡ out.old.items ++ token_of (map view_lexeme all.now) (view_lexeme lexeme.now)) }
{
    if !is_blank(lexeme.text) {
        out.push(Token {
            kind: kind_of(lexeme.text, all),
            at: lexeme.at,
            bits: width_of(lexeme.text),
        })?;
    }
    Ok(())
}

/// The token of each lexeme of a text.
fn each_token(alloc: Global, text: &[u8]) -> Result<Vec<Token>, AllocError>
    ensures { IfOk result (λ ts. ts.items ≡ each_token text.now) }
{
    let lexemes = lexemes_of(alloc, text)?;
    let mut out = Vec::new(alloc);
    for lexeme in &lexemes {
        add_token(&mut out, lexeme, lexemes.as_slice())?;
    }
    Ok(out)
}

/// The tokens of a text.
pub fn tokens_in(alloc: Global, text: &[u8]) -> Result<Vec<Token>, AllocError>
    ensures { IfOk result (λ ts. ts.items ≡ tokens_of text.now) }
{
    let each = each_token(alloc, text)?;
    let joined = unbroken(alloc, each.as_slice())?;
    settled(alloc, joined.as_slice())
}
