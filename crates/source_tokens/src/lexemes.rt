// Lexemes: the pieces of a source.
ghost use Rattle.std.specs.Prelude.{◌≡◌, ◌+◌, ◌++◌, map, drop, take, length, IfOk, ◌<◌};
ghost use Rattle.source_tokens.specs.Lexemes.{view_lexeme, is_pair, is_comment, is_triple, sign_len, is_part, mark_len, lexeme_len, lexemes_at, lexemes_of};

use crate::bytes::{is_letter, is_word, line_len, word_len};
use std::alloc::{AllocError, Global};

/// A piece of the text, and where it begins.
#[derive(Clone, Copy)]
pub(crate) struct Lexeme<'a> {
    pub(crate) at: usize,
    pub(crate) text: &'a [u8],
}

/// Whether two bytes are one sign.
fn is_pair(first: u8, second: u8) -> bool
    ensures { result ≡ is_pair first second }
{
    match first {
        b'=' => second == b'=',
        b'!' => second == b'=',
        b'<' => second == b'=' || second == b'<',
        b'>' => second == b'=' || second == b'>',
        b'&' => second == b'=' || second == b'&',
        b'|' => second == b'=' || second == b'|',
        b'+' => second == b'=',
        b'-' => second == b'=',
        b'*' => second == b'=' || second == b'*',
        b'/' => second == b'=',
        b'%' => second == b'=',
        b'^' => second == b'=',
        b'.' => second == b'.',
        _ => false,
    }
}

/// Whether a comment begins with this byte, before the others.
fn is_comment(first: u8, rest: &[u8]) -> bool
    ensures { result ≡ is_comment first rest.now }
{
    match rest.split_first() {
        Some((second, _)) => first == b'#' || first == b'/' && *second == b'/',
        None => first == b'#',
    }
}

/// Whether two bytes and those behind them begin with `<<=` or `>>=`.
fn is_triple(first: u8, second: u8, rest: &[u8]) -> bool
    ensures { result ≡ is_triple first second rest.now }
{
    match rest.split_first() {
        Some((third, _)) => {
            (first == b'<' && second == b'<' || first == b'>' && second == b'>') && *third == b'='
        }
        None => false,
    }
}

/// The length of a sign, or of a byte that is none.
fn sign_len(first: u8, rest: &[u8]) -> usize
    ensures { result ≡ sign_len first rest.now }
{
    match rest.split_first() {
        Some((second, others)) => {
            if is_triple(first, *second, others) {
                3
            } else if is_pair(first, *second) {
                2
            } else {
                1
            }
        }
        None => 1,
    }
}

/// Whether a part of a cell begins with this byte, before the others.
fn is_part(first: u8, rest: &[u8]) -> bool
    ensures { result ≡ is_part first rest.now }
{
    match rest.split_first() {
        Some((second, _)) => first == b'.' && is_letter(*second),
        None => false,
    }
}

/// The length of a part of a cell, of a sign, or of a byte that is none.
fn mark_len(first: u8, rest: &[u8]) -> usize
    ensures { result ≡ mark_len first rest.now }
{
    if is_part(first, rest) {
        1 + word_len(rest)
    } else {
        sign_len(first, rest)
    }
}

/// The length of the lexeme at the front.
fn lexeme_len(text: &[u8]) -> usize
    ensures { result ≡ lexeme_len text.now }
{
    match text.split_first() {
        Some((first, rest)) => {
            if is_word(*first) {
                word_len(text)
            } else if is_comment(*first, rest) {
                line_len(text)
            } else {
                mark_len(*first, rest)
            }
        }
        None => 1,
    }
}

/// The first bytes of a text, at most that many.
pub(crate) fn front(text: &[u8], len: usize) -> &[u8]
    ensures { result.now ≡ take len text.now }
{
    if len < text.len() {
        text.split_at(len).0
    } else {
        text
    }
}

/// Goes one byte on, behind which `skip` more are in the lexeme before. Adds the lexeme that begins there, and
/// returns how many bytes behind it are in it.
fn one_byte<'a>(
    out: &mut Vec<Lexeme<'a>>,
    skip: usize,
    at: usize,
    text: &'a [u8],
) -> Result<usize, AllocError>
    requires { at < length text.now }
    ensures { IfOk result (λ k. map view_lexeme out.new.items
        ++ lexemes_at k (at + 1) (drop (at + 1) text.entry.now)
        ≡ map view_lexeme out.old.items ++ lexemes_at skip at (drop at text.entry.now)) }
{
    if skip > 0 {
        return Ok(skip - 1);
    }
    let (_, rest) = text.split_at(at);
    let len = lexeme_len(rest);
    let lexeme = Lexeme {
        at,
        text: front(rest, len),
    };
    out.push(lexeme)?;
    Ok(len.saturating_sub(1))
}

/// The lexemes of a text.
pub(crate) fn lexemes_of(alloc: Global, text: &[u8]) -> Result<Vec<Lexeme<'_>>, AllocError>
    ensures { IfOk result (λ ls. map view_lexeme ls.items ≡ lexemes_of text.now) }
{
    let mut out = Vec::new(alloc);
    let mut skip = 0;
    for at in 0..text.len() {
        skip = one_byte(&mut out, skip, at, text)?;
    }
    Ok(out)
}
