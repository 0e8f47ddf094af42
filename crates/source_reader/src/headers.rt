// The functions that a source declares: a body may call them before they are read.
ghost use Rattle.std.specs.Prelude.{◌≡◌, ◌++◌, IfOk, false, map, option_map};
ghost use Rattle.source_reader.specs.Headers.{is_fn, is_inline, begins, title_of, title_at, header_of, headers_behind, gathers_of, gathering_headers, headers_of, is_same, callee_in};
ghost use Rattle.source_reader.specs.Trees.{header_tree_of, callee_tree_of};

use crate::marks::after_first;
use crate::names::number_after;
use crate::widths::widths_in;
use source_tokens::{Gathers, Kind, Token};
use std::alloc::{AllocError, Global};

/// What a function is called.
#[derive(Clone, Copy)]
pub(crate) enum Title {
    Main,
    Name(usize),
    /// That of a parallel loop, by how many tokens are behind its word.
    Gathering(usize),
    /// There is no name.
    Missing,
}

/// What the others know of a function: its name, and the widths of its parameters, 0 for none.
#[derive(Drop)]
pub(crate) struct Header {
    pub(crate) title: Title,
    pub(crate) widths: Vec<u8>,
}

/// A function that is called: its number, and the widths of its parameters.
#[derive(Clone, Copy)]
pub(crate) struct Callee<'a> {
    pub(crate) number: u8,
    pub(crate) widths: &'a [u8],
}

fn is_fn(kind: Kind) -> bool
    ensures { result ≡ is_fn kind }
{
    match kind {
        Kind::Fn => true,
        _ => false,
    }
}

pub(crate) fn is_inline(kind: Kind) -> bool
    ensures { result ≡ is_inline kind }
{
    match kind {
        Kind::Inline => true,
        _ => false,
    }
}

/// Whether a function begins with this token, and not an inline one, for which there is `inline` before `fn`.
pub(crate) fn begins(behind_inline: bool, kind: Kind) -> bool
    ensures { result ≡ begins behind_inline kind }
{
    is_fn(kind) && !behind_inline
}

fn title_of(kind: Kind) -> Title
    ensures { result ≡ title_of kind }
{
    match kind {
        Kind::Main => Title::Main,
        Kind::Name(name) => Title::Name(name),
        _ => Title::Missing,
    }
}

/// The name of a function at the front.
pub(crate) fn title_at(tokens: &[Token]) -> Title
    ensures { result ≡ title_at tokens.now }
{
    match tokens.split_first() {
        Some((first, _)) => title_of(first.kind),
        None => Title::Missing,
    }
}

/// The function that is declared here, behind `fn`.
fn header_of(alloc: Global, tokens: &[Token]) -> Result<Header, AllocError>
    ensures { IfOk result (λ h. header_tree_of h ≡ header_of tokens.now) }
{
    let title = title_at(tokens);
    let widths = widths_in(alloc, after_first(after_first(tokens)))?;
    Ok(Header { title, widths })
}

/// What the word of a parallel loop says, if it is one.
pub(crate) fn gathers_of(kind: Kind) -> Option<Gathers>
    ensures { result ≡ gathers_of kind }
{
    match kind {
        Kind::Gathers(gathers) => Some(gathers),
        _ => None,
    }
}

/// These functions, and then those of parallel loops.
fn with_gatherings(
    alloc: Global,
    headers: Vec<Header>,
    tokens: &[Token],
) -> Result<Vec<Header>, AllocError>
    ensures { IfOk result (λ v. map header_tree_of v.items
        ≡ map header_tree_of headers.items ++ gathering_headers tokens.now) }
{
    let mut headers = headers;
    let mut left = tokens;
    while let [first, rest @ ..] = left {
        left = rest;
        if gathers_of(first.kind).is_some() {
            headers.push(Header {
                title: Title::Gathering(rest.len()),
                widths: Vec::new(alloc),
            })?;
        }
    }
    Ok(headers)
}

/// The functions that are declared, in order, and behind them those of parallel loops.
pub(crate) fn headers_in(alloc: Global, tokens: &[Token]) -> Result<Vec<Header>, AllocError>
    ensures { IfOk result (λ v. map header_tree_of v.items ≡ headers_of tokens.now) }
{
    with_gatherings(alloc, declared_in(alloc, tokens)?, tokens)
}

/// The functions that are declared, in order.
fn declared_in(alloc: Global, tokens: &[Token]) -> Result<Vec<Header>, AllocError>
    ensures { IfOk result (λ v. map header_tree_of v.items ≡ headers_behind false tokens.now) }
{
    let mut headers = Vec::new(alloc);
    let mut left = tokens;
    let mut behind_inline = false;
    while let [first, rest @ ..] = left {
        left = rest;
        if begins(behind_inline, first.kind) {
            headers.push(header_of(alloc, rest)?)?;
        }
        behind_inline = is_inline(first.kind);
    }
    Ok(headers)
}

fn is_same(a: Title, b: Title) -> bool
    ensures { result ≡ is_same a b }
{
    match (a, b) {
        (Title::Main, Title::Main) => true,
        (Title::Name(name), Title::Name(other)) => name == other,
        (Title::Gathering(left), Title::Gathering(other)) => left == other,
        _ => false,
    }
}

/// The first function of that name, if the first of all has that number.
pub(crate) fn callee_in<'a>(title: Title, headers: &'a [Header], number: u8) -> Option<Callee<'a>>
    ensures { option_map callee_tree_of result
        ≡ callee_in title (map header_tree_of headers.entry.now) number }
{
    match headers.split_first() {
        Some((first, others)) => {
            if is_same(title, first.title) {
                let widths = first.widths.as_slice();
                Some(Callee { number, widths })
            } else {
                callee_in(title, others, number_after(number))
            }
        }
        None => None,
    }
}
