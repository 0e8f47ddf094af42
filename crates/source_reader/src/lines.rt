// The ends of statements and blocks, and signs inside statements.
ghost use Rattle.std.specs.Prelude.{◌≡◌, option_map};
ghost use Rattle.source_reader.specs.Faults.{Gives};
ghost use Rattle.source_reader.specs.Names.{names_of};
ghost use Rattle.source_reader.specs.Lines.{after_begin, after_set, after_in, after_range, after_comma, name_at, free_name, is_line_end, is_end, after_line_ends, ended, item_ended, after_end, is_else, after_else, name_in, let_name, if_in_loop, is_if};
ghost use Rattle.source_reader.specs.Marks.{is_close};
ghost use Rattle.source_reader.specs.Trees.{stmt_tree_of};

use crate::faults::{ReadError, Wrong, fault_at};
use crate::names::{Names, is_taken};
use source_language::Stmt;
use source_tokens::{Kind, Token};

/// What follows `{`.
pub(crate) fn after_begin(tokens: &[Token]) -> Result<&[Token], ReadError>
    ensures { Gives (λ ts. ts.now) result (after_begin tokens.now) }
{
    match tokens.split_first() {
        Some((first, rest)) => match first.kind {
            Kind::Begin => Ok(rest),
            _ => Err(fault_at(tokens, Wrong::Unexpected)),
        },
        None => Err(fault_at(tokens, Wrong::Unexpected)),
    }
}

/// What follows `=`.
pub(crate) fn after_set(tokens: &[Token]) -> Result<&[Token], ReadError>
    ensures { Gives (λ ts. ts.now) result (after_set tokens.now) }
{
    match tokens.split_first() {
        Some((first, rest)) => match first.kind {
            Kind::Set => Ok(rest),
            _ => Err(fault_at(tokens, Wrong::Unexpected)),
        },
        None => Err(fault_at(tokens, Wrong::Unexpected)),
    }
}

/// What follows `in`.
pub(crate) fn after_in(tokens: &[Token]) -> Result<&[Token], ReadError>
    ensures { Gives (λ ts. ts.now) result (after_in tokens.now) }
{
    match tokens.split_first() {
        Some((first, rest)) => match first.kind {
            Kind::In => Ok(rest),
            _ => Err(fault_at(tokens, Wrong::Unexpected)),
        },
        None => Err(fault_at(tokens, Wrong::Unexpected)),
    }
}

/// What follows `..`.
pub(crate) fn after_range(tokens: &[Token]) -> Result<&[Token], ReadError>
    ensures { Gives (λ ts. ts.now) result (after_range tokens.now) }
{
    match tokens.split_first() {
        Some((first, rest)) => match first.kind {
            Kind::Range => Ok(rest),
            _ => Err(fault_at(tokens, Wrong::Unexpected)),
        },
        None => Err(fault_at(tokens, Wrong::Unexpected)),
    }
}

/// What follows `,`.
pub(crate) fn after_comma(tokens: &[Token]) -> Result<&[Token], ReadError>
    ensures { Gives (λ ts. ts.now) result (after_comma tokens.now) }
{
    match tokens.split_first() {
        Some((first, rest)) => match first.kind {
            Kind::Comma => Ok(rest),
            _ => Err(fault_at(tokens, Wrong::Unexpected)),
        },
        None => Err(fault_at(tokens, Wrong::Unexpected)),
    }
}

/// A name at the front.
pub(crate) fn name_at(tokens: &[Token]) -> Result<usize, ReadError>
    ensures { Gives (λ n. n) result (name_at tokens.now) }
{
    match tokens.split_first() {
        Some((first, _)) => match first.kind {
            Kind::Name(name) => Ok(name),
            _ => Err(fault_at(tokens, Wrong::Unexpected)),
        },
        None => Err(fault_at(tokens, Wrong::Unexpected)),
    }
}

/// A name at the front that can be declared.
pub(crate) fn free_name(names: &Names, tokens: &[Token]) -> Result<usize, ReadError>
    ensures { Gives (λ n. n) result (free_name (names_of names.now) tokens.now) }
{
    let name = name_at(tokens)?;
    if is_taken(name, names) {
        Err(fault_at(tokens, Wrong::KnownName))
    } else {
        Ok(name)
    }
}

/// Whether it is the end of a line, or `;`.
pub(crate) fn is_line_end(kind: Kind) -> bool
    ensures { result ≡ is_line_end kind }
{
    match kind {
        Kind::LineEnd => true,
        Kind::Semicolon => true,
        _ => false,
    }
}

/// Whether it is the end of a block.
pub(crate) fn is_end(kind: Kind) -> bool
    ensures { result ≡ is_end kind }
{
    match kind {
        Kind::End => true,
        _ => false,
    }
}

/// The tokens behind ends of lines.
pub(crate) fn after_line_ends(tokens: &[Token]) -> &[Token]
    ensures { result.now ≡ after_line_ends tokens.now }
{
    for (place, token) in tokens.iter().enumerate() {
        if !is_line_end(token.kind) {
            return tokens.split_at(place).1;
        }
    }
    &[]
}

/// The same tokens, if a statement may end before them.
pub(crate) fn ended(tokens: &[Token]) -> Result<&[Token], ReadError>
    ensures { Gives (λ ts. ts.now) result (ended tokens.now) }
{
    match tokens.split_first() {
        Some((first, _)) => {
            if is_line_end(first.kind) || is_end(first.kind) {
                Ok(tokens)
            } else {
                Err(fault_at(tokens, Wrong::Unexpected))
            }
        }
        None => Err(fault_at(tokens, Wrong::Unexpected)),
    }
}

/// The same tokens, if a function or a constant may end before them.
pub(crate) fn item_ended(tokens: &[Token]) -> Result<&[Token], ReadError>
    ensures { Gives (λ ts. ts.now) result (item_ended tokens.now) }
{
    match tokens.split_first() {
        Some((first, _)) => {
            if is_line_end(first.kind) {
                Ok(tokens)
            } else {
                Err(fault_at(tokens, Wrong::Unexpected))
            }
        }
        None => Ok(tokens),
    }
}

/// What follows the end of a block, if it is here.
pub(crate) fn after_end(tokens: &[Token]) -> Option<&[Token]>
    ensures { option_map (λ ts. ts.now) result ≡ after_end tokens.now }
{
    match tokens.split_first() {
        Some((first, rest)) => { if is_end(first.kind) { Some(rest) } else { None } }
        None => None,
    }
}

fn is_else(kind: Kind) -> bool
    ensures { result ≡ is_else kind }
{
    match kind {
        Kind::Else => true,
        _ => false,
    }
}

/// What follows `else`, if it is here.
pub(crate) fn after_else(tokens: &[Token]) -> Option<&[Token]>
    ensures { option_map (λ ts. ts.now) result ≡ after_else tokens.now }
{
    match tokens.split_first() {
        Some((first, rest)) => {
            if is_else(first.kind) {
                Some(rest)
            } else {
                None
            }
        }
        None => None,
    }
}

pub(crate) fn name_in(kind: Kind) -> Option<usize>
    ensures { result ≡ name_in kind }
{
    match kind {
        Kind::Name(name) => Some(name),
        _ => None,
    }
}

/// The name that the statement at the front declares.
pub(crate) fn let_name(tokens: &[Token]) -> Option<usize>
    ensures { result ≡ let_name tokens.now }
{
    let (first, rest) = tokens.split_first()?;
    match first.kind {
        Kind::Let => {
            let (second, _) = rest.split_first()?;
            name_in(second.kind)
        }
        Kind::Group => {
            let (second, _) = rest.split_first()?;
            name_in(second.kind)
        }
        _ => None,
    }
}

/// Whether there is an `if` at the front.
pub(crate) fn is_if(tokens: &[Token]) -> bool
    ensures { result ≡ is_if tokens.now }
{
    match tokens.split_first() {
        Some((first, _)) => match first.kind {
            Kind::If => true,
            _ => false,
        },
        None => false,
    }
}

/// A statement that is only in loops.
pub(crate) fn if_in_loop<'a>(
    in_loop: bool,
    s: Stmt,
    rest: &'a [Token],
    tokens: &[Token],
) -> Result<(Stmt, &'a [Token]), ReadError>
    ensures { Gives (λ x. (stmt_tree_of x.0, x.1.now)) result
        (if_in_loop in_loop (stmt_tree_of s) rest.entry.now tokens.now) }
{
    if in_loop {
        Ok((s, rest))
    } else {
        Err(fault_at(tokens, Wrong::NoLoop))
    }
}
