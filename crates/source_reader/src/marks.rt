// Parentheses and commas around values.
ghost use Rattle.std.specs.Prelude.{◌≡◌, ◌-◌, drop, length};
ghost use Rattle.source_reader.specs.Faults.{Gives};
ghost use Rattle.source_reader.specs.Marks.{after_open, after_close, is_open, is_close, after_last, before_next};

use crate::faults::{ReadError, Wrong, fault_at};
use source_tokens::{Kind, Token};

/// What follows `(`.
pub(crate) fn after_open(tokens: &[Token]) -> Result<&[Token], ReadError>
    ensures { Gives (λ ts. ts.now) result (after_open tokens.now) }
{
    match tokens.split_first() {
        Some((first, rest)) => match first.kind {
            Kind::Open => Ok(rest),
            _ => Err(fault_at(tokens, Wrong::Unexpected)),
        },
        None => Err(fault_at(tokens, Wrong::Unexpected)),
    }
}

/// What follows `)`.
pub(crate) fn after_close(tokens: &[Token]) -> Result<&[Token], ReadError>
    ensures { Gives (λ ts. ts.now) result (after_close tokens.now) }
{
    match tokens.split_first() {
        Some((first, rest)) => match first.kind {
            Kind::Close => Ok(rest),
            _ => Err(fault_at(tokens, Wrong::Unexpected)),
        },
        None => Err(fault_at(tokens, Wrong::Unexpected)),
    }
}

/// The tokens behind the first one.
pub(crate) fn after_first(tokens: &[Token]) -> &[Token]
    ensures { result.now ≡ drop 1 tokens.now }
{
    match tokens.split_first() {
        Some((_, rest)) => rest,
        None => tokens,
    }
}

/// The tokens where so many are left.
pub(crate) fn left_behind(tokens: &[Token], left: usize) -> &[Token]
    ensures { result.now ≡ drop (length tokens.now - left) tokens.now }
{
    let gone = tokens.len().saturating_sub(left);
    tokens.split_at(gone).1
}

/// Whether there is a `(` at the front.
pub(crate) fn is_open(tokens: &[Token]) -> bool
    ensures { result ≡ is_open tokens.now }
{
    match tokens.split_first() {
        Some((first, _)) => match first.kind {
            Kind::Open => true,
            _ => false,
        },
        None => false,
    }
}

/// Whether there is a `)` at the front.
pub(crate) fn is_close(tokens: &[Token]) -> bool
    ensures { result ≡ is_close tokens.now }
{
    match tokens.split_first() {
        Some((first, _)) => match first.kind {
            Kind::Close => true,
            _ => false,
        },
        None => false,
    }
}

/// What follows the last argument and `)`.
pub(crate) fn after_last<'a>(
    called: &[Token],
    tokens: &'a [Token],
) -> Result<&'a [Token], ReadError>
    ensures { Gives (λ ts. ts.now) result (after_last called.now tokens.entry.now) }
{
    match tokens.split_first() {
        Some((first, rest)) => match first.kind {
            Kind::Close => Ok(rest),
            Kind::Comma => Err(fault_at(called, Wrong::ArgumentCount)),
            _ => Err(fault_at(tokens, Wrong::Unexpected)),
        },
        None => Err(fault_at(tokens, Wrong::Unexpected)),
    }
}

/// What follows an argument and `,`.
pub(crate) fn before_next<'a>(
    called: &[Token],
    tokens: &'a [Token],
) -> Result<&'a [Token], ReadError>
    ensures { Gives (λ ts. ts.now) result (before_next called.now tokens.entry.now) }
{
    match tokens.split_first() {
        Some((first, rest)) => match first.kind {
            Kind::Comma => Ok(rest),
            Kind::Close => Err(fault_at(called, Wrong::ArgumentCount)),
            _ => Err(fault_at(tokens, Wrong::Unexpected)),
        },
        None => Err(fault_at(tokens, Wrong::Unexpected)),
    }
}
