// The widths of parameters.
ghost use Rattle.std.specs.Prelude.{◌≡◌, ◌++◌, ◌∷◌, [], IfOk, option_map};
ghost use Rattle.source_reader.specs.Widths.{is_colon, is_comma, width_behind, width_in, width_or_none, widths_from, widths_in};

use crate::marks::{after_first, is_close};
use source_tokens::{Kind, Token};
use std::alloc::{AllocError, Global};

/// How many parameters a function may have.
pub const MOST_PARAMETERS: u8 = 16;

fn is_colon(kind: Kind) -> bool
    ensures { result ≡ is_colon kind }
{
    match kind {
        Kind::Colon => true,
        _ => false,
    }
}

/// Whether there is a `,` at the front.
pub(crate) fn is_comma(tokens: &[Token]) -> bool
    ensures { result ≡ is_comma tokens.now }
{
    match tokens.split_first() {
        Some((first, _)) => match first.kind {
            Kind::Comma => true,
            _ => false,
        },
        None => false,
    }
}

/// The width behind `:`, if there is one, and what follows it.
fn width_behind(tokens: &[Token]) -> Option<(u8, &[Token])>
    ensures { option_map (λ x. (x.0, x.1.now)) result ≡ width_behind tokens.now }
{
    match tokens.split_first() {
        Some((first, rest)) => {
            if first.bits == 0 {
                None
            } else {
                Some((first.bits, rest))
            }
        }
        None => None,
    }
}

/// The width of a parameter, behind its name, and what follows it: 0 without one. There is none if what is behind `:` is
/// no width.
pub(crate) fn width_in(tokens: &[Token]) -> Option<(u8, &[Token])>
    ensures { option_map (λ x. (x.0, x.1.now)) result ≡ width_in tokens.now }
{
    match tokens.split_first() {
        Some((first, rest)) => {
            if is_colon(first.kind) {
                width_behind(rest)
            } else {
                Some((0, tokens))
            }
        }
        None => Some((0, tokens)),
    }
}

/// The same, where 0 stands for what is no width, too.
fn width_or_none(tokens: &[Token]) -> (u8, &[Token])
    ensures { (result.0, result.1.now) ≡ width_or_none tokens.now }
{
    match width_in(tokens) {
        Some(found) => found,
        None => (0, after_first(after_first(tokens))),
    }
}

fn with_width(before: Vec<u8>, bits: u8) -> Result<Vec<u8>, AllocError>
    ensures { IfOk result (λ v. v.items ≡ before.items ++ bits ∷ []) }
{
    let mut widths = before;
    widths.push(bits)?;
    Ok(widths)
}

/// The widths before, and those of so many parameters more at most, of which the first begins here.
#[tactic(auto, using(crate::proofs::WidthSteps::width_steps))]
fn widths_from(left: u8, before: Vec<u8>, tokens: &[Token]) -> Result<Vec<u8>, AllocError>
    ensures { IfOk result (λ v. v.items ≡ widths_from left before.items tokens.now) }
{
    if left == 0 {
        return Ok(before);
    }
    let (bits, rest) = width_or_none(after_first(tokens));
    let widths = with_width(before, bits)?;
    if is_comma(rest) {
        widths_from(left - 1, widths, after_first(rest))
    } else {
        Ok(widths)
    }
}

/// The widths of all parameters, behind `(`, up to what is no list of them; 0 for none.
pub(crate) fn widths_in(alloc: Global, tokens: &[Token]) -> Result<Vec<u8>, AllocError>
    ensures { IfOk result (λ v. v.items ≡ widths_in tokens.now) }
{
    if is_close(tokens) {
        Ok(Vec::new(alloc))
    } else {
        widths_from(MOST_PARAMETERS, Vec::new(alloc), tokens)
    }
}
