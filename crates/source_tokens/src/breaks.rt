// Broken lines.
ghost use Rattle.std.specs.Prelude.{◌≡◌, ◌++◌, ◌∷◌, List, IfOk, OnOk};
ghost use Rattle.source_tokens.specs.declared.tokens.Token.{Token};
ghost use Rattle.source_tokens.specs.Breaks.{behind_sign, behind, opened_behind, is_break, unbroken_from, unbroken};

use crate::tokens::{Kind, Sign, Token};
use std::alloc::{AllocError, Global};

/// What stands before a token.
#[derive(Clone, Copy)]
enum Before {
    /// What a value may end with.
    Value,
    /// What a line may be broken behind: an operator between two values, `=`, `+=` and the like, or `..`.
    Operator,
    Other,
}

/// A bracket that is open.
#[derive(Clone, Copy)]
enum Bracket {
    /// `(`
    Parenthesis,
    /// `{`
    Brace,
}

/// What a sign is for the token behind it. A minus sign that no value stands before belongs to what follows it.
fn behind_sign(before: Before, sign: Sign) -> Before
    ensures { result ≡ behind_sign before sign }
{
    match (before, sign) {
        (Before::Value, Sign::Minus) => Before::Operator,
        (_, Sign::Minus) => Before::Other,
        _ => Before::Operator,
    }
}

/// What a token of that kind is for the one behind it.
fn behind(before: Before, kind: Kind) -> Before
    ensures { result ≡ behind before kind }
{
    match kind {
        Kind::Sign(sign) => behind_sign(before, sign),
        Kind::Update(_) => Before::Operator,
        Kind::Set => Before::Operator,
        Kind::Range => Before::Operator,
        Kind::Number(_) => Before::Value,
        Kind::Name(_) => Before::Value,
        Kind::BuiltIn(_, _) => Before::Value,
        Kind::Part(_) => Before::Value,
        Kind::Close => Before::Value,
        Kind::End => Before::Value,
        _ => Before::Other,
    }
}

/// Opens a bracket, or closes the innermost one.
fn open_or_close(opened: &mut Vec<Bracket>, kind: Kind) -> Result<(), AllocError>
    ensures { OnOk result (opened.new.items ≡ opened_behind kind opened.old.items) }
{
    match kind {
        Kind::Open => opened.push(Bracket::Parenthesis)?,
        Kind::Begin => opened.push(Bracket::Brace)?,
        Kind::Close => {
            opened.pop();
        }
        Kind::End => {
            opened.pop();
        }
        _ => {}
    }
    Ok(())
}

/// Whether a line is broken at a token of that kind.
fn is_break(opened: &[Bracket], before: Before, kind: Kind) -> bool
    ensures { result ≡ is_break opened.now before kind }
{
    match (kind, before, opened.last()) {
        (Kind::LineEnd, Before::Operator, _) => true,
        (Kind::LineEnd, _, Some(Bracket::Parenthesis)) => true,
        _ => false,
    }
}

/// Adds a token, unless a line is broken there. Returns what stands before the next one.
fn add_unless_broken(
    out: &mut Vec<Token>,
    opened: &mut Vec<Bracket>,
    before: Before,
    token: Token,
) -> Result<Before, AllocError>
    ensures { IfOk result (λ b. (rest : List Token) → out.new.items
        ++ unbroken_from opened.new.items b rest
        ≡ out.old.items ++ unbroken_from opened.old.items before (token ∷ rest)) }
{
    if is_break(opened.as_slice(), before, token.kind) {
        return Ok(before);
    }
    out.push(token)?;
    open_or_close(opened, token.kind)?;
    Ok(behind(before, token.kind))
}

/// The tokens, but for the line ends at which a line is broken.
pub(crate) fn unbroken(alloc: Global, tokens: &[Token]) -> Result<Vec<Token>, AllocError>
    ensures { IfOk result (λ ts. ts.items ≡ unbroken tokens.now) }
{
    let mut out = Vec::new(alloc);
    let mut opened = Vec::new(alloc);
    let mut before = Before::Other;
    for token in tokens {
        before = add_unless_broken(&mut out, &mut opened, before, *token)?;
    }
    Ok(out)
}
