// Signs of the language.
ghost use Rattle.std.specs.Prelude.{◌≡◌};
ghost use Rattle.source_tokens.specs.Words.{mark_named, sign_named, update_named, sign_kind};

use crate::tokens::{Kind, Sign};
use source_language::Operator;

/// The kind of an operator.
pub(crate) fn sign_kind(lexeme: &[u8]) -> Option<Kind>
    ensures { result ≡ sign_kind lexeme.now }
{
    match sign_named(lexeme) {
        Some(sign) => Some(Kind::Sign(sign)),
        None => match update_named(lexeme) {
            Some(op) => Some(Kind::Update(op)),
            None => None,
        },
    }
}

/// A sign that is no operator.
pub(crate) fn mark_named(lexeme: &[u8]) -> Option<Kind>
    ensures { result ≡ mark_named lexeme.now }
{
    match lexeme {
        b"\n" => Some(Kind::LineEnd),
        b";" => Some(Kind::Semicolon),
        b"(" => Some(Kind::Open),
        b")" => Some(Kind::Close),
        b"{" => Some(Kind::Begin),
        b"}" => Some(Kind::End),
        b"," => Some(Kind::Comma),
        b":" => Some(Kind::Colon),
        b".." => Some(Kind::Range),
        b"=" => Some(Kind::Set),
        b"!" => Some(Kind::Not),
        b"~" => Some(Kind::Complement),
        b"@" => Some(Kind::At),
        _ => None,
    }
}

/// An operator.
fn sign_named(lexeme: &[u8]) -> Option<Sign>
    ensures { result ≡ sign_named lexeme.now }
{
    match lexeme {
        b"||" => Some(Sign::Or),
        b"&&" => Some(Sign::And),
        b"==" => Some(Sign::Equal),
        b"!=" => Some(Sign::Unequal),
        b"<" => Some(Sign::Below),
        b"<=" => Some(Sign::AtMost),
        b">" => Some(Sign::Above),
        b">=" => Some(Sign::AtLeast),
        b"+" => Some(Sign::Plus),
        b"-" => Some(Sign::Minus),
        b"*" => Some(Sign::Times),
        b"/" => Some(Sign::Over),
        b"%" => Some(Sign::Remainder),
        b"&" => Some(Sign::BitAnd),
        b"|" => Some(Sign::BitOr),
        b"^" => Some(Sign::BitXor),
        b"<<" => Some(Sign::ShiftLeft),
        b">>" => Some(Sign::ShiftRight),
        _ => None,
    }
}

/// An operator with `=`.
fn update_named(lexeme: &[u8]) -> Option<Operator>
    ensures { result ≡ update_named lexeme.now }
{
    match lexeme {
        b"+=" => Some(Operator::Plus),
        b"-=" => Some(Operator::Minus),
        b"*=" => Some(Operator::Times),
        b"/=" => Some(Operator::Over),
        b"%=" => Some(Operator::Remainder),
        b"&=" => Some(Operator::BitAnd),
        b"|=" => Some(Operator::BitOr),
        b"^=" => Some(Operator::BitXor),
        b"<<=" => Some(Operator::ShiftLeft),
        b">>=" => Some(Operator::ShiftRight),
        _ => None,
    }
}
