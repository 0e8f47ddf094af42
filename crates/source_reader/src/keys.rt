// Which key a cell has.
ghost use Rattle.std.specs.Prelude.{◌≡◌, ◌<◌};
ghost use Rattle.job_language.specs.declared.instructions.TheConstants.{KEYS};
ghost use Rattle.source_reader.specs.Faults.{Gives};
ghost use Rattle.source_reader.specs.Keys.{key_numbered, key_written, is_at_of, is_at, is_of_key, has_key, chooses, is_taken, first_free, all_keys, if_free, if_chosen, key_at, cell_at};
ghost use Rattle.source_reader.specs.Functions.{is_this};
ghost use Rattle.source_reader.specs.Names.{names_of};

use crate::faults::{ReadError, Wrong, fault_at};
use crate::lines::free_name;
use crate::marks::after_first;
use crate::names::{Meaning, Names};
use job_language::Key;
use source_tokens::{Kind, Token};

/// The key of a number that is written.
fn key_numbered(number: i64) -> Option<Key>
    ensures { result ≡ key_numbered number }
{
    if number >= 0 {
        Key::new(number as u64)
    } else {
        None
    }
}

/// The key whose number is at the front.
fn key_written(tokens: &[Token]) -> Option<Key>
    ensures { result ≡ key_written tokens.now }
{
    let (first, _) = tokens.split_first()?;
    match first.kind {
        Kind::Number(number) => key_numbered(number),
        _ => None,
    }
}

fn is_at_of(kind: Kind) -> bool
    ensures { result ≡ is_at_of kind }
{
    match kind {
        Kind::At => true,
        _ => false,
    }
}

/// Whether there is `@` at the front.
fn is_at(tokens: &[Token]) -> bool
    ensures { result ≡ is_at tokens.now }
{
    match tokens.split_first() {
        Some((first, _)) => is_at_of(first.kind),
        None => false,
    }
}

fn is_of_key(key: Key, meaning: Meaning) -> bool
    ensures { result ≡ is_of_key key meaning }
{
    match meaning {
        Meaning::Cell(other) => other.index() == key.index(),
        _ => false,
    }
}

/// Whether a cell above has that key.
fn has_key(key: Key, names: &Names) -> bool
    ensures { result ≡ has_key key (names_of names.now) }
{
    match names {
        Names::Functions(_) => false,
        Names::Name(_, meaning, others) => is_of_key(key, *meaning) || has_key(key, others),
        Names::Inline(_, _, others) => has_key(key, others),
        Names::Waited(_, others) => has_key(key, others),
        Names::Inner(_, others) => has_key(key, others),
        Names::Gathering(_, others) => has_key(key, others),
        Names::Asked(_, _, _, others) => has_key(key, others),
    }
}

fn is_this(key: Key, other: Option<Key>) -> bool
    ensures { result ≡ is_this key other }
{
    match other {
        Some(other) => other.index() == key.index(),
        None => false,
    }
}

/// Whether one of the tokens is `@` before that key.
fn chooses(key: Key, tokens: &[Token]) -> bool
    ensures { result ≡ chooses key tokens.now }
{
    for (place, token) in tokens.iter().enumerate() {
        if is_at_of(token.kind) && is_this(key, key_written(tokens.split_at(place + 1).1)) {
            return true;
        }
    }
    false
}

/// Whether a cell above has the key, or one below chooses it.
fn is_taken(key: Key, names: &Names, tokens: &[Token]) -> bool
    ensures { result ≡ is_taken key (names_of names.now) tokens.now }
{
    has_key(key, names) || chooses(key, tokens)
}

/// The first of these keys that is not taken.
fn first_free(keys: &[Key], names: &Names, tokens: &[Token]) -> Option<Key>
    ensures { result ≡ first_free keys.now (names_of names.now) tokens.now }
{
    let (first, others) = keys.split_first()?;
    if is_taken(*first, names, tokens) {
        first_free(others, names, tokens)
    } else {
        Some(*first)
    }
}

fn key(number: u64) -> Key
    requires { number < KEYS }
    ensures { result ≡ number }
{
    Key::new(number).unwrap()
}

/// The least key that is not taken.
fn least_free(names: &Names, tokens: &[Token]) -> Option<Key>
    ensures { result ≡ first_free all_keys (names_of names.now) tokens.now }
{
    let keys = [
        key(0),
        key(1),
        key(2),
        key(3),
        key(4),
        key(5),
        key(6),
        key(7),
    ];
    first_free(&keys, names, tokens)
}

fn if_free<'a>(
    key: Option<Key>,
    named: &[Token],
    tokens: &'a [Token],
) -> Result<(Key, &'a [Token]), ReadError>
    ensures { Gives (λ x. (x.0, x.1.now)) result (if_free key named.now tokens.entry.now) }
{
    match key {
        Some(key) => Ok((key, tokens)),
        None => Err(fault_at(named, Wrong::TooManyCells)),
    }
}

/// The key that is chosen, unless another cell has it.
fn if_chosen<'a>(
    key: Option<Key>,
    names: &Names,
    tokens: &'a [Token],
) -> Result<(Key, &'a [Token]), ReadError>
    ensures { Gives (λ x. (x.0, x.1.now)) result
        (if_chosen key (names_of names.now) tokens.entry.now) }
{
    match key {
        Some(key) => {
            if has_key(key, names) {
                Err(fault_at(tokens, Wrong::KnownKey))
            } else {
                Ok((key, after_first(tokens)))
            }
        }
        None => Err(fault_at(tokens, Wrong::WrongKey)),
    }
}

/// `@ k` or nothing, behind the name of a cell, which is the first of the tokens `named`.
fn key_at<'a>(
    names: &Names,
    named: &[Token],
    tokens: &'a [Token],
) -> Result<(Key, &'a [Token]), ReadError>
    ensures { Gives (λ x. (x.0, x.1.now)) result
        (key_at (names_of names.now) named.now tokens.entry.now) }
{
    if is_at(tokens) {
        let rest = after_first(tokens);
        if_chosen(key_written(rest), names, rest)
    } else {
        if_free(least_free(names, tokens), named, tokens)
    }
}

/// `c` or `c @ k`, behind `cell`.
pub(crate) fn cell_at<'a>(
    names: &Names,
    tokens: &'a [Token],
) -> Result<(usize, (Key, &'a [Token])), ReadError>
    ensures { Gives (λ d. (d.0, d.1.0, d.1.1.now)) result
        (cell_at (names_of names.now) tokens.entry.now) }
{
    let name = free_name(names, tokens)?;
    match key_at(names, tokens, after_first(tokens)) {
        Ok((key, rest)) => Ok((name, (key, rest))),
        Err(error) => Err(error),
    }
}
