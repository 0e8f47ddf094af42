// Values that no operator and no function makes.
ghost use Rattle.std.specs.Prelude.{◌≡◌};
ghost use Rattle.source_reader.specs.Faults.{Gives};
ghost use Rattle.source_reader.specs.Trees.{tree_of, value_tree_of};
ghost use Rattle.source_reader.specs.Names.{names_of, meaning_of};
ghost use Rattle.source_reader.specs.Values.{has_opposite, worth, named, awaited_value, without_arguments};

use crate::faults::{ReadError, Wrong, fault_at};
use crate::joining::Value;
use crate::marks::{after_close, after_first, after_open};
use crate::names::{Meaning, Names, meaning_of};
use crate::waits::awaited_at;
use source_language::Expr;
use source_tokens::{Kind, Token};

/// Whether a minus sign may stand before this. The opposite of 2^63 is a number, but not those of the numbers above.
pub(crate) fn has_opposite(tokens: &[Token]) -> bool
    ensures { result ≡ has_opposite tokens.now }
{
    match tokens.split_first() {
        Some((first, _)) => match first.kind {
            Kind::Number(n) => 0 <= n || n == i64::MIN,
            _ => true,
        },
        None => true,
    }
}

/// What a name is worth that stands for this. It is the first of the tokens. No expression asks a cell.
fn worth(meaning: Meaning, tokens: &[Token]) -> Result<Expr, ReadError>
    ensures { Gives tree_of result (worth meaning tokens.now) }
{
    match meaning {
        Meaning::Variable(number) => Ok(Expr::Variable(number)),
        Meaning::Counter(number) => Ok(Expr::Variable(number)),
        Meaning::Constant(number) => Ok(Expr::Number(number)),
        Meaning::Awaited(number) => Ok(Expr::Variable(number)),
        Meaning::Closed(_) => Err(fault_at(tokens, Wrong::GroupValue)),
        Meaning::Task(_) => Err(fault_at(tokens, Wrong::NotWaited)),
        Meaning::OuterTask(_) => Err(fault_at(tokens, Wrong::NotWaited)),
        Meaning::Cell(_) => Err(fault_at(tokens, Wrong::CellValue)),
        Meaning::Inline => Err(fault_at(tokens, Wrong::Unexpected)),
    }
}

/// The value of that name, which is the first of the tokens.
pub(crate) fn named<'a>(
    name: usize,
    names: &Names,
    tokens: &[Token],
    rest: &'a [Token],
) -> Result<(Value, &'a [Token]), ReadError>
    ensures { Gives (λ x. (value_tree_of x.0, x.1.now)) result
        (named (meaning_of name (names_of names.now)) tokens.now rest.entry.now) }
{
    match meaning_of(name, names) {
        Some(meaning) => Ok((Value::Number(worth(meaning, tokens)?), rest)),
        None => Err(fault_at(tokens, Wrong::UnknownName)),
    }
}

/// The value of a task, behind `wait`.
pub(crate) fn awaited_value<'a>(
    names: &Names,
    tokens: &'a [Token],
) -> Result<(Value, &'a [Token]), ReadError>
    ensures { Gives (λ x. (value_tree_of x.0, x.1.now)) result
        (awaited_value (names_of names.now) tokens.entry.now) }
{
    let number = awaited_at(names, tokens)?;
    Ok((Value::Number(Expr::Variable(number)), after_first(tokens)))
}

/// A value that takes no arguments, before `()`.
pub(crate) fn without_arguments(e: Expr, rest: &[Token]) -> Result<(Value, &[Token]), ReadError>
    ensures { Gives (λ x. (value_tree_of x.0, x.1.now)) result
        (without_arguments (tree_of e) rest.now) }
{
    let inside = after_open(rest)?;
    let after = after_close(inside)?;
    Ok((Value::Number(e), after))
}
