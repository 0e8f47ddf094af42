// What statements declare.
ghost use Rattle.std.specs.Prelude.{◌≡◌, drop};
ghost use Rattle.source_reader.specs.Faults.{Gives};
ghost use Rattle.source_reader.specs.Names.{names_of};
ghost use Rattle.source_reader.specs.Statements.{is_group, let_meaning, declared_meaning, declared_in};

use crate::calls::is_spawn;
use crate::faults::ReadError;
use crate::marks::after_first;
use crate::names::{Meaning, Names, Task, new_number};
use crate::tasks::free_group;
use source_tokens::{Kind, Token};

/// What follows `let x =`, or `let x,`.
pub(crate) fn behind_set(tokens: &[Token]) -> &[Token]
    ensures { result.now ≡ drop 1 (drop 1 (drop 1 tokens.now)) }
{
    after_first(after_first(after_first(tokens)))
}

/// What a new variable stands for, by what follows `let x =`.
fn let_meaning(names: &Names, number: u8, tokens: &[Token]) -> Result<Meaning, ReadError>
    ensures { Gives (λ m. m) result (let_meaning (names_of names.now) number tokens.now) }
{
    if !is_spawn(tokens) {
        return Ok(Meaning::Variable(number));
    }
    let group = free_group(names, tokens)?;
    Ok(Meaning::Task(Task {
        variable: number,
        group,
        is_group: false,
    }))
}

fn is_group(tokens: &[Token]) -> bool
    ensures { result ≡ is_group tokens.now }
{
    match tokens.split_first() {
        Some((first, _)) => match first.kind {
            Kind::Group => true,
            _ => false,
        },
        None => false,
    }
}

/// What the name that the statement at the front declares stands for, with the variable of that number.
fn declared_meaning(names: &Names, number: u8, tokens: &[Token]) -> Result<Meaning, ReadError>
    ensures { Gives (λ m. m) result (declared_meaning (names_of names.now) number tokens.now) }
{
    if !is_group(tokens) {
        return let_meaning(names, number, behind_set(tokens));
    }
    let group = free_group(names, tokens)?;
    Ok(Meaning::Task(Task {
        variable: number,
        group,
        is_group: true,
    }))
}

/// What the name that the statement at the front declares stands for.
pub(crate) fn declared_in(names: &Names, tokens: &[Token]) -> Result<Meaning, ReadError>
    ensures { Gives (λ m. m) result (declared_in (names_of names.now) tokens.now) }
{
    let number = new_number(names, tokens)?;
    declared_meaning(names, number, tokens)
}
