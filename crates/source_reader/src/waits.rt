// Tasks that were waited for, and those that were not.
ghost use Rattle.std.specs.Prelude.{◌≡◌};
ghost use Rattle.source_reader.specs.Faults.{Gives};
ghost use Rattle.source_reader.specs.Names.{names_of};
ghost use Rattle.source_reader.specs.Waits.{named_task, is_unread, task_at, awaited_variable, awaited_at};

use crate::faults::{ReadError, Wrong, fault_at};
use crate::names::{Meaning, Names, Task, meaning_of};
use crate::tasks::if_task;
use source_tokens::{Kind, Token};

fn named_task(meaning: Option<Meaning>) -> Option<Task>
    ensures { result ≡ named_task meaning }
{
    match meaning {
        Some(Meaning::Task(task)) => if_task(Some(task)),
        _ => None,
    }
}

/// Whether it is a task that was not waited for.
pub(crate) fn is_unread(meaning: Option<Meaning>) -> bool
    ensures { result ≡ is_unread meaning }
{
    match meaning {
        Some(Meaning::Task(task)) => !task.is_group,
        Some(Meaning::OuterTask(task)) => !task.is_group,
        _ => false,
    }
}

/// The task of the name at the front, if it may be waited for before the line.
pub(crate) fn task_at(names: &Names, tokens: &[Token]) -> Option<Task>
    ensures { result ≡ task_at (names_of names.now) tokens.now }
{
    match tokens.split_first() {
        Some((first, _)) => match first.kind {
            Kind::Name(name) => named_task(meaning_of(name, names)),
            _ => None,
        },
        None => None,
    }
}

/// The variable of a task that was waited for. The first of the tokens is its name.
fn awaited_variable(meaning: Meaning, tokens: &[Token]) -> Result<u8, ReadError>
    ensures { Gives (λ n. n) result (awaited_variable meaning tokens.now) }
{
    match meaning {
        Meaning::Awaited(number) => Ok(number),
        Meaning::Task(task) => {
            if task.is_group {
                Err(fault_at(tokens, Wrong::GroupValue))
            } else {
                Err(fault_at(tokens, Wrong::WaitSkipped))
            }
        }
        Meaning::OuterTask(_) => Err(fault_at(tokens, Wrong::WaitSkipped)),
        _ => Err(fault_at(tokens, Wrong::NoTask)),
    }
}

/// The variable of the task whose name is at the front, behind `wait`.
pub(crate) fn awaited_at(names: &Names, tokens: &[Token]) -> Result<u8, ReadError>
    ensures { Gives (λ n. n) result (awaited_at (names_of names.now) tokens.now) }
{
    match tokens.split_first() {
        Some((first, _)) => match first.kind {
            Kind::Name(name) => match meaning_of(name, names) {
                Some(meaning) => awaited_variable(meaning, tokens),
                None => Err(fault_at(tokens, Wrong::UnknownName)),
            },
            _ => Err(fault_at(tokens, Wrong::Unexpected)),
        },
        None => Err(fault_at(tokens, Wrong::Unexpected)),
    }
}
