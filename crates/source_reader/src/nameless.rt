// Tasks that are spawned without a name and without a group.
ghost use Rattle.std.specs.Prelude.{◌≡◌, false};
ghost use Rattle.source_reader.specs.Faults.{Gives};
ghost use Rattle.source_reader.specs.Names.{names_of};
ghost use Rattle.source_reader.specs.Nameless.{is_nameless, spawns_nameless, nameless_group, nameless_in};

use crate::calls::is_spawn;
use crate::extents::is_set;
use crate::faults::ReadError;
use crate::lines::is_end;
use crate::marks::{after_first, is_open};
use crate::names::{Names, Task, new_number};
use crate::ranges::is_begin;
use crate::tasks::free_group;
use source_tokens::Token;

/// Whether a task that is given to no variable has no group, either.
fn is_nameless(is_given: bool, tokens: &[Token]) -> bool
    ensures { result ≡ is_nameless is_given tokens.now }
{
    is_spawn(tokens) && !is_given && is_open(after_first(after_first(tokens)))
}

/// Whether there are such tasks before the end of the block in which these tokens are.
fn spawns_nameless(tokens: &[Token]) -> bool
    ensures { result ≡ spawns_nameless 0 false tokens.now }
{
    let mut left = tokens;
    let mut inner = 0usize;
    let mut is_given = false;
    while let [first, rest @ ..] = left {
        if is_nameless(is_given, left) {
            return true;
        }
        left = rest;
        is_given = is_set(first.kind);
        if is_begin(first.kind) {
            inner += 1;
        } else if is_end(first.kind) {
            if inner == 0 {
                return false;
            }
            inner -= 1;
        }
    }
    false
}

fn nameless_group(names: &Names, tokens: &[Token]) -> Result<Option<Task>, ReadError>
    ensures { Gives (λ t. t) result (nameless_group (names_of names.now) tokens.now) }
{
    let variable = new_number(names, tokens)?;
    let group = free_group(names, tokens)?;
    Ok(Some(Task {
        variable,
        group,
        is_group: true,
    }))
}

/// The group of such tasks, if the function whose body begins with the first of the tokens has some.
pub(crate) fn nameless_in(names: &Names, tokens: &[Token]) -> Result<Option<Task>, ReadError>
    ensures { Gives (λ t. t) result (nameless_in (names_of names.now) tokens.now) }
{
    if spawns_nameless(after_first(tokens)) {
        nameless_group(names, tokens)
    } else {
        Ok(None)
    }
}
