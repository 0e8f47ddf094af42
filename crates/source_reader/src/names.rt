// What names stand for.
ghost use Rattle.std.specs.Prelude.{◌≡◌};
ghost use Rattle.std.specs.Option.{option_map};
ghost use Rattle.source_reader.specs.Faults.{Gives};
ghost use Rattle.source_reader.specs.Trees.{inline_tree_of};
ghost use Rattle.source_reader.specs.Names.{names_of, is_same_group, behind_wait, awaited, outer, meaning_of, is_item, is_taken, inline_of, asked_in, number_after, number_behind, number_past, number_next, new_number};

use crate::faults::{ReadError, Wrong, fault_at};
use crate::halving::OTHER;
use crate::headers::Header;
use crate::inlines::Inline;
use job_language::Key;
use source_tokens::{Gathers, Token};

/// What stands for the group of tasks that have no name and no group of their own: no text has so many lexemes that a name
/// could be this one.
pub const NAMELESS: usize = usize::MAX;

/// A group of tasks that have names. The fourth is that of calls, too.
#[derive(Clone, Copy)]
pub(crate) enum TaskGroup {
    First,
    Second,
    Third,
    Fourth,
}

/// A task that has a name: the variable that its value goes to, and its group, which no other task has before this one
/// is waited for. Or any number of tasks, whose group has the name: their variable is the next one that is free.
#[derive(Clone, Copy)]
pub(crate) struct Task {
    pub(crate) variable: u8,
    pub(crate) group: TaskGroup,
    pub(crate) is_group: bool,
}

/// What a name stands for.
#[derive(Clone, Copy)]
pub(crate) enum Meaning {
    Variable(u8),
    /// The index of a `for` or of a parallel loop, which can't be assigned to. The end is the variable behind it.
    Counter(u8),
    Constant(i64),
    /// A task or a group of this block, which was not waited for.
    Task(Task),
    /// The variable of a task that was waited for.
    Awaited(u8),
    /// A group that was waited for, and the next variable that is free.
    Closed(u8),
    /// A task or a group of a block around this one, which was not waited for.
    OuterTask(Task),
    /// The cells of that key, one for each slot.
    Cell(Key),
    /// An inline function.
    Inline,
}

/// The names that a place sees, the last one first, and the functions of the source. Constants, cells and inline
/// functions are declared before all variables.
#[derive(Drop)]
pub(crate) enum Names<'a> {
    /// The functions of the source.
    Functions(&'a [Header]),
    Name(usize, Meaning, &'a Names<'a>),
    Inline(usize, &'a Inline, &'a Names<'a>),
    /// The names behind a wait for the task of that group.
    Waited(TaskGroup, &'a Names<'a>),
    /// The names at the beginning of a block inside the function's own, and whether it is that of a loop.
    Inner(bool, &'a Names<'a>),
    /// The names at the beginning of the body of a parallel loop.
    Gathering(Gathers, &'a Names<'a>),
    /// The names behind what gives a value inside another one: how many tokens are left where it begins, and behind it, and
    /// the variable that has its value.
    Asked(usize, usize, u8, &'a Names<'a>),
}

pub(crate) fn is_same_group(a: TaskGroup, b: TaskGroup) -> bool
    ensures { result ≡ is_same_group a b }
{
    match (a, b) {
        (TaskGroup::First, TaskGroup::First) => true,
        (TaskGroup::Second, TaskGroup::Second) => true,
        (TaskGroup::Third, TaskGroup::Third) => true,
        (TaskGroup::Fourth, TaskGroup::Fourth) => true,
        _ => false,
    }
}

/// What a name stands for behind a wait for its task.
fn behind_wait(task: Task) -> Meaning
    ensures { result ≡ behind_wait task }
{
    if task.is_group {
        Meaning::Closed(task.variable)
    } else {
        Meaning::Awaited(task.variable)
    }
}

/// What a name stands for behind a wait for the task of that group.
fn awaited(group: TaskGroup, meaning: Meaning) -> Meaning
    ensures { result ≡ awaited group meaning }
{
    match meaning {
        Meaning::Task(task) => {
            if is_same_group(task.group, group) {
                behind_wait(task)
            } else {
                meaning
            }
        }
        _ => meaning,
    }
}

/// What a name of a block stands for in a block inside it.
fn outer(meaning: Meaning) -> Meaning
    ensures { result ≡ outer meaning }
{
    match meaning {
        Meaning::Task(task) => Meaning::OuterTask(task),
        _ => meaning,
    }
}

/// What the name stands for.
pub(crate) fn meaning_of(name: usize, names: &Names) -> Option<Meaning>
    ensures { result ≡ meaning_of name (names_of names.now) }
{
    match names {
        Names::Functions(_) => None,
        Names::Name(first, meaning, others) => {
            if *first == name {
                Some(*meaning)
            } else {
                meaning_of(name, others)
            }
        }
        Names::Inline(first, _, others) => {
            if *first == name {
                Some(Meaning::Inline)
            } else {
                meaning_of(name, others)
            }
        }
        Names::Waited(group, others) => match meaning_of(name, others) {
            Some(meaning) => Some(awaited(*group, meaning)),
            None => None,
        },
        Names::Inner(_, others) => match meaning_of(name, others) {
            Some(meaning) => Some(outer(meaning)),
            None => None,
        },
        Names::Gathering(_, others) => meaning_of(name, others),
        Names::Asked(_, _, _, others) => meaning_of(name, others),
    }
}

/// Whether a name is that of a constant, a cell or an inline function.
fn is_item(meaning: Option<Meaning>) -> bool
    ensures { result ≡ is_item meaning }
{
    match meaning {
        Some(Meaning::Constant(_)) => true,
        Some(Meaning::Cell(_)) => true,
        Some(Meaning::Inline) => true,
        _ => false,
    }
}

/// Whether a name can't be declared: the innermost block has it, or what no block hides.
pub(crate) fn is_taken(name: usize, names: &Names) -> bool
    ensures { result ≡ is_taken name (names_of names.now) }
{
    match names {
        Names::Functions(_) => false,
        Names::Name(first, _, others) => *first == name || is_taken(name, others),
        Names::Inline(first, _, others) => *first == name || is_taken(name, others),
        Names::Waited(_, others) => is_taken(name, others),
        Names::Inner(_, others) => is_item(meaning_of(name, others)),
        Names::Gathering(_, others) => is_taken(name, others),
        Names::Asked(_, _, _, others) => is_taken(name, others),
    }
}

/// The inline function of that name.
pub(crate) fn inline_of<'a>(name: usize, names: &'a Names) -> Option<&'a Inline>
    ensures { option_map (λ f. inline_tree_of f.now) result ≡ inline_of name (names_of names.entry.now) }
{
    match names {
        Names::Functions(_) => None,
        Names::Name(_, _, others) => inline_of(name, others),
        Names::Inline(first, inline, others) => {
            if *first == name {
                Some(inline)
            } else {
                inline_of(name, others)
            }
        }
        Names::Waited(_, others) => inline_of(name, others),
        Names::Inner(_, others) => inline_of(name, others),
        Names::Gathering(_, others) => inline_of(name, others),
        Names::Asked(_, _, _, others) => inline_of(name, others),
    }
}

/// What was asked where so many tokens are left: its variable, and how many are left behind it.
pub(crate) fn asked_in(left: usize, names: &Names) -> Option<(u8, usize)>
    ensures { result ≡ asked_in left (names_of names.now) }
{
    match names {
        Names::Functions(_) => None,
        Names::Name(_, _, others) => asked_in(left, others),
        Names::Inline(_, _, others) => asked_in(left, others),
        Names::Waited(_, others) => asked_in(left, others),
        Names::Inner(_, others) => asked_in(left, others),
        Names::Gathering(_, others) => asked_in(left, others),
        Names::Asked(first, behind, number, others) => {
            if *first == left {
                Some((*number, *behind))
            } else {
                asked_in(left, others)
            }
        }
    }
}

/// The number of variables, if this is one of them.
pub(crate) fn number_after(number: u8) -> u8
    ensures { result ≡ number_after number }
{
    if number < 255 { number + 1 } else { 255 }
}

/// The variable behind that one, if a function may have so many.
pub(crate) fn number_behind(number: u8, tokens: &[Token]) -> Result<u8, ReadError>
    ensures { Gives (λ n. n) result (number_behind number tokens.now) }
{
    if number < 240 {
        Ok(number + 1)
    } else {
        Err(fault_at(tokens, Wrong::TooManyNames))
    }
}

/// The variable behind that of a task. A group has none.
fn number_past(task: Task, tokens: &[Token]) -> Result<u8, ReadError>
    ensures { Gives (λ n. n) result (number_past task tokens.now) }
{
    if task.is_group {
        Ok(task.variable)
    } else {
        number_behind(task.variable, tokens)
    }
}

/// The first variable that is free behind a name.
fn number_next(meaning: Meaning, tokens: &[Token]) -> Result<u8, ReadError>
    ensures { Gives (λ n. n) result (number_next meaning tokens.now) }
{
    match meaning {
        Meaning::Variable(number) => number_behind(number, tokens),
        Meaning::Counter(number) => number_behind(number_after(number), tokens),
        Meaning::Constant(_) => Ok(0),
        Meaning::Task(task) => number_past(task, tokens),
        Meaning::Awaited(number) => number_behind(number, tokens),
        Meaning::Closed(number) => Ok(number),
        Meaning::OuterTask(task) => number_past(task, tokens),
        Meaning::Cell(_) => Ok(0),
        Meaning::Inline => Ok(0),
    }
}

/// The number of one more variable. The first of the tokens is its name.
pub(crate) fn new_number(names: &Names, tokens: &[Token]) -> Result<u8, ReadError>
    ensures { Gives (λ n. n) result (new_number (names_of names.now) tokens.now) }
{
    match names {
        Names::Functions(_) => Ok(0),
        Names::Name(_, meaning, _) => number_next(*meaning, tokens),
        Names::Inline(_, _, _) => Ok(0),
        Names::Waited(_, others) => new_number(others, tokens),
        Names::Inner(_, others) => new_number(others, tokens),
        Names::Gathering(_, _) => Ok(OTHER),
        Names::Asked(_, _, number, _) => number_behind(*number, tokens),
    }
}
