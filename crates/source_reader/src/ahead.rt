// What is done before a line: tasks that it waits for, and what gives a value inside its values, from left to right.
// Of what the line may skip, only questions are asked.
ghost use Rattle.std.specs.Prelude.{◌≡◌, option_map};
ghost use Rattle.source_reader.specs.Ahead.{ahead_by, asks, ahead_of, wait_in, is_cell, is_first, next_wait, may_divide, ask_in, next_ask};
ghost use Rattle.source_reader.specs.Names.{names_of};

use crate::extents::alone;
use crate::givers::giver_at;
use crate::marks::after_first;
use crate::names::{Meaning, Names, Task, inline_of, meaning_of};
use crate::questions::question_in;
use crate::tasks::{Reach, pending_task};
use crate::waits::{is_unread, task_at};
use crate::widths::is_comma;
use source_tokens::{Kind, Sign, Token};

/// What a token means for what is done before its line.
#[derive(Clone, Copy)]
pub(crate) enum Ahead {
    Waits(Task),
    /// What gives a value, inside another value.
    Asks,
    /// Of what follows, which may be skipped, only questions are asked before the line.
    Skips,
    /// What follows is not done before the line.
    Ends,
    GoesOn,
}

/// What the first token means, which gives no value by itself.
fn ahead_by(names: &Names, kind: Kind, rest: &[Token]) -> Ahead
    ensures { result ≡ ahead_by (names_of names.now) kind rest.now }
{
    match kind {
        Kind::Wait => match task_at(names, rest) {
            Some(task) => Ahead::Waits(task),
            None => Ahead::GoesOn,
        },
        Kind::Name(name) => {
            if is_unread(meaning_of(name, names)) {
                Ahead::Ends
            } else {
                Ahead::GoesOn
            }
        }
        Kind::Sign(Sign::And) => Ahead::Skips,
        Kind::Sign(Sign::Or) => Ahead::Skips,
        Kind::LineEnd => Ahead::Ends,
        Kind::Semicolon => Ahead::Ends,
        Kind::Begin => Ahead::Ends,
        Kind::End => Ahead::Ends,
        _ => Ahead::GoesOn,
    }
}

/// Whether what gives a value is at the front and does not stand alone.
fn asks(names: &Names, alone: usize, tokens: &[Token]) -> bool
    ensures { result ≡ asks (names_of names.now) alone tokens.now }
{
    giver_at(names, tokens).is_some() && tokens.len() != alone
}

/// What the first of the tokens means.
fn ahead_of(names: &Names, alone: usize, kind: Kind, tokens: &[Token], rest: &[Token]) -> Ahead
    ensures { result ≡ ahead_of (names_of names.now) alone kind tokens.now rest.now }
{
    if asks(names, alone, tokens) {
        Ahead::Asks
    } else {
        ahead_by(names, kind, rest)
    }
}

/// The first task that is waited for, before anything is asked.
fn wait_in(names: &Names, alone: usize, tokens: &[Token]) -> Option<Task>
    ensures { result ≡ wait_in (names_of names.now) alone tokens.now }
{
    let mut left = tokens;
    while let [first, rest @ ..] = left {
        match ahead_of(names, alone, first.kind, left, rest) {
            Ahead::Waits(task) => return Some(task),
            Ahead::Asks => return None,
            Ahead::Skips => return None,
            Ahead::Ends => return None,
            Ahead::GoesOn => left = rest,
        }
    }
    None
}

fn is_cell(meaning: Option<Meaning>) -> bool
    ensures { result ≡ is_cell meaning }
{
    match meaning {
        Some(Meaning::Cell(_)) => true,
        _ => false,
    }
}

/// Whether there is no wait before a line that begins so.
fn is_first(names: &Names, kind: Kind, rest: &[Token]) -> bool
    ensures { result ≡ is_first (names_of names.now) kind rest.now }
{
    match kind {
        Kind::While => true,
        Kind::Name(name) => is_cell(meaning_of(name, names)),
        Kind::Let => is_comma(after_first(rest)),
        _ => false,
    }
}

/// The task that is waited for before the statement at the front is read.
pub(crate) fn next_wait(names: &Names, tokens: &[Token]) -> Option<Task>
    ensures { result ≡ next_wait (names_of names.now) tokens.now }
{
    let (first, rest) = tokens.split_first()?;
    match first.kind {
        Kind::Sync => pending_task(Reach::Block, names),
        kind => {
            if is_first(names, kind, rest) {
                return None;
            }
            match ahead_by(names, kind, rest) {
                Ahead::Waits(task) => Some(task),
                Ahead::GoesOn => wait_in(names, alone(names, tokens), rest),
                _ => None,
            }
        }
    }
}

/// Whether it may divide by 0.
fn may_divide(names: &Names, kind: Kind) -> bool
    ensures { result ≡ may_divide (names_of names.now) kind }
{
    match kind {
        Kind::Sign(Sign::Over) => true,
        Kind::Sign(Sign::Remainder) => true,
        Kind::Name(name) => inline_of(name, names).is_some(),
        _ => false,
    }
}

/// The first giver that is asked.
fn ask_in<'a>(names: &Names, alone: usize, tokens: &'a [Token]) -> Option<&'a [Token]>
    ensures { option_map (λ ts. ts.now) result ≡ ask_in (names_of names.now) alone tokens.entry.now }
{
    let mut left = tokens;
    while let [first, rest @ ..] = left {
        match ahead_of(names, alone, first.kind, left, rest) {
            Ahead::Waits(_) => return None,
            Ahead::Asks => return Some(left),
            Ahead::Skips => return question_in(names, rest),
            Ahead::Ends => return None,
            Ahead::GoesOn => {
                if may_divide(names, first.kind) {
                    return question_in(names, rest);
                }
                left = rest;
            }
        }
    }
    None
}

/// The giver that is asked before the statement at the front is read: its tokens, and those behind it.
pub(crate) fn next_ask<'a>(names: &Names, tokens: &'a [Token]) -> Option<&'a [Token]>
    ensures { option_map (λ ts. ts.now) result ≡ next_ask (names_of names.now) tokens.entry.now }
{
    let (first, rest) = tokens.split_first()?;
    match first.kind {
        Kind::While => question_in(names, rest),
        kind => {
            if is_first(names, kind, rest) {
                return None;
            }
            match ahead_by(names, kind, rest) {
                Ahead::GoesOn => ask_in(names, alone(names, tokens), rest),
                _ => None,
            }
        }
    }
}
