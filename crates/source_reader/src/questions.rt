// Questions: they change nothing. So one is asked before its line also where the line may skip it, and before each test
// of a loop.
ghost use Rattle.std.specs.Prelude.{◌≡◌, IfOk, option_map};
ghost use Rattle.source_reader.specs.Names.{names_of};
ghost use Rattle.source_reader.specs.Questions.{changes_nothing, if_harmless, question_by, ends_head, question_in, again, asked_again};
ghost use Rattle.source_reader.specs.Trees.{stmt_tree_of};

use crate::givers::{Giver, giver_at, giver_of};
use crate::names::{Names, asked_in};
use crate::trees::then;
use source_language::{Question, Stmt};
use source_tokens::{Kind, Token};
use std::alloc::{AllocError, Global};

/// Whether it changes nothing. What reads this slot's cell makes it, if it is not there.
fn changes_nothing(question: &Question) -> bool
    ensures { result ≡ changes_nothing question.now }
{
    match question {
        Question::Cancelled => true,
        Question::Cell(_) => false,
        Question::CellSum(_) => true,
        Question::CellCount(_) => true,
    }
}

fn if_harmless(question: Question) -> Option<Question>
    ensures { result ≡ if_harmless question }
{
    if changes_nothing(&question) {
        Some(question)
    } else {
        None
    }
}

/// The question that gives the value, if one does that changes nothing.
fn question_by(giver: Option<Giver>) -> Option<Question>
    ensures { result ≡ question_by giver }
{
    match giver {
        Some(Giver::Cancelled) => Some(Question::Cancelled),
        Some(Giver::Cell(question)) => if_harmless(question),
        _ => None,
    }
}

/// Whether what stands before a block, or on the line, ends here.
fn ends_head(kind: Kind) -> bool
    ensures { result ≡ ends_head kind }
{
    match kind {
        Kind::LineEnd => true,
        Kind::Semicolon => true,
        Kind::Begin => true,
        Kind::End => true,
        _ => false,
    }
}

/// The first question in the rest of a line, up to a block, that was not asked before: its tokens, and those behind it.
pub(crate) fn question_in<'a>(names: &Names, tokens: &'a [Token]) -> Option<&'a [Token]>
    ensures { option_map (λ ts. ts.now) result ≡ question_in (names_of names.now) tokens.entry.now }
{
    let mut left = tokens;
    while let [first, rest @ ..] = left {
        if ends_head(first.kind) {
            return None;
        }
        if question_by(giver_at(names, left)).is_some() {
            return Some(left);
        }
        left = rest;
    }
    None
}

/// The same question for the same variable, if something was asked, and then the statement.
fn again(
    alloc: Global,
    asked: Option<(u8, usize)>,
    question: Option<Question>,
    s: Stmt,
) -> Result<Stmt, AllocError>
    ensures { IfOk result (λ r. stmt_tree_of r ≡ again asked question (stmt_tree_of s)) }
{
    match asked {
        Some((number, _)) => match question {
            Some(question) => then(alloc, Stmt::Read(number, question), s),
            None => Ok(s),
        },
        None => Ok(s),
    }
}

/// The questions of a condition that were asked before, once more, each for its own variable.
pub(crate) fn asked_again(
    alloc: Global,
    names: &Names,
    tokens: &[Token],
) -> Result<Stmt, AllocError>
    ensures { IfOk result (λ s. stmt_tree_of s ≡ asked_again (names_of names.now) tokens.now) }
{
    let Some((first, rest)) = tokens.split_first() else {
        return Ok(Stmt::Skip);
    };
    if ends_head(first.kind) {
        return Ok(Stmt::Skip);
    }
    let asked = asked_in(tokens.len(), names);
    let question = question_by(giver_of(names, first.kind, rest));
    let others = asked_again(alloc, names, rest)?;
    again(alloc, asked, question, others)
}
