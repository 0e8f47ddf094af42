// The terms of a tenant that are not closed.
ghost use Rattle.std.specs.Prelude.{◌≡◌, ◌≤◌, ◌+◌, ◌<◌, ◌⊎◌, All, IfOk, IfSome, IfNone, OnErr, OnOk, [], ◌∷◌, ◌++◌, find, map, filter, not, length, true, Some};
ghost use Rattle.term_life.specs.Lives.{IsInOrder, closing, closing_if, ended, has_number, left, left_if, next_term, opened, owner, owns, serving, stage_of};

use serde::Serialize;
use std::alloc::{AllocError, Global};
use std::marker::Model;

/// How many jobs a tenant may have in the life of a run folder: 2^53, so each number is exact as a number of JSON.
pub const MOST_JOBS: u64 = 9_007_199_254_740_992;

/// Why a term is left.
#[derive(Clone, Copy, Debug, PartialEq, Eq, Serialize)]
#[serde(rename_all = "lowercase")]
pub enum Why {
    /// Its history was as full as it may get.
    History,
    /// Somebody asked for it by a file.
    File,
    /// The tenant's configuration has changed, or it has none any more.
    Config,
    /// Its journal could not be written any more.
    Journal,
    /// The host stops.
    Stop,
}

/// The stage of a term that was opened and is not closed.
#[derive(Clone, Copy, Debug, PartialEq, Eq, Serialize)]
#[serde(rename_all = "lowercase")]
pub enum Stage {
    /// It takes new jobs.
    Serving,
    /// It goes on for the jobs that it has.
    Finishing,
    /// Its rows have ended, and it is being closed.
    Closing,
}

/// A term of a tenant.
#[derive(Clone, Copy, Debug, PartialEq, Eq)]
pub struct Term {
    /// Its number among the tenant's terms, from 0 on.
    pub number: u64,
    /// Its job of number n, from 1 on, has the number `base` + n outside.
    pub base: u64,
    /// How many jobs it may have.
    pub room: u64,
    /// Whether it takes new jobs.
    pub is_serving: bool,
    /// Whether it is being closed.
    pub is_closing: bool,
    /// Why it was left, if it was.
    pub why: Option<Why>,
}

impl Term {
    /// How far it is.
    pub fn stage(&self) -> Stage
        ensures { result ≡ stage_of self.now }
    {
        if self.is_serving {
            Stage::Serving
        } else if self.is_closing {
            Stage::Closing
        } else {
            Stage::Finishing
        }
    }

    /// The same if it is left for that reason: one that serves serves no more.
    fn left(self, why: Why) -> Term
        ensures { result ≡ left_if why self }
    {
        if self.is_serving {
            Term {
                is_serving: false,
                why: Some(why),
                ..self
            }
        } else {
            self
        }
    }
}

/// The terms of a tenant that are not closed, in the order in which they were opened. Each has the numbers of its jobs
/// for itself: those that no other one had, nor will have.
#[derive(Drop)]
pub struct Terms {
    /// The oldest first.
    terms: Vec<Term>,
    /// The number of the term that is opened next.
    next: u64,
    /// The number of a job after which its jobs are numbered.
    base: u64,
}

impl Model for Terms {
    ghost use Rattle.term_life.specs.Lives.{Life, IsInOrder};

    ghost Value = { Life };

    ghost view = { λ t. record { terms = t.terms.items; next = t.next; base = t.base } };

    ghost invariant = { λ t. IsInOrder
        (record { terms = t.terms.items; next = t.next; base = t.base }) };
}

impl Terms {
    /// No term yet. The first one will have that number, and its jobs are numbered after `base`.
    pub fn new(alloc: Global, first: u64, base: u64) -> Terms
        requires { base ≤ MOST_JOBS }
        ensures { result ≡ record { terms = []; next = first; base = base } }
    {
        Terms {
            terms: Vec::new(alloc),
            next: first,
            base,
        }
    }

    /// The terms that are not closed, the oldest first.
    pub fn all(&self) -> &[Term]
        ensures { result.now ≡ self.now.terms }
    {
        self.terms.as_slice()
    }

    /// The number of the term that is opened next.
    pub fn next(&self) -> u64
        ensures { result ≡ self.now.next }
    {
        self.next
    }

    /// The number of a job after which the jobs of the next term are numbered.
    pub fn base(&self) -> u64
        ensures value { result ≡ self.now.base }
        ensures most { result ≤ MOST_JOBS }
    {
        self.base
    }

    /// The term that serves, if one does.
    pub fn serving(&self) -> Option<Term>
        ensures { result ≡ serving self.now }
    {
        self.terms.iter().copied().find(|term| term.is_serving)
    }

    /// The term to which a job belongs, if it is not closed: there is no other one.
    pub fn owner(&self, job: u64) -> Option<Term>
        ensures value { result ≡ owner job self.now }
        ensures sole { All (λ t. owns job t ≡ true → result ≡ Some t) self.now.terms }
    {
        self.first_owner(job)
    }

    fn first_owner(&self, job: u64) -> Option<Term>
        ensures value { result ≡ owner job self.now }
        ensures order { IsInOrder self.now }
    {
        self.terms
            .iter()
            .copied()
            .find(|term| term.base < job && job - term.base <= term.room)
    }

    /// Opens the next term, with room for so many jobs, which serves from now on. The one that served goes on for the
    /// jobs that it has; it was left for that reason. None if no numbers are left for so many jobs, or none for a term;
    /// then nothing has changed, and neither has it if an allocation fails.
    pub fn open(&mut self, why: Why, room: u64) -> Result<Option<Term>, AllocError>
        ensures opened { IfOk result (λ made. IfSome made
            (λ term. (term ≡ next_term room self.old) × (self.new ≡ opened why room self.old))) }
        ensures none { IfOk result (λ made. IfNone made
            (((MOST_JOBS < self.old.base + room) ⊎ (self.old.next ≡ 18446744073709551615))
            × (self.new ≡ self.old))) }
        ensures refused { OnErr result (self.new ≡ self.old) }
    {
        if room > MOST_JOBS - self.base || self.next == u64::MAX {
            return Ok(None);
        }
        let term = Term {
            number: self.next,
            base: self.base,
            room,
            is_serving: true,
            is_closing: false,
            why: None,
        };
        add_next(&mut self.terms, why, term)?;
        self.next += 1;
        self.base += room;
        Ok(Some(term))
    }

    /// Lets the term that serves, if one does, go on for the jobs that it has, for that reason.
    pub fn leave(&mut self, why: Why)
        ensures { self.new ≡ left why self.old }
    {
        leave_all(&mut self.terms, why);
    }

    /// Notes that the term of that number is being closed. Nothing changes if there is none.
    pub fn close(&mut self, number: u64)
        ensures { self.new ≡ closing number self.old }
    {
        close_all(&mut self.terms, number);
    }

    /// Notes that the term of that number is closed. Nothing changes if there is none.
    pub fn end(&mut self, number: u64)
        ensures { self.new ≡ ended number self.old }
    {
        forget(&mut self.terms, number);
    }
}

/// Adds the next term, for which the others are left. If an allocation fails, nothing has changed.
fn add_next(terms: &mut Vec<Term>, why: Why, term: Term) -> Result<(), AllocError>
    ensures added { OnOk result
        (terms.new.items ≡ map (left_if why) terms.old.items ++ term ∷ []) }
    ensures refused { OnErr result (terms.new.items ≡ terms.old.items) }
{
    terms.reserve(1)?;
    leave_each(terms.as_mut_slice(), why);
    terms.push_reserved(term);
    Ok(())
}

fn leave_all(terms: &mut Vec<Term>, why: Why)
    ensures { terms.new.items ≡ map (left_if why) terms.old.items }
{
    leave_each(terms.as_mut_slice(), why);
}

fn leave_each(terms: &mut [Term], why: Why)
    ensures { terms.new ≡ map (left_if why) terms.old }
{
    for term in terms.iter_mut() {
        *term = term.left(why);
    }
}

fn close_all(terms: &mut Vec<Term>, number: u64)
    ensures { terms.new.items ≡ map (closing_if number) terms.old.items }
{
    close_each(terms.as_mut_slice(), number);
}

fn close_each(terms: &mut [Term], number: u64)
    ensures { terms.new ≡ map (closing_if number) terms.old }
{
    for term in terms.iter_mut() {
        term.is_closing |= term.number == number;
    }
}

fn forget(terms: &mut Vec<Term>, number: u64)
    ensures { terms.new.items ≡ filter (λ t. not (has_number number t)) terms.old.items }
{
    terms.retain(|term| term.number != number);
}
