// The outcomes of jobs whose term is closed.
ghost use Rattle.std.specs.Prelude.{◌≡◌, [], map, filter, find, not, option_map, count_by, length, OnErr, OnOk, nat_lt, if◌then◌else◌};
ghost use Rattle.std.specs.List.{list_all};
ghost use Rattle.term_life.specs.Outcomes.{after, answered, cleared, forgetting, has_none, has_outcome, is_from, is_of, is_release, is_released, is_running, is_running_status, is_term_of, status_in, status_of, with_ended};

use crate::spans::Span;
use job_language::{Error, Reply, Request, Status};
use std::alloc::{AllocError, Global};
use std::marker::Model;

/// How far a job is, by its number outside of its term.
#[derive(Clone, Copy, Debug, PartialEq, Eq)]
pub struct Outcome {
    pub job: u64,
    /// `Running` if it has no outcome, since the history was full.
    pub status: Status,
}

impl Outcome {
    /// Whether the job has no outcome.
    pub fn is_running(&self) -> bool
        ensures { result ≡ is_running self.now }
    {
        is_running_status(self.status)
    }
}

fn is_running_status(status: Status) -> bool
    ensures { result ≡ is_running_status status }
{
    matches!(status, Status::Running)
}

/// How many of the jobs have no outcome.
pub fn running(outcomes: &[Outcome]) -> usize
    ensures { result ≡ count_by is_running outcomes.now }
{
    outcomes
        .iter()
        .filter(|outcome| outcome.is_running())
        .count()
}

/// A term that is closed, with the outcomes of its jobs that are neither retired nor released.
#[derive(Drop)]
struct Ended {
    span: Span,
    outcomes: Vec<Outcome>,
}

impl Model for Ended {
    ghost use Rattle.term_life.specs.Outcomes.{Ended};

    ghost Value = { Ended };

    ghost view = { λ e. record { span = e.span; outcomes = e.outcomes.items } };
}

impl Ended {
    /// How far a job is, if it is known.
    fn status(&self, job: u64) -> Option<Status>
        ensures { result ≡ status_in job self.now }
    {
        self.outcomes
            .iter()
            .find(|outcome| outcome.job == job)
            .map(|outcome| outcome.status)
    }

    /// Forgets a job, if it is one of the term's.
    fn forget(&mut self, job: u64)
        ensures { self.new ≡ forgetting job self.old }
    {
        if self.span.owns(job) {
            drop_job(&mut self.outcomes, job);
        }
    }
}

fn drop_job(outcomes: &mut Vec<Outcome>, job: u64)
    ensures { outcomes.new.items ≡ filter (λ o. not (is_of job o)) outcomes.old.items }
{
    outcomes.retain(|outcome| outcome.job != job);
}

/// The outcomes of a tenant's terms that were closed last. Jobs have their numbers outside of their terms.
#[derive(Drop)]
pub struct Outcomes {
    /// How many terms are kept at most.
    keep: usize,
    /// The oldest first.
    ended: Vec<Ended>,
}

impl Model for Outcomes {
    ghost use Rattle.term_life.specs.Outcomes.{Kept};

    ghost Value = { Kept };

    ghost view = { λ o. record { keep = o.keep; ended = o.ended.items } };
}

impl Outcomes {
    /// No outcomes yet. Those of `keep` terms are kept, of one at least.
    pub fn new(alloc: Global, keep: usize) -> Outcomes
        ensures { result ≡ record { keep = if nat_lt keep 1 then 1 else keep; ended = [] } }
    {
        Outcomes {
            keep: if keep < 1 { 1 } else { keep },
            ended: Vec::new(alloc),
        }
    }

    /// Keeps the outcomes of one more term, and forgets those of the oldest one if they are too many. If an allocation
    /// fails, nothing has changed.
    pub fn add(&mut self, span: Span, outcomes: Vec<Outcome>) -> Result<(), AllocError>
        ensures added { OnOk result (self.new ≡ with_ended span outcomes.items self.old) }
        ensures refused { OnErr result (self.new ≡ self.old) }
    {
        self.ended.push(Ended { span, outcomes })?;
        if self.ended.len() > self.keep {
            self.ended.remove(0);
        }
        Ok(())
    }

    /// Forgets those of all terms before the one of that number.
    pub fn clear_before(&mut self, number: u64)
        ensures { self.new ≡ cleared number self.old }
    {
        clear_before(&mut self.ended, number);
    }

    /// Whether there are none.
    pub fn is_empty(&self) -> bool
        ensures { result ≡ list_all has_none self.now.ended }
    {
        self.ended.iter().all(|ended| ended.outcomes.is_empty())
    }

    /// How far a job is, if it is known.
    pub fn status(&self, job: u64) -> Option<Status>
        ensures { result ≡ status_of job self.now }
    {
        let ended = term_of(self.ended.as_slice(), job)?;
        ended.status(job)
    }

    /// Whether a request is about to release a job whose outcome is known here.
    pub fn is_released_by(&self, job: u64, request: &Request) -> bool
        ensures { result ≡ is_released request.now job self.now }
    {
        is_release(request) && has_outcome(self.status(job))
    }

    /// The reply to a request about a job whose term is closed. One that is released is forgotten.
    pub fn answer(&mut self, job: u64, request: &Request) -> Reply
        ensures reply { result ≡ answered request.now job (status_of job self.old) }
        ensures left { self.new ≡ after request.now job self.old }
    {
        let status = self.status(job);
        if self.is_released_by(job, request) {
            self.forget(job);
        }
        answered(request, job, status)
    }

    fn forget(&mut self, job: u64)
        ensures { self.new ≡ record self.old { ended = map (forgetting job) self.old.ended } }
    {
        forget_in_each(self.ended.as_mut_slice(), job);
    }
}

/// The term to which a job belongs.
fn term_of(terms: &[Ended], job: u64) -> Option<&Ended>
    ensures { option_map (λ e. e.now) result ≡ find (is_term_of job) terms.now }
{
    terms.iter().find(|ended| ended.span.owns(job))
}

fn clear_before(terms: &mut Vec<Ended>, number: u64)
    ensures { terms.new.items ≡ filter (is_from number) terms.old.items }
{
    terms.retain(|ended| ended.span.number >= number);
}

fn forget_in_each(terms: &mut [Ended], job: u64)
    ensures { terms.new ≡ map (forgetting job) terms.old }
{
    for ended in terms.iter_mut() {
        ended.forget(job);
    }
}

fn is_release(request: &Request) -> bool
    ensures { result ≡ is_release request.now }
{
    matches!(request, Request::Take(_) | Request::Release(_))
}

fn has_outcome(status: Option<Status>) -> bool
    ensures { result ≡ has_outcome status }
{
    match status {
        Some(status) => !is_running_status(status),
        None => false,
    }
}

/// The reply to a request about a job that is so far, if it is known.
fn answered(request: &Request, job: u64, status: Option<Status>) -> Reply
    ensures { result ≡ answered request.now job status }
{
    match status {
        None => Reply::Refused(Error::UnknownJob),
        // It never gets its outcome: its history is full.
        Some(Status::Running) => Reply::Refused(Error::HistoryFull),
        Some(known) => match request {
            Request::Release(_) => Reply::Released(job),
            Request::Cancel(_) => Reply::Cancelled(job, false),
            _ => Reply::Job(job, known),
        },
    }
}
