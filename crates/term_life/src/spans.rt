// The numbers of a term's jobs, in the term and outside of it.
ghost use Rattle.std.specs.Prelude.{◌≡◌, ◌≤◌, ◌<◌, ◌+◌, IfSome, None};
ghost use Rattle.term_life.specs.Spans.{has_job, inside, outside, reply_outside, request_inside};

use crate::terms::MOST_JOBS;
use job_language::{Reply, Request};

/// Which term it is, and the numbers of its jobs.
#[derive(Clone, Copy, Debug, PartialEq, Eq)]
pub struct Span {
    /// The term's number among those of its tenant, from 0 on.
    pub number: u64,
    /// Its job of number n, from 1 on, has the number `base` + n outside.
    pub base: u64,
    /// How many jobs it may have.
    pub room: u64,
}

impl Span {
    /// The next term of a tenant, by its number and the one after which its jobs are numbered: it has a number for each
    /// of the `steps` entries that its history may have. None if there are not as many.
    pub fn next(number: u64, base: u64, steps: usize) -> Option<Span>
        ensures span { IfSome result (λ span. span ≡ record { number = number; base = base; room = steps }) }
        ensures room { IfSome result (λ span. span.base + span.room ≤ MOST_JOBS) }
        ensures none { result ≡ None → MOST_JOBS < base + steps }
    {
        let room = steps as u64;
        if base > MOST_JOBS || room > MOST_JOBS - base {
            return None;
        }
        Some(Span { number, base, room })
    }

    /// Whether that is the number of one of its jobs, outside.
    pub fn owns(&self, job: u64) -> bool
        ensures { result ≡ has_job job self.now }
    {
        self.base < job && job - self.base <= self.room
    }

    /// The number in the term of a job that has this number outside.
    pub fn inside(&self, job: u64) -> u64
        ensures { result ≡ inside self.now job }
    {
        job.saturating_sub(self.base)
    }

    /// The number outside of a job that has this number in the term.
    pub fn outside(&self, job: u64) -> u64
        ensures { result ≡ outside self.now job }
    {
        self.base.saturating_add(job)
    }

    /// The same request, about a job by its number in the term. It had the number outside.
    pub fn request_inside(&self, request: Request) -> Request
        ensures { result ≡ request_inside self.now request }
    {
        match request {
            Request::Poll(job) => Request::Poll(self.inside(job)),
            Request::Collect(job) => Request::Collect(self.inside(job)),
            Request::Take(job) => Request::Take(self.inside(job)),
            Request::Cancel(job) => Request::Cancel(self.inside(job)),
            Request::Release(job) => Request::Release(self.inside(job)),
            other => other,
        }
    }

    /// The same reply, about a job by its number outside. It had the number in the term.
    pub fn reply_outside(&self, reply: Reply) -> Reply
        ensures { result ≡ reply_outside self.now reply }
    {
        match reply {
            Reply::Made(job) => Reply::Made(self.outside(job)),
            Reply::Placed(job, slot) => Reply::Placed(self.outside(job), slot),
            Reply::Job(job, status) => Reply::Job(self.outside(job), status),
            Reply::Cancelled(job, is_first) => Reply::Cancelled(self.outside(job), is_first),
            Reply::Released(job) => Reply::Released(self.outside(job)),
            other => other,
        }
    }
}
