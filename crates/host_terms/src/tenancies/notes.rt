// What a tenant answers of its closed terms, what it forgets of them, and where that is noted.
ghost use Rattle.host_terms.specs.Looks.{IsKeptAnswer};

use super::Tenancy;
use host_records::Notes;
use job_language::{Reply, Request};
use std::alloc::Global;
use std::io;
use std::io::ErrorKind;
use std::sync::Wait;
use tenant_book::Naming;

impl<J: Naming> Tenancy<J> {
    /// The reply to a request about a job, by its number outside, whose term is closed, once it is noted if the job is
    /// released.
    pub fn answer_closed<R: Wait>(&self, rt: &R, job: u64, request: &Request) -> Reply
        ensures { IsKeptAnswer request.now job result }
    {
        self.lives.lock(rt).outcomes.answer(job, request)
    }

    /// What is forgotten of terms that are closed is noted there from now on.
    pub fn note_in<R: Wait>(&self, rt: &R, notes: Notes) {
        *self.notes.lock(rt) = Some(notes);
    }

    /// Whether something could not be noted since this was asked last, other than for lack of memory.
    pub fn take_note_failure<R: Wait>(&self, rt: &R) -> bool {
        match &mut *self.notes.lock(rt) {
            Some(notes) => notes.take_failure(),
            None => false,
        }
    }

    /// Notes that a job, by its number outside, is released, whose term is closed.
    pub fn note_release<R: Wait>(&self, rt: &R, alloc: Global, job: u64) -> io::Result<()> {
        match &mut *self.notes.lock(rt) {
            Some(notes) => notes.release(alloc, job),
            None => Err(io::Error::from(ErrorKind::NotFound)),
        }
    }

    /// Notes that all jobs are retired whose terms are before the one of that number.
    pub fn note_retired<R: Wait>(&self, rt: &R, alloc: Global, before: u64) -> io::Result<()> {
        match &mut *self.notes.lock(rt) {
            Some(notes) => notes.retire(alloc, before),
            None => Err(io::Error::from(ErrorKind::NotFound)),
        }
    }

    /// Whether jobs of terms before the one of that number may be known.
    pub fn has_jobs_before<R: Wait>(&self, rt: &R, number: u64) -> bool {
        let lives = self.lives.lock(rt);
        lives.retired < number
            && (!lives.outcomes.is_empty()
                || lives.terms.all().iter().any(|term| term.number < number))
    }

    /// The jobs of all terms before the one of that number are retired.
    pub fn retire_before<R: Wait>(&self, rt: &R, number: u64) {
        let mut lives = self.lives.lock(rt);
        lives.outcomes.clear_before(number);
        lives.retired = lives.retired.max(number);
    }
}
