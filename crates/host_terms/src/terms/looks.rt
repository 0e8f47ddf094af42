// How far a term is, and its jobs are.
ghost use Rattle.std.specs.Prelude.{◌≡◌, IfOk, IfSome, MatchOption, None, Some, false, true};
ghost use Rattle.host_terms.specs.Endings.{AreComplete, WasNext, WasOutcome, WasSo};
ghost use Rattle.host_terms.specs.Looks.{HadNothingToDo, IsDone, IsDoneTerm, IsLooked, WasFull};
ghost use Rattle.host_terms.specs.Bookings.{seen_of};

use super::HostTerm;
use job_language::{Error, Reply, Request, Status};
use server_house::Told;
use std::alloc::{AllocError, Global};
use std::sync::Wait;
use tenant_book::Naming;
use tenant_lock::TenantDoor;
use term_life::{Outcome, is_used};

impl<J: Naming> HostTerm<J> {
    /// Whether nothing is left that can be done: no row is open, and each job has its outcome; or the history is full;
    /// or all rows that are open wait to be started, and the tenant has no slot for workers.
    pub(crate) fn is_quiet<R: Wait>(&self, rt: &R) -> bool
        ensures { result ≡ true → IsDone (seen_of self.now) self.now.tenant }
    {
        match self.door() {
            Some(door) => self.has_nothing_to_do(rt, door) || self.is_full(rt, door),
            None => true,
        }
    }

    /// Whether it was left and nothing is left that can be done, or, if it is forced, whether it was left.
    pub(crate) fn may_end<R: Wait>(&self, rt: &R, is_forced: bool) -> bool
        ensures { result ≡ true → is_forced ≡ false → IsDoneTerm self.now }
    {
        self.is_left() && (is_forced || self.is_quiet(rt))
    }

    fn has_nothing_to_do<R: Wait>(&self, rt: &R, door: &TenantDoor<J>) -> bool
        requires { (seen_of self.now).life ≡ Some door.now.life }
        ensures { result ≡ true → HadNothingToDo (seen_of self.now) self.now.tenant }
    {
        let tenant = self.tenant.tenant();
        let tally = door.tally(rt, &mut door.front());
        let has_no_slot = tenant.reserved >= tenant.slots;
        (tally.open_rows == 0 && tally.jobs.running == 0)
            || (has_no_slot && tally.open_rows == tally.waiting_rows)
    }

    /// Whether its history is full.
    fn is_full<R: Wait>(&self, rt: &R, door: &TenantDoor<J>) -> bool
        requires { (seen_of self.now).life ≡ Some door.now.life }
        ensures { result ≡ true → WasFull (seen_of self.now) self.now.tenant }
    {
        door.counts(rt, &mut door.front()).entries >= self.tenant.tenant().steps
    }

    /// Whether its history has that many per cent of its steps.
    pub fn is_used<R: Wait>(&self, rt: &R, percent: u32) -> bool {
        match self.door() {
            Some(door) => {
                let entries = door.counts(rt, &mut door.front()).entries;
                is_used(entries, self.tenant.tenant().steps, percent)
            }
            None => false,
        }
    }

    /// The reply to a request about a job, by its number here, that a look is enough for: its history has no entry of
    /// it.
    pub fn look_up<R: Wait>(&self, rt: &R, request: &Request) -> Option<Told>
        ensures { IfSome result (IsLooked (seen_of self.now) request.now) }
    {
        let (job, waits) = match request {
            Request::Poll(job) => (*job, false),
            Request::Collect(job) => (*job, true),
            _ => return None,
        };
        let door = self.door()?;
        let reply = match door.status(rt, &mut door.front(), job) {
            None => Reply::Refused(Error::UnknownJob),
            Some(Status::Running) if waits => return None,
            Some(status) => Reply::Job(job, status),
        };
        Some(Told {
            reply,
            attended: None,
        })
    }

    /// How far its jobs are that are neither retired nor released, by rising numbers as they are known outside.
    pub(crate) fn outcomes<R: Wait>(
        &self,
        rt: &R,
        alloc: Global,
    ) -> Result<Vec<Outcome>, AllocError>
        ensures { IfOk result (λ outcomes. AreComplete (seen_of self.now) outcomes.items) }
    {
        let mut outcomes = Vec::new(alloc);
        let Some(door) = self.door() else {
            return Ok(outcomes);
        };
        let mut last = 0;
        for _job in rt.forever() {
            let Some(job) = self.next_job(rt, door, last) else {
                return Ok(outcomes);
            };
            if let Some(outcome) = self.outcome(rt, door, job) {
                outcomes.push(outcome)?;
            }
            last = job;
        }
        unreachable!()
    }

    /// The first of its jobs after that one that is neither retired nor released, by their numbers here.
    fn next_job<R: Wait>(&self, rt: &R, door: &TenantDoor<J>, after: u64) -> Option<u64>
        requires { (seen_of self.now).life ≡ Some door.now.life }
        ensures { WasNext (seen_of self.now) after result }
    {
        door.next_job(rt, &mut door.front(), after)
    }

    /// How far a job is, by its number here. None if it is retired or released, or was not made.
    fn outcome<R: Wait>(&self, rt: &R, door: &TenantDoor<J>, job: u64) -> Option<Outcome>
        requires { (seen_of self.now).life ≡ Some door.now.life }
        ensures { MatchOption result (WasSo (seen_of self.now) job None)
            (WasOutcome (seen_of self.now) job) }
    {
        let status = door.status(rt, &mut door.front(), job)?;
        Some(Outcome {
            job: self.span.outside(job),
            status,
        })
    }
}
