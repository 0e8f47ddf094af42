// What a tenant asks, and what it is answered.
ghost use Rattle.std.specs.Prelude.{◌≡◌, ◌+◌, ◌<◌, ◌==◌, false, OnErr, IfOk, IsSome, count_by, not};
ghost use Rattle.job_language.specs.Brought.{job_of};
ghost use Rattle.std.specs.Option.{option_map};
ghost use Rattle.solo_eval.specs.Limits.{limit_of};
ghost use Rattle.solo_eval.specs.Present.{HasRoom};
ghost use Rattle.tenant_model.specs.Asks.{ask, cancel_by_request, collect, current_jobs, submit_placed, free_slot, has_outcome, known_job, reply_to, retire, status, submit, unless_limit};

use crate::stacks::{any_open, has_outcome, height};
use crate::state::TenantState;
use job_language::{Error, Job, Key, Reply, Request, Status};
use std::alloc::AllocError;
use tenant_model::{MAX_JOBS, Phase, Work};

impl TenantState {
    /// Answers an ask. If an allocation failed, nothing has changed.
    pub(crate) fn ask(&mut self, request: Request) -> Result<Reply, AllocError>
        ensures ok { IfOk result (λ reply. ask self.old request ≡ (reply, self.new)) }
        ensures err { OnErr result (self.new ≡ self.old) }
        ensures brings { OnErr result (IsSome (job_of request)) }
    {
        match request {
            Request::Hello(_name) => Ok(Reply::Refused(Error::BadRequest)),
            _ if self.is_full() => Ok(Reply::Refused(Error::HistoryFull)),
            Request::Submit(job) => self.submit(job),
            Request::Execute(job) => self.submit_placed(job),
            Request::Poll(job) => Ok(self.poll(job)),
            Request::Collect(job) => Ok(self.collect(job)),
            Request::Cancel(job) => Ok(self.cancel_by_request(job)),
            Request::Cells(key) => Ok(self.cells_of(key)),
            Request::Arena => Ok(self.arena()),
            Request::Retire => Ok(self.retire()),
            Request::Release(job) => Ok(self.release(job)),
            Request::Take(job) => Ok(self.take_outcome(job)),
        }
    }

    fn submit(&mut self, job: Job) -> Result<Reply, AllocError>
        requires { HasRoom self.old }
        ensures ok { IfOk result
            (λ reply. unless_limit self.old (submit self.old job) ≡ (reply, self.new)) }
        ensures err { OnErr result (self.new ≡ self.old) }
    {
        if let Some(error) = self.limit() {
            self.enter();
            return Ok(Reply::Refused(error));
        }
        let number = self.jobs().len() as u64 + 1;
        self.add_job(job, Phase::Unstarted)?;
        self.enter();
        Ok(Reply::Made(number))
    }

    /// Makes a job, and places its root on a free reserved slot if there is one.
    fn submit_placed(&mut self, job: Job) -> Result<Reply, AllocError>
        requires { HasRoom self.old }
        ensures ok { IfOk result
            (λ reply. unless_limit self.old (submit_placed self.old job (free_slot self.old))
            ≡ (reply, self.new)) }
        ensures err { OnErr result (self.new ≡ self.old) }
    {
        let Some(slot) = self.free_slot() else {
            return self.submit(job);
        };
        if let Some(error) = self.limit() {
            self.enter();
            return Ok(Reply::Refused(error));
        }
        let number = self.jobs().len() as u64 + 1;
        self.add_job(job, Phase::Live(slot, 1))?;
        self.enter();
        Ok(Reply::Placed(number, slot))
    }

    /// Why no job can be made.
    fn limit(&self) -> Option<Error>
        ensures { result ≡ limit_of self.now }
    {
        if self.current_jobs() >= MAX_JOBS {
            return Some(Error::JobLimit);
        }
        if self.is_row_limit_met() {
            return Some(Error::TaskLimit);
        }
        None
    }

    /// How many jobs are not retired.
    fn current_jobs(&self) -> usize
        ensures { result ≡ current_jobs self.now }
    {
        count_current(self.jobs())
    }

    /// The least reserved slot with nothing on it.
    fn free_slot(&self) -> Option<u8>
        ensures { result ≡ free_slot self.now }
    {
        let reserved = self.config().reserved;
        for slot in 0..reserved {
            if height(self.rows(), slot) == 0 {
                return Some(slot);
            }
        }
        None
    }

    /// How far the job of a number is, unless it is retired.
    fn known_status(&self, number: u64) -> Option<Status>
        ensures { result ≡ option_map (status self.now.rows number) (known_job self.now number) }
    {
        let work = self.known_job(number)?;
        if has_outcome(self.rows(), number) {
            Some(self.outcome(work))
        } else {
            Some(Status::Running)
        }
    }

    fn poll(&mut self, number: u64) -> Reply
        requires { HasRoom self.old }
        ensures { reply_to self.old (Request.Poll number) ≡ (result, self.new) }
    {
        let status = self.known_status(number);
        self.enter();
        match status {
            Some(status) => Reply::Job(number, status),
            None => Reply::Refused(Error::UnknownJob),
        }
    }

    fn collect(&mut self, number: u64) -> Reply
        requires { HasRoom self.old }
        ensures { reply_to self.old (Request.Collect number) ≡ (result, self.new) }
    {
        match self.known_status(number) {
            Some(Status::Running) => Reply::Pending,
            Some(status) => {
                self.enter();
                Reply::Job(number, status)
            }
            None => {
                self.enter();
                Reply::Refused(Error::UnknownJob)
            }
        }
    }

    fn cancel_by_request(&mut self, number: u64) -> Reply
        requires { HasRoom self.old }
        ensures { reply_to self.old (Request.Cancel number) ≡ (result, self.new) }
    {
        let Some(work) = self.known_job(number) else {
            self.enter();
            return Reply::Refused(Error::UnknownJob);
        };
        if work.is_cancelled() || has_outcome(self.rows(), number) {
            self.enter();
            return Reply::Cancelled(number, false);
        }
        self.cancel_job(number);
        self.enter();
        Reply::Cancelled(number, true)
    }

    fn cells_of(&mut self, key: Key) -> Reply
        requires { HasRoom self.old }
        ensures { reply_to self.old (Request.Cells key) ≡ (result, self.new) }
    {
        let count = self.cells().count(key.index());
        let sum = self.cells().sum(key.index());
        self.enter();
        Reply::Cells(key, count as u64, sum)
    }

    fn arena(&mut self) -> Reply
        requires { HasRoom self.old }
        ensures { reply_to self.old Request.Arena ≡ (result, self.new) }
    {
        let config = self.config();
        let reply = Reply::Arena(config.priority, config.reserved, config.slots);
        self.enter();
        reply
    }

    fn retire(&mut self) -> Reply
        requires { HasRoom self.old }
        ensures { reply_to self.old Request.Retire ≡ (result, self.new) }
    {
        if any_open(self.rows()) {
            self.enter();
            return Reply::Refused(Error::Busy);
        }
        Reply::Epoch(self.retire_all())
    }

    /// Releases a job, unless it still runs.
    fn release(&mut self, number: u64) -> Reply
        requires { HasRoom self.old }
        ensures { reply_to self.old (Request.Release number) ≡ (result, self.new) }
    {
        if self.known_job(number).is_none() {
            self.enter();
            return Reply::Refused(Error::UnknownJob);
        }
        if !has_outcome(self.rows(), number) {
            self.enter();
            return Reply::Refused(Error::Busy);
        }
        self.release_job(number);
        self.enter();
        Reply::Released(number)
    }

    /// The outcome of a job, which is released with it.
    fn take_outcome(&mut self, number: u64) -> Reply
        requires { HasRoom self.old }
        ensures { reply_to self.old (Request.Take number) ≡ (result, self.new) }
    {
        let Some(work) = self.known_job(number) else {
            self.enter();
            return Reply::Refused(Error::UnknownJob);
        };
        if !has_outcome(self.rows(), number) {
            return Reply::Pending;
        }
        let outcome = self.outcome(work);
        self.release_job(number);
        self.enter();
        Reply::Job(number, outcome)
    }
}

/// How many jobs are not retired.
fn count_current(jobs: &[Work]) -> usize
    ensures { result ≡ count_by (λ w. not w.retired) jobs.now }
{
    let mut count = 0;
    for work in jobs {
        if !work.retired {
            count += 1;
        }
    }
    count
}
