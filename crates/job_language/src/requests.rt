// What is asked of a tenant's arena.
ghost use Rattle.std.specs.Prelude.{◌≡◌, option_map, IfOk, IsSome, OnErr};
ghost use Rattle.job_language.specs.Brought.{job_of, BringsValid};

use crate::instructions::Key;
use crate::jobs::Job;
use crate::names::TenantName;
use std::alloc::AllocError;

/// A request, with its job read.
#[derive(Drop)]
pub enum Request {
    /// Binds a connection to the tenant of that name; a text that can't name a tenant is `None`.
    Hello(Option<TenantName>),
    /// Makes a job, whose root any slot may take.
    Submit(Job),
    /// Makes a job, whose root runs on a free reserved slot if there is one.
    Execute(Job),
    /// The status of a job.
    Poll(u64),
    /// The outcome of a job; pending until there is one.
    Collect(u64),
    /// Cancels a job.
    Cancel(u64),
    /// The number and the sum of a key's cells.
    Cells(Key),
    /// What the tenant's arena is given.
    Arena,
    /// Retires all jobs and empties the cells.
    Retire,
    /// Forgets a job that has an outcome, as if it were retired.
    Release(u64),
    /// The outcome of a job, which is released with it; pending until there is one.
    Take(u64),
}

impl Request {
    /// The same request. It fails only if it brings a job, as `Program::try_clone` does.
    pub fn try_clone(&self) -> Result<Request, AllocError>
        ensures ok { IfOk result (λ request. request ≡ self.now) }
        ensures brings { OnErr result (IsSome (job_of self.now)) }
    {
        match self {
            Request::Hello(name) => Ok(Request::Hello(*name)),
            Request::Submit(job) => Ok(Request::Submit(job.try_clone()?)),
            Request::Execute(job) => Ok(Request::Execute(job.try_clone()?)),
            Request::Poll(job) => Ok(Request::Poll(*job)),
            Request::Collect(job) => Ok(Request::Collect(*job)),
            Request::Cancel(job) => Ok(Request::Cancel(*job)),
            Request::Cells(key) => Ok(Request::Cells(*key)),
            Request::Arena => Ok(Request::Arena),
            Request::Retire => Ok(Request::Retire),
            Request::Release(job) => Ok(Request::Release(*job)),
            Request::Take(job) => Ok(Request::Take(*job)),
        }
    }

    /// The job that it brings, of a valid program.
    pub fn job(&self) -> Option<&Job>
        ensures value { option_map (λ job. job.now) result ≡ job_of self.now }
        ensures valid { BringsValid self.now }
    {
        match self {
            Request::Submit(job) | Request::Execute(job) => {
                // Proof hint: a program is valid by its type.
                let _ = job.program.procs();
                Some(job)
            }
            _ => None,
        }
    }
}
