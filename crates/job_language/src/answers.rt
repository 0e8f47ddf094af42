// What a tenant's arena answers to requests, arrivals and advances.
ghost use Rattle.std.specs.Prelude.{◌≡◌};
ghost use Rattle.job_language.specs.Recorded.{is_entry, is_recorded_reply};

use crate::errors::{Error, JobFault};
use crate::instructions::Key;
use crate::names::TenantName;
use crate::tenants::Level;

/// How far a job is, or its outcome.
#[derive(Clone, Copy, Debug, PartialEq, Eq)]
pub enum Status {
    Running,
    Cancelled,
    /// It completed, with its root's value.
    Complete(i64),
    Fault(JobFault),
}

/// The answer to a request. Jobs are numbered from 1, slots from 0.
#[derive(Clone, Copy, Debug, PartialEq, Eq)]
pub enum Reply {
    /// The connection is bound to the tenant.
    Bound(TenantName),
    /// The job is made; its root is not started.
    Made(u64),
    /// The job is made, and its root runs on the slot.
    Placed(u64, u8),
    /// How far the job is.
    Job(u64, Status),
    /// Whether this was the first cancel of a job that had no outcome.
    Cancelled(u64, bool),
    /// The number of the key's cells, and their sum.
    Cells(Key, u64, i64),
    /// The priority, the number of reserved slots and the number of slots.
    Arena(Level, u8, u8),
    /// The number of times that the tenant's jobs were retired.
    Epoch(u64),
    /// The job is released.
    Released(u64),
    Refused(Error),
    /// The job has no outcome yet. It is never written.
    Pending,
}

impl Reply {
    /// Whether an ask with this reply is recorded in the tenant's history.
    pub fn is_recorded(&self) -> bool
        ensures { result ≡ is_recorded_reply self.now }
    {
        match self {
            Reply::Bound(_) | Reply::Pending => false,
            Reply::Refused(error) => error.is_recorded(),
            _ => true,
        }
    }
}

/// What an advance of a slot did.
#[derive(Clone, Copy, Debug, PartialEq, Eq)]
pub enum Moved {
    /// The topmost row ran.
    Ran,
    /// The row of that number is now on top of the slot.
    Nested(u64),
    /// The topmost row ran, and left a reserved slot empty.
    Freed,
    /// A worker's slot is empty, and no row is there for it.
    Left,
    /// Nothing can run now.
    Idle,
    /// A commit whose run started from a frame that is no longer the slot's.
    Stale,
    /// The history is at its limit.
    Full,
}

/// What an arrival at a worker's slot found.
#[derive(Clone, Copy, Debug, PartialEq, Eq)]
pub enum Came {
    /// The row of that number now runs on the slot.
    At(u64),
    Nothing,
    /// The history is at its limit.
    Full,
}

/// The answer to a step.
#[derive(Clone, Copy, Debug, PartialEq, Eq)]
pub enum Answer {
    Replied(Reply),
    Came(Came),
    Moved(Moved),
}

impl Answer {
    /// Whether a step with this answer is an entry of the tenant's history. A step that is not has
    /// changed nothing.
    pub fn is_entry(&self) -> bool
        ensures { result ≡ is_entry self.now }
    {
        match self {
            Answer::Replied(reply) => reply.is_recorded(),
            Answer::Came(Came::At(_)) => true,
            Answer::Came(Came::Nothing | Came::Full) => false,
            Answer::Moved(Moved::Ran | Moved::Nested(_) | Moved::Freed) => true,
            Answer::Moved(Moved::Left | Moved::Idle | Moved::Stale | Moved::Full) => false,
        }
    }
}
