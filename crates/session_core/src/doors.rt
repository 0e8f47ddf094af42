// What a session asks of the tenants.
ghost use Rattle.std.specs.Prelude.{◌≡◌, ℕ, List, Bool, OnErr, Option, Result};
ghost use Rattle.job_language.specs.Collecting.{IsCollect};
ghost use Rattle.job_language.specs.declared.errors.Error.{Error};
ghost use Rattle.job_language.specs.declared.requests.Request.{Request};
ghost use Rattle.session_core.specs.declared.doors.Answered.{Answered};

use job_language::{Error, Reply, Request, TenantName};
use nested_wait::Door;

/// The answer to a request.
#[derive(Clone, Copy, Debug, PartialEq, Eq)]
pub struct Answered {
    pub reply: Reply,
    /// Whether the doors now lead to the slot that the job was placed on. They do until it is free,
    /// or its history is full, or a pause says to stop.
    pub placed: bool,
}

/// One session's ways to all tenants, of which it is bound to at most one. Others may act on the
/// tenants between two calls, so what each call may answer and lead to is a relation that the
/// implementation gives. Tenants are numbered from 0, jobs from 1.
pub trait Doors: Door {
    /// Which tenant may have a name.
    ghost finds: { Self → List ℕ → Option ℕ → Type 0 };

    /// What binding a tenant may answer and lead to.
    ghost binds: { Self → ℕ → List ℕ → Result (Unit {0}) Error → Self → Type 0 };

    /// What a request with this answer may lead to.
    ghost asks: { Self → Request → Answered → Self → Type 0 };

    /// What waiting for a job, with this answer, may lead to.
    ghost waits: { Self → ℕ → Bool → Self → Type 0 };

    /// The tenant of a name, if it has one.
    fn find(&self, name: TenantName) -> Option<usize>
        ensures { finds self.now name result };

    /// Binds the session to a tenant, which was found by that name. Requests are asked of it from then on. The error is
    /// the reply to a hello that is refused, which leaves the session as it was.
    fn bind(&mut self, tenant: usize, name: TenantName) -> Result<(), Error>
        ensures binds { binds self.old tenant name result self.new }
        ensures refused { OnErr result (self.new ≡ self.old) };

    /// Asks the tenant that is bound.
    fn ask(&mut self, request: Request) -> Answered
        ensures answered { asks self.old request result self.new }
        // A collect alone waits for an outcome.
        ensures pending { result.reply ≡ Reply.Pending → IsCollect request };

    /// Waits while a job of the bound tenant has no outcome, and says whether to stop.
    fn pause_for(&mut self, job: u64) -> bool
        ensures { waits self.old job result self.new };
}
