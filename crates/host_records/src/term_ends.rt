// A term that is closed, and what becomes of its jobs.
ghost use Rattle.std.specs.Prelude.{◌≡◌};
ghost use Rattle.host_records.specs.Endings.{is_left_over, left_over, lost};

use job_language::TenantConfig;
use tenant_lock::{CloseFault, Closed};
use term_life::{Outcome, Span, Why, running};

/// A term that is closed.
pub struct TermEnd {
    pub span: Span,
    pub tenant: TenantConfig,
    /// When it was opened, in seconds since 1970.
    pub began: u64,
    /// Why it was left.
    pub why: Why,
    /// How far its jobs are that are neither retired nor released.
    pub outcomes: Vec<Outcome>,
    /// Whether its journal has all of its history.
    pub is_journaled: bool,
    /// Its tenant's history, or what is wrong. None if somebody was still there.
    pub end: Option<Result<Closed, CloseFault>>,
}

impl Drop for TermEnd {
    // An owner drops it in one call, not part by part at each of its ways out.
    fn drop(self) {
        let TermEnd {
            span: _span,
            tenant: _tenant,
            began: _began,
            why: _why,
            outcomes: _outcomes,
            is_journaled: _is_journaled,
            end: _end,
        } = self;
    }
}

impl TermEnd {
    /// How many jobs have no outcome, and get none.
    pub fn lost(&self) -> usize
        ensures { result ≡ lost self.now }
    {
        if self.is_left_over() {
            0
        } else {
            running(self.outcomes.as_slice())
        }
    }

    /// How many jobs have no outcome, and get theirs at the host's next start.
    pub fn left_over(&self) -> usize
        ensures { result ≡ left_over self.now }
    {
        if self.is_left_over() {
            running(self.outcomes.as_slice())
        } else {
            0
        }
    }

    /// Whether its journal is to be finished at the host's next start: some jobs have no outcome, its tenant has a slot
    /// for workers, and its history, all of which the journal has, has room for more.
    pub fn is_left_over(&self) -> bool
        ensures { result ≡ is_left_over self.now }
    {
        let tenant = self.tenant.tenant();
        let has_room = match &self.end {
            Some(Ok(closed)) => closed.history.len() < tenant.steps,
            _ => false,
        };
        self.is_journaled
            && has_room
            && tenant.reserved < tenant.slots
            && running(self.outcomes.as_slice()) > 0
    }
}
