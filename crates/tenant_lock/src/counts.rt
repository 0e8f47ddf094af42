// How much of a tenant's history is used, how far its jobs are, and what waits.

use job_language::Status;

/// How many entries a tenant's history has by now.
#[derive(Clone, Copy, Debug, PartialEq, Eq)]
pub struct Counts {
    /// All entries: requests that were asked, arrivals and advances.
    pub entries: usize,
    /// Those that are requests.
    pub asks: usize,
}

/// How many jobs of a tenant are how far, of those that are neither retired nor released.
#[derive(Clone, Copy, Debug, PartialEq, Eq, Default)]
pub struct JobTally {
    pub running: u64,
    pub complete: u64,
    pub cancelled: u64,
    pub faulted: u64,
}

impl JobTally {
    /// Counts one more job.
    pub(crate) fn add(&mut self, status: Status) {
        let count = match status {
            Status::Running => &mut self.running,
            Status::Complete(_) => &mut self.complete,
            Status::Cancelled => &mut self.cancelled,
            Status::Fault(_) => &mut self.faulted,
        };
        *count = count.saturating_add(1);
    }
}

/// What a tenant has at one moment.
#[derive(Clone, Copy, Debug, PartialEq, Eq)]
pub struct Tally {
    pub jobs: JobTally,
    /// Rows that wait to be started or are live on a slot.
    pub open_rows: usize,
    /// Those of them that wait to be started.
    pub waiting_rows: usize,
}
