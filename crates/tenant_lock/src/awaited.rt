// Who waits for which jobs.
ghost use Rattle.std.specs.Prelude.{◌≡◌, Some};
ghost use Rattle.tenant_lock.specs.Awaited.{
  AreWaitersTold,
  added,
  are_open,
  is_open,
  is_open_if_any,
  jobs_of,
  no_jobs,
};

use job_language::Status;
use tenant_record::TenantCell;

/// How many seats have a place for the job that they wait for. A server, and a generation of a host, has no more.
const NOTED: usize = 64;

/// The jobs for whose outcomes somebody may sleep who was not told to look again.
#[derive(Clone, Copy, Debug, PartialEq, Eq)]
pub(crate) struct AwaitedJobs {
    /// The job that each seat waits for, by the seat's number.
    noted: [Option<u64>; NOTED],
    /// Whether a seat that has no place may wait.
    others: bool,
}

impl AwaitedJobs {
    /// No job.
    fn none() -> AwaitedJobs
        ensures { result ≡ no_jobs }
    {
        AwaitedJobs {
            noted: [None; NOTED],
            others: false,
        }
    }

    /// Adds the job that a seat waits for.
    fn add(&mut self, seat: usize, job: u64)
        ensures { self.new ≡ added self.old seat job }
    {
        if seat < NOTED {
            self.noted[seat] = Some(job);
        } else {
            self.others = true;
        }
    }

    /// Whether those that are noted are there without an outcome, and nobody has to stop.
    fn are_open(&self, cell: &TenantCell, is_over: bool) -> bool
        ensures { result ≡ are_open cell.now is_over (Some self.now) }
    {
        self.noted
            .iter()
            .all(|noted| is_open_if_any(cell, is_over, *noted))
    }
}

/// Notes that a seat is about to sleep for a job.
pub(crate) fn note(awaited: &mut Option<AwaitedJobs>, seat: usize, job: u64)
    ensures { awaited.new ≡ Some (added (jobs_of awaited.old) seat job) }
{
    match awaited {
        Some(jobs) => jobs.add(seat, job),
        None => {
            let mut jobs = AwaitedJobs::none();
            jobs.add(seat, job);
            *awaited = Some(jobs);
        }
    }
}

/// Says whether those who sleep for jobs may go on after a call that made an entry, or none. If so, all are to be
/// woken, and are forgotten here: who has to sleep again is noted again.
pub(crate) fn tell_waiters(
    awaited: &mut Option<AwaitedJobs>,
    cell: &TenantCell,
    is_over: bool,
    is_entry: bool,
) -> bool
    ensures { AreWaitersTold cell.now is_over is_entry awaited.old result awaited.new }
{
    let is_told = match awaited {
        Some(jobs) => (is_entry && jobs.others) || !jobs.are_open(cell, is_over),
        None => false,
    };
    if is_told {
        *awaited = None;
    }
    is_told
}

/// Whether a job, if one is named, is there without an outcome, and nobody has to stop.
fn is_open_if_any(cell: &TenantCell, is_over: bool, job: Option<u64>) -> bool
    ensures { result ≡ is_open_if_any cell.now is_over job }
{
    match job {
        Some(job) => is_open(cell, is_over, job),
        None => true,
    }
}

/// Whether a job is there without an outcome, and nobody has to stop.
pub(crate) fn is_open(cell: &TenantCell, is_over: bool, job: u64) -> bool
    ensures { result ≡ is_open cell.now is_over job }
{
    !is_over && matches!(cell.status(job), Some(Status::Running))
}
