// Jobs whose outcome a session waits for.
ghost use Rattle.std.specs.Prelude.{◌≡◌, ◌≢◌, IfSome};
ghost use Rattle.nested_wait.specs.Runs.{Attends};
ghost use Rattle.nested_wait.specs.Turns.{Turn};
ghost use Rattle.session_core.specs.Waiting.{collecting, Collects, Executes, Follows};

use crate::doors::{Answered, Doors};
use job_language::{Error, Job, Reply, Request};
use nested_wait::{Attended, attend};

/// Asks for the outcome of a job until it is there, and has the job released with it if asked to.
/// `None` if a pause says to stop, or after 2^64 - 1 tries.
pub(crate) fn collect<D: Doors>(doors: &mut D, releases: bool, job: u64) -> Option<Reply>
    ensures collects { Collects D.asks D.waits releases job result doors.old doors.new }
    ensures told { IfSome result (λ reply. reply ≢ Reply.Pending) }
{
    for _turn in 0..u64::MAX {
        match doors.ask(collecting(releases, job)).reply {
            Reply::Pending => {
                if doors.pause_for(job) {
                    return None;
                }
            }
            reply => return Some(reply),
        }
    }
    None
}

/// Makes a job and waits for its outcome. If it was placed on a slot, this session attends the slot
/// until it is free.
pub(crate) fn execute<D: Doors>(doors: &mut D, job: Job) -> Option<Reply>
    ensures executes { Executes D.asks D.waits
        (Attends (Turn D.views D.commits D.advances) D.heights D.pauses 1) job result doors.old
        doors.new }
    ensures told { IfSome result (λ reply. reply ≢ Reply.Pending) }
{
    let answered = doors.ask(Request::Execute(job));
    match answered.reply {
        Reply::Made(job) | Reply::Placed(job, _) => follow(doors, job, answered.placed),
        reply => Some(reply),
    }
}

/// Waits for the outcome of a job that was made.
fn follow<D: Doors>(doors: &mut D, job: u64, placed: bool) -> Option<Reply>
    ensures follows { Follows D.asks D.waits
        (Attends (Turn D.views D.commits D.advances) D.heights D.pauses 1) job placed result
        doors.old doors.new }
    ensures told { IfSome result (λ reply. reply ≢ Reply.Pending) }
{
    if placed {
        match attend(doors, 1) {
            Attended::Below => {}
            Attended::Full => return Some(Reply::Refused(Error::HistoryFull)),
            Attended::Stopped => return None,
        }
    }
    collect(doors, false, job)
}

/// The request that collects a job, and releases it if it is to.
fn collecting(releases: bool, job: u64) -> Request
    ensures { result ≡ collecting releases job }
{
    if releases {
        Request::Take(job)
    } else {
        Request::Collect(job)
    }
}
