// What a tenant asks, and what it is answered.
ghost use Rattle.std.specs.Prelude.{◌≡◌, ◌<◌, length, None};
ghost use Rattle.std.specs.Option.{option_map_or};
ghost use Rattle.tenant_model.specs.State.{State};
ghost use Rattle.tenant_model.specs.declared.works.TheConstants.{MAX_JOBS};
ghost use Rattle.tenant_model.specs.Changes.{entry};
ghost use Rattle.tenant_model.specs.Asks.{ask, free_slot, reply_to, submit, submit_placed, unless_limit};
ghost use Rattle.arena_rows.specs.Held.{HasFreePlace};
ghost use Rattle.arena_rows.specs.Represents.{Rests, Gives};
ghost use Rattle.arena_core.specs.Stands.{IsOfSomeState};

use arena_rows::Parts;
use job_language::{Error, Job, Key, Reply, Request, Status};
use tenant_model::MAX_JOBS;

/// Answers an ask.
pub(crate) fn ask(parts: &mut Parts, request: Request) -> Reply
    requires { IsOfSomeState parts.old }
    ensures { (s : State) → Rests parts.old s → Gives parts.new result (ask s request) }
{
    match request {
        Request::Hello(_name) => Reply::Refused(Error::BadRequest),
        _ if parts.is_full() => Reply::Refused(Error::HistoryFull),
        Request::Submit(job) => submit(parts, job),
        Request::Execute(job) => submit_placed(parts, job),
        Request::Poll(job) => poll(parts, job),
        Request::Collect(job) => collect(parts, job),
        Request::Cancel(job) => cancel(parts, job),
        Request::Cells(key) => cells_of(parts, key),
        Request::Arena => arena(parts),
        Request::Retire => retire(parts),
        Request::Release(job) => release(parts, job),
        Request::Take(job) => take_outcome(parts, job),
    }
}

/// Refuses what can't be, which is an entry too.
fn refuse(parts: &mut Parts, error: Error) -> Reply
    requires room { parts.old.entries < parts.old.config.steps }
    ensures { (s : State) → Rests parts.old s
        → Gives parts.new result (Reply.Refused error, entry s) }
{
    parts.enter();
    Reply::Refused(error)
}

/// Makes a job, whose root waits to be started.
fn submit(parts: &mut Parts, job: Job) -> Reply
    requires some { IsOfSomeState parts.old }
    requires room { parts.old.entries < parts.old.config.steps }
    ensures { (s : State) → Rests parts.old s
        → Gives parts.new result (unless_limit s (submit s job)) }
{
    if let Some(error) = limit(parts) {
        return refuse(parts, error);
    }
    // Proof hint: the tenant's steps are limited, and so are its rows.
    let _ = parts.config();
    parts.submit(job);
    parts.enter();
    Reply::Made(parts.job_count())
}

/// Makes a job, and places its root on a free reserved slot if there is one.
fn submit_placed(parts: &mut Parts, job: Job) -> Reply
    requires some { IsOfSomeState parts.old }
    requires room { parts.old.entries < parts.old.config.steps }
    ensures { (s : State) → Rests parts.old s
        → Gives parts.new result (unless_limit s (submit_placed s job (free_slot s))) }
{
    let Some(slot) = parts.free_slot() else {
        return submit(parts, job);
    };
    if let Some(error) = limit(parts) {
        return refuse(parts, error);
    }
    // Proof hint: the tenant's steps are limited, and so are its rows.
    let _ = parts.config();
    parts.place(job, slot);
    parts.enter();
    Reply::Placed(parts.job_count(), slot)
}

/// Why no job can be made.
fn limit(parts: &Parts) -> Option<Error>
    ensures value { (s : State) (made : Reply × State) → Rests parts.now s
        → unless_limit s made ≡ option_map_or
        (λ error. (Reply.Refused error, entry s)) result made }
    ensures jobs { result ≡ None → length parts.now.jobs < MAX_JOBS }
    ensures rows { result ≡ None → HasFreePlace parts.now }
{
    if parts.is_job_limit_met() {
        return Some(Error::JobLimit);
    }
    if parts.is_row_limit_met() {
        return Some(Error::TaskLimit);
    }
    None
}

fn poll(parts: &mut Parts, number: u64) -> Reply
    requires room { parts.old.entries < parts.old.config.steps }
    ensures { (s : State) → Rests parts.old s
        → Gives parts.new result (reply_to s (Request.Poll number)) }
{
    let Some(status) = parts.status(number) else {
        return refuse(parts, Error::UnknownJob);
    };
    parts.enter();
    Reply::Job(number, status)
}

fn collect(parts: &mut Parts, number: u64) -> Reply
    requires room { parts.old.entries < parts.old.config.steps }
    ensures { (s : State) → Rests parts.old s
        → Gives parts.new result (reply_to s (Request.Collect number)) }
{
    let Some(status) = parts.status(number) else {
        return refuse(parts, Error::UnknownJob);
    };
    if let Status::Running = status {
        return Reply::Pending;
    }
    parts.enter();
    Reply::Job(number, status)
}

/// Cancels a job. What waits in it is dropped.
fn cancel(parts: &mut Parts, number: u64) -> Reply
    requires some { IsOfSomeState parts.old }
    requires room { parts.old.entries < parts.old.config.steps }
    ensures { (s : State) → Rests parts.old s
        → Gives parts.new result (reply_to s (Request.Cancel number)) }
{
    let Some(is_first) = parts.is_first_cancel(number) else {
        return refuse(parts, Error::UnknownJob);
    };
    if is_first {
        parts.cancel_job(number);
        parts.enter_and_settle();
    } else {
        parts.enter();
    }
    Reply::Cancelled(number, is_first)
}

fn cells_of(parts: &mut Parts, key: Key) -> Reply
    requires room { parts.old.entries < parts.old.config.steps }
    ensures { (s : State) → Rests parts.old s
        → Gives parts.new result (reply_to s (Request.Cells key)) }
{
    let count = parts.cell_count(key) as u64;
    let sum = parts.cell_sum(key);
    parts.enter();
    Reply::Cells(key, count, sum)
}

fn arena(parts: &mut Parts) -> Reply
    requires room { parts.old.entries < parts.old.config.steps }
    ensures { (s : State) → Rests parts.old s → Gives parts.new result (reply_to s Request.Arena) }
{
    let config = parts.config();
    let reply = Reply::Arena(config.priority, config.reserved, config.slots);
    parts.enter();
    reply
}

/// Retires all jobs, unless a row is open.
fn retire(parts: &mut Parts) -> Reply
    requires some { IsOfSomeState parts.old }
    requires room { parts.old.entries < parts.old.config.steps }
    ensures { (s : State) → Rests parts.old s → Gives parts.new result (reply_to s Request.Retire) }
{
    if parts.is_busy() {
        return refuse(parts, Error::Busy);
    }
    parts.retire();
    Reply::Epoch(parts.epoch())
}

/// Releases a job, unless it still runs.
fn release(parts: &mut Parts, number: u64) -> Reply
    requires some { IsOfSomeState parts.old }
    requires room { parts.old.entries < parts.old.config.steps }
    ensures { (s : State) → Rests parts.old s
        → Gives parts.new result (reply_to s (Request.Release number)) }
{
    let Some(status) = parts.status(number) else {
        return refuse(parts, Error::UnknownJob);
    };
    if let Status::Running = status {
        return refuse(parts, Error::Busy);
    }
    parts.release(number);
    Reply::Released(number)
}

/// The outcome of a job, which is released with it.
fn take_outcome(parts: &mut Parts, number: u64) -> Reply
    requires some { IsOfSomeState parts.old }
    requires room { parts.old.entries < parts.old.config.steps }
    ensures { (s : State) → Rests parts.old s
        → Gives parts.new result (reply_to s (Request.Take number)) }
{
    let Some(status) = parts.status(number) else {
        return refuse(parts, Error::UnknownJob);
    };
    if let Status::Running = status {
        return Reply::Pending;
    }
    parts.release(number);
    Reply::Job(number, status)
}
