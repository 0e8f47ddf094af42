// A tenant behind its door.
ghost use Rattle.std.specs.Prelude.{◌≡◌, IfSome};

mod closing;
mod handing;
mod pauses;
mod waits;

use job_json::read_canonical_job;
use job_language::{Came, Moved, Reply, Request, TenantConfig};
use market_config::Call;
pub(super) use pauses::{pause, waiting};
use std::alloc::Global;
use std::slice;
use std::sync::Wait;
use std::test::Fail;
use tenant_book::Naming;
use tenant_lock::{CloseFault, Closed, TenantDoor};
use tenant_record::{Advanced, Arrived, AskOutcome, Pass, Seat, TenantCell};

/// The call of the only slot for workers.
pub(super) const CALL: Call = Call { tenant: 0, slot: 1 };

/// A tenant of so many slots, the first of them reserved, whose history has room for so many entries.
pub(super) fn tenant(slots: u8, steps: usize) -> Result<TenantConfig, Fail> {
    let config = worked_jobs::tenant("acme", slots, 1, steps).ok_or("a tenant")?;
    Ok(config)
}

fn two_slots() -> Result<TenantConfig, Fail> {
    tenant(2, 256)
}

/// A job that returns its first argument, 7.
const RETURNS_SEVEN: &str = r#"{"args":[7,0],"fuel":10,"procs":[[["ret",0]]]}"#;

/// Closes the door, whose history begins with what it shows to whoever comes.
pub(in crate::tests) fn closed<J: Naming, R: Wait>(
    rt: &R,
    door: TenantDoor<J>,
    seats: Vec<Seat>,
) -> Result<Closed, CloseFault> {
    let seen = door.front();
    door.close(rt, slice::from_ref(&seen), seats)
}

/// What an ask is answered, and which slot it makes due.
pub(super) type Answer = (Reply, Option<u8>);

/// Asks by a seat, if that is one of the door's.
pub(super) fn ask<J: Naming, R: Wait>(
    rt: &R,
    door: &TenantDoor<J>,
    seat: &mut Seat,
    request: Request,
) -> Option<Answer> {
    if seat.tenant() != door.tenant() {
        return None;
    }
    let AskOutcome { reply, due, pass } = door.ask(rt, &mut door.front(), seat, request);
    give_home(rt, door, pass);
    Some((reply, due))
}

/// Submits the job.
fn submit<J: Naming, R: Wait>(
    rt: &R,
    alloc: Global,
    door: &TenantDoor<J>,
    seat: &mut Seat,
) -> Option<Answer> {
    let job = read_canonical_job(alloc, RETURNS_SEVEN.as_bytes())?;
    ask(rt, door, seat, Request::Submit(job))
}

/// Polls a job.
pub(super) fn poll<J: Naming, R: Wait>(
    rt: &R,
    door: &TenantDoor<J>,
    seat: &mut Seat,
    job: u64,
) -> Option<Reply> {
    let (reply, _) = ask(rt, door, seat, Request::Poll(job))?;
    Some(reply)
}

/// Gives a pass home, if there is one. If rows are on its slot, the door is stopped first.
pub(super) fn give_home<J: Naming, R: Wait>(rt: &R, door: &TenantDoor<J>, pass: Option<Pass>) {
    if let Some(pass) = own(rt, door, pass) {
        if door.height(rt, &mut door.front(), &pass) > 0 {
            door.stop(rt);
        }
        door.give_home(rt, &mut door.front(), pass);
    }
}

/// The pass, if there is one. It is of the door's tenant, or this does not return.
fn own<J: Naming, R: Wait>(rt: &R, door: &TenantDoor<J>, pass: Option<Pass>) -> Option<Pass>
    ensures { IfSome result (λ p. p.tenant ≡ door.now.tenant) }
{
    let pass = pass?;
    for _ in rt.forever() {
        if pass.tenant() == door.tenant() {
            return Some(pass);
        }
    }
    unreachable!()
}

/// Ends a pass: it goes home to a cell of its own. It is one of this tenant's, or this does not return.
fn end<R: Wait>(rt: &R, mut cell: TenantCell, pass: Option<Pass>) {
    let Some(pass) = pass else {
        return;
    };
    for _ in rt.forever() {
        if pass.tenant() == cell.tenant() && pass.slot() < cell.config().slots {
            return cell.give_home(pass);
        }
    }
    unreachable!()
}

/// Lets a worker arrive: the answer, and the pass if a row was found.
pub(super) fn arrive<J: Naming, R: Wait>(
    rt: &R,
    door: &TenantDoor<J>,
    call: Call,
) -> (Came, Option<Pass>) {
    let Arrived {
        came,
        due: _due,
        pass,
    } = door.arrive(rt, &mut door.front(), call);
    (came, pass)
}

/// What a move of a slot is answered, if there was one, and the pass, unless it went home.
pub(super) type Moving = (Option<Moved>, Option<Pass>);

/// Advances the slot of a pass, if that is one of the door's.
pub(super) fn advance<J: Naming, R: Wait>(
    rt: &R,
    door: &TenantDoor<J>,
    pass: Option<Pass>,
) -> Moving {
    let Some(pass) = own(rt, door, pass) else {
        return (None, None);
    };
    let Advanced {
        moved,
        due: _due,
        pass,
    } = door.advance(rt, &mut door.front(), pass);
    (Some(moved), pass)
}

/// Submits the job by the first seat, and lets a worker arrive at it. The worker's pass.
fn submit_and_arrive<J: Naming, R: Wait>(
    rt: &R,
    alloc: Global,
    door: &TenantDoor<J>,
    seats: &mut [Seat],
) -> Option<Pass> {
    let _made = submit(rt, alloc, door, seats.first_mut()?);
    arrive(rt, door, CALL).1
}

/// Submits the job by the first seat, and lets a worker arrive at it and run it.
fn submit_and_run<J: Naming, R: Wait>(
    rt: &R,
    alloc: Global,
    door: &TenantDoor<J>,
    seats: &mut [Seat],
) -> Moving {
    let pass = submit_and_arrive(rt, alloc, door, seats);
    advance(rt, door, pass)
}

/// Submits the job by the first seat.
fn submit_first<J: Naming, R: Wait>(
    rt: &R,
    alloc: Global,
    door: &TenantDoor<J>,
    seats: &mut [Seat],
) -> Option<Answer> {
    submit(rt, alloc, door, seats.first_mut()?)
}
