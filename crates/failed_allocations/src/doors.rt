// The calls of a tenant's door, each made again if an allocation failed.
ghost use Rattle.std.specs.Prelude.{◌≡◌};

use crate::jobs::{MOVES, fibonacci, status_of, tenant};
use crate::retries::again;
use job_language::{Error, Moved, Reply, Request, Status};
use job_step::{Segment, View, segment_of};
use market_config::Call;
use std::alloc::Global;
use std::marker::Brand;
use std::slice;
use std::sync::Wait;
use tenant_book::{Naming, OpenedRegistry, Registry};
use tenant_lock::TenantDoor;
use tenant_record::{Advanced, Arrived, AskOutcome, Pass, Seat};

/// The call of the slot for workers.
const CALL: Call = Call { tenant: 0, slot: 1 };

/// The outcome of the job, if it is submitted and a worker moves it.
pub(crate) fn submitted<R: Wait>(rt: &R, alloc: Global) -> Option<Status> {
    submitted_in::<Brand, R>(rt, alloc, OpenedRegistry::new())
}

fn submitted_in<J: Naming, R: Wait>(rt: &R, alloc: Global, opened: OpenedRegistry) -> Option<Status>
    requires { opened ≡ J.registry }
{
    let registry: Registry<J> = opened.named();
    let (door, mut seats) = again(|| new_door(rt, alloc, &registry))?;
    let status = submit(rt, alloc, &door, seats.as_mut_slice());
    close(rt, door, seats)?;
    status
}

fn submit<J: Naming, R: Wait>(
    rt: &R,
    alloc: Global,
    door: &TenantDoor<J>,
    seats: &mut [Seat],
) -> Option<Status> {
    let seat = seats.first_mut()?;
    let asked = ask_job(rt, door, seat, || Some(Request::Submit(fibonacci(alloc)?)))?;
    let Reply::Made(job) = reply_of(rt, door, asked) else {
        return None;
    };
    work(rt, door)?;
    let collected = ask(rt, door, seat, Request::Collect(job))?;
    status_of(&reply_of(rt, door, collected))
}

/// The outcome of the job, if it is executed by private runs that are committed.
pub(crate) fn executed<R: Wait>(rt: &R, alloc: Global) -> Option<Status> {
    executed_in::<Brand, R>(rt, alloc, OpenedRegistry::new())
}

fn executed_in<J: Naming, R: Wait>(rt: &R, alloc: Global, opened: OpenedRegistry) -> Option<Status>
    requires { opened ≡ J.registry }
{
    let registry: Registry<J> = opened.named();
    let (door, mut seats) = again(|| new_door(rt, alloc, &registry))?;
    let status = execute(rt, alloc, &door, seats.as_mut_slice());
    close(rt, door, seats)?;
    status
}

fn execute<J: Naming, R: Wait>(
    rt: &R,
    alloc: Global,
    door: &TenantDoor<J>,
    seats: &mut [Seat],
) -> Option<Status> {
    let seat = seats.first_mut()?;
    let asked = ask_job(rt, door, seat, || Some(Request::Execute(fibonacci(alloc)?)))?;
    let AskOutcome {
        reply,
        due: _due,
        pass,
    } = asked;
    commit_all(rt, door, pass?)?;
    let Reply::Placed(job, _) = reply else {
        return None;
    };
    work(rt, door)?;
    let collected = ask(rt, door, seat, Request::Collect(job))?;
    status_of(&reply_of(rt, door, collected))
}

/// Closes the door.
fn close<J: Naming, R: Wait>(rt: &R, door: TenantDoor<J>, seats: Vec<Seat>) -> Option<()> {
    let seen = door.front();
    door.close(rt, slice::from_ref(&seen), seats).ok()?;
    Some(())
}

/// The tenant's door, with one seat.
fn new_door<J: Naming, R: Wait>(
    rt: &R,
    alloc: Global,
    registry: &Registry<J>,
) -> Option<(TenantDoor<J>, Vec<Seat>)> {
    TenantDoor::new(rt, alloc, registry, 0, tenant(alloc)?, 1).ok()
}

/// Asks by a seat.
fn ask<J: Naming, R: Wait>(
    rt: &R,
    door: &TenantDoor<J>,
    seat: &mut Seat,
    request: Request,
) -> Option<AskOutcome> {
    if seat.tenant() != door.tenant() {
        return None;
    }
    Some(door.ask(rt, &mut door.front(), seat, request))
}

/// The reply of an ask. A pass that came with it goes home.
fn reply_of<J: Naming, R: Wait>(rt: &R, door: &TenantDoor<J>, asked: AskOutcome) -> Reply {
    let AskOutcome {
        reply,
        due: _due,
        pass,
    } = asked;
    if let Some(pass) = pass {
        give_home(rt, door, pass);
    }
    reply
}

/// Gives a pass home. It is of the door's tenant, or this does not return. If rows are on its slot, the door is stopped
/// first.
fn give_home<J: Naming, R: Wait>(rt: &R, door: &TenantDoor<J>, pass: Pass) {
    for _ in rt.forever() {
        if pass.tenant() == door.tenant() {
            if door.height(rt, &mut door.front(), &pass) > 0 {
                door.stop(rt);
            }
            return door.give_home(rt, &mut door.front(), pass);
        }
    }
    unreachable!()
}

/// Asks for what brings the job, again if it was refused for lack of memory.
fn ask_job<J: Naming, R: Wait, F: Fn() -> Option<Request>>(
    rt: &R,
    door: &TenantDoor<J>,
    seat: &mut Seat,
    request: F,
) -> Option<AskOutcome>
    requires { F.IsAlwaysCallable request }
{
    let asked = ask(rt, door, seat, request()?)?;
    if let Reply::Refused(Error::NoMemory) = asked.reply {
        let _refused = reply_of(rt, door, asked);
        return ask(rt, door, seat, request()?);
    }
    Some(asked)
}

/// A worker arrives at the second slot, and advances it until its pass goes home.
fn work<J: Naming, R: Wait>(rt: &R, door: &TenantDoor<J>) -> Option<()> {
    let Arrived {
        came: _came,
        due: _due,
        pass,
    } = door.arrive(rt, &mut door.front(), CALL);
    let mut pass = pass?;
    for _ in 0..MOVES {
        let Advanced {
            moved,
            due: _due,
            pass: kept,
        } = advance(rt, door, pass)?;
        match kept {
            Some(kept) => pass = kept,
            None => return is_left(moved),
        }
    }
    give_home(rt, door, pass);
    None
}

fn is_left(moved: Moved) -> Option<()> {
    match moved {
        Moved::Left => Some(()),
        _ => None,
    }
}

/// Advances the slot of a pass. A pass that is not of the door's tenant is ended.
fn advance<J: Naming, R: Wait>(rt: &R, door: &TenantDoor<J>, pass: Pass) -> Option<Advanced> {
    if pass.tenant() != door.tenant() {
        give_home(rt, door, pass);
        return None;
    }
    Some(door.advance(rt, &mut door.front(), pass))
}

/// Commits the private run of a slot's topmost frame until its pass goes home.
fn commit_all<J: Naming, R: Wait>(rt: &R, door: &TenantDoor<J>, first: Pass) -> Option<()> {
    let mut pass = first;
    for _ in 0..MOVES {
        let Advanced {
            moved: _moved,
            due: _due,
            pass: kept,
        } = commit(rt, door, pass)?;
        match kept {
            Some(kept) => pass = kept,
            None => return Some(()),
        }
    }
    give_home(rt, door, pass);
    None
}

/// Commits the private run of the topmost frame of a pass's slot. If there is none, the pass goes home.
fn commit<J: Naming, R: Wait>(rt: &R, door: &TenantDoor<J>, pass: Pass) -> Option<Advanced> {
    let segment = again(|| seen(rt, door, &pass));
    match segment {
        Some(segment) if pass.tenant() == door.tenant() => Some(door.commit(
            rt,
            &mut door.front(),
            pass,
            segment,
        )),
        _ => {
            give_home(rt, door, pass);
            None
        }
    }
}

/// The private run of the topmost frame of a pass's slot.
fn seen<J: Naming, R: Wait>(rt: &R, door: &TenantDoor<J>, pass: &Pass) -> Option<Segment> {
    if pass.tenant() != door.tenant() {
        return None;
    }
    match door.view(rt, &mut door.front(), pass) {
        View::Top(top) => Some(segment_of(top)),
        View::Bare | View::Unshared => None,
    }
}
