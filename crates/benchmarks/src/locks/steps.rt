// Events at the locked doors of tenants.
ghost use Rattle.std.specs.Prelude.{◌≡◌, IfSome};

use crate::locks::asks::reply_to;
use crate::locks::jobs::{with_slots, worked_job};
use crate::locks::load::{Load, MAX_THREADS};
use crate::stops::Stop;
use job_language::{Job, Request};
use std::alloc::{AllocError, Global};
use std::marker::{Brand, Model};
use std::sync::{Mutex, Wait};
use std::thread::Threads;
use std::{slice, thread};
use tenant_book::{Naming, OpenedRegistry, Registry};
use tenant_lock::TenantDoor;
use tenant_record::Seat;
use worked_jobs::FIRST;

/// A seat at a tenant's door, with a job to submit there.
#[derive(Drop)]
struct Desk<'d, J: Naming> {
    door: &'d TenantDoor<J>,
    seat: Seat,
    job: Job,
}

impl<'d, J: Naming> Model for Desk<'d, J> {
    ghost use Rattle.benchmarks.specs.Places.{DeskSeen, IsDesk};

    ghost Value = { DeskSeen };

    ghost view = { λ d. record { door = d.door.now; seat = d.seat } };

    ghost invariant = { λ d. IsDesk (record { door = d.door.now; seat = d.seat }) };
}

/// Makes the events by the threads, and closes the tenants. How many entries their histories have.
pub(crate) fn run<R: Threads + Wait + Sync>(
    rt: &R,
    alloc: Global,
    load: Load,
) -> Result<usize, Stop> {
    run_named::<Brand, R>(rt, alloc, OpenedRegistry::new(), load)
}

/// Makes the events as `run` does, at tenants whose lives are entered in that registry.
fn run_named<J: Naming + Send + Sync, R: Threads + Wait + Sync>(
    rt: &R,
    alloc: Global,
    opened: OpenedRegistry,
    load: Load,
) -> Result<usize, Stop>
    requires { opened ≡ J.registry }
{
    let registry: Registry<J> = opened.named();
    let back = Mutex::new(Vec::with_capacity(alloc, MAX_THREADS)?);
    let mut doors = Vec::new(alloc);
    let made = make_events(rt, alloc, &registry, load, &mut doors, &back);
    let closed = close_all(rt, alloc, doors, back.into_inner());
    made?;
    closed
}

/// Opens the tenants, and makes the events at their doors. All seats come back.
fn make_events<J: Naming + Send + Sync, R: Threads + Wait + Sync>(
    rt: &R,
    alloc: Global,
    registry: &Registry<J>,
    load: Load,
    doors: &mut Vec<TenantDoor<J>>,
    back: &Mutex<Vec<Seat>>,
) -> Result<(), Stop> {
    let mut seats = Vec::new(alloc);
    open(rt, alloc, registry, load, doors, &mut seats)?;
    if in_threads(rt, alloc, doors.as_slice(), seats, load.events, back) {
        Ok(())
    } else {
        Err(Stop::Place)
    }
}

/// Adds the doors of the tenants, and all their seats.
fn open<J: Naming, R: Wait>(
    rt: &R,
    alloc: Global,
    registry: &Registry<J>,
    load: Load,
    doors: &mut Vec<TenantDoor<J>>,
    seats: &mut Vec<Seat>,
) -> Result<(), Stop> {
    let config = with_slots(1, 0, load.steps)?;
    for number in 0..load.tenants {
        add(
            TenantDoor::new(rt, alloc, registry, number, config, load.seats)?,
            doors,
            seats,
        )?;
    }
    Ok(())
}

fn add<J: Naming>(
    opened: (TenantDoor<J>, Vec<Seat>),
    doors: &mut Vec<TenantDoor<J>>,
    seats: &mut Vec<Seat>,
) -> Result<(), Stop> {
    let (door, mut own) = opened;
    let has_door = doors.push(door).is_ok();
    let has_seats = seats.append(&mut own).is_ok();
    if has_door && has_seats {
        Ok(())
    } else {
        Err(Stop::Memory)
    }
}

/// Lets a thread for each seat make the events, and says whether each did. The seats come back.
fn in_threads<J: Naming + Send + Sync, R: Threads + Wait + Sync>(
    rt: &R,
    alloc: Global,
    doors: &[TenantDoor<J>],
    seats: Vec<Seat>,
    events: usize,
    back: &Mutex<Vec<Seat>>,
) -> bool {
    thread::scope(thread::scope_env(), rt, move |scope| {
        let mut is_whole = true;
        for seat in seats {
            let Some(desk) = desk_of(alloc, doors, seat) else {
                is_whole = false;
                continue;
            };
            let asking = move || {
                let seat = submit_and_poll(rt, desk, events);
                // Closing finds a seat that is lost.
                let _ = back.lock(rt).push(seat);
            };
            is_whole = scope.spawn(asking).is_ok() && is_whole;
        }
        is_whole
    })
}

/// The desk of a seat, at the door of its tenant.
fn desk_of<J: Naming>(alloc: Global, doors: &[TenantDoor<J>], seat: Seat) -> Option<Desk<'_, J>> {
    match (door_of(doors, &seat), worked_job(alloc, FIRST)) {
        (Some(door), Ok(job)) => Some(Desk { door, seat, job }),
        _ => None,
    }
}

fn door_of<'d, J: Naming>(doors: &'d [TenantDoor<J>], seat: &Seat) -> Option<&'d TenantDoor<J>>
    ensures { IfSome result (λ door. seat.now.tenant ≡ door.now.tenant) }
{
    let door = doors.get(seat.tenant())?;
    if seat.tenant() == door.tenant() {
        Some(door)
    } else {
        None
    }
}

/// Submits a job, and polls the tenant's first job, so that `events` events are made. The seat comes back.
fn submit_and_poll<J: Naming, R: Wait>(rt: &R, desk: Desk<'_, J>, events: usize) -> Seat {
    let Desk {
        door,
        mut seat,
        job,
    } = desk;
    let _made = reply_to(rt, door, &mut seat, Request::Submit(job));
    for _poll in 1..events {
        let _polled = reply_to(rt, door, &mut seat, Request::Poll(1));
    }
    seat
}

/// Closes all doors. How many entries their histories have.
fn close_all<J: Naming, R: Wait>(
    rt: &R,
    alloc: Global,
    doors: Vec<TenantDoor<J>>,
    seats: Vec<Seat>,
) -> Result<usize, Stop> {
    let mut left = seats;
    let mut entries = Ok(0usize);
    for door in doors {
        entries = sum(entries, close(rt, alloc, door, &mut left));
    }
    entries
}

fn sum(entries: Result<usize, Stop>, more: Result<usize, Stop>) -> Result<usize, Stop> {
    Ok(entries?.saturating_add(more?))
}

/// Closes a door, to which its seats come back of those that are left. How many entries its history has.
fn close<J: Naming, R: Wait>(
    rt: &R,
    alloc: Global,
    door: TenantDoor<J>,
    left: &mut Vec<Seat>,
) -> Result<usize, Stop> {
    let mut own = Vec::new(alloc);
    let moved = move_seats(door.tenant(), left, &mut own);
    let seen = door.front();
    let entries = door
        .close(rt, slice::from_ref(&seen), own)
        .map(|closed| closed.history.len());
    moved?;
    Ok(entries?)
}

/// Moves the seats of a tenant.
fn move_seats(tenant: usize, from: &mut Vec<Seat>, to: &mut Vec<Seat>) -> Result<(), AllocError> {
    for _seat in 0..from.len() {
        let Some(place) = from.iter().position(|seat| seat.tenant() == tenant) else {
            break;
        };
        to.push(from.swap_remove(place))?;
    }
    Ok(())
}
