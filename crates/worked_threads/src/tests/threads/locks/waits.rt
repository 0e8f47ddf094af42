// A wait for a job at a tenant's door that the door's stop ends.
ghost use Rattle.std.specs.Prelude.{◌≡◌};

use super::{submit, two_slots};
use crate::tests::assert_same;
use std::alloc::Global;
use std::marker::Brand;
use std::process::Abort;
use std::sync::Wait;
use std::test::Fail;
use std::thread;
use std::thread::Threads;
use tenant_book::{Naming, OpenedRegistry, Registry};
use tenant_lock::{StopFlag, TenantDoor};
use tenant_record::Seat;

/// Waits for job 1 by a seat, if that is one of the door's, and says whether the answer was to stop.
fn is_stopped<J: Naming, R: Wait>(
    rt: &R,
    door: &TenantDoor<J>,
    seat: &Seat,
    stop: &StopFlag,
) -> bool {
    seat.tenant() == door.tenant() && door.pause_for_until(rt, seat, 1, stop)
}

/// Waits in one thread, while another one stops the door.
fn is_stopped_with_all<J: Naming + Send + Sync, R: Threads + Wait + Sync>(
    rt: &R,
    door: &TenantDoor<J>,
    seat: &Seat,
    never: &StopFlag,
) -> bool {
    let stop = move || door.stop(rt);
    thread::join(rt, move || is_stopped(rt, door, seat, never), stop).0
}

/// Submits the job, which no worker runs, and waits for it: what the wait says.
fn wait_until_stopped<J: Naming + Send + Sync, R: Threads + Wait + Sync>(
    rt: &R,
    alloc: Global,
    door: &TenantDoor<J>,
    seats: &mut [Seat],
) -> Option<bool> {
    let seat = seats.first_mut()?;
    let _made = submit(rt, alloc, door, seat);
    Some(is_stopped_with_all(rt, door, seat, &StopFlag::new()))
}

#[test]
fn a_wait_ends_at_the_doors_stop(rt: HostRuntime) -> Result<(), Fail> {
    a_wait_ends_at_the_doors_stop_in::<Brand, _>(&rt, rt.alloc(), OpenedRegistry::new())
}

fn a_wait_ends_at_the_doors_stop_in<J: Naming + Send + Sync, R: Threads + Wait + Sync + Abort>(
    rt: &R,
    alloc: Global,
    opened: OpenedRegistry,
) -> Result<(), Fail>
    requires { opened ≡ J.registry }
{
    let registry: Registry<J> = opened.named();
    let (door, mut seats) = TenantDoor::new(rt, alloc, &registry, 0, two_slots()?, 1)?;
    let stopped = wait_until_stopped(rt, alloc, &door, seats.as_mut_slice());
    assert_same(rt, &stopped, &Some(true));
    Ok(())
}
