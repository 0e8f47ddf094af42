// Pauses at a tenant's slot, and what ends them.
ghost use Rattle.std.specs.Prelude.{◌≡◌};

use super::{CALL, Moving, advance, arrive, ask, give_home, poll, tenant};
use crate::tests::assert_same;
use job_json::read_canonical_job;
use job_language::{Job, Moved, Request};
use market_config::Call;
use std::alloc::Global;
use std::marker::Brand;
use std::process::Abort;
use std::sync::Wait;
use std::test::Fail;
use std::thread;
use std::thread::Threads;
use tenant_book::{Naming, OpenedRegistry, Registry};
use tenant_lock::TenantDoor;
use tenant_record::{Pass, Seat};

/// A job that spawns a task and waits for it.
const WAITS: &str =
    r#"{"args":[7,0],"fuel":10,"procs":[[["spawn",0,1,0,0],["wait",0,0,0],["ret",0]],[["ret",0]]]}"#;

/// That job.
pub(in crate::tests::threads) fn waiting(alloc: Global) -> Option<Job> {
    read_canonical_job(alloc, WAITS.as_bytes())
}

/// Lets a worker run the job until it waits for the task, which another worker has: what the last advance is answered,
/// with the first worker's pass, and the other's.
fn wait_for_another<J: Naming, R: Wait>(
    rt: &R,
    alloc: Global,
    door: &TenantDoor<J>,
    seat: &mut Seat,
) -> Option<(Moving, Option<Pass>)> {
    let _made = ask(rt, door, seat, Request::Submit(waiting(alloc)?));
    let (_came, pass) = arrive(rt, door, CALL);
    let (_spawned, pass) = advance(rt, door, pass);
    let (_came, other) = arrive(rt, door, Call { tenant: 0, slot: 2 });
    Some((advance(rt, door, pass), other))
}

/// Pauses at the slot of a pass, if that is one of the door's, and says whether to stop.
pub(in crate::tests::threads) fn pause<J: Naming, R: Wait>(
    rt: &R,
    door: &TenantDoor<J>,
    pass: &Option<Pass>,
) -> bool {
    match pass {
        Some(pass) => pass.tenant() == door.tenant() && door.pause(rt, pass),
        None => false,
    }
}

/// A worker waits at its slot in one thread, while another thread stops the door.
fn pause_until_stop<J: Naming + Send + Sync, R: Threads + Wait + Sync>(
    rt: &R,
    alloc: Global,
    door: &TenantDoor<J>,
    seats: &mut [Seat],
) -> Option<(Option<Moved>, bool)> {
    let ((moved, pass), other) = wait_for_another(rt, alloc, door, seats.first_mut()?)?;
    let stop = move || door.stop(rt);
    let stopped = thread::join(rt, || pause(rt, door, &pass), stop).0;
    give_home(rt, door, pass);
    give_home(rt, door, other);
    Some((moved, stopped))
}

#[test]
fn a_worker_that_waits_at_its_slot_is_stopped(rt: HostRuntime) -> Result<(), Fail> {
    a_worker_that_waits_at_its_slot_is_stopped_in::<Brand, _>(
        &rt,
        rt.alloc(),
        OpenedRegistry::new(),
    )
}

fn a_worker_that_waits_at_its_slot_is_stopped_in<
    J: Naming + Send + Sync,
    R: Threads + Wait + Sync + Abort,
>(rt: &R, alloc: Global, opened: OpenedRegistry) -> Result<(), Fail>
    requires { opened ≡ J.registry }
{
    let registry: Registry<J> = opened.named();
    let (door, mut seats) = TenantDoor::new(rt, alloc, &registry, 0, tenant(3, 256)?, 1)?;
    let seen = pause_until_stop(rt, alloc, &door, seats.as_mut_slice());
    assert_same(rt, &seen, &Some((Some(Moved::Idle), true)));
    Ok(())
}

/// A worker waits at its slot in one thread, while another thread fills the history by a poll.
fn pause_until_full<J: Naming + Send + Sync, R: Threads + Wait + Sync>(
    rt: &R,
    alloc: Global,
    door: &TenantDoor<J>,
    seats: &mut [Seat],
) -> Option<(Option<Moved>, bool)> {
    let seat = seats.first_mut()?;
    let ((moved, pass), other) = wait_for_another(rt, alloc, door, seat)?;
    let fill = move || poll(rt, door, seat, 1);
    let (stopped, _reply) = thread::join(rt, || pause(rt, door, &pass), fill);
    give_home(rt, door, pass);
    give_home(rt, door, other);
    Some((moved, stopped))
}

#[test]
fn a_worker_that_waits_at_its_slot_stops_at_a_full_history(rt: HostRuntime) -> Result<(), Fail> {
    a_worker_that_waits_at_its_slot_stops_at_a_full_history_in::<Brand, _>(
        &rt,
        rt.alloc(),
        OpenedRegistry::new(),
    )
}

fn a_worker_that_waits_at_its_slot_stops_at_a_full_history_in<
    J: Naming + Send + Sync,
    R: Threads + Wait + Sync + Abort,
>(rt: &R, alloc: Global, opened: OpenedRegistry) -> Result<(), Fail>
    requires { opened ≡ J.registry }
{
    let registry: Registry<J> = opened.named();
    let (door, mut seats) = TenantDoor::new(rt, alloc, &registry, 0, tenant(3, 5)?, 1)?;
    let seen = pause_until_full(rt, alloc, &door, seats.as_mut_slice());
    assert_same(rt, &seen, &Some((Some(Moved::Idle), true)));
    Ok(())
}
