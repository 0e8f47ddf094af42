// What the close of a tenant's door refuses.
ghost use Rattle.std.specs.Prelude.{◌≡◌};

use super::{
    CALL, arrive, ask, closed, end, give_home, submit, submit_and_arrive, submit_and_run,
    submit_first, tenant, two_slots,
};
use crate::tests::assert_same;
use job_language::Request;
use std::alloc::Global;
use std::marker::Brand;
use std::process::Abort;
use std::sync::Wait;
use std::test::Fail;
use std::thread::Threads;
use tenant_book::{Naming, OpenedRegistry, Registry};
use tenant_lock::{CloseFault, TenantDoor};
use tenant_record::{Pass, Seat, TenantCell};

#[test]
fn a_door_without_its_seat_is_not_closed(rt: HostRuntime) -> Result<(), Fail> {
    a_door_without_its_seat_is_not_closed_in::<Brand, _>(&rt, rt.alloc(), OpenedRegistry::new())
}

fn a_door_without_its_seat_is_not_closed_in<
    J: Naming + Send + Sync,
    R: Threads + Wait + Sync + Abort,
>(rt: &R, alloc: Global, opened: OpenedRegistry) -> Result<(), Fail>
    requires { opened ≡ J.registry }
{
    let registry: Registry<J> = opened.named();
    let (door, mut seats) = TenantDoor::new(rt, alloc, &registry, 0, two_slots()?, 1)?;
    let _seat = seats.pop().ok_or("a seat")?;
    let fault = closed(rt, door, seats).err();
    assert_same(rt, &fault, &Some(CloseFault::SeatMissing));
    Ok(())
}

#[test]
fn a_pass_that_is_kept_is_missed(rt: HostRuntime) -> Result<(), Fail> {
    a_pass_that_is_kept_is_missed_in::<Brand, _>(&rt, rt.alloc(), OpenedRegistry::new())
}

fn a_pass_that_is_kept_is_missed_in<J: Naming + Send + Sync, R: Threads + Wait + Sync + Abort>(
    rt: &R,
    alloc: Global,
    opened: OpenedRegistry,
) -> Result<(), Fail>
    requires { opened ≡ J.registry }
{
    let registry: Registry<J> = opened.named();
    let (door, mut seats) = TenantDoor::new(rt, alloc, &registry, 0, two_slots()?, 1)?;
    let cell = TenantCell::new(alloc, 0, two_slots()?)?;
    let pass = submit_and_arrive(rt, alloc, &door, seats.as_mut_slice());
    end(rt, cell, pass);
    let fault = closed(rt, door, seats).err();
    assert_same(rt, &fault, &Some(CloseFault::PassLost(1)));
    Ok(())
}

/// Gives home a pass of another door of the tenant, which knows of one entry: a worker arrived at the first row there.
/// The pass in whose place it goes home goes to that door.
fn swap<J: Naming, R: Wait>(
    rt: &R,
    alloc: Global,
    door: &TenantDoor<J>,
    pass: Option<Pass>,
    (other, seats): (&TenantDoor<J>, &mut [Seat]),
) {
    give_home(rt, door, submit_and_arrive(rt, alloc, other, seats));
    give_home(rt, other, pass);
}

#[test]
fn a_pass_that_was_told_of_fewer_entries_is_refused(rt: HostRuntime) -> Result<(), Fail> {
    a_pass_that_was_told_of_fewer_entries_is_refused_in::<Brand, _>(
        &rt,
        rt.alloc(),
        OpenedRegistry::new(),
    )
}

fn a_pass_that_was_told_of_fewer_entries_is_refused_in<
    J: Naming + Send + Sync,
    R: Threads + Wait + Sync + Abort,
>(rt: &R, alloc: Global, opened: OpenedRegistry) -> Result<(), Fail>
    requires { opened ≡ J.registry }
{
    let registry: Registry<J> = opened.named();
    let (door, mut seats) = TenantDoor::new(rt, alloc, &registry, 0, two_slots()?, 1)?;
    let (other, mut others) = TenantDoor::new(rt, alloc, &registry, 0, two_slots()?, 1)?;
    let (_ran, pass) = submit_and_run(rt, alloc, &door, seats.as_mut_slice());
    let there = (&other, others.as_mut_slice());
    swap(rt, alloc, &door, pass, there);
    let fault = closed(rt, door, seats).err();
    assert_same(rt, &fault, &Some(CloseFault::CountWrong(1)));
    Ok(())
}

/// Submits the job twice by the first seat, cancels it the first time, and lets a worker arrive at the second
/// row. The worker's pass.
fn submit_twice_and_arrive<J: Naming, R: Wait>(
    rt: &R,
    alloc: Global,
    door: &TenantDoor<J>,
    seats: &mut [Seat],
) -> Option<Pass> {
    let seat = seats.first_mut()?;
    let _made = submit(rt, alloc, door, seat);
    let _cancelled = ask(rt, door, seat, Request::Cancel(1));
    let _other = submit(rt, alloc, door, seat);
    arrive(rt, door, CALL).1
}

#[test]
fn a_pass_that_was_told_of_another_row_is_refused(rt: HostRuntime) -> Result<(), Fail> {
    a_pass_that_was_told_of_another_row_is_refused_in::<Brand, _>(
        &rt,
        rt.alloc(),
        OpenedRegistry::new(),
    )
}

fn a_pass_that_was_told_of_another_row_is_refused_in<
    J: Naming + Send + Sync,
    R: Threads + Wait + Sync + Abort,
>(rt: &R, alloc: Global, opened: OpenedRegistry) -> Result<(), Fail>
    requires { opened ≡ J.registry }
{
    let registry: Registry<J> = opened.named();
    let (door, mut seats) = TenantDoor::new(rt, alloc, &registry, 0, two_slots()?, 1)?;
    let (other, mut others) = TenantDoor::new(rt, alloc, &registry, 0, two_slots()?, 1)?;
    let pass = submit_twice_and_arrive(rt, alloc, &door, seats.as_mut_slice());
    let there = (&other, others.as_mut_slice());
    swap(rt, alloc, &door, pass, there);
    let fault = closed(rt, door, seats).err();
    assert_same(rt, &fault, &Some(CloseFault::LogWrong(1)));
    Ok(())
}

/// The unused seats of another door of the tenant.
fn seats_of_another_door<J: Naming, R: Wait>(
    rt: &R,
    alloc: Global,
    registry: &Registry<J>,
) -> Result<Vec<Seat>, Fail> {
    let (_door, seats) = TenantDoor::new(rt, alloc, registry, 0, two_slots()?, 1)?;
    Ok(seats)
}

#[test]
fn a_seat_that_was_told_of_other_asks_is_refused(rt: HostRuntime) -> Result<(), Fail> {
    a_seat_that_was_told_of_other_asks_is_refused_in::<Brand, _>(
        &rt,
        rt.alloc(),
        OpenedRegistry::new(),
    )
}

fn a_seat_that_was_told_of_other_asks_is_refused_in<
    J: Naming + Send + Sync,
    R: Threads + Wait + Sync + Abort,
>(rt: &R, alloc: Global, opened: OpenedRegistry) -> Result<(), Fail>
    requires { opened ≡ J.registry }
{
    let registry: Registry<J> = opened.named();
    let (door, mut seats) = TenantDoor::new(rt, alloc, &registry, 0, two_slots()?, 1)?;
    let _made = submit_first(rt, alloc, &door, seats.as_mut_slice());
    let fault = closed(rt, door, seats_of_another_door(rt, alloc, &registry)?).err();
    assert_same(rt, &fault, &Some(CloseFault::AskWrong(0)));
    Ok(())
}

/// The seats of another door of the tenant, which has room for one entry: the job was made, and then refused.
fn seats_of_a_full_door<J: Naming, R: Wait>(
    rt: &R,
    alloc: Global,
    registry: &Registry<J>,
) -> Result<Vec<Seat>, Fail> {
    let (door, mut seats) = TenantDoor::new(rt, alloc, registry, 0, tenant(2, 1)?, 1)?;
    let _made = submit_first(rt, alloc, &door, seats.as_mut_slice());
    let _refused = submit_first(rt, alloc, &door, seats.as_mut_slice());
    Ok(seats)
}

#[test]
fn a_seat_that_was_told_of_a_full_history_is_refused(rt: HostRuntime) -> Result<(), Fail> {
    a_seat_that_was_told_of_a_full_history_is_refused_in::<Brand, _>(
        &rt,
        rt.alloc(),
        OpenedRegistry::new(),
    )
}

fn a_seat_that_was_told_of_a_full_history_is_refused_in<
    J: Naming + Send + Sync,
    R: Threads + Wait + Sync + Abort,
>(rt: &R, alloc: Global, opened: OpenedRegistry) -> Result<(), Fail>
    requires { opened ≡ J.registry }
{
    let registry: Registry<J> = opened.named();
    let (door, mut seats) = TenantDoor::new(rt, alloc, &registry, 0, two_slots()?, 1)?;
    let _made = submit_first(rt, alloc, &door, seats.as_mut_slice());
    let fault = closed(rt, door, seats_of_a_full_door(rt, alloc, &registry)?).err();
    assert_same(rt, &fault, &Some(CloseFault::FullWrong));
    Ok(())
}
