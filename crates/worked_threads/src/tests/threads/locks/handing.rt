// A pass that is out, and one that is handed over.
ghost use Rattle.std.specs.Prelude.{◌≡◌};

use super::{
    CALL, advance, arrive, closed, give_home, own, submit, submit_and_run, submit_first, two_slots,
};
use crate::tests::assert_same;
use job_language::{Came, Moved};
use std::alloc::Global;
use std::marker::Brand;
use std::process::Abort;
use std::sync::Wait;
use std::test::Fail;
use std::thread::Threads;
use tenant_book::{Naming, OpenedRegistry, Registry};
use tenant_lock::TenantDoor;
use tenant_record::Seat;

/// A worker arrives at the job and runs it; the job is submitted again, and another worker arrives while the
/// pass is out. What the first is answered, and what the other, and whether that one gets a pass.
fn arrive_twice<J: Naming, R: Wait>(
    rt: &R,
    alloc: Global,
    door: &TenantDoor<J>,
    seats: &mut [Seat],
) -> (Option<Moved>, Came, bool) {
    let (ran, pass) = submit_and_run(rt, alloc, door, seats);
    let _made = submit_first(rt, alloc, door, seats);
    let (came, other) = arrive(rt, door, CALL);
    let has_pass = other.is_some();
    give_home(rt, door, other);
    give_home(rt, door, pass);
    (ran, came, has_pass)
}

#[test]
fn nothing_is_found_while_the_pass_is_out(rt: HostRuntime) -> Result<(), Fail> {
    nothing_is_found_while_the_pass_is_out_in::<Brand, _>(&rt, rt.alloc(), OpenedRegistry::new())
}

fn nothing_is_found_while_the_pass_is_out_in<
    J: Naming + Send + Sync,
    R: Threads + Wait + Sync + Abort,
>(rt: &R, alloc: Global, opened: OpenedRegistry) -> Result<(), Fail>
    requires { opened ≡ J.registry }
{
    let registry: Registry<J> = opened.named();
    let (door, mut seats) = TenantDoor::new(rt, alloc, &registry, 0, two_slots()?, 1)?;
    let seen = arrive_twice(rt, alloc, &door, seats.as_mut_slice());
    assert_same(rt, &seen, &(Some(Moved::Ran), Came::Nothing, false));
    Ok(())
}

/// Submits the job twice, and lets a worker hand its slot over once the first is run: the slots that are due after each
/// ask and each handing over, the last of which is of a slot where nothing waits.
fn hand_over_twice<J: Naming, R: Wait>(
    rt: &R,
    alloc: Global,
    door: &TenantDoor<J>,
    seat: &mut Seat,
) -> Option<[Option<u8>; 4]> {
    let (_reply, first) = submit(rt, alloc, door, seat)?;
    let (_reply, second) = submit(rt, alloc, door, seat)?;
    let again = run_and_hand_over(rt, door)?;
    let none = run_and_hand_over(rt, door)?;
    Some([first, second, again, none])
}

/// A worker arrives, runs the job, and hands its slot over: the slot that is due then. None if it had no pass.
fn run_and_hand_over<J: Naming, R: Wait>(rt: &R, door: &TenantDoor<J>) -> Option<Option<u8>> {
    let (_came, pass) = arrive(rt, door, CALL);
    let (_ran, pass) = advance(rt, door, pass);
    let pass = own(rt, door, pass)?;
    Some(door.hand_over(rt, &mut door.front(), pass))
}

#[test]
fn a_slot_that_is_handed_over_is_due_while_a_job_waits(rt: HostRuntime) -> Result<(), Fail> {
    a_slot_that_is_handed_over_is_due_while_a_job_waits_in::<Brand, _>(
        &rt,
        rt.alloc(),
        OpenedRegistry::new(),
    )
}

fn a_slot_that_is_handed_over_is_due_while_a_job_waits_in<
    J: Naming + Send + Sync,
    R: Threads + Wait + Sync + Abort,
>(rt: &R, alloc: Global, opened: OpenedRegistry) -> Result<(), Fail>
    requires { opened ≡ J.registry }
{
    let registry: Registry<J> = opened.named();
    let (door, mut seats) = TenantDoor::new(rt, alloc, &registry, 0, two_slots()?, 1)?;
    let due = match seats.first_mut() {
        Some(seat) => hand_over_twice(rt, alloc, &door, seat),
        None => None,
    };
    assert_same(rt, &due, &Some([Some(1), None, Some(1), None]));
    assert!(rt; closed(rt, door, seats).is_ok());
    Ok(())
}
