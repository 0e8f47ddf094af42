// Who is woken at the slots of a tenant, by counts of wakes.
ghost use Rattle.std.specs.Prelude.{◌≡◌};

use super::locks::{advance, arrive, ask, give_home, pause, poll, tenant, waiting};
use crate::tests::assert_same;
use job_language::{Moved, Request};
use market_config::Call;
use std::alloc::Global;
use std::marker::Brand;
use std::process::Abort;
use std::sync::Wait;
use std::test::Fail;
use std::thread;
use std::thread::{Threads, yield_now};
use tenant_book::{Naming, OpenedRegistry, Registry};
use tenant_lock::{TenantDoor, WaitCounts};
use tenant_record::{Pass, Seat};

/// How many entries are made that leave a sleeper's slot idle.
const ENTRIES: u32 = 100;

/// How often one thread looks whether the others have come to where it waits for them.
const LOOKS: u32 = 20_000_000;

/// A worker's pass whose slot waits for a task, and the pass of the slot that has the task.
type Pair = (Option<Pass>, Option<Pass>);

/// Lets a worker at that slot run a job until it waits for a task that another worker has at the next slot.
fn pair<J: Naming, R: Wait>(
    rt: &R,
    alloc: Global,
    door: &TenantDoor<J>,
    seat: &mut Seat,
    slot: u8,
) -> Option<Pair> {
    let _made = ask(rt, door, seat, Request::Submit(waiting(alloc)?));
    let next = Call {
        tenant: 0,
        slot: slot.checked_add(1)?,
    };
    let (_came, pass) = arrive(rt, door, Call { tenant: 0, slot });
    let (_spawned, pass) = advance(rt, door, pass);
    let (_came, other) = arrive(rt, door, next);
    let (_idle, pass) = advance(rt, door, pass);
    Some((pass, other))
}

/// As `pair`; no passes if it has none.
fn pair_or_none<J: Naming, R: Wait>(
    rt: &R,
    alloc: Global,
    door: &TenantDoor<J>,
    seat: &mut Seat,
    slot: u8,
) -> Pair {
    match pair(rt, alloc, door, seat, slot) {
        Some(pair) => pair,
        None => (None, None),
    }
}

/// Advances the slot of a pass, and gives it home: the answer.
fn finish<J: Naming, R: Wait>(
    rt: &R,
    door: &TenantDoor<J>,
    pass: &mut Option<Pass>,
) -> Option<Moved> {
    let (moved, pass) = advance(rt, door, pass.take());
    give_home(rt, door, pass);
    moved
}

/// Lets others run until that many slots have a sleeper, and that many were woken. It gives up after some seconds, so
/// that a test which waits for something else fails and does not hang.
fn watch<J: Naming, R: Wait>(rt: &R, door: &TenantDoor<J>, asleep: usize, wakes: u64) {
    for _look in 0..LOOKS {
        let waits = door.waits(rt);
        if waits.asleep == asleep && waits.wakes == wakes {
            return;
        }
        yield_now();
    }
}

/// Once somebody sleeps, makes entries that leave its slot idle: who sleeps then, and who was woken.
fn poll_often<J: Naming, R: Wait>(rt: &R, door: &TenantDoor<J>, seat: &mut Seat) -> WaitCounts {
    watch(rt, door, 1, 0);
    for _entry in 0..ENTRIES {
        let _polled = poll(rt, door, seat, 1);
        yield_now();
    }
    door.waits(rt)
}

/// What a sleeper's wait says, who slept before its task was done, and what the task was answered.
type Slept = (bool, WaitCounts, Option<Moved>);

/// One worker sleeps at its slot; another thread makes entries that leave that idle, and then does its task.
fn sleep_beside_polls<J: Naming + Send + Sync, R: Threads + Wait + Sync>(
    rt: &R,
    alloc: Global,
    door: &TenantDoor<J>,
    seat: &mut Seat,
) -> Option<Slept> {
    let (waits, mut works) = pair(rt, alloc, door, seat, 1)?;
    let task = &mut works;
    let act = move || {
        let slept = poll_often(rt, door, seat);
        (slept, finish(rt, door, task))
    };
    let (stopped, (slept, done)) = thread::join(rt, || pause(rt, door, &waits), act);
    give_home(rt, door, waits);
    give_home(rt, door, works);
    Some((stopped, slept, done))
}

#[test]
fn entries_that_leave_a_slot_idle_wake_nobody_there(rt: HostRuntime) -> Result<(), Fail> {
    entries_that_leave_a_slot_idle_wake_nobody_there_in::<Brand, _>(
        &rt,
        rt.alloc(),
        OpenedRegistry::new(),
    )
}

fn entries_that_leave_a_slot_idle_wake_nobody_there_in<
    J: Naming + Send + Sync,
    R: Threads + Wait + Sync + Abort,
>(rt: &R, alloc: Global, opened: OpenedRegistry) -> Result<(), Fail>
    requires { opened ≡ J.registry }
{
    let registry: Registry<J> = opened.named();
    let (door, mut seats) = TenantDoor::new(rt, alloc, &registry, 0, tenant(3, 256)?, 1)?;
    let seat = seats.as_mut_slice().first_mut().ok_or("a seat")?;
    let slept = sleep_beside_polls(rt, alloc, &door, seat);
    let before = waits(1, 0);
    assert_same(rt, &slept, &Some((false, before, Some(Moved::Ran))));
    assert_same(rt, &door.waits(rt), &waits(0, 1));
    Ok(())
}

/// Slots with a sleeper, and wakes, each of which found a slot that could move.
fn waits(asleep: usize, wakes: u64) -> WaitCounts {
    WaitCounts {
        asleep,
        wakes,
        idle_wakes: 0,
    }
}

/// Two workers sleep at their slots in a thread each, while a third thread does one task and then the other: who slept
/// once the first one was woken.
fn sleep_beside_another<J: Naming + Send + Sync, R: Threads + Wait + Sync>(
    rt: &R,
    alloc: Global,
    door: &TenantDoor<J>,
    seat: &mut Seat,
) -> Option<([bool; 2], WaitCounts)> {
    let (one, mut works) = pair(rt, alloc, door, seat, 1)?;
    let (two, mut last) = pair_or_none(rt, alloc, door, seat, 3);
    let (first, second) = (&one, &two);
    let tasks = (&mut works, &mut last);
    let act = move || {
        watch(rt, door, 2, 0);
        let _done = finish(rt, door, tasks.0);
        watch(rt, door, 1, 1);
        let slept = door.waits(rt);
        let _done = finish(rt, door, tasks.1);
        slept
    };
    let sleep = move || {
        thread::join(
            rt,
            move || pause(rt, door, first),
            move || pause(rt, door, second),
        )
    };
    let (stopped, slept) = thread::join(rt, sleep, act);
    give_home(rt, door, one);
    give_home(rt, door, two);
    give_home(rt, door, works);
    give_home(rt, door, last);
    Some(([stopped.0, stopped.1], slept))
}

#[test]
fn an_entry_wakes_the_slot_alone_that_it_lets_move(rt: HostRuntime) -> Result<(), Fail> {
    an_entry_wakes_the_slot_alone_that_it_lets_move_in::<Brand, _>(
        &rt,
        rt.alloc(),
        OpenedRegistry::new(),
    )
}

fn an_entry_wakes_the_slot_alone_that_it_lets_move_in<
    J: Naming + Send + Sync,
    R: Threads + Wait + Sync + Abort,
>(rt: &R, alloc: Global, opened: OpenedRegistry) -> Result<(), Fail>
    requires { opened ≡ J.registry }
{
    let registry: Registry<J> = opened.named();
    let (door, mut seats) = TenantDoor::new(rt, alloc, &registry, 0, tenant(5, 256)?, 1)?;
    let seat = seats.as_mut_slice().first_mut().ok_or("a seat")?;
    let slept = sleep_beside_another(rt, alloc, &door, seat);
    assert_same(rt, &slept, &Some(([false, false], waits(1, 1))));
    assert_same(rt, &door.waits(rt), &waits(0, 2));
    Ok(())
}

/// A worker sleeps at its slot, and sleeps on when all are woken, as they are when a client hangs up; then another
/// thread does its task.
fn sleep_through_a_wake<J: Naming + Send + Sync, R: Threads + Wait + Sync>(
    rt: &R,
    alloc: Global,
    door: &TenantDoor<J>,
    seat: &mut Seat,
) -> Option<(bool, Option<Moved>)> {
    let (waits, mut works) = pair(rt, alloc, door, seat, 1)?;
    let task = &mut works;
    let act = move || {
        watch(rt, door, 1, 0);
        door.wake(rt);
        watch(rt, door, 1, 1);
        finish(rt, door, task)
    };
    let slept = thread::join(rt, || pause(rt, door, &waits), act);
    give_home(rt, door, waits);
    give_home(rt, door, works);
    Some(slept)
}

#[test]
fn a_sleeper_at_a_slot_stays_until_it_can_move(rt: HostRuntime) -> Result<(), Fail> {
    a_sleeper_at_a_slot_stays_until_it_can_move_in::<Brand, _>(
        &rt,
        rt.alloc(),
        OpenedRegistry::new(),
    )
}

fn a_sleeper_at_a_slot_stays_until_it_can_move_in<
    J: Naming + Send + Sync,
    R: Threads + Wait + Sync + Abort,
>(rt: &R, alloc: Global, opened: OpenedRegistry) -> Result<(), Fail>
    requires { opened ≡ J.registry }
{
    let registry: Registry<J> = opened.named();
    let (door, mut seats) = TenantDoor::new(rt, alloc, &registry, 0, tenant(3, 256)?, 1)?;
    let seat = seats.as_mut_slice().first_mut().ok_or("a seat")?;
    let slept = sleep_through_a_wake(rt, alloc, &door, seat);
    assert_same(rt, &slept, &Some((false, Some(Moved::Ran))));
    Ok(())
}
