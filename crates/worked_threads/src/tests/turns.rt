// How a thread's door moves its slot: if nobody else is out, and beside another one.
ghost use Rattle.std.specs.Prelude.{◌≡◌};

use crate::tests::assert_same;
use crate::tests::threads::locks::closed;
use job_language::{Moved, Reply, Request};
use job_step::{Segment, View, segment_of};
use nested_wait::{Attended, Door, attend};
use server_doors::{HeldSlot, MOVES_UNDER_LOCK};
use std::alloc::Global;
use std::marker::Brand;
use std::process::Abort;
use std::slice;
use std::sync::Wait;
use std::test::Fail;
use std::thread::Threads;
use tenant_book::{Naming, OpenedRegistry, Registry};
use tenant_lock::{StopFlag, TenantDoor};
use tenant_record::Seat;
use worked_jobs::{FIB_OF_SIX, job_of, tenant};
use worker_main::SlotAccess;

/// A thread's door, and how often it was moved by a commit and by an advance.
struct Counted<'d, J: Naming, R: Wait> {
    slots: HeldSlot<'d, J, R>,
    commits: u32,
    advances: u32,
}

impl<J: Naming, R: Wait> Door for Counted<'_, J, R> {
    ghost views = { λ _ _. Unit {0} };

    ghost commits = { λ _ _ _ _. Unit {0} };

    ghost advances = { λ _ _ _. Unit {0} };

    ghost heights = { λ _ _. Unit {0} };

    ghost pauses = { λ _ _ _. Unit {0} };

    fn view(&self) -> View {
        self.slots.view()
    }

    fn commit(&mut self, segment: Segment) -> Moved {
        self.commits = self.commits.wrapping_add(1);
        self.slots.commit(segment).0
    }

    fn advance(&mut self) -> Moved {
        self.advances = self.advances.wrapping_add(1);
        self.slots.advance().0
    }

    fn height(&self) -> usize {
        self.slots.height()
    }

    fn pause(&mut self) -> bool {
        self.slots.pause()
    }
}

/// How attending ends, and how often the slot was moved by a commit and by an advance.
type Turns = (Attended, u32, u32);

/// Executes the sixth Fibonacci number by a seat, and attends its slot.
fn attended<J: Naming, R: Wait>(
    rt: &R,
    alloc: Global,
    door: &TenantDoor<J>,
    seat: &mut Seat,
) -> Result<Turns, Fail> {
    if door.tenant() != 0 || seat.tenant() != 0 {
        return Err("tenant 0")?;
    }
    let job = job_of(alloc, FIB_OF_SIX)?;
    let stop = StopFlag::new();
    let fronts = vec![in alloc; door.front()]?;
    let mut slots = HeldSlot::new(rt, slice::from_ref(door), fronts, &stop);
    let _placed = slots.ask(seat, Request::Execute(job));
    let mut counted = Counted {
        slots,
        commits: 0,
        advances: 0,
    };
    let end = attend(&mut counted, 1);
    let (commits, advances) = counted.end();
    Ok((end, commits, advances))
}

#[test]
fn a_slot_that_is_alone_is_advanced_after_its_first_turn(rt: HostRuntime) -> Result<(), Fail> {
    a_slot_that_is_alone_is_advanced_after_its_first_turn_in::<Brand, _>(
        &rt,
        rt.alloc(),
        OpenedRegistry::new(),
    )
}

fn a_slot_that_is_alone_is_advanced_after_its_first_turn_in<
    J: Naming + Send + Sync,
    R: Threads + Wait + Sync + Abort,
>(rt: &R, alloc: Global, opened: OpenedRegistry) -> Result<(), Fail>
    requires { opened ≡ J.registry }
{
    let registry: Registry<J> = opened.named();
    let config = tenant("acme", 1, 1, 100).ok_or("each number is in its range")?;
    let (door, mut seats) = TenantDoor::new(rt, alloc, &registry, 0, config, 1)?;
    let seat = seats.as_mut_slice().first_mut().ok_or("a seat")?;
    let turns = attended(rt, alloc, &door, seat)?;
    assert_same(rt, &turns, &(Attended::Below, 1, 84));
    let _closed = closed(rt, door, seats)?;
    Ok(())
}

/// Twenty short runs, and then some forty of 1,000 instructions each.
const SHORT_THEN_LONG: &str =
    r#"{"args":[13300,0],"fuel":100000,"procs":[[["ask",2],["ask",2],["ask",2],["ask",2],["ask",2],["ask",2],["ask",2],["ask",2],["ask",2],["ask",2],["ask",2],["ask",2],["ask",2],["ask",2],["ask",2],["ask",2],["ask",2],["ask",2],["ask",2],["ask",2],["set",4,1],["sub",0,0,4],["jz",0,24],["jmp",21],["ret",0]]]}"#;

/// A thread's door at the slot where a job is placed that a seat executes.
fn counted_at<'d, J: Naming, R: Wait>(
    rt: &'d R,
    alloc: Global,
    door: &'d TenantDoor<J>,
    seat: &mut Seat,
    stop: &'d StopFlag,
) -> Result<Counted<'d, J, R>, Fail> {
    if door.tenant() != 0 || seat.tenant() != 0 {
        return Err("tenant 0")?;
    }
    let job = job_of(alloc, SHORT_THEN_LONG)?;
    let fronts = vec![in alloc; door.front()]?;
    let mut slots = HeldSlot::new(rt, slice::from_ref(door), fronts, stop);
    let (reply, _due) = slots.ask(seat, Request::Execute(job));
    let Reply::Placed(..) = reply else {
        let _fronts = slots.end();
        return Err("a slot is free")?;
    };
    Ok(Counted {
        slots,
        commits: 0,
        advances: 0,
    })
}

impl<J: Naming, R: Wait> Counted<'_, J, R> {
    /// Gives the slot home: how often it was moved by a commit, and by an advance.
    fn end(self) -> (u32, u32) {
        let Counted {
            slots,
            commits,
            advances,
        } = self;
        let _fronts = slots.end();
        (commits, advances)
    }

    /// Moves the slot so many times.
    fn move_on(&mut self, moves: u32) {
        for _move in 0..moves {
            let _moved = match self.view() {
                View::Top(top) => self.commit(segment_of(top)),
                View::Bare | View::Unshared => self.advance(),
            };
        }
    }
}

/// Moves both slots once by private runs, of which the second begins before the first is committed, if that is how
/// both are to be moved.
fn move_at_once<J: Naming, R: Wait>(
    one: &mut Counted<'_, J, R>,
    two: &mut Counted<'_, J, R>,
) -> Option<[Moved; 2]> {
    let (View::Top(first), View::Top(second)) = (one.view(), two.view()) else {
        return None;
    };
    let runs = (segment_of(first), segment_of(second));
    Some([one.commit(runs.0), two.commit(runs.1)])
}

/// How often each of two slots was moved by a commit and by an advance, and what both were answered at last.
type Beside = ([(u32, u32); 2], Option<[Moved; 2]>);

/// Two doors at a slot each are moved so often, and then at once.
fn moved_beside<J: Naming, R: Wait>(
    rt: &R,
    alloc: Global,
    door: &TenantDoor<J>,
    (first, second): (&mut Seat, &mut Seat),
    moves: u32,
) -> Result<Beside, Fail> {
    let (here, there) = (StopFlag::new(), StopFlag::new());
    let one = counted_at(rt, alloc, door, first, &here)?;
    match counted_at(rt, alloc, door, second, &there) {
        Ok(two) => Ok(move_both(rt, door, one, two, moves)),
        Err(fail) => {
            door.stop(rt);
            let _moved = one.end();
            Err(fail)
        }
    }
}

/// Moves two doors at a slot each so often, and then at once. The slots are left once the tenant's door is stopped.
fn move_both<J: Naming, R: Wait>(
    rt: &R,
    door: &TenantDoor<J>,
    one: Counted<'_, J, R>,
    two: Counted<'_, J, R>,
    moves: u32,
) -> Beside {
    let (mut one, mut two) = (one, two);
    one.move_on(moves);
    two.move_on(moves);
    let moved = [(one.commits, one.advances), (two.commits, two.advances)];
    let at_once = move_at_once(&mut one, &mut two);
    door.stop(rt);
    let _moved = (one.end(), two.end());
    (moved, at_once)
}

/// What two slots of a tenant are answered, after so many moves of each.
fn beside<J: Naming, R: Wait>(
    rt: &R,
    alloc: Global,
    registry: &Registry<J>,
    moves: u32,
) -> Result<Beside, Fail> {
    let config = tenant("acme", 2, 2, 200).ok_or("each number is in its range")?;
    let (door, mut seats) = TenantDoor::new(rt, alloc, registry, 0, config, 2)?;
    let mut second = seats.pop().ok_or("two seats")?;
    let mut first = seats.pop().ok_or("two seats")?;
    let seen = moved_beside(rt, alloc, &door, (&mut first, &mut second), moves)?;
    let _closed = closed(rt, door, vec![in alloc; first, second]?)?;
    Ok(seen)
}

#[test]
fn after_a_short_run_a_slot_is_advanced_for_a_while(rt: HostRuntime) -> Result<(), Fail> {
    after_a_short_run_a_slot_is_advanced_for_a_while_in::<Brand, _>(
        &rt,
        rt.alloc(),
        OpenedRegistry::new(),
    )
}

fn after_a_short_run_a_slot_is_advanced_for_a_while_in<
    J: Naming + Send + Sync,
    R: Threads + Wait + Sync + Abort,
>(rt: &R, alloc: Global, opened: OpenedRegistry) -> Result<(), Fail>
    requires { opened ≡ J.registry }
{
    let registry: Registry<J> = opened.named();
    let advances = u32::from(MOVES_UNDER_LOCK);
    let seen = beside(rt, alloc, &registry, 2 + advances)?;
    let moved = Some([Moved::Ran, Moved::Ran]);
    assert_same(rt, &seen.0, &[(2, advances); 2]);
    assert_same(rt, &beside(rt, alloc, &registry, 1 + advances)?.1, &moved);
    Ok(())
}

#[test]
fn long_runs_after_short_ones_overlap(rt: HostRuntime) -> Result<(), Fail> {
    long_runs_after_short_ones_overlap_in::<Brand, _>(&rt, rt.alloc(), OpenedRegistry::new())
}

fn long_runs_after_short_ones_overlap_in<J: Naming + Send + Sync, R: Threads + Wait + Sync + Abort>(
    rt: &R,
    alloc: Global,
    opened: OpenedRegistry,
) -> Result<(), Fail>
    requires { opened ≡ J.registry }
{
    let registry: Registry<J> = opened.named();
    let advances = 2 * u32::from(MOVES_UNDER_LOCK);
    let seen = beside(rt, alloc, &registry, 2 + advances + 10)?;
    let moved = Some([Moved::Ran, Moved::Ran]);
    assert_same(rt, &seen, &([(2 + 10, advances); 2], moved));
    Ok(())
}
