// What one worker does, by the tables of its slots.
ghost use Rattle.std.specs.Prelude.{◌≡◌, length};

use super::tours::{Row, Tour, one_tenant, returns_its_slot};
use crate::tests::assert_same;
use crate::tests::threads::queues::push;
use call_queues::{CallQueues, QueuePass};
use job_language::{Came, Moved, Program};
use job_step::{View, segment_of};
use market_config::Call;
use nested_wait::Door;
use std::alloc::Global;
use std::cell::Cell;
use std::sync::Wait;
use std::test::*;
use worker_main::{Bell, Gate, NoGate, Ringer, Signal, SlotDoor, Visiting, worker};

const FIRST: Call = Call { tenant: 0, slot: 5 };

const SECOND: Call = Call { tenant: 0, slot: 6 };

const DUE: Call = Call { tenant: 0, slot: 9 };

/// What was done at a tour, and which call was left.
#[derive(Clone, Copy, Debug, PartialEq, Eq)]
struct Counts {
    place: usize,
    commits: u32,
    advances: u32,
    pauses: u32,
    homes: u32,
    is_out: bool,
    left: Option<Call>,
}

/// A worker is called twice, and told to stop once both calls are served.
fn counts_of<R: Wait>(rt: &R, alloc: Global, rows: &[Row]) -> Result<Counts, Fail> {
    let program = returns_its_slot(alloc)?;
    let (queues, mut passes) = CallQueues::new(alloc, one_tenant(alloc)?, 1)?;
    Ok(served(rt, &queues, passes.remove(0), program, rows))
}

fn served<R: Wait>(
    rt: &R,
    queues: &CallQueues,
    mut pass: QueuePass,
    program: Program,
    rows: &[Row],
) -> Counts
    requires pass { pass.queues ≡ queues.now.queues }
    requires tenant { length queues.now.config ≡ 1 }
{
    let _ = push(rt, queues, &mut pass, FIRST);
    let _ = push(rt, queues, &mut pass, SECOND);
    let bell = Bell::new();
    let commits = Cell::new(0);
    let tour = Tour::new(program, rt, &bell, &commits, rows, 2);
    let (mut pass, tour) = worker(rt, queues, pass, tour, &bell, &NoGate, Visiting::Staying);
    Counts {
        place: tour.place,
        commits: commits.get(),
        advances: tour.advances,
        pauses: tour.pauses,
        homes: tour.homes,
        is_out: tour.at.is_some(),
        left: queues.pop_call(rt, &mut pass),
    }
}

#[test]
fn a_visit_goes_on_after_nested_and_ends_after_left(rt: HostRuntime) -> Result<(), Fail> {
    let rows = [
        (1, Moved::Ran, None),
        (0, Moved::Nested(2), None),
        (1, Moved::Ran, None),
        (0, Moved::Left, None),
    ];
    let counts = counts_of(&rt, rt.alloc(), &rows)?;
    let wanted = Counts {
        place: 4,
        commits: 2,
        advances: 2,
        pauses: 0,
        homes: 0,
        is_out: false,
        left: None,
    };
    assert_same(&rt, &counts, &wanted);
    Ok(())
}

#[test]
fn a_slot_goes_home_at_a_full_history(rt: HostRuntime) -> Result<(), Fail> {
    let rows = [(1, Moved::Full, None), (0, Moved::Full, None)];
    let counts = counts_of(&rt, rt.alloc(), &rows)?;
    let wanted = Counts {
        place: 2,
        commits: 1,
        advances: 1,
        pauses: 0,
        homes: 2,
        is_out: false,
        left: None,
    };
    assert_same(&rt, &counts, &wanted);
    Ok(())
}

#[test]
fn calls_are_served_in_order_until_the_bell_tells_to_stop(rt: HostRuntime) -> Result<(), Fail> {
    let rows = [
        (1, Moved::Ran, Some(9)),
        (0, Moved::Left, None),
        (1, Moved::Ran, None),
        (0, Moved::Left, None),
        (1, Moved::Ran, None),
    ];
    let counts = counts_of(&rt, rt.alloc(), &rows)?;
    let wanted = Counts {
        place: 4,
        commits: 2,
        advances: 2,
        pauses: 0,
        homes: 0,
        is_out: false,
        left: Some(DUE),
    };
    assert_same(&rt, &counts, &wanted);
    Ok(())
}

/// What a slot's door is answered where a second slot becomes due, what the bell says of each, and the call
/// that is left.
#[derive(Clone, Copy, Debug, PartialEq, Eq)]
struct Rung {
    came: Came,
    moved: Moved,
    /// Before the advance, after it, and once the bell tells to stop.
    heard: [Option<u64>; 3],
    left: Option<Call>,
}

/// A slot is arrived at, and its advance makes a second one due.
fn ring_for_due<R: Wait>(rt: &R, alloc: Global) -> Result<Rung, Fail> {
    let program = returns_its_slot(alloc)?;
    let (queues, mut passes) = CallQueues::new(alloc, one_tenant(alloc)?, 1)?;
    Ok(arrive_and_advance(rt, &queues, passes.remove(0), program))
}

fn arrive_and_advance<R: Wait>(
    rt: &R,
    queues: &CallQueues,
    pass: QueuePass,
    program: Program,
) -> Rung
    requires pass { pass.queues ≡ queues.now.queues }
    requires tenant { length queues.now.config ≡ 1 }
{
    let bell = Bell::new();
    let rows = [(1, Moved::Ran, Some(9)), (0, Moved::Left, None)];
    let commits = Cell::new(0);
    let tour = Tour::new(program, rt, &bell, &commits, &rows, 2);
    let mut door = SlotDoor::new(Ringer::new(rt, &bell, queues, pass), &NoGate, tour);
    let came = door.arrive(FIRST);
    let before = bell.listen(rt);
    let moved = door.advance();
    let after = bell.listen(rt);
    let left = door.pop();
    bell.stop(rt);
    Rung {
        came,
        moved,
        heard: [before, after, bell.listen(rt)],
        left,
    }
}

#[test]
fn the_bell_rings_for_a_slot_that_becomes_due(rt: HostRuntime) -> Result<(), Fail> {
    let rung = ring_for_due(&rt, rt.alloc())?;
    let wanted = Rung {
        came: Came::At(1),
        moved: Moved::Ran,
        heard: [Some(0), Some(1), None],
        left: Some(DUE),
    };
    assert_same(&rt, &rung, &wanted);
    Ok(())
}

/// What passed a gate: how often, and the last time of which tenant and slot, after how many commits.
type Passed = (u32, Option<(usize, u8, u32)>);

/// A gate that notes what passes it.
#[derive(Drop)]
struct NotingGate<'n> {
    commits: &'n Cell<u32>,
    passed: Cell<Passed>,
}

impl Gate for NotingGate<'_> {
    fn inside(&self, tenant: usize, slot: u8) {
        let (times, _) = self.passed.get();
        let last = Some((tenant, slot, self.commits.get()));
        self.passed.set((times.wrapping_add(1), last));
    }
}

/// A slot is arrived at, and the private run of its topmost frame is committed: what passed the gate, and how many
/// commits were made.
fn pass_gate<R: Wait>(rt: &R, alloc: Global) -> Result<(Passed, u32), Fail> {
    let program = returns_its_slot(alloc)?;
    let (queues, mut passes) = CallQueues::new(alloc, one_tenant(alloc)?, 1)?;
    Ok(view_and_commit(rt, &queues, passes.remove(0), program))
}

fn view_and_commit<R: Wait>(
    rt: &R,
    queues: &CallQueues,
    pass: QueuePass,
    program: Program,
) -> (Passed, u32)
    requires pass { pass.queues ≡ queues.now.queues }
    requires tenant { length queues.now.config ≡ 1 }
{
    let bell = Bell::new();
    let commits = Cell::new(0);
    let gate = NotingGate {
        commits: &commits,
        passed: Cell::new((0, None)),
    };
    let rows = [(1, Moved::Ran, None)];
    let tour = Tour::new(program, rt, &bell, &commits, &rows, 2);
    let mut door = SlotDoor::new(Ringer::new(rt, &bell, queues, pass), &gate, tour);
    let _came = door.arrive(FIRST);
    if let View::Top(top) = door.view() {
        let _moved = door.commit(segment_of(top));
    }
    (gate.passed.get(), commits.get())
}

#[test]
fn a_private_run_passes_the_gate_before_its_commit(rt: HostRuntime) -> Result<(), Fail> {
    let seen = pass_gate(&rt, rt.alloc())?;
    assert_same(&rt, &seen, &((1, Some((0, 5, 0))), 1));
    Ok(())
}
