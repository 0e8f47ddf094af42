// A worker's life.
ghost use Rattle.std.specs.Prelude.{◌≡◌, ◌≤◌, length};
ghost use Rattle.worker_main.specs.Slots.{ways};
ghost use Rattle.worker_main.specs.Visits.{told};
ghost use Rattle.worker_main.specs.Works.{ServesCall, TakesTurn, Works};

use crate::doors::WorkerAccess;
use crate::gate::Gate;
use crate::ringer::Ringer;
use crate::signal::Signal;
use crate::slot_door::SlotDoor;
use crate::visiting::Visiting;
use crate::visits::answer_call;
use call_queues::{CallQueues, QueuePass};
use std::sync::Wait;

/// Serves calls until the signal says to stop: it pops a call, arrives at its slot and moves it until
/// the slot is left, or handed over by a worker that shares. Before each turn at a slot it looks whether
/// the signal says to stop, so it takes at most one more after that. It waits if there is no call. The
/// queue pass and the doors come back. A worker makes at most 2^64 - 1 turns.
pub fn worker<R, S, G, D>(
    rt: &R,
    queues: &CallQueues,
    pass: QueuePass,
    doors: D,
    signal: &S,
    gate: &G,
    visiting: Visiting,
) -> (QueuePass, D)
where
    R: Wait,
    S: Signal,
    G: Gate,
    D: WorkerAccess,
    requires pass { pass.queues ≡ queues.now.queues }
    requires tenants { D.tenants doors ≤ length queues.now.config }
    ensures pass { (result.0.queues ≡ pass.queues) × (result.0.number ≡ pass.number) }
    ensures works { Works (ways D.views D.commits D.advances D.heights D.pauses D.homes D.hands
        D.arrives) visiting (told (S.stops signal.now) (S.looked signal.now))
        (record { ringer = record { queues = queues.now; pass = pass }; doors = doors })
        (record { ringer = record { queues = queues.now; pass = result.0 }; doors = result.1 }) }
{
    let mut door = SlotDoor::new(Ringer::new(rt, signal, queues, pass), gate, doors);
    work(rt, signal, &mut door, visiting);
    door.into_parts()
}

/// Serves the first call of the highest level that has one, as `worker` does, and says whether there was one. The queue
/// pass and the doors come back.
pub fn serve_call<R, S, G, D>(
    rt: &R,
    queues: &CallQueues,
    pass: QueuePass,
    doors: D,
    signal: &S,
    gate: &G,
    visiting: Visiting,
) -> (QueuePass, D, bool)
where
    R: Wait,
    S: Signal,
    G: Gate,
    D: WorkerAccess,
    requires pass { pass.queues ≡ queues.now.queues }
    requires tenants { D.tenants doors ≤ length queues.now.config }
    ensures queues { result.0.queues ≡ pass.queues }
    ensures serves { ServesCall (ways D.views D.commits D.advances D.heights D.pauses D.homes D.hands
        D.arrives) visiting (told (S.stops signal.now) (S.looked signal.now)) result.2
        (record { ringer = record { queues = queues.now; pass = pass }; doors = doors })
        (record { ringer = record { queues = queues.now; pass = result.0 }; doors = result.1 }) }
{
    let mut door = SlotDoor::new(Ringer::new(rt, signal, queues, pass), gate, doors);
    let is_called = serve_first(signal, &mut door, visiting);
    let (pass, doors) = door.into_parts();
    (pass, doors, is_called)
}

/// Serves the first call, if there is one.
fn serve_first<R, S, G, D>(
    signal: &S,
    door: &mut SlotDoor<'_, R, S, G, D>,
    visiting: Visiting,
) -> bool
where
    R: Wait,
    S: Signal,
    G: Gate,
    D: WorkerAccess,
    ensures { ServesCall (ways D.views D.commits D.advances D.heights D.pauses D.homes D.hands
        D.arrives) visiting (told (S.stops signal.now) (S.looked signal.now)) result door.old
        door.new }
{
    match door.pop() {
        Some(call) => {
            answer_call(signal, door, call, visiting);
            true
        }
        None => false,
    }
}

/// Takes turns until the signal says to stop.
fn work<R, S, G, D>(rt: &R, signal: &S, door: &mut SlotDoor<'_, R, S, G, D>, visiting: Visiting)
where
    R: Wait,
    S: Signal,
    G: Gate,
    D: WorkerAccess,
    ensures { Works (ways D.views D.commits D.advances D.heights D.pauses D.homes D.hands D.arrives)
        visiting (told (S.stops signal.now) (S.looked signal.now)) door.old door.new }
{
    for _turn in 0..u64::MAX {
        let Some(heard) = signal.listen(rt) else {
            return;
        };
        take_turn(rt, signal, door, heard, visiting);
    }
}

/// Serves a call, or waits if there is none.
fn take_turn<R, S, G, D>(
    rt: &R,
    signal: &S,
    door: &mut SlotDoor<'_, R, S, G, D>,
    heard: u64,
    visiting: Visiting,
)
where
    R: Wait,
    S: Signal,
    G: Gate,
    D: WorkerAccess,
    requires { S.hears signal.now heard }
    ensures { TakesTurn (ways D.views D.commits D.advances D.heights D.pauses D.homes D.hands
        D.arrives) visiting (told (S.stops signal.now) (S.looked signal.now)) door.old door.new }
{
    match door.pop() {
        Some(call) => answer_call(signal, door, call, visiting),
        None => signal.wait_past(rt, heard),
    }
}
