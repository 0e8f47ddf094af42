// A worker's visit to a slot.
ghost use Rattle.std.specs.Prelude.{◌≡◌};
ghost use Rattle.worker_main.specs.Slots.{ways};
ghost use Rattle.worker_main.specs.Visits.{after_pause, next_round, told, AfterBelow, TakesRound, Visits, Comes};

use crate::doors::WorkerAccess;
use crate::gate::Gate;
use crate::signal::Signal;
use crate::slot_door::SlotDoor;
use crate::visiting::Visiting;
use job_language::{Came, Moved};
use market_config::Call;
use nested_wait::{Door, take_turn};
use std::sync::Wait;

/// How a round of a visit ends.
#[derive(Clone, Copy, Debug, PartialEq, Eq)]
pub(crate) enum Round {
    /// The slot is moved again.
    Again,
    /// The slot was left, and is home.
    Left,
    /// The slot is to be given home.
    Ended,
}

/// Arrives for a call, and visits its slot if a row was found there.
pub(crate) fn answer_call<R, S, G, D>(
    signal: &S,
    door: &mut SlotDoor<'_, R, S, G, D>,
    call: Call,
    visiting: Visiting,
)
where
    R: Wait,
    S: Signal,
    G: Gate,
    D: WorkerAccess,
    ensures { Comes (ways D.views D.commits D.advances D.heights D.pauses D.homes D.hands D.arrives)
        visiting (told (S.stops signal.now) (S.looked signal.now)) call door.old door.new }
{
    match door.arrive(call) {
        Came::At(_) => visit(signal, door, visiting),
        Came::Nothing | Came::Full => {}
    }
}

/// Moves the slot until it is left. If it cannot go on, or the signal says to stop, the slot is given
/// home.
fn visit<R, S, G, D>(signal: &S, door: &mut SlotDoor<'_, R, S, G, D>, visiting: Visiting)
where
    R: Wait,
    S: Signal,
    G: Gate,
    D: WorkerAccess,
    ensures { Visits (ways D.views D.commits D.advances D.heights D.pauses D.homes D.hands
        D.arrives) visiting (told (S.stops signal.now) (S.looked signal.now)) door.old door.new }
{
    for round in 0..u64::MAX {
        if !signal.may_go_on(round) {
            return door.give_home();
        }
        match take_round(door, visiting) {
            Round::Again => {}
            Round::Left => return,
            Round::Ended => return door.give_home(),
        }
    }
    door.give_home()
}

/// Moves the slot once. A slot without rows may be left, and one that is idle waits until it can move.
fn take_round<R, S, G, D>(door: &mut SlotDoor<'_, R, S, G, D>, visiting: Visiting) -> Round
where
    R: Wait,
    S: Signal,
    G: Gate,
    D: WorkerAccess,
    ensures { TakesRound (ways D.views D.commits D.advances D.heights D.pauses D.homes D.hands
        D.arrives) visiting result door.old door.new }
{
    if door.height() < 1 {
        return end_round(door, visiting);
    }
    match take_turn(door) {
        Moved::Full => Round::Ended,
        Moved::Idle => after_pause(door.pause()),
        _ => Round::Again,
    }
}

/// What a pause says.
fn after_pause(stops: bool) -> Round
    ensures { result ≡ after_pause stops }
{
    if stops { Round::Ended } else { Round::Again }
}

/// Advances a slot without rows once. A worker that shares hands it over in place of that, if a call
/// waits.
fn end_round<R, S, G, D>(door: &mut SlotDoor<'_, R, S, G, D>, visiting: Visiting) -> Round
where
    R: Wait,
    S: Signal,
    G: Gate,
    D: WorkerAccess,
    ensures { AfterBelow (ways D.views D.commits D.advances D.heights D.pauses D.homes D.hands
        D.arrives) visiting result door.old door.new }
{
    if visiting == Visiting::Sharing && door.is_awaited() {
        door.hand_over();
        return Round::Left;
    }
    after(door.advance())
}

/// What an advance of a slot without rows says.
fn after(moved: Moved) -> Round
    ensures { result ≡ next_round moved }
{
    match moved {
        Moved::Left => Round::Left,
        Moved::Full | Moved::Idle => Round::Ended,
        _ => Round::Again,
    }
}
