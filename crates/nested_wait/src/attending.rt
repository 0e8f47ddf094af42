// Attending a slot: turns, with one call for each row that is nested.
ghost use Rattle.std.specs.Prelude.{◌≤◌};
ghost use Rattle.nested_wait.specs.Turns.{Turn};
ghost use Rattle.nested_wait.specs.Runs.{Attends};

use crate::doors::Door;
use job_language::Moved;
use job_step::{View, segment_of};

/// How attending a slot ended.
#[derive(Clone, Copy, Debug, PartialEq, Eq)]
pub enum Attended {
    /// The stack is below the floor.
    Below,
    /// The history is at its limit.
    Full,
    /// Nothing can run now, and a pause said to stop. Or a call counted 2^64 - 1 turns.
    Stopped,
}

/// Moves the slot until its stack has fewer rows than the floor. Each row that is nested is attended
/// by a call of its own, until it has left. It takes no memory.
pub fn attend<D: Door>(door: &mut D, floor: usize) -> Attended
    requires { 1 ≤ floor }
    ensures { Attends (Turn D.views D.commits D.advances) D.heights D.pauses floor result door.old
        door.new }
{
    for _turn in 0..u64::MAX {
        if door.height() < floor {
            return Attended::Below;
        }
        match take_turn(door) {
            Moved::Full => return Attended::Full,
            Moved::Idle => {
                if door.pause() {
                    return Attended::Stopped;
                }
            }
            Moved::Nested(_) => {
                let height = door.height();
                if height > floor {
                    match attend(door, height) {
                        Attended::Below => {}
                        ended => return ended,
                    }
                }
            }
            _ => {}
        }
    }
    Attended::Stopped
}

/// Moves the slot once. The private run of a topmost frame is made here, between two calls.
pub fn take_turn<D: Door>(door: &mut D) -> Moved
    ensures { Turn D.views D.commits D.advances door.old result door.new }
{
    match door.view() {
        View::Top(top) => door.commit(segment_of(top)),
        View::Bare | View::Unshared => door.advance(),
    }
}
