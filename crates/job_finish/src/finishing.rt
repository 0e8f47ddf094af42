// Going on with a tenant until all its jobs have outcomes.
ghost use Rattle.std.specs.Prelude.{◌≡◌, ◌<◌, true, false};
ghost use Rattle.job_finish.specs.Finished.{GoesOn, IsAtRest, room_left};
ghost use Rattle.job_language.specs.Recorded.{is_entry};
ghost use Rattle.job_language.specs.declared.answers.Answer.{Answer};
ghost use Rattle.tenant_model.specs.Advance.{advance};
ghost use Rattle.tenant_record.specs.Replayed.{state_of};

use job_language::{Answer, Moved};
use tenant_record::Replay;

/// Advances a tenant's slots until none can move, or its history is full. Nothing is asked, so only
/// what was submitted before is done.
pub fn finish(replay: &mut Replay)
    ensures goes { GoesOn replay.old replay.new }
    ensures rests { IsAtRest (state_of replay.new) }
{
    'rounds: loop {
        if !advance_all(replay) {
            return;
        }
    }
}

/// Advances each slot until it can't move. It says whether one moved.
fn advance_all(replay: &mut Replay) -> bool
    ensures goes { GoesOn replay.old replay.new }
    ensures fewer { result ≡ true → room_left replay.new < room_left replay.old }
    ensures rests { result ≡ false → IsAtRest (state_of replay.new) }
{
    let mut has_moved = false;
    let slots = replay.config().slots;
    // Proof hint: the state after a right history is given what its tenant is.
    let _ = replay.history();
    for slot in 0..slots {
        if advance_slot(replay, slot) {
            has_moved = true;
        }
    }
    has_moved
}

/// Advances a slot until it can't move. It says whether it moved.
fn advance_slot(replay: &mut Replay, slot: u8) -> bool
    ensures goes { GoesOn replay.old replay.new }
    ensures fewer { result ≡ true → room_left replay.new < room_left replay.old }
    ensures stays { result ≡ false → replay.new ≡ replay.old }
    ensures still { is_entry (Answer.Moved (advance (state_of replay.new) slot).0) ≡ false }
{
    let mut has_moved = false;
    'moves: loop {
        let moved = replay.advance(slot, true);
        if !is_entry(moved) {
            return has_moved;
        }
        has_moved = true;
    }
}

/// Whether an advance with this answer is recorded.
fn is_entry(moved: Moved) -> bool
    ensures { result ≡ is_entry (Answer.Moved moved) }
{
    Answer::Moved(moved).is_entry()
}
