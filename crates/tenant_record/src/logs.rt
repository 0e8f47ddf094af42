// Whether the log of a pass is what a history has of its slot.
ghost use Rattle.std.specs.Prelude.{◌≡◌, ◌↔◌, IsTrue, option_map};
ghost use Rattle.tenant_record.specs.Cell.{is_step_on};
ghost use Rattle.tenant_record.specs.Logs.{IsLog, IsLeft, note_of};

use crate::notes::Told;
use job_language::{Answer, Came, Entry, Moved, Step};

/// Whether a log is exactly what a history has of a slot, in order.
pub(crate) fn is_log(slot: u8, history: &[Entry], log: &[Told]) -> bool
    ensures { IsTrue result ↔ IsLog slot history.now log.now }
{
    let mut left = log;
    let mut entries = history;
    while let [entry, rest @ ..] = entries {
        let Some(others) = left_after(slot, entry, left) else {
            return false;
        };
        left = others;
        entries = rest;
    }
    left.is_empty()
}

/// What is left of a log after an entry of the history. There is nothing if the log lacks the entry.
fn left_after<'l>(slot: u8, entry: &Entry, log: &'l [Told]) -> Option<&'l [Told]>
    ensures { IsLeft slot entry.now log.now (option_map (λ left. left.now) result) }
{
    if !is_on(slot, &entry.step) {
        return Some(log);
    }
    let [told, rest @ ..] = log else {
        return None;
    };
    let noted = note_of(entry)?;
    if is_same(noted, *told) {
        Some(rest)
    } else {
        None
    }
}

fn is_same(told: Told, other: Told) -> bool
    ensures { IsTrue result ↔ (told ≡ other) }
{
    told == other
}

/// What a pass notes of an entry of its slot.
fn note_of(entry: &Entry) -> Option<Told>
    ensures { result ≡ note_of entry.now.step entry.now.answer }
{
    match (&entry.step, &entry.answer) {
        (Step::Arrive(_), Answer::Came(Came::At(row))) => Some(Told::Arrived(*row)),
        (Step::Advance(_), Answer::Moved(Moved::Ran)) => Some(Told::Ran),
        (Step::Advance(_), Answer::Moved(Moved::Nested(row))) => Some(Told::Nested(*row)),
        (Step::Advance(_), Answer::Moved(Moved::Freed)) => Some(Told::Freed),
        _ => None,
    }
}

/// Whether a step is an arrival at a slot, or an advance of it.
fn is_on(slot: u8, step: &Step) -> bool
    ensures { result ≡ is_step_on slot step.now }
{
    match step {
        Step::Ask(_) => false,
        Step::Arrive(on) | Step::Advance(on) => *on == slot,
    }
}
