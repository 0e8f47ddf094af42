// Stacks of slots, and the rows that a slot may take.
ghost use Rattle.std.specs.Prelude.{◌≡◌, ◌==◌, ◌&&◌, map, IfSome};
ghost use Rattle.tenant_model.specs.Walks.{is_open, is_unstarted, height, top, is_allowed, pick_of, region_on};
ghost use Rattle.std.specs.List.{list_any};
ghost use Rattle.tenant_model.specs.Asks.{has_outcome};
ghost use Rattle.tenant_model.specs.Linked.{MakersPrecede};
ghost use Rattle.tenant_model.specs.Changes.{open_rows, task_height, task_height_of, faulted_row, faulted_phase};
ghost use Rattle.solo_eval.specs.Present.{IsNumberIn};

use crate::chains::{is_within, region_of};
use job_language::Isolation;
use tenant_model::{Phase, Row};

/// How many rows are on a slot's stack.
pub(crate) fn height(rows: &[Row], slot: u8) -> u64
    ensures { result ≡ height rows.now slot }
{
    rows.iter().filter(|row| row.phase.is_live_on(slot)).count() as u64
}

/// The number of the highest row on a slot's stack.
pub(crate) fn top(rows: &[Row], slot: u8) -> Option<u64>
    ensures value { result ≡ top rows.now slot }
    ensures there { IfSome result (IsNumberIn rows.now) }
{
    let height = height(rows, slot);
    for (place, row) in rows.iter().enumerate() {
        if row.phase.is_live_at(slot, height) {
            return Some(place as u64 + 1);
        }
    }
    None
}

/// How many rows are open.
pub(crate) fn open_rows(rows: &[Row]) -> usize
    ensures { result ≡ open_rows rows.now }
{
    rows.iter().filter(|row| row.phase.is_open()).count()
}

/// Whether some row is open.
pub(crate) fn any_open(rows: &[Row]) -> bool
    ensures { result ≡ list_any (λ r. is_open r.phase) rows.now }
{
    rows.iter().any(|row| row.phase.is_open())
}

/// Whether some row waits to be started.
pub(crate) fn any_unstarted(rows: &[Row]) -> bool
    ensures { result ≡ list_any (λ r. is_unstarted r.phase) rows.now }
{
    rows.iter().any(|row| row.phase.is_unstarted())
}

/// Whether no row of a job is open.
pub(crate) fn has_outcome(rows: &[Row], job: u64) -> bool
    ensures { result ≡ has_outcome rows.now job }
{
    !has_open_row(rows, job)
}

/// Whether some row of a job is open.
fn has_open_row(rows: &[Row], job: u64) -> bool
    ensures { result ≡ list_any (λ r. (r.job == job) && is_open r.phase) rows.now }
{
    rows.iter().any(|row| row.job == job && row.phase.is_open())
}

/// Whether a slot whose topmost row is in a region may take a row.
pub(crate) fn is_allowed(
    isolation: &Isolation,
    rows: &[Row],
    region: Option<u64>,
    number: u64,
) -> bool
    requires precede { MakersPrecede rows.now }
    requires row { IsNumberIn rows.now number }
    ensures { result ≡ is_allowed isolation.now rows.now region number }
{
    match region {
        None => true,
        Some(region) => match *isolation {
            Isolation::Exact => region_of(rows, number) == Some(region),
            Isolation::Within => is_within(rows, number, region),
        },
    }
}

/// The region of the topmost row of a slot.
fn region_on(rows: &[Row], slot: u8) -> Option<u64>
    requires { MakersPrecede rows.now }
    ensures { result ≡ region_on rows.now (top rows.now slot) }
{
    region_of(rows, top(rows, slot)?)
}

/// The newest row that the slot may take and that was made on it; if there is none, the oldest one
/// that it may take.
pub(crate) fn pick(isolation: &Isolation, rows: &[Row], slot: u8) -> Option<u64>
    requires { MakersPrecede rows.now }
    ensures value { result ≡ pick_of isolation.now rows.now slot }
    ensures there { IfSome result (IsNumberIn rows.now) }
{
    let region = region_on(rows, slot);
    let mut oldest = None;
    let mut newest = None;
    for (place, row) in rows.iter().enumerate() {
        let number = place as u64 + 1;
        if row.phase.is_unstarted() && is_allowed(isolation, rows, region, number) {
            oldest = oldest.or(Some(number));
            if row.made_on == Some(slot) {
                newest = Some(number);
            }
        }
    }
    newest.or(oldest)
}

/// The height of a row on the slot if it is not a region; else 0.
fn task_height_of(row: &Row, slot: u8) -> u64
    ensures { result ≡ task_height_of slot row.now }
{
    match row.phase {
        Phase::Live(on, height) if on == slot && !row.kind.is_region() => height,
        _ => 0,
    }
}

/// The height of the highest row on a slot that is not a region, or 0.
pub(crate) fn task_height(rows: &[Row], slot: u8) -> u64
    ensures { result ≡ task_height rows.now slot }
{
    let mut highest = 0u64;
    for row in rows {
        highest = highest.max(task_height_of(row, slot));
    }
    highest
}

/// The phase of a row after a fault of a slot's rows from a height on.
fn faulted_phase(phase: &Phase, slot: u8, from: u64) -> Phase
    ensures { result ≡ faulted_phase slot from phase.now }
{
    match *phase {
        Phase::Live(on, height) => {
            if on == slot && from <= height {
                Phase::Faulted
            } else {
                Phase::Live(on, height)
            }
        }
        _ => *phase,
    }
}

/// The row after that fault.
fn faulted_row(row: &Row, slot: u8, from: u64) -> Row
    ensures { result ≡ faulted_row slot from row.now }
{
    let phase = faulted_phase(&row.phase, slot, from);
    Row { phase, ..*row }
}

/// Ends the rows on a slot from a height on.
pub(crate) fn fault_rows(rows: &mut [Row], slot: u8, from: u64)
    ensures { rows.new ≡ map (faulted_row slot from) rows.old }
{
    for row in rows.iter_mut() {
        *row = faulted_row(row, slot, from);
    }
}
