// Advances of a slot, and arrivals at one.
ghost use Rattle.std.specs.Prelude.{◌≡◌, ◌≢◌, ◌<◌, ◌≤◌, ◌||◌, not, ℕ, false, true, length, Some};
ghost use Rattle.job_language.specs.declared.answers.Moved.TheVariants as moved;
ghost use Rattle.nest_stack.specs.declared.stack.TheConstants.{MAX_HEIGHT};
ghost use Rattle.nest_stack.specs.Nest.{stack};
ghost use Rattle.tenant_model.specs.State.{State};
ghost use Rattle.tenant_model.specs.Walks.{pick, top};
ghost use Rattle.tenant_model.specs.Changes.{entry, is_full, nest};
ghost use Rattle.tenant_model.specs.Advance.{advance, advance_run, begin, nest_pick, run_on, unless_full};
ghost use Rattle.arena_rows.specs.HeldChanges.{picked};
ghost use Rattle.arena_rows.specs.MarkedGroups.{RestsWithTop};
ghost use Rattle.arena_rows.specs.Represents.{Gives, Holds, Rests, RestsSomehow};
ghost use Rattle.arena_steps.specs.Runs.{HasNextPlace, HasRun, RunFits};
ghost use Rattle.arena_steps.specs.Within.{advance_within, if_room};

use crate::runs::{after_run, run_top, stops_blocked};
use arena_rows::Parts;
use job_language::{JobFault, Moved};
use job_step::Run;
use region_tag::RowId;
use tenant_model::MAX_HEIGHT;

/// Whether no step may be an entry: the caller has no room for one, or the history is full.
fn lacks_room(parts: &Parts, has_room: bool) -> bool
    ensures value { (s : State) → Holds parts.now s → result ≡ (not has_room || is_full s) }
    ensures room { result ≡ false → parts.now.entries < parts.now.config.steps }
{
    !has_room || parts.is_full()
}

/// Takes a slot's pick on top of it.
fn take(parts: &mut Parts, slot: u8, row: RowId) -> Moved
    requires rests { RestsSomehow parts.old }
    requires slot { slot < parts.old.config.slots }
    requires next { picked parts.old slot ≡ Some row }
    requires height { length (stack parts.old.nests slot) < MAX_HEIGHT }
    requires room { parts.old.entries < parts.old.config.steps }
    ensures { (s : State) → Rests parts.old s
        → Gives parts.new result (moved.Nested row.number, entry (nest s slot row.number)) }
{
    parts.nest(slot, row);
    parts.enter();
    Moved::Nested(row.number)
}

/// Takes a slot's pick on top of its topmost row, which waits. If the slot has as many rows as it
/// may, its task ends with the fault `TooDeep`.
fn take_on_top(parts: &mut Parts, slot: u8, row: RowId) -> Moved
    requires top { RestsWithTop parts.old slot }
    requires next { picked parts.old slot ≡ Some row }
    requires room { parts.old.entries < parts.old.config.steps }
    ensures { (s : State) (n : ℕ) → Rests parts.old s → top s.rows slot ≡ Some n
        → Gives parts.new result (nest_pick s slot n (Some row.number)) }
{
    if parts.height(slot) as u64 == MAX_HEIGHT {
        return parts.fault(slot, JobFault::TooDeep);
    }
    take(parts, slot, row)
}

/// Advances a slot whose topmost row waits, and ran nothing before: it takes its pick.
fn advance_waiting(parts: &mut Parts, slot: u8, has_room: bool) -> Moved
    requires { RestsWithTop parts.old slot }
    ensures { (s : State) (n : ℕ) → Rests parts.old s → top s.rows slot ≡ Some n
        → Gives parts.new result (if_room has_room s (nest_pick s slot n (pick s slot))) }
{
    let Some(row) = parts.pick(slot) else {
        return Moved::Idle;
    };
    if lacks_room(parts, has_room) {
        return Moved::Full;
    }
    take_on_top(parts, slot, row)
}

/// Advances a slot with nothing on it: it takes its pick, unless it is reserved.
fn advance_empty(parts: &mut Parts, slot: u8, has_room: bool) -> Moved
    requires rests { RestsSomehow parts.old }
    requires slot { slot < parts.old.config.slots }
    requires empty { length (stack parts.old.nests slot) ≡ 0 }
    ensures { (s : State) → Rests parts.old s
        → Gives parts.new result (if_room has_room s (begin s slot (pick s slot))) }
{
    if slot < parts.config().reserved {
        return Moved::Idle;
    }
    let Some(row) = parts.pick(slot) else {
        return Moved::Left;
    };
    if lacks_room(parts, has_room) {
        return Moved::Full;
    }
    take(parts, slot, row)
}

/// Advances a slot by the private run of its topmost row.
#[inline(always)]
fn advance_by(parts: &mut Parts, slot: u8, run: &Run, has_room: bool) -> Moved
    requires runs { HasRun parts.old slot run.now }
    requires next { HasNextPlace run.now }
    requires counted { parts.old.made ≤ parts.old.entries }
    ensures { (s : State) (n : ℕ) → RunFits parts.old s slot n run.now
        → Gives parts.new result (if_room has_room s (advance_run s slot n (run_on s slot n))) }
{
    let is_blocked = stops_blocked(parts, slot, run);
    if is_blocked && run.count == 0 {
        return advance_waiting(parts, slot, has_room);
    }
    if lacks_room(parts, has_room) {
        return Moved::Full;
    }
    // Proof hint: the tenant's steps are limited, and so are its rows.
    let _ = parts.config();
    after_run(parts, slot, run, is_blocked)
}

/// Advances a slot by its topmost row.
fn advance_row(parts: &mut Parts, slot: u8, has_room: bool) -> Moved
    requires top { RestsWithTop parts.old slot }
    requires counted { parts.old.made ≤ parts.old.entries }
    ensures { (s : State) (n : ℕ) → Rests parts.old s → top s.rows slot ≡ Some n
        → Gives parts.new result (if_room has_room s (advance_run s slot n (run_on s slot n))) }
{
    let run = run_top(parts, slot);
    advance_by(parts, slot, &run, has_room)
}

/// Whether an advance of a slot would be idle.
pub fn is_idle(parts: &Parts, slot: u8) -> bool
    requires { RestsSomehow parts.now }
    ensures idle { (s : State) → Rests parts.now s → result ≡ true
        → (advance s slot).0 ≡ moved.Idle }
    ensures moves { (s : State) → Rests parts.now s → result ≡ false
        → (advance s slot).0 ≢ moved.Idle }
{
    if parts.config().slots <= slot {
        return true;
    }
    match parts.top(slot) {
        Some(_top) => is_row_idle(parts, slot),
        None => slot < parts.config().reserved,
    }
}

/// Whether an advance of a slot by its topmost row would be idle.
fn is_row_idle(parts: &Parts, slot: u8) -> bool
    requires { RestsWithTop parts.now slot }
    ensures idle { (s : State) (n : ℕ) → Rests parts.now s → top s.rows slot ≡ Some n
        → result ≡ true
        → (unless_full s (advance_run s slot n (run_on s slot n))).0 ≡ moved.Idle }
    ensures moves { (s : State) (n : ℕ) → Rests parts.now s → top s.rows slot ≡ Some n
        → result ≡ false
        → (unless_full s (advance_run s slot n (run_on s slot n))).0 ≢ moved.Idle }
{
    let run = run_top(parts, slot);
    if stops_blocked(parts, slot, &run) && run.count == 0 {
        return parts.pick(slot).is_none();
    }
    false
}

/// Advances a slot by the private run of its topmost row, which was made before.
pub fn commit_within(parts: &mut Parts, slot: u8, run: &Run, has_room: bool) -> Moved
    requires runs { HasRun parts.old slot run.now }
    requires next { HasNextPlace run.now }
    requires counted { parts.old.made ≤ parts.old.entries }
    ensures { (s : State) (n : ℕ) → RunFits parts.old s slot n run.now
        → Gives parts.new result (advance_within has_room s slot) }
{
    advance_by(parts, slot, run, has_room)
}

/// Advances a slot, unless that is an entry and the caller has no room for one: then the answer is
/// that the history is full, and nothing changes.
pub fn advance_within(parts: &mut Parts, slot: u8, has_room: bool) -> Moved
    requires rests { RestsSomehow parts.old }
    requires counted { parts.old.made ≤ parts.old.entries }
    ensures { (s : State) → Rests parts.old s
        → Gives parts.new result (advance_within has_room s slot) }
{
    if parts.config().slots <= slot {
        return Moved::Idle;
    }
    match parts.top(slot) {
        Some(_top) => advance_row(parts, slot, has_room),
        None => advance_empty(parts, slot, has_room),
    }
}

/// Advances a slot.
pub fn advance(parts: &mut Parts, slot: u8) -> Moved
    requires rests { RestsSomehow parts.old }
    requires counted { parts.old.made ≤ parts.old.entries }
    ensures { (s : State) → Rests parts.old s → Gives parts.new result (advance s slot) }
{
    advance_within(parts, slot, true)
}
