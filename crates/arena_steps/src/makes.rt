// Shared instructions of a slot's topmost row that make a row.
ghost use Rattle.std.specs.Prelude.{◌≡◌, ◌<◌, ◌+◌, ◌^◌, ℕ};
ghost use Rattle.tenant_model.specs.State.{State};
ghost use Rattle.tenant_model.specs.Shared.{spawn, post, isolate_at, called_frame};
ghost use Rattle.arena_steps.specs.Isolates.{CanIsolate, IsAtIsolate};
ghost use Rattle.arena_rows.specs.Represents.{Gives};
ghost use Rattle.arena_steps.specs.Frames.{FrameFits, CanStep};

use arena_rows::Parts;
use job_language::{Group, JobFault, Moved, Register};
use job_step::Frame;
use tenant_model::MAX_HEIGHT;

/// A new frame at a procedure, with the values of two registers.
fn called_frame(frame: &Frame, procedure: u8, first: Register, second: Register) -> Frame
    ensures { result ≡ called_frame frame.now procedure first second }
{
    let first = frame.registers[first.index()];
    let second = frame.registers[second.index()];
    Frame::new(procedure, first, second)
}

/// Makes a row in a group of a slot's topmost row (`task_group::run`). If no place is free, the
/// slot's task ends with the fault `TaskLimit`.
pub(crate) fn spawn(
    parts: &mut Parts,
    slot: u8,
    frame: Frame,
    group: Group,
    procedure: u8,
    first: Register,
    second: Register,
) -> Moved
    requires step { CanStep parts.old slot frame }
    requires few { parts.old.made + 1 < 2 ^ 32 }
    ensures { (s : State) (n : ℕ) → FrameFits parts.old s slot n frame
        → Gives parts.new result (spawn s slot n frame group procedure first second) }
{
    // Proof hint: a frame has the group.
    let _ = group.index();
    if parts.is_row_limit_met() {
        return parts.fault(slot, JobFault::TaskLimit);
    }
    parts.move_on(slot, frame.next());
    parts.spawn_settled(slot, group, called_frame(&frame, procedure, first, second));
    parts.finish_step(slot)
}

/// Makes a row of the job of a slot's topmost row, in no group and no region (`enqueue`). If no
/// place is free, the slot's task ends with the fault `TaskLimit`.
pub(crate) fn post(
    parts: &mut Parts,
    slot: u8,
    frame: Frame,
    procedure: u8,
    first: Register,
    second: Register,
) -> Moved
    requires step { CanStep parts.old slot frame }
    requires few { parts.old.made + 1 < 2 ^ 32 }
    ensures { (s : State) (n : ℕ) → FrameFits parts.old s slot n frame
        → Gives parts.new result (post s slot n frame procedure first second) }
{
    if parts.is_row_limit_met() {
        return parts.fault(slot, JobFault::TaskLimit);
    }
    parts.move_on(slot, frame.next());
    parts.post_settled(slot, called_frame(&frame, procedure, first, second));
    parts.finish_step(slot)
}

/// Makes a region on top of a slot's topmost row, which stays at its isolate while the region runs
/// (`this_task_arena::isolate`). If the slot has as many rows as it may, its task ends with the
/// fault `TooDeep`, and if no place is free, with `TaskLimit`.
pub(crate) fn isolate(
    parts: &mut Parts,
    slot: u8,
    frame: Frame,
    procedure: u8,
    first: Register,
    second: Register,
) -> Moved
    requires fits { CanIsolate parts.old slot frame procedure first second }
    requires room { parts.old.entries < parts.old.config.steps }
    requires few { parts.old.made + 1 < 2 ^ 32 }
    ensures { (s : State) (n d : ℕ) → FrameFits parts.old s slot n frame
        → IsAtIsolate s n frame d procedure first second
        → Gives parts.new result
        (isolate_at s slot n frame (called_frame frame procedure first second)) }
{
    let height = parts.height(slot) as u64;
    if height == MAX_HEIGHT {
        return parts.fault(slot, JobFault::TooDeep);
    }
    if parts.is_row_limit_met() {
        return parts.fault(slot, JobFault::TaskLimit);
    }
    parts.move_on(slot, frame);
    parts.isolate(slot, called_frame(&frame, procedure, first, second));
    parts.finish_step(slot)
}
