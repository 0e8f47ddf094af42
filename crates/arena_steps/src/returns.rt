// The end of a slot's topmost row.
ghost use Rattle.std.specs.Prelude.{◌≡◌, ◌<◌, ℕ, false, Some};
ghost use Rattle.job_language.specs.Program.{is_last};
ghost use Rattle.job_step.specs.declared.frames.TheConstants.{LAST_PLACE};
ghost use Rattle.tenant_model.specs.State.{State};
ghost use Rattle.tenant_model.specs.Walks.{top};
ghost use Rattle.tenant_model.specs.Shared.{ret, hand_to, handed_frame};
ghost use Rattle.arena_rows.specs.Represents.{Rests, Gives};
ghost use Rattle.arena_rows.specs.MarkedGroups.{RestsWithTop};
ghost use Rattle.arena_steps.specs.Frames.{FrameFits, CanMove};

use crate::steps::read;
use arena_rows::Parts;
use job_language::{Instr, JobFault, Moved, Register};
use job_step::Frame;

/// The frame of a maker after its isolate, with the value of the region.
fn handed_frame(instr: &Instr, frame: Frame, value: i64) -> Frame
    requires { is_last instr.now ≡ false → frame.place < LAST_PLACE }
    ensures { result ≡ handed_frame (Some instr.now) value frame }
{
    match *instr {
        Instr::Isolate(to, _procedure, _first, _second) => frame.write_and_step(to, value),
        _ => frame,
    }
}

/// Hands the value of a region to its maker, the topmost row of a slot, which continues.
fn hand(parts: &mut Parts, slot: u8, value: i64)
    requires { RestsWithTop parts.old slot }
    ensures { (s : State) (m : ℕ) → Rests parts.old s → top s.rows slot ≡ Some m
        → Rests parts.new (hand_to s m value) }
{
    let frame = parts.frame(slot);
    if let Some(instr) = frame.instr_in(parts.program(slot)) {
        parts.move_on(slot, handed_frame(&instr, frame, value));
    } else {
        parts.move_on(slot, frame);
    }
}

/// Ends a slot's topmost row with the value of a register. The maker of a region continues with the
/// value. If a group of the row has a member, the slot's task ends with the fault `MissingWait`.
pub(crate) fn ret(parts: &mut Parts, slot: u8, frame: Frame, from: Register) -> Moved
    requires fits { CanMove parts.old slot frame }
    requires room { parts.old.entries < parts.old.config.steps }
    ensures { (s : State) (n : ℕ) → FrameFits parts.old s slot n frame
        → Gives parts.new result (ret s slot n frame from) }
{
    if parts.has_used_group(slot) {
        return parts.fault(slot, JobFault::MissingWait);
    }
    let is_region = parts.is_region_on(slot);
    let value = read(&frame, from);
    parts.finish(slot, value);
    if !is_region {
        return parts.finish_step(slot);
    }
    hand(parts, slot, value);
    parts.finish_step(slot)
}
