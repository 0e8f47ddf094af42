// The shared instruction that a slot's topmost row is at.
ghost use Rattle.std.specs.Prelude.{◌≡◌, ◌<◌, ◌+◌, ◌^◌, ℕ, pos, false, if◌then◌else◌};
ghost use Rattle.job_language.specs.Program.{is_last};
ghost use Rattle.job_step.specs.declared.frames.TheConstants.{LAST_PLACE};
ghost use Rattle.tenant_model.specs.State.{State};
ghost use Rattle.thread_cells.specs.Cells.{cell_sum, cell_count};
ghost use Rattle.tenant_model.specs.Walks.{is_context_cancelled};
ghost use Rattle.tenant_model.specs.Shared.{execute, write_register};
ghost use Rattle.arena_rows.specs.Represents.{Gives};
ghost use Rattle.arena_steps.specs.Frames.{FrameFits, CanStep};
ghost use Rattle.arena_steps.specs.Ready.{IsReady, CanExecute};

use crate::makes::{isolate, post, spawn};
use crate::returns::ret;
use crate::steps::{cancel, load, move_to, store, wait, write_register};
use arena_rows::Parts;
use job_language::{Instr, Key, Moved, Register};
use job_step::Frame;

/// Writes 1 if the context of a slot's topmost row is cancelled, and 0 otherwise
/// (`is_current_task_group_canceling`).
fn ask(parts: &mut Parts, slot: u8, frame: Frame, to: Register) -> Moved
    requires { CanStep parts.old slot frame }
    ensures { (s : State) (n : ℕ) → FrameFits parts.old s slot n frame
        → Gives parts.new result
        (write_register s slot n frame to (if is_context_cancelled s n then pos 1 else pos 0)) }
{
    let is_cancelled = parts.is_cancelled(slot);
    write_register(parts, slot, frame, to, i64::from(is_cancelled))
}

/// Writes the sum of a key's cells.
fn sum(parts: &mut Parts, slot: u8, frame: Frame, to: Register, key: Key) -> Moved
    requires { CanStep parts.old slot frame }
    ensures { (s : State) (n : ℕ) → FrameFits parts.old s slot n frame
        → Gives parts.new result (write_register s slot n frame to (cell_sum s.cells key)) }
{
    let sum = parts.cell_sum(key);
    write_register(parts, slot, frame, to, sum)
}

/// Writes the number of a key's cells.
fn count(parts: &mut Parts, slot: u8, frame: Frame, to: Register, key: Key) -> Moved
    requires { CanStep parts.old slot frame }
    ensures { (s : State) (n : ℕ) → FrameFits parts.old s slot n frame
        → Gives parts.new result (write_register s slot n frame to (pos (cell_count s.cells key))) }
{
    let count = parts.cell_count(key);
    write_register(parts, slot, frame, to, count as i64)
}

/// Executes the shared instruction that a slot's topmost row is at, with its frame. A wait has
/// nothing pending.
#[inline(always)]
pub(crate) fn execute(parts: &mut Parts, slot: u8, frame: Frame, instr: &Instr) -> Moved
    requires ready { CanExecute parts.old slot frame instr.now }
    requires room { parts.old.entries < parts.old.config.steps }
    requires few { parts.old.made + 1 < 2 ^ 32 }
    requires place { is_last instr.now ≡ false → frame.place < LAST_PLACE }
    ensures { (s : State) (n : ℕ) → IsReady parts.old s slot n frame instr.now
        → Gives parts.new result (execute s slot n frame instr.now) }
{
    match *instr {
        Instr::Spawn(group, procedure, first, second) => {
            spawn(parts, slot, frame, group, procedure, first, second)
        }
        Instr::Post(procedure, first, second) => post(parts, slot, frame, procedure, first, second),
        Instr::Isolate(_to, procedure, first, second) => {
            isolate(parts, slot, frame, procedure, first, second)
        }
        Instr::Wait(total_to, status_to, group) => {
            wait(parts, slot, frame, total_to, status_to, group)
        }
        Instr::Cancel(group) => cancel(parts, slot, frame, group),
        Instr::Ask(to) => ask(parts, slot, frame, to),
        Instr::Load(to, key) => load(parts, slot, frame, to, key),
        Instr::Store(key, from) => store(parts, slot, frame, key, from),
        Instr::Sum(to, key) => sum(parts, slot, frame, to, key),
        Instr::Count(to, key) => count(parts, slot, frame, to, key),
        Instr::Ret(from) => ret(parts, slot, frame, from),
        _ => move_to(parts, slot, frame),
    }
}
