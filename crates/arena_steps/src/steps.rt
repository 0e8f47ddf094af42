// Shared instructions of a slot's topmost row that make no row.
ghost use Rattle.std.specs.Prelude.{slice_set, ◌≡◌, ◌<◌, ℕ, false};
ghost use Rattle.job_step.specs.declared.frames.TheConstants.{LAST_PLACE};
ghost use Rattle.job_step.specs.Frame.{register, write_and_step};
ghost use Rattle.tenant_model.specs.State.{State};
ghost use Rattle.tenant_model.specs.Walks.{is_pending};
ghost use Rattle.tenant_model.specs.Changes.{finish_step, with_frame};
ghost use Rattle.tenant_model.specs.Shared.{write_register, load, store, wait, cancel};
ghost use Rattle.arena_rows.specs.Represents.{Gives};
ghost use Rattle.arena_steps.specs.Frames.{FrameFits, CanMove, CanPass, CanStep};

use arena_rows::Parts;
use job_language::{Group, Key, Moved, Register};
use job_step::Frame;

/// The value of a register.
pub(crate) fn read(frame: &Frame, from: Register) -> i64
    ensures { result ≡ register frame.now from }
{
    frame.registers[from.index()]
}

/// The frame at the next place of its procedure, with two registers changed, one after the other.
#[inline(always)]
fn waited_frame(
    frame: Frame,
    total_to: Register,
    total: i64,
    status_to: Register,
    status: i64,
) -> Frame
    requires { frame.place < LAST_PLACE }
    ensures { result
        ≡ write_and_step (record frame { registers = slice_set frame.registers total_to total })
        status_to status }
{
    let mut waited = frame;
    waited.registers[total_to.index()] = total;
    waited.registers[status_to.index()] = status;
    waited.place += 1;
    waited
}

/// Gives the topmost row of a slot on to a frame, and ends the step.
pub(crate) fn move_to(parts: &mut Parts, slot: u8, frame: Frame) -> Moved
    requires fits { CanMove parts.old slot frame }
    requires room { parts.old.entries < parts.old.config.steps }
    ensures { (s : State) (n : ℕ) → FrameFits parts.old s slot n frame
        → Gives parts.new result (finish_step slot (with_frame s n frame)) }
{
    parts.move_on(slot, frame);
    parts.finish_step(slot)
}

/// Writes a register of a slot's topmost row.
pub(crate) fn write_register(
    parts: &mut Parts,
    slot: u8,
    frame: Frame,
    to: Register,
    value: i64,
) -> Moved
    requires { CanStep parts.old slot frame }
    ensures { (s : State) (n : ℕ) → FrameFits parts.old s slot n frame
        → Gives parts.new result (write_register s slot n frame to value) }
{
    move_to(parts, slot, frame.write_and_step(to, value))
}

/// Reads the slot's cell of a key into a register (`enumerable_thread_specific::local`).
pub(crate) fn load(parts: &mut Parts, slot: u8, frame: Frame, to: Register, key: Key) -> Moved
    requires { CanStep parts.old slot frame }
    ensures { (s : State) (n : ℕ) → FrameFits parts.old s slot n frame
        → Gives parts.new result (load s slot n frame to key) }
{
    let value = parts.local(slot, key);
    move_to(parts, slot, frame.write_and_step(to, value))
}

/// Gives the slot's cell of a key the value of a register.
pub(crate) fn store(parts: &mut Parts, slot: u8, frame: Frame, key: Key, from: Register) -> Moved
    requires { CanStep parts.old slot frame }
    ensures { (s : State) (n : ℕ) → FrameFits parts.old s slot n frame
        → Gives parts.new result (store s slot n frame key from) }
{
    let value = read(&frame, from);
    parts.store(slot, key, value);
    move_to(parts, slot, frame.next())
}

/// Cancels a group of a slot's topmost row (`task_group::cancel`).
pub(crate) fn cancel(parts: &mut Parts, slot: u8, frame: Frame, group: Group) -> Moved
    requires { CanStep parts.old slot frame }
    ensures { (s : State) (n : ℕ) → FrameFits parts.old s slot n frame
        → Gives parts.new result (cancel s slot n frame group) }
{
    parts.cancel_group(slot, group, frame.next());
    parts.settle_step(slot)
}

/// Lets a wait of a slot's topmost row pass, for a group with nothing pending (`task_group::wait`).
pub(crate) fn wait(
    parts: &mut Parts,
    slot: u8,
    frame: Frame,
    total_to: Register,
    status_to: Register,
    group: Group,
) -> Moved
    requires passes { CanPass parts.old slot frame group }
    requires room { parts.old.entries < parts.old.config.steps }
    requires place { frame.place < LAST_PLACE }
    ensures { (s : State) (n : ℕ) → FrameFits parts.old s slot n frame
        → is_pending s.rows n group ≡ false
        → Gives parts.new result (wait s slot n frame total_to status_to group) }
{
    let total = parts.group_total(slot, group);
    let status = parts.group_status(slot, group);
    let waited = waited_frame(frame, total_to, total, status_to, status);
    parts.pass_wait(slot, group, waited);
    parts.finish_step(slot)
}
