// What follows the private run of a slot's topmost row.
ghost use Rattle.std.specs.Prelude.{◌≡◌, ◌<◌, ◌+◌, ◌^◌, ℕ, false, Some};
ghost use Rattle.job_language.specs.declared.errors.JobFault.TheVariants as fault;
ghost use Rattle.job_language.specs.declared.instructions.Instr.{Instr};
ghost use Rattle.job_language.specs.Program.{is_last};
ghost use Rattle.job_step.specs.declared.frames.TheConstants.{LAST_PLACE};
ghost use Rattle.job_step.specs.declared.runs.Stop.TheVariants.{Shared};
ghost use Rattle.tenant_model.specs.State.{State, row};
ghost use Rattle.tenant_model.specs.Walks.{top};
ghost use Rattle.tenant_model.specs.Changes.{faults};
ghost use Rattle.tenant_model.specs.Shared.{execute};
ghost use Rattle.tenant_model.specs.Advance.{after_run, move_on, pay, run_on};
ghost use Rattle.tenant_model.specs.Blocked.{stops_blocked};
ghost use Rattle.arena_rows.specs.Represents.{Gives, Holds, HasTop, Rests};
ghost use Rattle.arena_rows.specs.MarkedGroups.{RestsWithTop};
ghost use Rattle.arena_steps.specs.Frames.{FrameFits, CanMove};
ghost use Rattle.arena_steps.specs.Ready.{IsReady, CanExecute};
ghost use Rattle.arena_steps.specs.Runs.{HasNextPlace, HasRun, RunFits};

use crate::execution::execute;
use crate::steps::move_to;
use arena_rows::Parts;
use job_language::{Instr, JobFault, Moved};
use job_step::{Frame, Run, Stop, run_private};

/// The private run of a slot's topmost row.
#[inline(always)]
pub(crate) fn run_top(parts: &Parts, slot: u8) -> Run
    requires { HasTop parts.now slot }
    ensures run { (s : State) (n : ℕ) → Holds parts.now s → top s.rows slot ≡ Some n
        → result ≡ run_on s slot n }
    ensures next { HasNextPlace result }
{
    let slots = parts.config().slots;
    run_private(parts.program(slot), parts.frame(slot), slot, slots)
}

/// Whether the run of a slot's topmost row stopped at a wait for pending members.
#[inline(always)]
pub(crate) fn stops_blocked(parts: &Parts, slot: u8, run: &Run) -> bool
    requires { HasTop parts.now slot }
    ensures { (s : State) (n : ℕ) → Holds parts.now s → top s.rows slot ≡ Some n
        → result ≡ stops_blocked s n run.now.stop }
{
    match run.stop {
        Stop::Shared(Instr::Wait(_total, _status, group)) => parts.is_pending(slot, group),
        _ => false,
    }
}

/// Pays for instructions of a slot's topmost row, which continues from a frame.
fn pay_to_move(parts: &mut Parts, slot: u8, count: u32, frame: Frame) -> Moved
    requires fits { CanMove parts.old slot frame }
    requires room { parts.old.entries < parts.old.config.steps }
    ensures { (s : State) (n : ℕ) → FrameFits parts.old s slot n frame
        → Gives parts.new result (move_on s slot n count frame) }
{
    if !parts.pay(slot, u64::from(count)) {
        return parts.fault(slot, JobFault::Fuel);
    }
    move_to(parts, slot, frame)
}

/// Pays for instructions of a slot's topmost row, of which the last one divided by zero.
fn pay_to_fault(parts: &mut Parts, slot: u8, count: u32) -> Moved
    requires top { RestsWithTop parts.old slot }
    requires room { parts.old.entries < parts.old.config.steps }
    ensures { (s : State) (n : ℕ) → Rests parts.old s → top s.rows slot ≡ Some n
        → Gives parts.new result
        (pay s slot n count (λ t. faults slot (row t.rows n).job fault.Division t)) }
{
    if !parts.pay(slot, u64::from(count)) {
        return parts.fault(slot, JobFault::Fuel);
    }
    parts.fault(slot, JobFault::Division)
}

/// Pays for instructions of a slot's topmost row and for the shared one that it is at, and executes
/// that.
#[inline(always)]
fn pay_to_execute(parts: &mut Parts, slot: u8, count: u32, frame: Frame, instr: &Instr) -> Moved
    requires ready { CanExecute parts.old slot frame instr.now }
    requires room { parts.old.entries < parts.old.config.steps }
    requires few { parts.old.made + 1 < 2 ^ 32 }
    requires place { is_last instr.now ≡ false → frame.place < LAST_PLACE }
    ensures { (s : State) (n : ℕ) → IsReady parts.old s slot n frame instr.now
        → Gives parts.new result
        (pay s slot n (count + 1) (λ t. execute t slot n frame instr.now)) }
{
    if !parts.pay(slot, u64::from(count) + 1) {
        return parts.fault(slot, JobFault::Fuel);
    }
    execute(parts, slot, frame, instr)
}

/// Ends a step of a slot after the run of its topmost row. `is_blocked` says whether the run
/// stopped at a wait for pending members.
#[inline(always)]
pub(crate) fn after_run(parts: &mut Parts, slot: u8, run: &Run, is_blocked: bool) -> Moved
    requires runs { HasRun parts.old slot run.now }
    requires blocked { (s : State) (n : ℕ) → RunFits parts.old s slot n run.now
        → is_blocked ≡ stops_blocked s n run.now.stop }
    requires room { parts.old.entries < parts.old.config.steps }
    requires few { parts.old.made + 1 < 2 ^ 32 }
    requires next { HasNextPlace run.now }
    ensures { (s : State) (n : ℕ) → RunFits parts.old s slot n run.now
        → Gives parts.new result (after_run s slot n run.now.count run.now.end run.now.stop) }
{
    if is_blocked {
        return pay_to_move(parts, slot, run.count, run.end);
    }
    match run.stop {
        Stop::Yield => pay_to_move(parts, slot, run.count, run.end),
        Stop::Fault => pay_to_fault(parts, slot, run.count),
        Stop::Shared(instr) => pay_to_execute(parts, slot, run.count, run.end, &instr),
    }
}
