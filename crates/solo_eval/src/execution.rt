// The shared instruction that a private run of a slot's topmost row stops at.
ghost use Rattle.std.specs.Prelude.{◌≡◌, ◌+◌, ◌<◌, false, true, OnErr, IfOk, IfSome, Some, if◌then◌else◌};
ghost use Rattle.job_language.specs.Program.{is_last};
ghost use Rattle.job_language.specs.declared.tenants.TheConstants.{MAX_SLOTS};
ghost use Rattle.job_step.specs.declared.frames.TheConstants.{LAST_PLACE};
ghost use Rattle.solo_eval.specs.Execution.{makes_row};
ghost use Rattle.solo_eval.specs.Present.{IsNumberIn, HasRoom};
ghost use Rattle.tenant_model.specs.State.{row};
ghost use Rattle.tenant_model.specs.Walks.{maker_of};
ghost use Rattle.tenant_model.specs.Advance.{is_poor, with_fuel_paid};
ghost use Rattle.tenant_model.specs.Changes.{is_row_limit_met, finish_step, faults, add_row, new_row, with_frame};
ghost use Rattle.tenant_model.specs.Shared.{execute, isolate_at, called_frame, make};

use crate::stacks::height;
use crate::state::TenantState;
use job_language::{Instr, JobFault, Moved, Register};
use job_step::Frame;
use std::alloc::AllocError;
use tenant_model::{Kind, MAX_HEIGHT, Phase};

/// A row to be made.
#[derive(Clone, Copy)]
struct NewRow {
    kind: Kind,
    made_on: Option<u8>,
    frame: Frame,
    phase: Phase,
}

impl TenantState {
    /// Makes a row, and moves its maker to its next frame, if one more row may be open.
    fn make(
        &mut self,
        slot: u8,
        number: u64,
        frame: Frame,
        cost: u64,
        made: NewRow,
    ) -> Result<Moved, AllocError>
        requires room { HasRoom self.old }
        requires row { IsNumberIn self.old.rows number }
        requires maker { IfSome (maker_of made.kind) (IsNumberIn self.old.rows) }
        requires fuel { is_poor self.old number cost ≡ false }
        ensures ok { IfOk result
            (λ moved. make (with_fuel_paid self.old number cost) slot number frame
            (new_row made.kind (row self.old.rows number).job made.made_on made.frame made.phase)
            ≡ (moved, self.new)) }
        ensures err { OnErr result (self.new ≡ self.old) }
    {
        let job = self.row(number).job;
        if self.is_row_limit_met() {
            self.pay(number, cost);
            return Ok(self.fault(slot, job, JobFault::TaskLimit));
        }
        self.add_row(made.kind, job, made.made_on, made.frame, made.phase)?;
        self.pay(number, cost);
        self.set_frame(number, frame);
        Ok(self.finish_step(slot))
    }

    /// Executes the shared instruction that the topmost row's frame is at; `cost` is the fuel that it takes.
    pub(crate) fn execute(
        &mut self,
        slot: u8,
        number: u64,
        frame: Frame,
        instr: &Instr,
        cost: u64,
    ) -> Result<Moved, AllocError>
        requires room { HasRoom self.old }
        requires row { IsNumberIn self.old.rows number }
        requires slot { slot < MAX_SLOTS }
        requires place { is_last instr.now ≡ false → frame.place < LAST_PLACE }
        requires fuel { is_poor self.old number cost ≡ false }
        ensures ok { IfOk result
            (λ moved. execute (with_fuel_paid self.old number cost) slot number frame instr.now
            ≡ (moved, self.new)) }
        ensures err { OnErr result (self.new ≡ self.old) }
        ensures makes { OnErr result (makes_row instr.now ≡ true) }
    {
        match *instr {
            Instr::Spawn(group, procedure, first, second) => {
                let made = NewRow {
                    kind: Kind::Spawned(number, group),
                    made_on: Some(slot),
                    frame: called_frame(frame, procedure, first, second),
                    phase: Phase::Unstarted,
                };
                self.make(slot, number, frame.next(), cost, made)
            }
            Instr::Post(procedure, first, second) => {
                let made = NewRow {
                    kind: Kind::Posted,
                    made_on: None,
                    frame: called_frame(frame, procedure, first, second),
                    phase: Phase::Unstarted,
                };
                self.make(slot, number, frame.next(), cost, made)
            }
            Instr::Isolate(_, procedure, first, second) => {
                let called_frame = called_frame(frame, procedure, first, second);
                self.isolate(slot, number, frame, cost, called_frame)
            }
            _ => {
                self.pay(number, cost);
                Ok(self.execute_in_place(slot, number, frame, instr))
            }
        }
    }

    /// Makes a region on top of a slot.
    fn isolate(
        &mut self,
        slot: u8,
        number: u64,
        frame: Frame,
        cost: u64,
        called_frame: Frame,
    ) -> Result<Moved, AllocError>
        requires room { HasRoom self.old }
        requires row { IsNumberIn self.old.rows number }
        requires fuel { is_poor self.old number cost ≡ false }
        ensures ok { IfOk result
            (λ moved. isolate_at (with_fuel_paid self.old number cost) slot number frame
            called_frame ≡ (moved, self.new)) }
        ensures err { OnErr result (self.new ≡ self.old) }
    {
        let height = height(self.rows(), slot);
        if height == MAX_HEIGHT {
            self.pay(number, cost);
            let job = self.row(number).job;
            return Ok(self.fault(slot, job, JobFault::TooDeep));
        }
        let made = NewRow {
            kind: Kind::Region(number),
            made_on: Some(slot),
            frame: called_frame,
            phase: Phase::Live(slot, height + 1),
        };
        self.make(slot, number, frame, cost, made)
    }
}

/// A new frame at a procedure, with the values of two registers.
fn called_frame(frame: Frame, procedure: u8, first: Register, second: Register) -> Frame
    ensures { result ≡ called_frame frame procedure first second }
{
    let first = frame.registers[first.index()];
    let second = frame.registers[second.index()];
    Frame::new(procedure, first, second)
}
