// Advances of a slot, and arrivals at one.
ghost use Rattle.std.specs.Prelude.{◌≡◌, ◌+◌, ◌<◌, ◌==◌, ◌&&◌, false, OnErr, IfOk, IfSome, Some};
ghost use Rattle.job_language.specs.declared.instructions.Instr.{Instr};
ghost use Rattle.job_language.specs.Program.{is_last};
ghost use Rattle.job_language.specs.declared.tenants.TheConstants.{MAX_SLOTS};
ghost use Rattle.job_step.specs.declared.frames.TheConstants.{LAST_PLACE};
ghost use Rattle.solo_eval.specs.Execution.{cost_of, MakesRow, StopsToMake};
ghost use Rattle.solo_eval.specs.Present.{IsNumberIn, HasRoom};
ghost use Rattle.tenant_model.specs.State.{row};
ghost use Rattle.tenant_model.specs.Walks.{top, pick};
ghost use Rattle.tenant_model.specs.Blocked.{stops_blocked};
ghost use Rattle.tenant_model.specs.Advance.{advance, arrive, after_run, advance_run, nest_pick, begin, is_poor, move_on, is_open_to_workers, run_on, unless_full};

use crate::groups::is_pending;
use crate::stacks::{height, pick, top};
use crate::state::TenantState;
use job_language::{Came, Instr, JobFault, Moved};
use job_step::{Frame, Run, Stop, run_private};
use std::alloc::AllocError;
use tenant_model::MAX_HEIGHT;

impl TenantState {
    /// The row that a slot takes next.
    fn pick(&self, slot: u8) -> Option<u64>
        ensures value { result ≡ pick self.now slot }
        ensures there { IfSome result (IsNumberIn self.now.rows) }
    {
        pick(&self.config().isolation, self.rows(), slot)
    }

    /// Whether a row's run stopped at a wait for pending members.
    fn stops_blocked(&self, number: u64, run: &Run) -> bool
        requires row { IsNumberIn self.now.rows number }
        ensures { result ≡ stops_blocked self.now number run.now.stop }
    {
        match run.stop {
            Stop::Shared(Instr::Wait(_total, _status, group)) => {
                is_pending(self.rows(), number, group.index())
            }
            _ => false,
        }
    }

    /// Records what the topmost row of a slot did in a run. `is_blocked` says whether the run stopped
    /// at a wait for pending members.
    #[tactic(auto, using(crate::proofs::Fuel::out_of_fuel))]
    fn record(
        &mut self,
        slot: u8,
        number: u64,
        run: &Run,
        is_blocked: bool,
    ) -> Result<Moved, AllocError>
        requires blocked { is_blocked ≡ stops_blocked self.old number run.now.stop }
        requires room { HasRoom self.old }
        requires row { IsNumberIn self.old.rows number }
        requires slot { slot < MAX_SLOTS }
        requires next { (i : Instr) → run.now.stop ≡ Stop.Shared i → is_last i ≡ false
            → run.now.end.place < LAST_PLACE }
        ensures ok { IfOk result
            (λ moved. after_run self.old slot number run.now.count run.now.end run.now.stop
            ≡ (moved, self.new)) }
        ensures err { OnErr result (self.new ≡ self.old) }
        ensures makes { OnErr result (StopsToMake run.now.stop) }
    {
        let cost = self.cost(number, run, is_blocked);
        if self.is_poor(number, cost) {
            return Ok(self.fault_out_of_fuel(slot, number));
        }
        if is_blocked {
            return Ok(self.move_on(slot, number, run.end, cost));
        }
        match run.stop {
            Stop::Yield => Ok(self.move_on(slot, number, run.end, cost)),
            Stop::Fault => {
                self.pay(number, cost);
                let job = self.row(number).job;
                Ok(self.fault(slot, job, JobFault::Division))
            }
            Stop::Shared(instr) => self.execute(slot, number, run.end, &instr, cost),
        }
    }

    /// What a run of a row costs: its private instructions, and the shared one that the row executes
    /// after them.
    fn cost(&self, number: u64, run: &Run, is_blocked: bool) -> u64
        requires blocked { is_blocked ≡ stops_blocked self.now number run.now.stop }
        ensures { result ≡ cost_of self.now number run.now.count run.now.stop }
    {
        let count = u64::from(run.count);
        match run.stop {
            Stop::Shared(_instr) if !is_blocked => count + 1,
            _ => count,
        }
    }

    /// Lets the topmost row of a slot continue from a frame, for a cost.
    fn move_on(&mut self, slot: u8, number: u64, frame: Frame, cost: u64) -> Moved
        requires room { HasRoom self.old }
        requires row { IsNumberIn self.old.rows number }
        requires fuel { is_poor self.old number cost ≡ false }
        ensures { move_on self.old slot number cost frame ≡ (result, self.new) }
    {
        self.pay(number, cost);
        self.set_frame(number, frame);
        self.finish_step(slot)
    }

    /// Takes the pick onto a slot whose topmost row waits.
    fn nest_pick(&mut self, slot: u8, number: u64) -> Moved
        requires row { IsNumberIn self.old.rows number }
        ensures { unless_full self.old (nest_pick self.old slot number (pick self.old slot))
            ≡ (result, self.new) }
    {
        let Some(picked) = self.pick(slot) else {
            return Moved::Idle;
        };
        if self.is_full() {
            return Moved::Full;
        }
        if height(self.rows(), slot) == MAX_HEIGHT {
            let job = self.row(number).job;
            return self.fault(slot, job, JobFault::TooDeep);
        }
        self.nest(slot, picked);
        self.enter();
        Moved::Nested(picked)
    }

    /// Takes the pick onto an empty slot, unless it is reserved.
    fn begin(&mut self, slot: u8) -> Moved
        ensures { unless_full self.old (begin self.old slot (pick self.old slot))
            ≡ (result, self.new) }
    {
        let is_reserved = slot < self.config().reserved;
        let Some(picked) = self.pick(slot) else {
            return if is_reserved {
                Moved::Idle
            } else {
                Moved::Left
            };
        };
        if is_reserved {
            return Moved::Idle;
        }
        if self.is_full() {
            return Moved::Full;
        }
        self.nest(slot, picked);
        self.enter();
        Moved::Nested(picked)
    }

    /// Runs the topmost row of a slot.
    fn advance_row(&mut self, slot: u8, number: u64) -> Result<Moved, AllocError>
        requires row { IsNumberIn self.old.rows number }
        requires slot { slot < MAX_SLOTS }
        ensures ok { IfOk result (λ moved. unless_full self.old
            (advance_run self.old slot number (run_on self.old slot number)) ≡ (moved, self.new)) }
        ensures err { OnErr result (self.new ≡ self.old) }
        ensures makes { OnErr result (StopsToMake (run_on self.old slot number).stop) }
    {
        let frame = self.row(number).frame;
        let slots = self.config().slots;
        let run = run_private(&self.job_of(number).program, frame, slot, slots);
        let is_blocked = self.stops_blocked(number, &run);
        if is_blocked && run.count == 0 {
            return Ok(self.nest_pick(slot, number));
        }
        if self.is_full() {
            return Ok(Moved::Full);
        }
        self.record(slot, number, &run, is_blocked)
    }

    /// Advances a slot. If an allocation failed, nothing has changed.
    pub(crate) fn advance(&mut self, slot: u8) -> Result<Moved, AllocError>
        ensures ok { IfOk result (λ moved. advance self.old slot ≡ (moved, self.new)) }
        ensures err { OnErr result (self.new ≡ self.old) }
        ensures makes { OnErr result (MakesRow self.old slot) }
    {
        if slot >= self.config().slots {
            return Ok(Moved::Idle);
        }
        match top(self.rows(), slot) {
            Some(number) => self.advance_row(slot, number),
            None => Ok(self.begin(slot)),
        }
    }

    /// Lets a worker arrive at a slot.
    pub(crate) fn arrive(&mut self, slot: u8) -> Came
        ensures { arrive self.old slot ≡ (result, self.new) }
    {
        if !self.is_open_to_workers(slot) {
            return Came::Nothing;
        }
        let Some(picked) = self.pick(slot) else {
            return Came::Nothing;
        };
        if self.is_full() {
            return Came::Full;
        }
        self.nest(slot, picked);
        self.enter();
        Came::At(picked)
    }

    /// Whether a worker may arrive at a slot.
    fn is_open_to_workers(&self, slot: u8) -> bool
        ensures { result ≡ is_open_to_workers self.now slot }
    {
        let config = self.config();
        config.reserved <= slot && slot < config.slots && height(self.rows(), slot) == 0
    }
}
