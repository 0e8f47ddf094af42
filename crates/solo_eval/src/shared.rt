// Shared instructions of the topmost row of a slot.
ghost use Rattle.std.specs.Prelude.{◌≡◌, ◌<◌, false, true, IfSome, Some};
ghost use Rattle.job_language.specs.Program.{is_last};
ghost use Rattle.job_language.specs.declared.tenants.TheConstants.{MAX_SLOTS};
ghost use Rattle.job_step.specs.declared.frames.TheConstants.{LAST_PLACE};
ghost use Rattle.solo_eval.specs.Execution.{makes_row};
ghost use Rattle.solo_eval.specs.Present.{CanMove, HasRoom, IsNumberIn};
ghost use Rattle.tenant_model.specs.State.{row};
ghost use Rattle.tenant_model.specs.Walks.{maker_of};
ghost use Rattle.tenant_model.specs.Advance.{is_poor, with_fuel_paid, with_fuel, pay};
ghost use Rattle.tenant_model.specs.Changes.{faults};
ghost use Rattle.tenant_model.specs.Shared as shared;
ghost use Rattle.tenant_model.specs.Shared.{group_status, hand_back, handed_frame, has_used_group};

use crate::groups::{is_used, total};
use crate::state::TenantState;
use job_language::{Group, Instr, JobFault, Key, Moved, Register};
use job_step::Frame;
use tenant_model::{Kind, Mark};

impl TenantState {
    /// Whether a row's job lacks the fuel for a cost.
    pub(crate) fn is_poor(&self, number: u64, cost: u64) -> bool
        requires row { IsNumberIn self.now.rows number }
        ensures { result ≡ is_poor self.now number cost }
    {
        self.job_of(number).fuel < cost
    }

    /// Takes fuel from a row's job.
    pub(crate) fn pay(&mut self, number: u64, cost: u64)
        requires row { IsNumberIn self.old.rows number }
        requires fuel { is_poor self.old number cost ≡ false }
        ensures { self.new ≡ with_fuel_paid self.old number cost }
    {
        let fuel = self.job_of(number).fuel - cost;
        let job = self.row(number).job;
        self.set_fuel(job, fuel);
    }

    /// Ends the slot's task with the fault `Fuel`, and leaves the row's job no fuel.
    pub(crate) fn fault_out_of_fuel(&mut self, slot: u8, number: u64) -> Moved
        requires room { HasRoom self.old }
        requires row { IsNumberIn self.old.rows number }
        ensures { faults slot (row self.old.rows number).job JobFault.Fuel
            (with_fuel self.old number 0) ≡ (result, self.new) }
    {
        let job = self.row(number).job;
        self.set_fuel(job, 0);
        self.fault(slot, job, JobFault::Fuel)
    }

    /// The status that a wait stores: 2 if the group was cancelled, directly or from above; else 1.
    fn group_status(&self, number: u64, group: Group) -> i64
        requires row { IsNumberIn self.now.rows number }
        ensures { result ≡ group_status self.now number group }
    {
        if self.row(number).marks[group.index()].cancelled || self.is_context_cancelled(number) {
            2
        } else {
            1
        }
    }

    fn wait(
        &mut self,
        slot: u8,
        number: u64,
        frame: Frame,
        total_to: Register,
        status_to: Register,
        group: Group,
    ) -> Moved
        requires moves { CanMove self.old number frame }
        ensures { shared.wait self.old slot number frame total_to status_to group
            ≡ (result, self.new) }
    {
        let mut waited = frame;
        waited.registers[total_to.index()] = total(self.rows(), number, group.index());
        let waited = waited.write_and_step(status_to, self.group_status(number, group));
        let mark = Mark {
            rows: self.rows().len() as u64,
            cancelled: false,
        };
        self.set_mark(number, group, mark, waited);
        self.finish_step(slot)
    }
}

impl TenantState {
    fn cancel(&mut self, slot: u8, number: u64, frame: Frame, group: Group) -> Moved
        requires moves { CanMove self.old number frame }
        ensures { shared.cancel self.old slot number frame group ≡ (result, self.new) }
    {
        let mark = self.row(number).marks[group.index()];
        let cancelled = Mark {
            rows: mark.rows,
            cancelled: true,
        };
        self.set_mark(number, group, cancelled, frame.next());
        self.finish_step(slot)
    }

    /// Writes a register of the topmost row.
    fn write_register(
        &mut self,
        slot: u8,
        number: u64,
        frame: Frame,
        to: Register,
        value: i64,
    ) -> Moved
        requires moves { CanMove self.old number frame }
        ensures { shared.write_register self.old slot number frame to value ≡ (result, self.new) }
    {
        self.set_frame(number, frame.write_and_step(to, value));
        self.finish_step(slot)
    }

    fn load(&mut self, slot: u8, number: u64, frame: Frame, to: Register, key: Key) -> Moved
        requires moves { CanMove self.old number frame }
        requires slot { slot < MAX_SLOTS }
        ensures { shared.load self.old slot number frame to key ≡ (result, self.new) }
    {
        let value = self.local_cell(key, slot);
        self.set_frame(number, frame.write_and_step(to, value));
        self.finish_step(slot)
    }

    fn store(&mut self, slot: u8, number: u64, frame: Frame, key: Key, from: Register) -> Moved
        requires moves { CanMove self.old number frame }
        requires slot { slot < MAX_SLOTS }
        ensures { shared.store self.old slot number frame key from ≡ (result, self.new) }
    {
        self.set_frame(number, frame.next());
        self.store_cell(key, slot, frame.registers[from.index()]);
        self.finish_step(slot)
    }

    fn has_used_group(&self, number: u64) -> bool
        requires row { IsNumberIn self.now.rows number }
        ensures { result ≡ has_used_group self.now number }
    {
        is_used(self.rows(), number, 0)
            || is_used(self.rows(), number, 1)
            || is_used(self.rows(), number, 2)
            || is_used(self.rows(), number, 3)
    }

    /// Hands the value of a region to its maker, which continues.
    fn hand_back(&mut self, kind: &Kind, value: i64)
        requires { IfSome (maker_of kind.now) (IsNumberIn self.old.rows) }
        ensures { self.new ≡ hand_back self.old kind.now value }
    {
        if let Kind::Region(maker) = *kind {
            let frame = self.row(maker).frame;
            if let Some(instr) = frame.instr_in(&self.job_of(maker).program) {
                self.set_frame(maker, handed_frame(&instr, frame, value));
            } else {
                self.set_frame(maker, frame);
            }
        }
    }

    fn ret(&mut self, slot: u8, number: u64, frame: Frame, from: Register) -> Moved
        requires room { HasRoom self.old }
        requires row { IsNumberIn self.old.rows number }
        ensures { shared.ret self.old slot number frame from ≡ (result, self.new) }
    {
        let row = self.row(number);
        if self.has_used_group(number) {
            return self.fault(slot, row.job, JobFault::MissingWait);
        }
        let value = frame.registers[from.index()];
        self.end_row(number, frame, value);
        self.hand_back(&row.kind, value);
        self.finish_step(slot)
    }

    /// Executes a shared instruction that makes no row.
    pub(crate) fn execute_in_place(
        &mut self,
        slot: u8,
        number: u64,
        frame: Frame,
        instr: &Instr,
    ) -> Moved
        requires room { HasRoom self.old }
        requires row { IsNumberIn self.old.rows number }
        requires slot { slot < MAX_SLOTS }
        requires place { is_last instr.now ≡ false → frame.place < LAST_PLACE }
        requires makes_none { makes_row instr.now ≡ false }
        ensures { shared.execute self.old slot number frame instr.now ≡ (result, self.new) }
    {
        match *instr {
            Instr::Wait(total_to, status_to, group) => {
                self.wait(slot, number, frame, total_to, status_to, group)
            }
            Instr::Cancel(group) => self.cancel(slot, number, frame, group),
            Instr::Ask(to) => {
                let is_cancelled = self.is_context_cancelled(number);
                self.write_register(slot, number, frame, to, i64::from(is_cancelled))
            }
            Instr::Load(to, key) => self.load(slot, number, frame, to, key),
            Instr::Store(key, from) => self.store(slot, number, frame, key, from),
            Instr::Sum(to, key) => {
                let sum = self.cells().sum(key.index());
                self.write_register(slot, number, frame, to, sum)
            }
            Instr::Count(to, key) => {
                let count = self.cells().count(key.index());
                self.write_register(slot, number, frame, to, count as i64)
            }
            Instr::Ret(from) => self.ret(slot, number, frame, from),
            _ => {
                self.set_frame(number, frame);
                self.finish_step(slot)
            }
        }
    }
}

/// The frame of a maker after its isolate, with the value of the region.
fn handed_frame(instr: &Instr, frame: Frame, value: i64) -> Frame
    requires { is_last instr.now ≡ false → frame.place < LAST_PLACE }
    ensures { result ≡ handed_frame (Some instr.now) value frame }
{
    match *instr {
        Instr::Isolate(to, _procedure, _first, _second) => frame.write_and_step(to, value),
        _ => frame,
    }
}
