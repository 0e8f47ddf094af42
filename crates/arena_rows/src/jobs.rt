// Changes of jobs: what they pay, their faults and their cancels.
ghost use Rattle.std.specs.Prelude.{◌≡◌, ◌-◌, ◌<◌, ℕ, nat_lt, not, length, Some, IsSome};
ghost use Rattle.tenant_model.specs.State.{State, row};
ghost use Rattle.tenant_model.specs.Changes.{on_job};
ghost use Rattle.cancel_context.specs.Forest.{IsForest, IsHeld, held_count};
ghost use Rattle.tenant_model.specs.Walks.{top};
ghost use Rattle.tenant_model.specs.Advance.{is_poor, with_fuel_paid};
ghost use Rattle.arena_rows.specs.declared.rows.CurrentJob.{CurrentJob};
ghost use Rattle.arena_rows.specs.Represents.{at_place, IsRow, Holds, Rests, HasTop};
ghost use Rattle.arena_rows.specs.HeldChanges.{job_changed, job_asked, with_fuel_left, with_fault, cancelled_work};
ghost use Rattle.arena_rows.specs.HeldJobs.{held_job, IsCurrent};
ghost use Rattle.arena_rows.specs.HeldReads.{HasKnown};

use crate::parts::Parts;
use crate::rows::OpenRow;
use job_language::JobFault;

impl Parts {
    /// The entry at a place.
    pub(crate) fn entry_at(&self, place: usize) -> &OpenRow
        requires within { place < length self.now.table }
        requires there { IsSome (at_place self.now.table place) }
        ensures { at_place self.now.table place ≡ Some result.now }
    {
        let Some(entry) = self.rows.get(place) else {
            unreachable!();
        };
        entry
    }

    /// The entry of a slot's topmost row.
    pub(crate) fn top_entry(&self, slot: u8) -> &OpenRow
        requires { HasTop self.now slot }
        ensures entry { (s : State) (n : ℕ) (is : Holds self.now s) → top s.rows slot ≡ Some n
            → (at_place self.now.table (is.places n) ≡ Some result.now)
            × IsRow s.rows is.places n result.now }
        ensures current { IsCurrent self.now.jobs result.now.job }
    {
        let Some(top) = self.top(slot) else {
            unreachable!();
        };
        self.entry_at(top.row.place)
    }

    /// Lets a job pay for that many instructions, and says whether its fuel sufficed. If it did not,
    /// none is left.
    fn pay_job(&mut self, job: u64, cost: u64) -> bool
        requires { IsCurrent self.old.jobs job }
        ensures sufficed { (d : CurrentJob)
            → result ≡ not (nat_lt (held_job self.old job d).work.fuel cost) }
        ensures paid { (d : CurrentJob) → self.new ≡ job_changed self.old job
            (with_fuel_left ((held_job self.old job d).work.fuel - cost)) d }
    {
        let index = self.index_of(job);
        let fuel = self.jobs[index].work.fuel;
        self.jobs[index].work.fuel = fuel.saturating_sub(cost);
        cost <= fuel
    }

    /// Lets the job of a slot's topmost row pay for that many instructions, and says whether its fuel
    /// sufficed. If it did not, none is left.
    pub fn pay(&mut self, slot: u8, cost: u64) -> bool
        requires { HasTop self.old slot }
        ensures pays { (s : State) (n : ℕ) → Rests self.old s → top s.rows slot ≡ Some n
            → (result ≡ not (is_poor s n cost)) × Rests self.new (with_fuel_paid s n cost) }
    {
        let job = self.top_entry(slot).job;
        self.pay_job(job, cost)
    }

    /// Notes a fault of a job, unless it has one already.
    fn note_fault(&mut self, job: u64, fault: JobFault)
        requires { IsCurrent self.old.jobs job }
        ensures { (d : CurrentJob) → self.new ≡ job_changed self.old job (with_fault fault) d }
    {
        let index = self.index_of(job);
        let noted = &mut self.jobs[index].work.fault;
        *noted = noted.or(Some(fault));
    }

    /// Notes that a job was cancelled by request.
    fn note_cancel(&mut self, job: u64)
        requires { IsCurrent self.old.jobs job }
        ensures { (d : CurrentJob) → self.new ≡ job_changed self.old job cancelled_work d }
    {
        let index = self.index_of(job);
        self.jobs[index].work.cancelled = true;
    }

    /// Makes a cancel request on a job's context.
    fn ask_job(&mut self, job: u64)
        requires current { IsCurrent self.old.jobs job }
        requires held { (d : CurrentJob)
            → IsHeld self.old.contexts (held_job self.old job d).context }
        ensures asked { (d : CurrentJob) → self.new ≡ job_asked self.old job d }
        ensures count { held_count self.new.contexts ≡ held_count self.old.contexts }
        ensures forest { IsForest self.new.contexts }
    {
        let index = self.index_of(job);
        self.rows.cancel(self.jobs[index].context);
    }

    /// Notes a fault of the job of a slot's topmost row, unless it has one already, and cancels what
    /// the job still does.
    pub(crate) fn fault_job(&mut self, slot: u8, fault: JobFault)
        requires { HasTop self.old slot }
        ensures holds { (s : State) (n : ℕ) → Holds self.old s → top s.rows slot ≡ Some n
            → Holds self.new (on_job s (row s.rows n).job (with_fault fault)) }
        ensures forest { IsForest self.new.contexts }
    {
        let job = self.top_entry(slot).job;
        self.ask_job(job);
        self.note_fault(job, fault);
    }

    /// Cancels a job by request.
    pub fn cancel_job(&mut self, job: u64)
        requires { HasKnown self.old job }
        ensures { (s : State) → Holds self.old s → Holds self.new (on_job s job cancelled_work) }
    {
        self.ask_job(job);
        self.note_cancel(job);
    }
}
