// What the parts tell of the state that they stand for.
ghost use Rattle.std.specs.Prelude.{◌≡◌, ◌<◌, ◌≤◌, ℕ, Some, false, nat_le, count_by, length, IfSome, IsSome, option_copied, slice_get};
ghost use Rattle.job_language.specs.declared.tenants.TheConstants.{MAX_SLOTS};
ghost use Rattle.nest_stack.specs.Nest.{stack};
ghost use Rattle.std.specs.List.{list_any};
ghost use Rattle.std.specs.Option.{option_map};
ghost use Rattle.tenant_model.specs.declared.works.TheConstants.{MAX_JOBS};
ghost use Rattle.tenant_model.specs.State.{State};
ghost use Rattle.tenant_model.specs.Walks.{is_open, is_unstarted, has_unstarted};
ghost use Rattle.tenant_model.specs.Changes.{open_rows, is_row_limit_met};
ghost use Rattle.thread_cells.specs.Cells.{cell_sum, cell_count};
ghost use Rattle.tenant_model.specs.Asks.{current_jobs, free_slot, known_job, status};
ghost use Rattle.arena_rows.specs.Held.{HasFreePlace, NumbersRise};
ghost use Rattle.arena_rows.specs.Represents.{Holds, HoldsSomehow};
ghost use Rattle.arena_rows.specs.HeldReads.{first_from, held_status, known_current, known_status, is_first_cancel, known_cancels};

use crate::job_places::place_of;
use crate::parts::Parts;
use crate::rows::CurrentJob;
use job_language::{Key, Status};
use tenant_model::MAX_JOBS;

impl Parts {
    /// Whether as many rows are open as may be.
    #[tactic(auto, using(crate::proofs::Told::limit_told))]
    pub fn is_row_limit_met(&self) -> bool
        ensures value { (s : State) → Holds self.now s → result ≡ is_row_limit_met s }
        ensures room { result ≡ false → HasFreePlace self.now }
    {
        self.rows.is_full()
    }

    /// How many rows are open: they wait to be started, or are live on a slot.
    #[tactic(auto, using(crate::proofs::Told::open_told))]
    pub fn open_rows(&self) -> usize
        ensures { (s : State) → Holds self.now s → result ≡ open_rows s.rows }
    {
        self.rows.count()
    }

    /// How many rows wait to be started.
    pub fn waiting_rows(&self) -> usize
        ensures { (s : State) → Holds self.now s
            → result ≡ count_by (λ r. is_unstarted r.phase) s.rows }
    {
        self.pool.len()
    }

    /// Whether a row is open.
    #[tactic(auto, using(crate::proofs::Told::busy_told))]
    pub fn is_busy(&self) -> bool
        ensures { (s : State) → Holds self.now s → result ≡ list_any (λ r. is_open r.phase) s.rows }
    {
        !self.rows.is_empty()
    }

    /// Whether a row waits to be started.
    #[tactic(auto, using(crate::proofs::Told::unstarted_told))]
    pub fn has_unstarted(&self) -> bool
        ensures { (s : State) → Holds self.now s → result ≡ has_unstarted s }
    {
        !self.pool.is_empty()
    }

    /// The least reserved slot with nothing on it.
    pub fn free_slot(&self) -> Option<u8>
        requires { HoldsSomehow self.now }
        ensures value { (s : State) → Holds self.now s → result ≡ free_slot s }
        ensures within { IfSome result (λ slot. slot < self.now.config.reserved) }
        ensures empty { IfSome result (λ slot. length (stack self.now.nests slot) ≡ 0) }
    {
        let reserved = self.config().reserved;
        for slot in 0..reserved {
            if self.height(slot) == 0 {
                return Some(slot);
            }
        }
        None
    }

    /// The wrapping sum of a key's cells over all slots; 0 if there is none.
    #[tactic(auto, using(crate::proofs::Told::sum_told))]
    pub fn cell_sum(&self, key: Key) -> i64
        ensures { (s : State) → Holds self.now s → result ≡ cell_sum s.cells key }
    {
        self.cells.sum(key.index())
    }

    /// The number of a key's cells, over all slots.
    #[tactic(auto, using(crate::proofs::Told::count_told))]
    pub fn cell_count(&self, key: Key) -> usize
        ensures value { (s : State) → Holds self.now s → result ≡ cell_count s.cells key }
        ensures few { result ≤ MAX_SLOTS }
    {
        self.cells.count(key.index())
    }

    /// Whether there are as many jobs, neither retired nor released, as there may be.
    pub fn is_job_limit_met(&self) -> bool
        ensures value { (s : State) → Holds self.now s → result ≡ nat_le MAX_JOBS (current_jobs s) }
        ensures room { result ≡ false → length self.now.jobs < MAX_JOBS }
    {
        MAX_JOBS <= self.jobs.len()
    }

    /// What stands at a place among the jobs that are held.
    fn job_at(&self, place: usize) -> Option<&CurrentJob>
        ensures { option_copied result ≡ slice_get self.now.jobs place }
    {
        self.jobs.get(place)
    }

    /// The job of a number, if it is held.
    fn current(&self, job: u64) -> Option<&CurrentJob>
        ensures { NumbersRise self.now.jobs → option_copied result ≡ known_current self.now job }
    {
        let place = place_of(&self.jobs, job);
        let Some(current) = self.job_at(place) else {
            return None;
        };
        if current.number == job {
            Some(current)
        } else {
            None
        }
    }

    /// The least number above another one of a job that is neither retired nor released.
    pub fn next_job(&self, after: u64) -> Option<u64>
        ensures known { (s : State) → Holds self.now s
            → IfSome result (λ n. (after < n) × IsSome (known_job s n)) }
        ensures least { (s : State) (j : ℕ) → Holds self.now s → after < j
            → IsSome (known_job s j) → (n : ℕ) × (result ≡ Some n) × (n ≤ j) }
    {
        if self.made_jobs <= after {
            return None;
        }
        self.job_from(after + 1)
    }

    /// The number of the first job that is held of those with a number, or a greater one.
    fn job_from(&self, number: u64) -> Option<u64>
        ensures { NumbersRise self.now.jobs → result ≡ first_from self.now number }
    {
        Some(self.job_at(place_of(&self.jobs, number))?.number)
    }

    /// How far the job of a number is, unless it is retired or released.
    #[tactic(auto, using(crate::proofs::JobsTold::status_told))]
    pub fn status(&self, job: u64) -> Option<Status>
        ensures { (s : State) → Holds self.now s
            → result ≡ option_map (status s.rows job) (known_job s job) }
    {
        self.known_status(job)
    }

    /// How many rows were made, the number of the last one.
    pub(crate) fn row_count(&self) -> u64
        ensures { result ≡ self.now.made }
    {
        self.made
    }

    /// How many jobs were made, the number of the last one.
    pub fn job_count(&self) -> u64
        ensures { (s : State) → Holds self.now s → result ≡ length s.jobs }
    {
        self.made_jobs
    }

    /// How often jobs were retired.
    pub fn epoch(&self) -> u64
        ensures { (s : State) → Holds self.now s → result ≡ s.epoch }
    {
        self.epoch
    }

    /// Whether a cancel of the job of a number would be its first: it was not cancelled and has no
    /// outcome. There is no answer if the job is retired, released, or was not made.
    #[tactic(auto, using(crate::proofs::JobsTold::cancel_told))]
    pub fn is_first_cancel(&self, job: u64) -> Option<bool>
        ensures { (s : State) → Holds self.now s
            → result ≡ option_map (is_first_cancel s.rows job) (known_job s job) }
    {
        self.cancels(job)
    }

    fn cancels(&self, job: u64) -> Option<bool>
        ensures { NumbersRise self.now.jobs → result ≡ known_cancels self.now job }
    {
        let current = self.current(job)?;
        Some(current.open_rows > 0 && !current.work.is_cancelled())
    }

    fn known_status(&self, job: u64) -> Option<Status>
        ensures { NumbersRise self.now.jobs → result ≡ known_status self.now job }
    {
        let current = self.current(job)?;
        Some(current.status())
    }
}

impl CurrentJob {
    /// How far it is: it has an outcome once none of its rows is open.
    pub fn status(&self) -> Status
        ensures { result ≡ held_status self.now }
    {
        if self.open_rows > 0 {
            return Status::Running;
        }
        if let Some(fault) = self.work.fault {
            return Status::Fault(fault);
        }
        if self.work.cancelled {
            return Status::Cancelled;
        }
        Status::Complete(self.value)
    }
}
