// What is asked of a tenant's cell.
ghost use Rattle.std.specs.Prelude.{ℕ, ◌≡◌, ◌≢◌, ◌<◌, ◌≤◌, length, IfSome, true, false, None, count_by, option_map, slice_index_or, Some, IsSome};
ghost use Rattle.tenant_model.specs.Asks.{known_job};
ghost use Rattle.std.specs.List.{list_any};
ghost use Rattle.job_language.specs.Tenant.{IsValidTenant};
ghost use Rattle.job_language.specs.declared.answers.Moved.TheVariants as moved;
ghost use Rattle.tenant_model.specs.declared.rows.TheConstants.{MAX_HEIGHT};
ghost use Rattle.tenant_model.specs.Changes.{open_rows};
ghost use Rattle.tenant_model.specs.Walks.{height, is_unstarted};
ghost use Rattle.tenant_model.specs.Advance.{advance};
ghost use Rattle.tenant_record.specs.Cell.{IsRight, state_of, is_on};
ghost use Rattle.tenant_record.specs.Places.{place, pass_in, is_one_out, is_told_full};
ghost use Rattle.tenant_record.specs.Replayed.{status_of};
ghost use Rattle.arena_core.specs.Views.{IsSeen};

use super::TenantCell;
use crate::passes::Pass;
use crate::places::{is_one_out, pass_at};
use job_language::{Entry, Status, Tenant};
use job_step::View;

impl TenantCell {
    /// The number of its tenant.
    pub fn tenant(&self) -> usize
        ensures { result ≡ self.now.tenant }
    {
        self.tenant
    }

    /// What the tenant is given.
    pub fn config(&self) -> &Tenant
        ensures value { result.now ≡ self.now.config }
        ensures valid { IsValidTenant self.now.config }
    {
        self.replay.config()
    }

    /// The entries so far.
    pub fn history(&self) -> &[Entry]
        ensures value { result.now ≡ self.now.history }
        ensures right { IsRight self.now }
    {
        self.replay.history()
    }

    /// The number of the seat of each ask in the history, in order.
    pub fn askers(&self) -> &[usize]
        ensures { result.now ≡ self.now.askers }
    {
        self.askers.as_slice()
    }

    /// How many entries of the history are of a slot.
    pub fn count(&self, slot: u8) -> usize
        requires { slot < self.now.config.slots }
        ensures { result ≡ count_by (is_on slot) self.now.history }
    {
        self.slots.counts[slot as usize]
    }

    /// The pass of a slot, if it is home.
    pub fn pass(&self, slot: u8) -> Option<&Pass>
        ensures { option_map (λ pass. pass.now) result ≡ pass_in (place self.now.home slot) }
    {
        pass_at(self.slots.home.as_slice(), slot)
    }

    /// How many entries the history had when a slot was found idle, if the slot was not touched since.
    pub fn still(&self, slot: u8) -> Option<usize>
        requires { slot < self.now.config.slots }
        ensures { result ≡ slice_index_or self.now.idle_since slot None }
    {
        self.slots.idle_since[slot as usize]
    }

    /// Whether a pass that is home reports a full history.
    pub(crate) fn has_full_pass(&self) -> bool
        ensures { result ≡ list_any is_told_full self.now.home }
    {
        let home = self.slots.home.as_slice();
        home.iter().any(|place| place.is_told_full())
    }

    /// What is seen of a pass's slot: its topmost frame, if another handle on the frame's program is
    /// granted.
    pub fn view(&self, pass: &Pass) -> View
        ensures { IsSeen (state_of self.now) pass.now.slot result }
    {
        self.replay.view(pass.slot())
    }

    /// How many rows are on a pass's slot.
    pub fn height(&self, pass: &Pass) -> usize
        ensures value { result ≡ height (state_of self.now).rows pass.now.slot }
        ensures most { result ≤ MAX_HEIGHT }
    {
        self.replay.height(pass.slot())
    }

    /// Whether no pass of the tenant is out but that of a pass's slot.
    pub fn is_one_out(&self, pass: &Pass) -> bool
        ensures { result ≡ is_one_out self.now.config.slots self.now.home pass.now.slot }
    {
        let slots = self.config().slots;
        is_one_out(self.slots.home.as_slice(), slots, pass.slot())
    }

    /// How many rows are open: they wait to be started, or are live on a slot.
    pub fn open_rows(&self) -> usize
        ensures { result ≡ open_rows (state_of self.now).rows }
    {
        self.replay.open_rows()
    }

    /// How many rows wait to be started.
    pub fn waiting_rows(&self) -> usize
        ensures { result ≡ count_by (λ r. is_unstarted r.phase) (state_of self.now).rows }
    {
        self.replay.waiting_rows()
    }

    /// How many jobs were made, the number of the last one.
    pub fn job_count(&self) -> u64
        ensures { result ≡ length (state_of self.now).jobs }
    {
        self.replay.job_count()
    }

    /// Whether an advance of a slot would be idle.
    pub fn is_idle(&self, slot: u8) -> bool
        ensures idle { result ≡ true → (advance (state_of self.now) slot).0 ≡ moved.Idle }
        ensures moves { result ≡ false → (advance (state_of self.now) slot).0 ≢ moved.Idle }
    {
        self.replay.is_idle(slot)
    }

    /// The least number above another one of a job that is neither retired nor released.
    pub fn next_job(&self, after: u64) -> Option<u64>
        ensures known { IfSome result
            (λ n. (after < n) × IsSome (known_job (state_of self.now) n)) }
        ensures least { (j : ℕ) → after < j → IsSome (known_job (state_of self.now) j)
            → (n : ℕ) × (result ≡ Some n) × (n ≤ j) }
    {
        self.replay.next_job(after)
    }

    /// How far a job is, if it was made and is neither retired nor released.
    pub fn status(&self, job: u64) -> Option<Status>
        ensures { result ≡ status_of (state_of self.now) job }
    {
        self.replay.status(job)
    }
}
