// Who waits for a tenant, and whether to go on.
ghost use Rattle.std.specs.Prelude.{◌≡◌, true, false, None, count_by, replicate};
ghost use Rattle.job_language.specs.declared.tenants.TheConstants.{MAX_SLOTS};
ghost use Rattle.tenant_record.specs.Cell.{has_slot_of};
ghost use Rattle.tenant_lock.specs.Awaited.{is_open};
ghost use Rattle.tenant_lock.specs.Sleepers.{CanMove, IsIdle, must_stop, with_sleeper, with_waiter};

use super::Held;
use crate::awaited::{is_open, note};
use crate::news::is_over;
use crate::waits::WaitCounts;
use tenant_book::Naming;
use tenant_record::{Pass, Seat};

impl<J: Naming> Held<J> {
    /// Notes the seat that has to sleep for a job, and says whether to sleep: the job is there without an outcome, and
    /// nobody has to stop.
    pub(crate) fn sleeps_for(&mut self, seat: &Seat, job: u64) -> bool
        ensures waits { result ≡ is_open self.old.cell (must_stop self.old) job }
        ensures noted { result ≡ true → self.new ≡ with_waiter self.old seat.now.number job }
        ensures kept { result ≡ false → self.new ≡ self.old }
    {
        let sleeps = is_open(&self.cell, self.is_over(), job);
        if sleeps {
            note(&mut self.awaited, seat.number(), job);
        }
        sleeps
    }

    /// Whether an advance of a slot would be idle, and nobody has to stop.
    pub(crate) fn is_idle(&self, slot: u8) -> bool
        ensures waits { result ≡ true → IsIdle self.now.cell (must_stop self.now) slot }
        ensures goes { result ≡ false → CanMove self.now.cell (must_stop self.now) slot }
    {
        !self.is_over() && self.cell.is_idle(slot)
    }

    /// Notes who has to sleep at the slot of a pass, if that is one of the cell's, and says whether to sleep.
    pub(crate) fn sleeps_at(&mut self, pass: &Pass) -> bool
        ensures waits { result ≡ true → IsIdle self.old.cell (must_stop self.old) pass.now.slot }
        ensures goes { result ≡ false → has_slot_of self.old.cell pass.now ≡ true
            → CanMove self.old.cell (must_stop self.old) pass.now.slot }
        ensures noted { result ≡ true → self.new ≡ with_sleeper self.old pass.now.slot }
        ensures kept { result ≡ false → self.new ≡ self.old }
    {
        let slot = pass.slot();
        let sleeps = self.cell.has_slot_of(pass) && self.is_idle(slot);
        if sleeps {
            self.waiting.note(slot);
        }
        sleeps
    }

    /// Counts that somebody who slept at a slot was woken, and whether it sleeps again.
    pub(crate) fn count_wake(&mut self, sleeps_again: bool)
        ensures { self.new ≡ self.old }
    {
        self.waiting.count(sleeps_again);
    }

    /// How many sleep at the slots, and how often they were woken.
    pub(crate) fn waits(&self) -> WaitCounts
        ensures { result.asleep ≡ count_by (λ b. b) self.now.noted }
    {
        self.waiting.waits()
    }

    /// Whether those who wait for the tenant have to stop: they were told to, or its history is full.
    pub(crate) fn is_over(&self) -> bool
        ensures { result ≡ must_stop self.now }
    {
        is_over(&self.cell, self.is_stopped)
    }

    /// Whether those who wait for the tenant were told to stop.
    pub(crate) fn is_stopped(&self) -> bool
        ensures { result ≡ self.now.is_stopped }
    {
        self.is_stopped
    }

    /// Tells all that wait to stop, from now on: nobody is noted at a slot any more.
    pub(crate) fn stop(&mut self)
        ensures stopped { self.new.is_stopped ≡ true }
        ensures cell { self.new.cell ≡ self.old.cell }
        ensures noted { self.new.noted ≡ replicate MAX_SLOTS false }
        ensures awaited { self.new.awaited ≡ None }
    {
        self.is_stopped = true;
        self.waiting.tell_all();
        self.awaited = None;
    }
}
