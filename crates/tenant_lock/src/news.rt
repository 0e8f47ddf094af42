// Whom a call wakes.
ghost use Rattle.std.specs.Prelude.{◌≡◌, replicate, false};
ghost use Rattle.job_language.specs.declared.tenants.TheConstants.{MAX_SLOTS};
ghost use Rattle.tenant_lock.specs.Awaited.{AreWaitersTold};
ghost use Rattle.tenant_lock.specs.Pauses.{has_to_stop};
ghost use Rattle.tenant_lock.specs.Sleepers.{AreNamed, marks};
ghost use Rattle.tenant_record.specs.Cell.{IsRight};

use crate::awaited::{AwaitedJobs, tell_waiters};
use crate::waits::{Sleepers, SlotSet};
use job_language::MAX_SLOTS;
use std::sync::Condvar;
use tenant_record::TenantCell;

/// Whom a call wakes. Neither part can be dropped: each ends where those are woken whom it names.
pub(crate) struct ToWake {
    pub(crate) at_slots: AtSlots,
    pub(crate) for_jobs: ForJobs,
}

/// Those who sleep at these slots, if there are any.
pub(crate) struct AtSlots {
    slots: Option<SlotSet>,
}

/// Whether those go on who wait for jobs.
pub(crate) struct ForJobs {
    are_told: bool,
}

impl AtSlots {
    /// Wakes who sleeps at the slots, each of which has one of these.
    pub(crate) fn wake(self, at_slots: &[Condvar; MAX_SLOTS as usize]) {
        let AtSlots { slots } = self;
        let Some(slots) = slots else {
            return;
        };
        for (slot, at_slot) in (0..MAX_SLOTS).zip(at_slots.iter()) {
            if slots.has(slot) {
                at_slot.notify_all();
            }
        }
    }
}

impl ForJobs {
    /// Wakes who waits for jobs there.
    pub(crate) fn wake(self, outcomes: &Condvar) {
        let ForJobs { are_told } = self;
        if are_told {
            outcomes.notify_all();
        }
    }
}

/// What a call did, and whom it wakes.
pub(crate) struct Done<T> {
    pub(crate) answer: T,
    pub(crate) news: ToWake,
}

impl<T> Done<T> {
    /// A call that made an entry, or none, with the sleepers to wake. They are no longer noted: each looks again, and is
    /// noted again if it has to sleep.
    pub(crate) fn made(
        answer: T,
        has_entered: bool,
        cell: &TenantCell,
        is_stopped: bool,
        waiting: &mut Sleepers,
        awaited: &mut Option<AwaitedJobs>,
    ) -> Done<T>
        ensures answer { result.answer ≡ answer }
        ensures right { IsRight cell.now }
        ensures slots { let is_over = has_to_stop is_stopped cell.now in
            AreNamed cell.now is_over waiting.old.noted result.news.at_slots.slots waiting.new.noted }
        ensures jobs { let is_over = has_to_stop is_stopped cell.now in
            AreWaitersTold cell.now is_over has_entered
            awaited.old result.news.for_jobs.are_told awaited.new }
    {
        // Proof hint: the cell is right.
        let _ = cell.history();
        let is_over = is_over(cell, is_stopped);
        let slots = waiting.tell(cell, is_over);
        let are_told = tell_waiters(awaited, cell, is_over, has_entered);
        Done {
            answer,
            news: ToWake {
                at_slots: AtSlots { slots },
                for_jobs: ForJobs { are_told },
            },
        }
    }

    /// A call that did nothing: nobody may go on who could not before.
    pub(crate) fn nothing(answer: T) -> Done<T>
        ensures answer { result.answer ≡ answer }
        ensures slots { marks result.news.at_slots.slots ≡ replicate MAX_SLOTS false }
        ensures jobs { result.news.for_jobs.are_told ≡ false }
    {
        Done {
            answer,
            news: ToWake {
                at_slots: AtSlots { slots: None },
                for_jobs: ForJobs { are_told: false },
            },
        }
    }
}

/// Whether those who wait for a tenant have to stop: they were told to, or its history is full.
pub(crate) fn is_over(cell: &TenantCell, is_stopped: bool) -> bool
    ensures { result ≡ has_to_stop is_stopped cell.now }
{
    is_stopped || cell.config().steps <= cell.history().len()
}
