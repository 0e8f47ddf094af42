// Who waits at a tenant's door, and who is told to go on.
ghost use Rattle.std.specs.Prelude.{◌≡◌};

use super::TenantDoor;
use crate::stop_flag::StopFlag;
use crate::waits::WaitCounts;
use std::sync::Wait;
use tenant_book::Naming;
use tenant_record::{Pass, Seat};

impl<J: Naming> TenantDoor<J> {
    /// Waits while an advance of the pass's slot would be idle. It says whether to stop: those who wait were told
    /// to, or the history is full.
    pub fn pause<R: Wait>(&self, rt: &R, pass: &Pass) -> bool
        requires { pass.now.tenant ≡ self.now.tenant }
    {
        let held = self.lock(rt);
        let Some(at_slot) = self.at_slots.get(usize::from(pass.slot())) else {
            return held.is_over();
        };
        let mut has_slept = false;
        let held = at_slot.wait_while(rt, held, |held| {
            let sleeps = held.sleeps_at(pass);
            if has_slept {
                held.count_wake(sleeps);
            }
            has_slept = true;
            sleeps
        });
        held.is_over()
    }

    /// How many wait at the tenant's slots, and how often they were woken.
    pub fn waits<R: Wait>(&self, rt: &R) -> WaitCounts {
        self.lock(rt).waits()
    }

    /// Waits while a job has no outcome and the history is not full. It says whether those who wait
    /// were told to stop.
    pub fn pause_for<R: Wait>(&self, rt: &R, seat: &Seat, job: u64) -> bool
        requires { seat.now.tenant ≡ self.now.tenant }
    {
        self.pause_for_until(rt, seat, job, &StopFlag::new())
    }

    /// As `pause_for`, and it also stops at a flag that is raised.
    pub fn pause_for_until<R: Wait>(&self, rt: &R, seat: &Seat, job: u64, stop: &StopFlag) -> bool
        requires { seat.now.tenant ≡ self.now.tenant }
    {
        let held = self.lock(rt);
        let held = self.outcomes.wait_while(rt, held, |held| {
            !stop.is_raised() && held.sleeps_for(seat, job)
        });
        stop.is_raised() || held.is_stopped()
    }

    /// Wakes all that wait, each to look whether to go on.
    pub fn wake<R: Wait>(&self, rt: &R) {
        // Who looked at its flag before that was raised waits by now, since it looks under the lock.
        let held = self.lock(rt);
        self.wake_all(&held);
    }

    /// Tells all that wait to stop, from now on.
    pub fn stop<R: Wait>(&self, rt: &R) {
        let mut held = self.lock(rt);
        held.stop();
        self.wake_all(&held);
    }
}
