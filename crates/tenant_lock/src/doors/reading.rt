// What is read at a tenant's door.
ghost use Rattle.tenant_lock.specs.Doors.{IsFrontOf};
ghost use Rattle.tenant_lock.specs.Under.{AreCopiesOf, AreCounts, IsNextJob, IsStatus, IsTally, WasThere};

use super::TenantDoor;
use crate::counts::{Counts, Tally};
use job_language::{Entry, Status};
use std::alloc::AllocError;
use std::sync::Wait;
use std::sync::atomic::Ordering;
use tenant_book::{Front, Naming};

impl<J: Naming> TenantDoor<J> {
    /// How much of the tenant's history is used.
    pub fn counts<R: Wait>(&self, rt: &R, me: &mut Front<J>) -> Counts
        requires { IsFrontOf self.now me.old }
        ensures front { IsFrontOf self.now me.new }
        ensures cell { WasThere self.now.tenant me.old me.new (AreCounts result) }
    {
        let held = self.lock(rt);
        held.show_all(rt, me);
        held.counts()
    }

    /// Adds copies of the entries of the tenant's history from that number on to a vector, `most` of them at most, and
    /// gives how many entries there are. At a fault some were added.
    pub fn copy_entries<R: Wait>(
        &self,
        rt: &R,
        me: &mut Front<J>,
        from: usize,
        most: usize,
        copies: &mut Vec<Entry>,
    ) -> Result<usize, AllocError>
        requires { IsFrontOf self.now me.old }
        ensures front { IsFrontOf self.now me.new }
        ensures cell { WasThere self.now.tenant me.old me.new
            (AreCopiesOf from most copies.old.items copies.new.items result) }
    {
        let held = self.lock(rt);
        held.show_all(rt, me);
        held.copy_entries(from, most, copies)
    }

    /// How far the tenant's jobs are, and how many of its rows are open.
    pub fn tally<R: Wait>(&self, rt: &R, me: &mut Front<J>) -> Tally
        requires { IsFrontOf self.now me.old }
        ensures front { IsFrontOf self.now me.new }
        ensures cell { WasThere self.now.tenant me.old me.new (IsTally result) }
    {
        let held = self.lock(rt);
        held.show_all(rt, me);
        held.tally()
    }

    /// The least number above another one of a job of the tenant that is neither retired nor released.
    pub fn next_job<R: Wait>(&self, rt: &R, me: &mut Front<J>, after: u64) -> Option<u64>
        requires { IsFrontOf self.now me.old }
        ensures front { IsFrontOf self.now me.new }
        ensures cell { WasThere self.now.tenant me.old me.new (IsNextJob after result) }
    {
        let held = self.lock(rt);
        held.show_all(rt, me);
        held.next_job(after)
    }

    /// How far a job of the tenant is, if it was made and is neither retired nor released.
    pub fn status<R: Wait>(&self, rt: &R, me: &mut Front<J>, job: u64) -> Option<Status>
        requires { IsFrontOf self.now me.old }
        ensures front { IsFrontOf self.now me.new }
        ensures cell { WasThere self.now.tenant me.old me.new (IsStatus job result) }
    {
        let held = self.lock(rt);
        held.show_all(rt, me);
        held.status(job)
    }

    /// How many jobs were made at the tenant.
    pub fn jobs(&self) -> u64 {
        self.jobs.load(Ordering::SeqCst)
    }
}
