// What is read under a tenant's lock, and what is shown to the holder of a front.
ghost use Rattle.std.specs.Prelude.{◌≡◌, All, IfOk, OnOk, length};
ghost use Rattle.tenant_record.specs.Cell.{IsRight};
ghost use Rattle.tenant_book.specs.Fronts.{BeginsIn, Finds, FrontData};
ghost use Rattle.tenant_lock.specs.Under.{AreCopied, AreCounts, IsNextJob, IsStatus, IsTally};

use super::Held;
use crate::copies::{copy_all, slice_of};
use crate::counts::{Counts, JobTally, Tally};
use job_language::{Entry, Status};
use std::alloc::AllocError;
use std::sync::Wait;
use tenant_book::{Front, Naming};
use tenant_model::MAX_JOBS;

impl<J: Naming> Held<J> {
    /// Adds copies of the entries of the history from that number on to a vector, `most` of them at most, and gives how
    /// many entries there are.
    pub(crate) fn copy_entries(
        &self,
        from: usize,
        most: usize,
        copies: &mut Vec<Entry>,
    ) -> Result<usize, AllocError>
        ensures copied { OnOk result (AreCopied from most copies.old.items copies.new.items self.now.cell) }
        ensures all { IfOk result (λ all. all ≡ length self.now.cell.history) }
        ensures right { IsRight self.now.cell }
    {
        let history = self.cell.history();
        copy_all(slice_of(history, from, most), copies)?;
        Ok(history.len())
    }

    /// How much of the history is used.
    pub(crate) fn counts(&self) -> Counts
        ensures value { AreCounts result self.now.cell }
        ensures right { IsRight self.now.cell }
    {
        Counts {
            entries: self.cell.history().len(),
            asks: self.cell.askers().len(),
        }
    }

    /// How far the tenant's jobs are, and how many rows are open.
    pub(crate) fn tally(&self) -> Tally
        ensures value { IsTally result self.now.cell }
        ensures right { IsRight self.now.cell }
    {
        // Proof hint: the cell is right.
        let _ = self.cell.history();
        Tally {
            jobs: self.job_tally(),
            open_rows: self.cell.open_rows(),
            waiting_rows: self.cell.waiting_rows(),
        }
    }

    /// How far the jobs are that are neither retired nor released, `MAX_JOBS` at most.
    fn job_tally(&self) -> JobTally {
        let mut jobs = JobTally::default();
        let mut last = 0;
        for _job in 0..MAX_JOBS {
            let Some(job) = self.cell.next_job(last) else {
                return jobs;
            };
            if let Some(status) = self.cell.status(job) {
                jobs.add(status);
            }
            last = job;
        }
        jobs
    }

    /// The least number above another one of a job that is neither retired nor released.
    pub(crate) fn next_job(&self, after: u64) -> Option<u64>
        ensures value { IsNextJob after result self.now.cell }
        ensures right { IsRight self.now.cell }
    {
        // Proof hint: the cell is right.
        let _ = self.cell.history();
        self.cell.next_job(after)
    }

    /// How far a job is, if it was made and is neither retired nor released.
    pub(crate) fn status(&self, job: u64) -> Option<Status>
        ensures value { IsStatus job result self.now.cell }
        ensures right { IsRight self.now.cell }
    {
        // Proof hint: the cell is right.
        let _ = self.cell.history();
        self.cell.status(job)
    }

    /// Shows all that was done to the holder of a front.
    pub(crate) fn show_all<R: Wait>(&self, rt: &R, me: &mut Front<J>)
        requires { me.old.life ≡ self.now.life }
        ensures front { Finds me.old me.new self.now.cell }
        ensures right { IsRight self.now.cell }
    {
        // Proof hint: the cell is right.
        let _ = self.cell.history();
        self.whole.show(rt, me);
    }

    /// Compares what was seen of the cell's life with all that was done: it begins it.
    pub(crate) fn meet_all<R: Wait>(&self, rt: &R, fronts: &[Front<J>])
        ensures { All (λ (f : FrontData). f.life ≡ self.now.life → BeginsIn f self.now.cell.history) fronts.now }
    {
        for front in fronts {
            self.meet(rt, front);
        }
    }

    /// Compares what was seen of a life with all that was done, if it is the cell's.
    fn meet<R: Wait>(&self, rt: &R, front: &Front<J>)
        ensures { front.now.life ≡ self.now.life → BeginsIn front.now self.now.cell.history }
    {
        if front.life() == self.life() {
            let mut me = front.again();
            self.show_all(rt, &mut me);
            // Proof hint: each moment goes on from the one before.
            let _ = me.life();
        }
    }
}
