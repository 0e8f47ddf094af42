// A tenant whose jobs retire or are released, for every state that the parts stand for.
ghost use Rattle.std.specs.Prelude.{◌≡◌, ◌<◌, ◌+◌, length, map};
ghost use Rattle.cancel_context.specs.Forest.{held_count};
ghost use Rattle.tenant_model.specs.State.{State};
ghost use Rattle.thread_cells.specs.Cells.{no_cells};
ghost use Rattle.tenant_model.specs.Changes.{entry};
ghost use Rattle.tenant_model.specs.Asks.{released, retired_work};
ghost use Rattle.arena_rows.specs.declared.rows.CurrentJob.{CurrentJob};
ghost use Rattle.arena_rows.specs.Represents.{Rests};
ghost use Rattle.arena_rows.specs.Retiring.{HoldJobs, AreRetired, IsIdle, HasOutcome, job_released};

use crate::open_rows::OpenRows;
use crate::parts::Parts;
use crate::rows::CurrentJob;

impl Parts {
    /// Retires all jobs, takes all cells away, begins the next epoch, and counts an entry.
    fn end_jobs(&mut self)
        requires idle { IsIdle self.old }
        requires room { self.old.entries < self.old.config.steps }
        ensures { AreRetired self.old self.new }
    {
        release_jobs(&mut self.rows, &self.jobs);
        self.jobs.clear();
        self.cells.clear();
        self.epoch += 1;
        self.entries += 1;
    }

    /// Retires all jobs, once no row is open, and enters the next epoch without cells. It is an entry.
    pub fn retire(&mut self)
        requires idle { IsIdle self.old }
        requires room { self.old.entries < self.old.config.steps }
        ensures { (s : State) → Rests self.old s
            → Rests self.new (entry (record s {
              jobs = map retired_work s.jobs;
              cells = no_cells;
              epoch = s.epoch + 1;
            })) }
    {
        self.end_jobs();
    }

    /// Lets a job go that has an outcome, with its context, and counts an entry.
    fn let_go(&mut self, job: u64)
        requires ended { HasOutcome self.old job }
        requires room { self.old.entries < self.old.config.steps }
        ensures gone { (d : CurrentJob) → self.new ≡ job_released self.old job d }
        ensures count { held_count self.new.contexts + 1 ≡ held_count self.old.contexts }
    {
        let index = self.index_of(job);
        let released = self.jobs.remove(index);
        self.rows.release(released.context);
        self.entries += 1;
    }

    /// Releases a job that has an outcome: no request knows it any more. It is an entry.
    pub fn release(&mut self, job: u64)
        requires ended { HasOutcome self.old job }
        requires room { self.old.entries < self.old.config.steps }
        ensures { (s : State) → Rests self.old s → Rests self.new (released s job) }
    {
        self.let_go(job);
    }
}

/// Releases the contexts of jobs, which are all that is held.
fn release_jobs(rows: &mut OpenRows, jobs: &[CurrentJob])
    requires { HoldJobs rows.old.contexts jobs.now 0 }
    ensures none { held_count rows.new.contexts ≡ 0 }
    ensures long { length rows.new.contexts ≡ length rows.old.contexts }
    ensures table { rows.new.table ≡ rows.old.table }
{
    for job in jobs {
        rows.release(job.context);
    }
}
