// The jobs of a tenant, and changes of one of them.
ghost use Rattle.std.specs.Prelude.{◌≡◌, ◌+◌, OnOk, OnErr, OnSome, map, option_copied};
ghost use Rattle.tenant_model.specs.State.{row};
ghost use Rattle.tenant_model.specs.Walks.{value_in};
ghost use Rattle.tenant_model.specs.Asks.{retired_work};
ghost use Rattle.solo_eval.specs.Present.{IsNumberIn, HasRoom};

use crate::chains::row;
use crate::state::TenantState;
use job_language::{GROUPS, Job, JobFault, Status};
use job_step::Frame;
use std::alloc::AllocError;
use tenant_model::{Kind, Mark, Phase, Row, Work};

impl TenantState {
    ghost use Rattle.std.specs.Prelude.{true, false};
    ghost use Rattle.thread_cells.specs.Cells.{no_cells};
    ghost use Rattle.tenant_model.specs.Asks.{add_job, known_job, outcome};
    ghost use Rattle.tenant_model.specs.Advance.{work_of};
    ghost use Rattle.tenant_model.specs.Changes.{entry, first_fault, on_job};

    /// All jobs, in order of their numbers.
    pub(crate) fn jobs(&self) -> &[Work]
        ensures { result.now ≡ self.now.jobs }
    {
        self.jobs.as_slice()
    }

    /// The job of a row.
    pub(crate) fn job_of(&self, number: u64) -> &Work
        requires row { IsNumberIn self.now.rows number }
        ensures { result.now ≡ work_of self.now number }
    {
        &self.jobs[row(self.rows.as_slice(), number).job as usize - 1]
    }

    /// The job of a number, unless it is retired or released.
    pub(crate) fn known_job(&self, number: u64) -> Option<&Work>
        ensures value { option_copied result ≡ known_job self.now number }
        ensures there { OnSome result (IsNumberIn self.now.jobs number) }
    {
        if number == 0 || number > self.jobs.len() as u64 {
            return None;
        }
        let work = &self.jobs[number as usize - 1];
        if work.retired { None } else { Some(work) }
    }

    /// The outcome of a job with no open row.
    pub(crate) fn outcome(&self, work: &Work) -> Status
        ensures { result ≡ outcome self.now.rows work.now }
    {
        if let Some(fault) = work.fault {
            return Status::Fault(fault);
        }
        if work.cancelled {
            return Status::Cancelled;
        }
        Status::Complete(value_of(self.rows.as_slice(), work.root))
    }

    /// Adds a job, and its root in a phase.
    pub(crate) fn add_job(&mut self, job: Job, phase: Phase) -> Result<(), AllocError>
        ensures ok { OnOk result (self.new ≡ add_job self.old job phase) }
        ensures err { OnErr result (self.new ≡ self.old) }
    {
        let Job {
            program,
            args,
            fuel,
        } = job;
        let root = self.rows.len() as u64 + 1;
        let number = self.jobs.len() as u64 + 1;
        let frame = Frame::new(0, args[0], args[1]);
        let marks = [Mark {
            rows: 0,
            cancelled: false,
        }; GROUPS];
        self.jobs.reserve(1)?;
        self.rows.push(Row {
            kind: Kind::Root,
            job: number,
            made_on: None,
            frame,
            phase,
            marks,
        })?;
        let fuel = fuel.instructions();
        let work = Work {
            program,
            fuel,
            root,
            cancelled: false,
            fault: None,
            retired: false,
        };
        self.jobs.push(work).unwrap();
        Ok(())
    }

    /// Sets the fuel of a job.
    pub(crate) fn set_fuel(&mut self, job: u64, fuel: u64)
        requires job { IsNumberIn self.old.jobs job }
        ensures { self.new ≡ on_job self.old job (λ w. record w { fuel = fuel }) }
    {
        self.jobs[job as usize - 1].fuel = fuel;
    }

    /// Gives a job a fault, unless it has one.
    pub(crate) fn set_fault(&mut self, job: u64, fault: JobFault)
        requires job { IsNumberIn self.old.jobs job }
        ensures { self.new ≡ on_job self.old job
            (λ w. record w { fault = first_fault w.fault fault }) }
    {
        let work = &mut self.jobs[job as usize - 1];
        if work.fault.is_none() {
            work.fault = Some(fault);
        }
    }

    /// Cancels a job by request.
    pub(crate) fn cancel_job(&mut self, job: u64)
        requires job { IsNumberIn self.old.jobs job }
        ensures { self.new ≡ on_job self.old job (λ w. record w { cancelled = true }) }
    {
        self.jobs[job as usize - 1].cancelled = true;
    }

    /// Releases a job: no request knows it any more.
    pub(crate) fn release_job(&mut self, job: u64)
        requires job { IsNumberIn self.old.jobs job }
        ensures { self.new ≡ on_job self.old job retired_work }
    {
        self.jobs[job as usize - 1].retired = true;
    }

    /// Retires all jobs, empties the cells and counts an entry. It returns the epoch that begins.
    pub(crate) fn retire_all(&mut self) -> u64
        requires { HasRoom self.old }
        ensures epoch { result ≡ self.old.epoch + 1 }
        ensures state { self.new
            ≡ entry (record self.old {
              jobs = map retired_work self.old.jobs;
              cells = no_cells;
              epoch = self.old.epoch + 1;
            }) }
    {
        retire_jobs(self.jobs.as_mut_slice());
        self.cells.clear();
        self.epoch += 1;
        self.entries += 1;
        let epoch = self.epoch;
        self.settle();
        epoch
    }
}

/// The value of the row of a number; 0 if there is no such row.
fn value_of(rows: &[Row], number: u64) -> i64
    ensures { result ≡ value_in (row rows.now number).phase }
{
    if number == 0 || number > rows.len() as u64 {
        return 0;
    }
    row(rows, number).phase.value()
}

/// Marks all jobs as retired.
fn retire_jobs(jobs: &mut [Work])
    ensures { jobs.new ≡ map retired_work jobs.old }
{
    for work in jobs.iter_mut() {
        work.retired = true;
    }
}
