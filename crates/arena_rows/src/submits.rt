// Jobs that a tenant submits, for every state that the parts stand for.
ghost use Rattle.std.specs.Prelude.{◌≡◌, ◌<◌, ◌^◌, length};
ghost use Rattle.nest_stack.specs.declared.stack.TheConstants.{MAX_HEIGHT};
ghost use Rattle.nest_stack.specs.Nest.{stack};
ghost use Rattle.tenant_model.specs.declared.rows.Phase.TheVariants.{Unstarted, Live};
ghost use Rattle.tenant_model.specs.declared.works.TheConstants.{MAX_JOBS};
ghost use Rattle.tenant_model.specs.State.{State};
ghost use Rattle.tenant_model.specs.Asks.{add_job};
ghost use Rattle.arena_rows.specs.Held.{HasFreePlace};
ghost use Rattle.arena_rows.specs.Represents.{IsFree, Rests, RestsSomehow};
ghost use Rattle.arena_rows.specs.HeldChanges.{next_id, root_frame, root_pushed, IsBegun};

use crate::parts::Parts;
use crate::rows::{CurrentJob, Source, Stage};
use job_language::Job;
use job_step::Frame;
use region_tag::RowId;
use tenant_model::{MAX_JOBS, Work};

impl Parts {
    /// Takes a job more, with a context of its own, and its root at that stage.
    fn begin(&mut self, job: Job, stage: Stage) -> RowId
        requires rests { RestsSomehow self.old }
        requires free { HasFreePlace self.old }
        requires jobs { length self.old.jobs < MAX_JOBS }
        requires few { self.old.made < 2 ^ 32 }
        ensures place { IsFree self.old.table result.place }
        ensures row { result ≡ next_id self.old result.place }
        ensures begun { IsBegun self.old self.new result.place job stage }
    {
        self.made_jobs += 1;
        let number = self.made_jobs;
        let context = self.rows.bind(None);
        let work = Work {
            program: job.program,
            fuel: job.fuel.instructions(),
            root: self.made + 1,
            cancelled: false,
            fault: None,
            retired: false,
        };
        self.jobs.push_reserved(CurrentJob {
            number,
            work,
            value: 0,
            open_rows: 1,
            context,
        });
        self.enter_row(Source::Root, number, None, stage, context)
    }

    /// Puts a job's root on a slot.
    fn push_root(&mut self, slot: u8, frame: Frame, row: RowId)
        requires slot { slot < length self.old.nests }
        requires height { length (stack self.old.nests slot) < MAX_HEIGHT }
        ensures { self.new ≡ root_pushed self.old slot frame row }
    {
        self.nests.push(usize::from(slot), frame, row, false);
    }

    /// Makes a job, whose root waits to be started.
    pub fn submit(&mut self, job: Job)
        requires rests { RestsSomehow self.old }
        requires free { HasFreePlace self.old }
        requires jobs { length self.old.jobs < MAX_JOBS }
        requires few { self.old.made < 2 ^ 32 }
        ensures { (s : State) → Rests self.old s → Rests self.new (add_job s job Unstarted) }
    {
        let frame = root_frame(&job);
        let row = self.begin(job, Stage::Waiting(frame));
        self.wait(row, None);
    }

    /// Makes a job, and places its root on a reserved slot with nothing on it.
    pub fn place(&mut self, job: Job, slot: u8)
        requires rests { RestsSomehow self.old }
        requires free { HasFreePlace self.old }
        requires jobs { length self.old.jobs < MAX_JOBS }
        requires few { self.old.made < 2 ^ 32 }
        requires slot { slot < self.old.config.reserved }
        requires empty { length (stack self.old.nests slot) ≡ 0 }
        ensures { (s : State) → Rests self.old s → Rests self.new (add_job s job (Live slot 1)) }
    {
        let frame = root_frame(&job);
        let row = self.begin(job, Stage::Live(slot as usize, 1));
        self.push_root(slot, frame, row);
    }
}

/// The frame of a job's root before its first instruction.
fn root_frame(job: &Job) -> Frame
    ensures { result ≡ root_frame job.now }
{
    Frame::new(0, job.args[0], job.args[1])
}
