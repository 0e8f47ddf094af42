// Rows in no group and no region that wait to be started, for every state that the parts stand for.
ghost use Rattle.std.specs.Prelude.{◌≡◌, ◌<◌, ◌^◌, ℕ, Some};
ghost use Rattle.tenant_model.specs.State.{State};
ghost use Rattle.tenant_model.specs.Walks.{top};
ghost use Rattle.tenant_model.specs.Sound.{IsSteady};
ghost use Rattle.tenant_model.specs.declared.rows.Phase.TheVariants.{Unstarted};
ghost use Rattle.arena_rows.specs.declared.rows.CurrentJob.{CurrentJob};
ghost use Rattle.arena_rows.specs.Held.{HasFreePlace};
ghost use Rattle.arena_rows.specs.Represents.{Holds, Rests, RestsSomehow, HasTop};
ghost use Rattle.arena_rows.specs.HeldJobs.{held_job, IsCurrent};
ghost use Rattle.arena_rows.specs.NewRows.{with_posted};

use crate::parts::Parts;
use crate::rows::{Source, Stage};
use cancel_context::ContextId;
use job_step::Frame;

impl Parts {
    /// The context of a job.
    fn context_of(&self, job: u64) -> ContextId
        requires { IsCurrent self.now.jobs job }
        ensures { (d : CurrentJob) → result ≡ (held_job self.now job d).context }
    {
        let index = self.index_of(job);
        self.jobs[index].context
    }

    /// Makes a row of the job of a slot's topmost row, in no group and no region (`enqueue`).
    pub(crate) fn post(&mut self, slot: u8, frame: Frame)
        requires rests { RestsSomehow self.old }
        requires top { HasTop self.old slot }
        requires free { HasFreePlace self.old }
        requires few { self.old.made < 2 ^ 32 }
        ensures { (s : State) (n : ℕ) → Rests self.old s → top s.rows slot ≡ Some n
            → IsSteady (with_posted s n frame Unstarted)
            → Holds self.new (with_posted s n frame Unstarted) }
    {
        let job = self.top_entry(slot).job;
        let context = self.context_of(job);
        let row = self.enter_row(Source::Posted, job, None, Stage::Waiting(frame), context);
        self.count_row(job);
        self.wait(row, None);
    }
}
