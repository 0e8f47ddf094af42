// What a slot's topmost row sees of itself and of its groups, for every state that the parts stand for.
ghost use Rattle.std.specs.Prelude.{◌≡◌, ◌||◌, ℕ, Some};
ghost use Rattle.cancel_context.specs.Forest.{IsForest, IsHeld, is_cancelled};
ghost use Rattle.tenant_model.specs.State.{State, row, job};
ghost use Rattle.tenant_model.specs.Shared.{group_status, has_used_group};
ghost use Rattle.tenant_model.specs.Walks.{is_context_cancelled, is_job_cancelled, is_pending, mark, top, total};
ghost use Rattle.arena_rows.specs.declared.rows.CurrentJob.{CurrentJob};
ghost use Rattle.arena_rows.specs.Represents.{Holds, HasTop};
ghost use Rattle.arena_rows.specs.MarkedGroups.{HasEndedGroup};
ghost use Rattle.arena_rows.specs.HeldJobs.{held_job, IsCurrent};

use crate::parts::Parts;
use cancel_context::ContextId;
use job_language::{Group, Program};
use job_step::Frame;
use tenant_model::Work;

impl Parts {
    /// The frame of a slot's topmost row.
    pub fn frame(&self, slot: u8) -> Frame
        requires { HasTop self.now slot }
        ensures { (s : State) (n : ℕ) → Holds self.now s → top s.rows slot ≡ Some n
            → result ≡ (row s.rows n).frame }
    {
        let Some(top) = self.top(slot) else {
            unreachable!();
        };
        top.frame
    }

    /// What is known of a job.
    fn work_of(&self, job: u64) -> &Work
        requires { IsCurrent self.now.jobs job }
        ensures { (d : CurrentJob) → result.now ≡ (held_job self.now job d).work }
    {
        let index = self.index_of(job);
        &self.jobs[index].work
    }

    /// The program of the job of a slot's topmost row.
    pub fn program(&self, slot: u8) -> &Program
        requires { HasTop self.now slot }
        ensures { (s : State) (n : ℕ) → Holds self.now s → top s.rows slot ≡ Some n
            → result.now ≡ (job s.jobs (row s.rows n).job).program }
    {
        let job = self.top_entry(slot).job;
        &self.work_of(job).program
    }

    /// Whether the job of a slot's topmost row was cancelled by request or has a fault.
    pub(crate) fn is_job_cancelled(&self, slot: u8) -> bool
        requires { HasTop self.now slot }
        ensures { (s : State) (n : ℕ) → Holds self.now s → top s.rows slot ≡ Some n
            → result ≡ is_job_cancelled (job s.jobs (row s.rows n).job) }
    {
        let job = self.top_entry(slot).job;
        self.work_of(job).is_cancelled()
    }

    /// Whether a context is cancelled, by itself or from above.
    pub(crate) fn is_context_cancelled(&self, context: ContextId) -> bool
        requires { IsHeld self.now.contexts context }
        ensures value { result ≡ is_cancelled self.now.contexts context }
        ensures forest { IsForest self.now.contexts }
    {
        self.rows.is_cancelled(context)
    }

    /// Whether the context of a slot's topmost row is cancelled.
    pub fn is_cancelled(&self, slot: u8) -> bool
        requires { HasTop self.now slot }
        ensures { (s : State) (n : ℕ) → Holds self.now s → top s.rows slot ≡ Some n
            → result ≡ is_context_cancelled s n }
    {
        let context = self.top_entry(slot).context;
        self.is_context_cancelled(context)
    }

    /// Whether a group of a slot's topmost row is cancelled, directly or from above.
    pub(crate) fn is_group_cancelled(&self, slot: u8, group: Group) -> bool
        requires { HasTop self.now slot }
        ensures { (s : State) (n : ℕ) → Holds self.now s → top s.rows slot ≡ Some n
            → result ≡ ((mark s.rows n group).cancelled || is_context_cancelled s n) }
    {
        let entry = self.top_entry(slot);
        let Some(context) = entry.group_contexts[group.index()] else {
            return self.is_context_cancelled(entry.context);
        };
        self.is_context_cancelled(context)
    }

    /// The status that a passed wait stores: 2 if the group was cancelled, and 1 otherwise.
    pub fn group_status(&self, slot: u8, group: Group) -> i64
        requires { HasTop self.now slot }
        ensures { (s : State) (n : ℕ) → Holds self.now s → top s.rows slot ≡ Some n
            → result ≡ group_status s n group }
    {
        if self.is_group_cancelled(slot, group) {
            2
        } else {
            1
        }
    }

    /// Whether a member of a group of a slot's topmost row is open.
    pub fn is_pending(&self, slot: u8, group: Group) -> bool
        requires { HasTop self.now slot }
        ensures { (s : State) (n : ℕ) → Holds self.now s → top s.rows slot ≡ Some n
            → result ≡ is_pending s.rows n group }
    {
        self.top_entry(slot).groups.pending(group.index()) > 0
    }

    /// Whether a group of a slot's topmost row has a member, open or ended.
    pub fn has_used_group(&self, slot: u8) -> bool
        requires { HasTop self.now slot }
        ensures { (s : State) (n : ℕ) → Holds self.now s → top s.rows slot ≡ Some n
            → result ≡ has_used_group s n }
    {
        let groups = &self.top_entry(slot).groups;
        groups.is_used(0) || groups.is_used(1) || groups.is_used(2) || groups.is_used(3)
    }

    /// The wrapping sum of the values of the members of a group of a slot's topmost row, all of which
    /// have ended.
    pub fn group_total(&self, slot: u8, group: Group) -> i64
        requires { HasEndedGroup self.now slot group }
        ensures { (s : State) (n : ℕ) → Holds self.now s → top s.rows slot ≡ Some n
            → result ≡ total s.rows n group }
    {
        self.top_entry(slot).groups.total(group.index())
    }
}
