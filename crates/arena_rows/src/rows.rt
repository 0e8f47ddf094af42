// Open rows, and the jobs that are neither retired nor released.
use cancel_context::ContextId;
use job_language::{GROUPS, Group};
use job_step::Frame;
use region_tag::RowId;
use task_group::Groups;
use tenant_model::Work;

/// What made an open row, and what for.
#[derive(Clone, Copy)]
pub enum Source {
    /// The root of a job.
    Root,
    /// Posted by some row of the job.
    Posted,
    /// Spawned by that row into one of its groups. The row may have ended by a fault since.
    Spawned(RowId, Group),
    /// A region that the row isolated.
    Region(RowId),
}

/// How far an open row is.
#[derive(Clone, Copy)]
pub enum Stage {
    /// It waits to be started, with that frame.
    Waiting(Frame),
    /// It is on the stack of a slot, at a height from 1. Its frame is there. The slot takes
    /// eight bytes, so that the frame of a row that waits is copied in aligned pieces.
    Live(usize, u64),
}

/// An open row.
#[derive(Clone, Copy)]
pub struct OpenRow {
    pub number: u64,
    pub source: Source,
    pub job: u64,
    /// The slot on which it was made; roots and posts are made on none.
    pub made_on: Option<u8>,
    pub stage: Stage,
    /// Its groups, and the context of each that is used or cancelled.
    pub groups: Groups,
    pub group_contexts: [Option<ContextId>; GROUPS],
    /// The context that its groups are bound to: its own if it was spawned, its maker's if it is a
    /// region, and its job's if it is a root or was posted.
    pub context: ContextId,
}

/// A job that is neither retired nor released.
#[derive(Drop)]
pub struct CurrentJob {
    pub number: u64,
    pub work: Work,
    /// The value of its root, and 0 before it has one.
    pub value: i64,
    /// How many of its rows are open.
    pub open_rows: usize,
    /// Its context.
    pub context: ContextId,
}

impl CurrentJob {
    ghost use Rattle.std.specs.Prelude.{◌≡◌, ◌<◌};
    ghost use Rattle.arena_rows.specs.Endings.{with_ended};

    /// Counts one open row less, of that number, and takes its value if it was the root.
    pub(crate) fn end_row(&mut self, number: u64, value: i64)
        requires { 0 < self.old.open_rows }
        ensures { self.new ≡ with_ended number value self.old }
    {
        self.open_rows -= 1;
        if self.work.root == number {
            self.value = value;
        }
    }
}

impl OpenRow {
    ghost use Rattle.std.specs.Prelude.{◌≡◌, ◌<◌};
    ghost use Rattle.task_group.specs.Groups.{group};
    ghost use Rattle.arena_rows.specs.Endings.{member_left};
    ghost use Rattle.arena_rows.specs.HeldChanges.{with_member};
    ghost use Rattle.arena_rows.specs.MarkedGroups.{with_group_emptied};

    /// Counts one more pending member of a group.
    pub(crate) fn join(&mut self, number: Group)
        requires { (group self.old.groups number).pending < u32.MAX }
        ensures { self.new ≡ with_member number self.old }
    {
        self.groups.add(number.index());
    }

    /// Counts one pending member of a group less, which ended with a value.
    pub(crate) fn leave(&mut self, number: Group, value: i64)
        requires { 0 < (group self.old.groups number).pending }
        ensures { self.new ≡ member_left number value self.old }
    {
        self.groups.finish(number.index(), value);
    }

    /// Leaves a group without a member; none is pending.
    pub(crate) fn empty_group(&mut self, number: Group)
        requires { (group self.old.groups number).pending ≡ 0 }
        ensures { self.new ≡ with_group_emptied number self.old }
    {
        self.groups.take_total(number.index());
    }
}
