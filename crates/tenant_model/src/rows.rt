// Rows: tasks with their numbers, makers, frames and phases.
ghost use Rattle.std.specs.Prelude.{◌≡◌};
ghost use Rattle.tenant_model.specs.Walks.{maker_of, is_region, is_unstarted, is_open, value_in, is_live_on, is_live_at};

use job_language::{GROUPS, Group};
use job_step::Frame;

/// How many rows may be live on a slot, regions among them.
pub const MAX_HEIGHT: u64 = 128;

const _: () = prove!(MAX_HEIGHT == 128);

/// What a row was made by, and for. Rows are numbered from 1.
#[derive(Clone, Copy, Debug, PartialEq, Eq)]
pub enum Kind {
    /// The root of a job.
    Root,
    /// Posted by some row of the job.
    Posted,
    /// Spawned by the row of this number into one of its groups.
    Spawned(u64, Group),
    /// A region that the row of this number isolated.
    Region(u64),
}

impl Kind {
    /// The number of the row that made it.
    pub fn maker(&self) -> Option<u64>
        ensures { result ≡ maker_of self.now }
    {
        match *self {
            Kind::Root => None,
            Kind::Posted => None,
            Kind::Spawned(maker, _) => Some(maker),
            Kind::Region(maker) => Some(maker),
        }
    }

    /// Whether it is a region.
    pub fn is_region(&self) -> bool
        ensures { result ≡ is_region self.now }
    {
        matches!(self, Kind::Region(_))
    }
}

/// How far a row has come.
#[derive(Clone, Copy, Debug, PartialEq, Eq)]
pub enum Phase {
    Unstarted,
    /// It is on the stack of a slot, at a height from 1.
    Live(u8, u64),
    /// It returned a value.
    Done(i64),
    /// It was cancelled before it started.
    Dropped,
    Faulted,
}

impl Phase {
    /// Whether it has not started.
    pub fn is_unstarted(&self) -> bool
        ensures { result ≡ is_unstarted self.now }
    {
        matches!(self, Phase::Unstarted)
    }

    /// Whether it has not ended.
    pub fn is_open(&self) -> bool
        ensures { result ≡ is_open self.now }
    {
        matches!(self, Phase::Unstarted | Phase::Live(_, _))
    }

    /// The value of a row that is done; 0 for any other.
    pub fn value(&self) -> i64
        ensures { result ≡ value_in self.now }
    {
        match *self {
            Phase::Done(value) => value,
            _ => 0,
        }
    }

    /// Whether it is on the stack of a slot.
    pub fn is_live_on(&self, slot: u8) -> bool
        ensures { result ≡ is_live_on slot self.now }
    {
        match *self {
            Phase::Live(on, _) => on == slot,
            _ => false,
        }
    }

    /// Whether it is on the stack of a slot at a height.
    pub fn is_live_at(&self, slot: u8, height: u64) -> bool
        ensures { result ≡ is_live_at slot height self.now }
    {
        match *self {
            Phase::Live(on, at) => on == slot && at == height,
            _ => false,
        }
    }
}

/// What a row keeps of one of its groups: how many rows there were at the last wait that passed, and
/// whether the group was cancelled since.
#[derive(Clone, Copy, Debug, PartialEq, Eq)]
pub struct Mark {
    pub rows: u64,
    pub cancelled: bool,
}

/// A row of work. Jobs are numbered from 1.
#[derive(Clone, Copy, Debug)]
pub struct Row {
    pub kind: Kind,
    pub job: u64,
    /// The slot on which it was made; roots and posts are made on none.
    pub made_on: Option<u8>,
    pub frame: Frame,
    pub phase: Phase,
    pub marks: [Mark; GROUPS],
}
