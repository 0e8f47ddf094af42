// The four groups of a frame.
ghost use Rattle.std.specs.Prelude.{◌≡◌, ◌+◌, ◌-◌, ◌<◌, true, slice_set};
ghost use Rattle.std.specs.Int.{int_wrapping_add, w64};
ghost use Rattle.task_group.specs.Groups.{unused, no_members, group};

use std::marker::Model;

/// How many task groups a frame has. They are numbered from 0.
pub const GROUPS: usize = 4;

const _: () = prove!(GROUPS == 4);

/// One group: its members are the rows that joined it since its last passed wait.
#[derive(Clone, Copy, Debug)]
struct Group {
    total: i64,
    pending: u32,
    is_used: bool,
}

impl Model for Group {
    ghost use Rattle.task_group.specs.Groups.{Group};

    ghost Value = { Group };

    ghost view = { λ g. record { pending = g.pending; total = g.total; is_used = g.is_used } };

    ghost inverse = { λ v. record { total = v.total; pending = v.pending; is_used = v.is_used } };
}

/// The groups of one frame.
#[derive(Clone, Copy, Debug)]
pub struct Groups {
    groups: [Group; GROUPS],
}

impl Model for Groups {
    ghost use Rattle.std.specs.Prelude.{List};
    ghost use Rattle.task_group.specs.Groups.{Group};

    ghost Value = { List Group };

    ghost view = { λ g. g.groups };

    ghost inverse = { λ groups. record { groups = groups } };
}

impl Groups {
    /// Groups without a member.
    pub const fn new() -> Groups
        ensures { result ≡ no_members }
    {
        let group = Group {
            total: 0,
            pending: 0,
            is_used: false,
        };
        Groups {
            groups: [group; GROUPS],
        }
    }

    /// Adds a pending row to the group.
    pub fn add(&mut self, number: usize)
        requires number { number < GROUPS }
        requires room { (group self.old number).pending < u32.MAX }
        ensures { let joined = group self.old number
            in self.new ≡ slice_set self.old number
            (record joined { pending = joined.pending + 1; is_used = true }) }
    {
        let group = &mut self.groups[number];
        group.pending += 1;
        group.is_used = true;
    }

    /// Ends a pending row of the group with a value.
    pub fn finish(&mut self, number: usize, value: i64)
        requires number { number < GROUPS }
        requires pending { 0 < (group self.old number).pending }
        ensures { let left = group self.old number
            in self.new ≡ slice_set self.old number
            (record left {
              pending = left.pending - 1;
              total = int_wrapping_add w64 left.total value;
            }) }
    {
        let group = &mut self.groups[number];
        group.pending -= 1;
        group.total = group.total.wrapping_add(value);
    }

    /// Ends a pending row of the group without a value. It stays a member.
    pub fn drop_one(&mut self, number: usize)
        requires number { number < GROUPS }
        requires pending { 0 < (group self.old number).pending }
        ensures { let left = group self.old number
            in self.new ≡ slice_set self.old number (record left { pending = left.pending - 1 }) }
    {
        let left = &mut self.groups[number];
        left.pending -= 1;
    }

    /// How many rows of the group are pending.
    pub fn pending(&self, number: usize) -> u32
        requires { number < GROUPS }
        ensures { result ≡ (group self.now number).pending }
    {
        let asked = &self.groups[number];
        asked.pending
    }

    /// Whether the group has a member, open or ended.
    pub fn is_used(&self, number: usize) -> bool
        requires { number < GROUPS }
        ensures { result ≡ (group self.now number).is_used }
    {
        let asked = &self.groups[number];
        asked.is_used
    }

    /// The wrapping sum of the values of the group's rows that have ended.
    pub fn total(&self, number: usize) -> i64
        requires { number < GROUPS }
        ensures { result ≡ (group self.now number).total }
    {
        let asked = &self.groups[number];
        asked.total
    }

    /// Ends a wait that passed: returns the wrapping sum of the values of the group's rows, and leaves
    /// the group without a member. A wait passes only if nothing is pending.
    pub fn take_total(&mut self, number: usize) -> i64
        requires number { number < GROUPS }
        requires nothing_pending { (group self.old number).pending ≡ 0 }
        ensures total { result ≡ (group self.old number).total }
        ensures taken { self.new ≡ slice_set self.old number unused }
    {
        let group = &mut self.groups[number];
        let total = group.total;
        group.total = 0;
        group.is_used = false;
        total
    }
}
