// `task_group`: two rows join a group of a frame, one ends with a value and one without, and the wait passes.
ghost use Rattle.std.specs.Prelude.{◌≡◌, ◌+◌, ◌-◌, ◌<◌, true, slice_set};
ghost use Rattle.std.specs.Int.{int_wrapping_add, w64};
ghost use Rattle.task_group.specs.Groups.{group, unused};

use crate::leaves::rounds::Rounds;
use std::marker::Model;
use task_group::{GROUPS, Groups};

/// The groups of a frame, none of which has a member.
#[derive(Drop)]
pub(crate) struct FrameGroups {
    groups: Groups,
}

impl Model for FrameGroups {
    ghost use Rattle.std.specs.Prelude.{◌≡◌, List};
    ghost use Rattle.task_group.specs.Groups.{Group, no_members};

    ghost Value = { List Group };

    ghost view = { λ f. f.groups };

    ghost invariant = { λ f. f.groups ≡ no_members };
}

impl FrameGroups {
    pub(crate) fn new() -> FrameGroups {
        FrameGroups {
            groups: Groups::new(),
        }
    }
}

impl Rounds for FrameGroups {
    const CALLS: u8 = 7;

    fn round(&mut self, number: u32) -> u64 {
        let group = number as usize % GROUPS;
        add(&mut self.groups, group);
        add(&mut self.groups, group);
        let pending = pending(&self.groups, group);
        let is_used = is_used(&self.groups, group);
        finish(&mut self.groups, group, i64::from(number));
        drop_one(&mut self.groups, group);
        let total = take_total(&mut self.groups, group);
        total
            .unsigned_abs()
            .wrapping_add(u64::from(pending))
            .wrapping_add(u64::from(is_used))
    }
}

// The calls of a round. None is inlined, or a compiler would leave out what a later one undoes.

#[inline(never)]
fn add(groups: &mut Groups, number: usize)
    requires number { number < GROUPS }
    requires room { (group groups.old number).pending < u32.MAX }
    ensures { let joined = group groups.old number
        in groups.new ≡ slice_set groups.old number
        (record joined { pending = joined.pending + 1; is_used = true }) }
{
    groups.add(number);
}

#[inline(never)]
fn pending(groups: &Groups, number: usize) -> u32
    requires { number < GROUPS }
{
    groups.pending(number)
}

#[inline(never)]
fn is_used(groups: &Groups, number: usize) -> bool
    requires { number < GROUPS }
{
    groups.is_used(number)
}

#[inline(never)]
fn finish(groups: &mut Groups, number: usize, value: i64)
    requires number { number < GROUPS }
    requires pending { 0 < (group groups.old number).pending }
    ensures { let left = group groups.old number
        in groups.new ≡ slice_set groups.old number
        (record left {
          pending = left.pending - 1;
          total = int_wrapping_add w64 left.total value;
        }) }
{
    groups.finish(number, value);
}

#[inline(never)]
fn drop_one(groups: &mut Groups, number: usize)
    requires number { number < GROUPS }
    requires pending { 0 < (group groups.old number).pending }
    ensures { let left = group groups.old number
        in groups.new ≡ slice_set groups.old number (record left { pending = left.pending - 1 }) }
{
    groups.drop_one(number);
}

#[inline(never)]
fn take_total(groups: &mut Groups, number: usize) -> i64
    requires number { number < GROUPS }
    requires nothing_pending { (group groups.old number).pending ≡ 0 }
    ensures { groups.new ≡ slice_set groups.old number unused }
{
    groups.take_total(number)
}
