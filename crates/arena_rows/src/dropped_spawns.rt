// Rows that are spawned under a cancelled context, for every state that the parts stand for.
ghost use Rattle.std.specs.Prelude.{◌≡◌, ◌<◌, ◌+◌, ◌^◌, ℕ, length, slice_set, true, Some, IsSome};
ghost use Rattle.std.specs.Option.{ForSome};
ghost use Rattle.task_group.specs.Groups.{group};
ghost use Rattle.tenant_model.specs.State.{State};
ghost use Rattle.tenant_model.specs.Walks.{top};
ghost use Rattle.tenant_model.specs.Sound.{IsSteady};
ghost use Rattle.tenant_model.specs.declared.rows.Phase.TheVariants.{Dropped};
ghost use Rattle.job_step.specs.declared.frames.Frame.{Frame};
ghost use Rattle.arena_rows.specs.declared.rows.OpenRow.{OpenRow};
ghost use Rattle.arena_rows.specs.HeldChanges.{with_entry};
ghost use Rattle.arena_rows.specs.MarkedGroups.{more_made, with_ended_member};
ghost use Rattle.arena_rows.specs.Represents.{at_place, Rests, HasTop};
ghost use Rattle.arena_rows.specs.NewRows.{with_spawned};

use crate::parts::Parts;
use job_language::{GROUPS, Group};
use task_group::Groups;

impl Parts {
    /// The groups of the row at a place.
    fn groups_at(&self, place: usize) -> Groups
        requires within { place < length self.now.table }
        requires there { IsSome (at_place self.now.table place) }
        ensures { (e : OpenRow) → at_place self.now.table place ≡ Some e → result ≡ e.groups }
    {
        self.entry_at(place).groups
    }

    /// Lets a group of the row at a place have one member more, which has ended without a value.
    fn join_ended(&mut self, place: usize, number: Group)
        requires within { place < length self.old.table }
        requires there { IsSome (at_place self.old.table place) }
        requires few { ForSome (at_place self.old.table place)
            (λ e. (group e.groups number).pending < u32.MAX) }
        ensures { ForSome (at_place self.old.table place)
            (λ e. self.new ≡ with_entry self.old place (with_ended_member number e)) }
    {
        let mut groups = self.groups_at(place);
        add_ended(&mut groups, number.index());
        self.rows.set_groups(place, groups);
    }

    /// Counts a row as made that has no place.
    pub(crate) fn count_made(&mut self)
        requires { self.old.made < 2 ^ 32 }
        ensures { self.new ≡ more_made self.old }
    {
        self.made += 1;
    }

    /// Counts a row that is dropped as it is made, in a group of a slot's topmost row whose context is
    /// there and cancelled (`task_group::run`). Nothing else is made for it.
    pub(crate) fn spawn_dropped(&mut self, slot: u8, group: Group)
        requires top { HasTop self.old slot }
        requires few { self.old.made + 1 < 2 ^ 32 }
        ensures { (s : State) (n : ℕ) (rests : Rests self.old s) (c : ℕ) (frame : Frame)
            → top s.rows slot ≡ Some n → rests.holds.assigned.of_group n group ≡ Some c
            → IsSteady (with_spawned s n slot group frame Dropped)
            → Rests self.new (with_spawned s n slot group frame Dropped) }
    {
        // Proof hint: the group's number is in range.
        let _ = group.index();
        let place = self.top_row(slot).place;
        self.join_ended(place, group);
        self.count_made();
    }
}

/// Gives a group one member more, which has ended without a value.
fn add_ended(groups: &mut Groups, number: usize)
    requires number { number < GROUPS }
    requires all { length groups.old ≡ GROUPS }
    requires few { (group groups.old number).pending < u32.MAX }
    ensures { groups.new
        ≡ slice_set groups.old number (record (group groups.old number) { is_used = true }) }
{
    groups.add(number);
    groups.drop_one(number);
}
