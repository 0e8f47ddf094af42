// Rows that rows make, with the state settled.
ghost use Rattle.std.specs.Prelude.{◌≡◌, ◌<◌, ◌+◌, ◌^◌, ℕ, Some};
ghost use Rattle.tenant_model.specs.State.{State};
ghost use Rattle.tenant_model.specs.Walks.{settle, top};
ghost use Rattle.tenant_model.specs.Sound.{IsSteady};
ghost use Rattle.tenant_model.specs.declared.rows.Phase.TheVariants.{Unstarted};
ghost use Rattle.arena_rows.specs.Held.{HasFreePlace};
ghost use Rattle.arena_rows.specs.MarkedGroups.{RestsWithTop};
ghost use Rattle.arena_rows.specs.Represents.{Rests};
ghost use Rattle.arena_rows.specs.NewRows.{with_spawned, with_posted};

use crate::parts::Parts;
use job_language::Group;
use job_step::Frame;

impl Parts {
    /// Makes a row in a group of a slot's topmost row (`task_group::run`). If its context is cancelled,
    /// it is dropped at once; otherwise it waits.
    pub fn spawn_settled(&mut self, slot: u8, group: Group, frame: Frame)
        requires rests { RestsWithTop self.old slot }
        requires free { HasFreePlace self.old }
        requires few { self.old.made + 1 < 2 ^ 32 }
        ensures { (s : State) (n : ℕ) → Rests self.old s → top s.rows slot ≡ Some n
            → IsSteady (with_spawned s n slot group frame Unstarted)
            → Rests self.new (settle (with_spawned s n slot group frame Unstarted)) }
    {
        let context = self.group_context(slot, group);
        if self.is_group_cancelled(slot, group) {
            self.spawn_dropped(slot, group);
            return;
        }
        self.spawn_waiting(slot, group, context, frame);
    }

    /// Makes a row of the job of a slot's topmost row, in no group and no region (`enqueue`). If the
    /// job is cancelled, the row is dropped at once; otherwise it waits.
    pub fn post_settled(&mut self, slot: u8, frame: Frame)
        requires rests { RestsWithTop self.old slot }
        requires free { HasFreePlace self.old }
        requires few { self.old.made < 2 ^ 32 }
        ensures { (s : State) (n : ℕ) → Rests self.old s → top s.rows slot ≡ Some n
            → IsSteady (with_posted s n frame Unstarted)
            → Rests self.new (settle (with_posted s n frame Unstarted)) }
    {
        if self.is_job_cancelled(slot) {
            self.count_made();
            return;
        }
        self.post(slot, frame);
    }
}
