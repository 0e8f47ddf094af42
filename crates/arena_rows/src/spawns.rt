// Rows that rows spawn into their groups, for every state that the parts stand for.
ghost use Rattle.std.specs.Prelude.{◌≡◌, ◌<◌, ◌+◌, ◌^◌, ℕ, length, Some, None, IsSome};
ghost use Rattle.std.specs.Option.{ForSome};
ghost use Rattle.cancel_context.specs.Forest.{binding, held_count, IsHeld};
ghost use Rattle.tenant_model.specs.State.{State, row, job};
ghost use Rattle.tenant_model.specs.Walks.{top};
ghost use Rattle.tenant_model.specs.Sound.{IsSteady, IsSettled};
ghost use Rattle.tenant_model.specs.declared.rows.Phase.TheVariants.{Unstarted};
ghost use Rattle.arena_rows.specs.Held.{HasFreePlace};
ghost use Rattle.arena_rows.specs.Represents.{at_place, Holds, HasTop, HasGroup, IsGiven};
ghost use Rattle.arena_rows.specs.HeldChanges.{bound_to, group_given};
ghost use Rattle.arena_rows.specs.NewRows.{with_spawned};

use crate::parts::Parts;
use crate::rows::{Source, Stage};
use cancel_context::ContextId;
use job_language::Group;
use job_step::Frame;

impl Parts {
    /// Binds a context of its own for a group of the open row at a place.
    fn bind_group(&mut self, place: usize, group: Group) -> ContextId
        requires within { place < length self.old.table }
        requires there { IsSome (at_place self.old.table place) }
        requires room { held_count self.old.contexts < length self.old.contexts }
        requires parent { ForSome (at_place self.old.table place)
            (λ e. IsHeld self.old.contexts e.context) }
        ensures fresh { binding self.old.contexts result ≡ None }
        ensures held { IsHeld self.new.contexts result }
        ensures count { held_count self.new.contexts ≡ held_count self.old.contexts + 1 }
        ensures given { ForSome (at_place self.old.table place)
            (λ e. self.new ≡ group_given self.old place group result e) }
    {
        let parent = self.entry_at(place).context;
        let context = self.rows.bind(Some(parent));
        self.rows.set_group_context(place, group, context);
        context
    }

    /// Binds a context for a row that is spawned into a group.
    fn bind_row(&mut self, group: ContextId) -> ContextId
        requires room { held_count self.old.contexts < length self.old.contexts }
        requires parent { IsHeld self.old.contexts group }
        ensures fresh { binding self.old.contexts result ≡ None }
        ensures held { IsHeld self.new.contexts result }
        ensures count { held_count self.new.contexts ≡ held_count self.old.contexts + 1 }
        ensures bound { self.new ≡ bound_to self.old result (Some group) }
    {
        self.rows.bind(Some(group))
    }

    /// The context of a group of a slot's topmost row, made if there is none yet.
    pub(crate) fn group_context(&mut self, slot: u8, group: Group) -> ContextId
        requires { HasTop self.old slot }
        ensures given { (s : State) (n : ℕ) (is : Holds self.old s) → top s.rows slot ≡ Some n
            → IsGiven self.old self.new s is n group result }
        ensures free { HasFreePlace self.old → HasFreePlace self.new }
        ensures made { self.new.made ≡ self.old.made }
    {
        let entry = self.top_entry(slot);
        if let Some(context) = entry.group_contexts[group.index()] {
            return context;
        }
        let row = self.top_row(slot);
        self.bind_group(row.place, group)
    }

    /// Makes a row that waits, in a group of a slot's topmost row whose context is there
    /// (`task_group::run`). The row's job has no fault: otherwise the new row would be dropped at once.
    pub(crate) fn spawn_waiting(&mut self, slot: u8, group: Group, context: ContextId, frame: Frame)
        requires given { HasGroup self.old slot group context }
        requires free { HasFreePlace self.old }
        requires few { self.old.made + 1 < 2 ^ 32 }
        ensures { (s : State) (n : ℕ) (is : Holds self.old s) → IsSettled s
            → top s.rows slot ≡ Some n → is.assigned.of_group n group ≡ Some context
            → (job s.jobs (row s.rows n).job).fault ≡ None
            → IsSteady (with_spawned s n slot group frame Unstarted)
            → Holds self.new (with_spawned s n slot group frame Unstarted) }
    {
        // Proof hint: the group's number is in range.
        let _ = group.index();
        let maker = self.top_row(slot);
        let job = self.top_entry(slot).job;
        let own = self.bind_row(context);
        self.join(maker.place, group);
        let source = Source::Spawned(maker, group);
        let row = self.enter_row(source, job, Some(slot), Stage::Waiting(frame), own);
        self.count_row(job);
        self.wait(row, Some(slot));
    }
}
