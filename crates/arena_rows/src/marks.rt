// Groups that are cancelled and waits that pass, for every state that the parts stand for.
ghost use Rattle.std.specs.Prelude.{◌≡◌, ◌<◌, ℕ, true, false, length, Some, IsSome};
ghost use Rattle.std.specs.Option.{ForSome};
ghost use Rattle.cancel_context.specs.Forest.{IsHeld, held_count};
ghost use Rattle.task_group.specs.Groups.{group};
ghost use Rattle.tenant_model.specs.State.{State, row};
ghost use Rattle.tenant_model.specs.Walks.{is_pending, top};
ghost use Rattle.arena_rows.specs.HeldChanges.{with_entry};
ghost use Rattle.arena_rows.specs.MarkedGroups.{marked, passed_mark, with_group_cancelled, with_wait_passed, HasEndedGroup, with_group_emptied, requested};
ghost use Rattle.arena_rows.specs.Represents.{at_place, Holds, Rests, HasTop};

use crate::parts::Parts;
use cancel_context::ContextId;
use job_language::Group;
use job_step::Frame;

impl Parts {
    /// Makes a cancel request on a context.
    fn request(&mut self, context: ContextId)
        requires { IsHeld self.old.contexts context }
        ensures requested { self.new ≡ requested self.old context true }
        ensures count { held_count self.new.contexts ≡ held_count self.old.contexts }
    {
        self.rows.cancel(context);
    }

    /// Takes back the cancel request of a context.
    fn take_back(&mut self, context: ContextId)
        requires { IsHeld self.old.contexts context }
        ensures taken_back { self.new ≡ requested self.old context false }
        ensures count { held_count self.new.contexts ≡ held_count self.old.contexts }
    {
        self.rows.reset(context);
    }

    /// Cancels a group of a slot's topmost row, and moves the row's frame on (`task_group::cancel`).
    /// Rows that wait in the group are still to be dropped.
    pub fn cancel_group(&mut self, slot: u8, group: Group, frame: Frame)
        requires { HasTop self.old slot }
        ensures { (s : State) (n : ℕ) → Holds self.old s → top s.rows slot ≡ Some n
            → length frame.registers ≡ length (row s.rows n).frame.registers
            → Holds self.new (with_group_cancelled s n group frame) }
    {
        // Proof hint: the group's number is in range.
        let _ = group.index();
        let context = self.group_context(slot, group);
        self.request(context);
        self.set_frame(slot, frame);
    }

    /// Lets a group of the row at a place, with no member that is open, have none at all.
    fn empty_group(&mut self, place: usize, number: Group)
        requires within { place < length self.old.table }
        requires there { IsSome (at_place self.old.table place) }
        requires ended { ForSome (at_place self.old.table place)
            (λ e. (group e.groups number).pending ≡ 0) }
        ensures { ForSome (at_place self.old.table place)
            (λ e. self.new ≡ with_entry self.old place (with_group_emptied number e)) }
    {
        self.rows.empty_group(place, number);
    }

    /// Lets a group of a slot's topmost row start afresh. Its context, if it has one, stays with it.
    fn restart_group(&mut self, slot: u8, group: Group)
        requires { HasEndedGroup self.old slot group }
        ensures restarted { (s : State) (n : ℕ) → Rests self.old s → top s.rows slot ≡ Some n
            → is_pending s.rows n group ≡ false
            → Rests self.new (marked s n group (passed_mark s)) }
        ensures nests { self.new.nests ≡ self.old.nests }
    {
        let place = self.top_row(slot).place;
        let context = self.top_entry(slot).group_contexts[group.index()];
        self.empty_group(place, group);
        if let Some(context) = context {
            self.take_back(context);
        }
    }

    /// Lets a wait for a group of a slot's topmost row pass, and moves the row's frame on
    /// (`task_group::wait`).
    pub fn pass_wait(&mut self, slot: u8, group: Group, frame: Frame)
        requires { HasEndedGroup self.old slot group }
        ensures { (s : State) (n : ℕ) → Rests self.old s → top s.rows slot ≡ Some n
            → is_pending s.rows n group ≡ false
            → length frame.registers ≡ length (row s.rows n).frame.registers
            → Rests self.new (with_wait_passed s n group frame) }
    {
        // Proof hint: the group's number is in range.
        let _ = group.index();
        self.restart_group(slot, group);
        self.set_frame(slot, frame);
    }
}
