// Rows that are done, that fault and that are dropped, for every state that the parts stand for.
ghost use Rattle.std.specs.Prelude.{◌≡◌, ◌<◌, ◌+◌, ℕ, true, false, count_by, is_some, length, Some, IsSome};
ghost use Rattle.cancel_context.specs.Forest.{IsForest};
ghost use Rattle.job_step.specs.declared.frames.Frame.{Frame};
ghost use Rattle.nest_stack.specs.Nest.{stack};
ghost use Rattle.ready_pool.specs.Ready as ready;
ghost use Rattle.tenant_model.specs.State.{State, row, job};
ghost use Rattle.tenant_model.specs.Walks.{top, is_region, is_unstarted};
ghost use Rattle.tenant_model.specs.Changes.{on_row};
ghost use Rattle.tenant_model.specs.Shared.{has_used_group};
ghost use Rattle.tenant_model.specs.declared.rows.Phase.TheVariants.{Done, Faulted, Dropped};
ghost use Rattle.arena_rows.specs.declared.rows.OpenRow.{OpenRow};
ghost use Rattle.arena_rows.specs.Represents.{at_place, id_of, Holds, Rests, HasTop};
ghost use Rattle.arena_rows.specs.Endings.{popped, faulted_rows, number_at, HasUnused, HasFaulty, IsWaiting};

use crate::parts::Parts;
use region_tag::RowId;

impl Parts {
    /// Takes the topmost row off a slot.
    fn pop(&mut self, slot: u8)
        requires slot { slot < length self.old.nests }
        requires height { 0 < length (stack self.old.nests slot) }
        ensures { self.new ≡ popped self.old slot }
    {
        self.nests.pop(usize::from(slot));
    }

    /// Takes a row out of those that wait.
    fn unwait(&mut self, row: RowId)
        ensures { self.new ≡ record self.old { pool = ready.without self.old.pool row } }
    {
        self.pool.remove(row, &self.regions);
    }

    /// A slot's topmost row, which has no used group, is done with a value.
    pub fn finish(&mut self, slot: u8, value: i64)
        requires { HasUnused self.old slot }
        ensures { (s : State) (n : ℕ) (frame : Frame) → Rests self.old s → top s.rows slot ≡ Some n
            → has_used_group s n ≡ false
            → length frame.registers ≡ length (row s.rows n).frame.registers
            → Rests self.new (on_row s n (λ r. record r { frame = frame; phase = Done value })) }
    {
        let row = self.top_row(slot);
        self.end(row, value);
        self.pop(slot);
    }

    /// A slot's topmost row faults, whose job has a fault.
    fn fault_top(&mut self, slot: u8)
        requires faulty { HasFaulty self.old slot }
        requires forest { IsForest self.old.contexts }
        ensures holds { (s : State) (n : ℕ) → Holds self.old s → top s.rows slot ≡ Some n
            → IsSome (job s.jobs (row s.rows n).job).fault
            → Holds self.new (on_row s n (λ r. record r { phase = Faulted })) }
        ensures forest { IsForest self.new.contexts }
        ensures height { length (stack self.new.nests slot) + 1
            ≡ length (stack self.old.nests slot) }
    {
        let row = self.top_row(slot);
        self.end(row, 0);
        self.pop(slot);
    }

    /// Whether a slot's topmost row is a region.
    pub fn is_region_on(&self, slot: u8) -> bool
        requires { HasTop self.now slot }
        ensures { (s : State) (n : ℕ) (is : Holds self.now s) → top s.rows slot ≡ Some n
            → result ≡ is_region (row s.rows n).kind }
    {
        let Some(top) = self.top(slot) else {
            unreachable!();
        };
        top.is_region
    }

    /// The topmost row of a slot faults, whose job has a fault, and those below it, down to and
    /// including the first that is not a region.
    pub(crate) fn fault_rows(&mut self, slot: u8)
        requires faulty { HasFaulty self.old slot }
        requires forest { IsForest self.old.contexts }
        ensures holds { (s : State) (n : ℕ) → Holds self.old s → top s.rows slot ≡ Some n
            → IsSome (job s.jobs (row s.rows n).job).fault
            → Holds self.new (faulted_rows s slot) }
        ensures forest { IsForest self.new.contexts }
    {
        let is_region = self.is_region_on(slot);
        self.fault_top(slot);
        if is_region {
            self.fault_rows(slot);
        }
    }

    /// A row that waits is dropped.
    pub(crate) fn drop_row(&mut self, id: RowId)
        requires { IsWaiting self.old id }
        ensures holds { (s : State) (n : ℕ) (is : Holds self.old s)
            → is_unstarted (row s.rows n).phase ≡ true → id ≡ id_of is.places n
            → Holds self.new (on_row s n (λ r. record r { phase = Dropped })) }
        ensures forest { IsForest self.old.contexts → IsForest self.new.contexts }
        ensures long { length self.new.table ≡ length self.old.table }
        ensures freed { count_by is_some self.new.table + 1 ≡ count_by is_some self.old.table }
        ensures numbers { (q : ℕ) (e : OpenRow) → at_place self.new.table q ≡ Some e
            → number_at self.old.table q ≡ Some e.number }
    {
        self.end(id, 0);
        self.unwait(id);
    }
}
