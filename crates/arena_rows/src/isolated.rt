// Regions that rows make, for every state that the parts stand for.
ghost use Rattle.std.specs.Prelude.{◌≡◌, ◌<◌, ◌+◌, ◌^◌, ℕ, length, Some};
ghost use Rattle.nest_stack.specs.declared.stack.TheConstants.{MAX_HEIGHT};
ghost use Rattle.nest_stack.specs.Nest.{stack};
ghost use Rattle.tenant_model.specs.State.{State};
ghost use Rattle.tenant_model.specs.Walks.{top};
ghost use Rattle.tenant_model.specs.Sound.{IsSteady};
ghost use Rattle.arena_rows.specs.Held.{HasFreePlace};
ghost use Rattle.arena_rows.specs.Represents.{id_of, Holds, HasTop};
ghost use Rattle.arena_rows.specs.NewRows.{with_region};

use crate::parts::Parts;
use crate::rows::{Source, Stage};
use job_step::Frame;
use region_tag::RowId;

impl Parts {
    /// The id of a slot's topmost row.
    pub(crate) fn top_row(&self, slot: u8) -> RowId
        requires { HasTop self.now slot }
        ensures { (s : State) (n : ℕ) (is : Holds self.now s) → top s.rows slot ≡ Some n
            → result ≡ id_of is.places n }
    {
        let Some(top) = self.top(slot) else {
            unreachable!();
        };
        top.row
    }

    /// Makes a region on top of a slot's topmost row (`this_task_arena::isolate`).
    pub fn isolate(&mut self, slot: u8, frame: Frame)
        requires top { HasTop self.old slot }
        requires free { HasFreePlace self.old }
        requires few { self.old.made < 2 ^ 32 }
        requires height { length (stack self.old.nests slot) < MAX_HEIGHT }
        ensures { (s : State) (n : ℕ) → Holds self.old s → top s.rows slot ≡ Some n
            → IsSteady (with_region s n slot frame)
            → Holds self.new (with_region s n slot frame) }
    {
        let maker = self.top_row(slot);
        let entry = self.top_entry(slot);
        let (job, context) = (entry.job, entry.context);
        let height = self.height(slot) as u64 + 1;
        let stage = Stage::Live(slot as usize, height);
        let source = Source::Region(maker);
        let row = self.enter_row(source, job, Some(slot), stage, context);
        self.count_row(job);
        self.push_region(slot, frame, row);
    }
}
