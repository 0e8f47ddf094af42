// Rows that slots take, for every state that the parts stand for.
ghost use Rattle.std.specs.Prelude.{◌≡◌, ◌<◌, length, Some};
ghost use Rattle.nest_stack.specs.declared.stack.TheConstants.{MAX_HEIGHT};
ghost use Rattle.nest_stack.specs.Nest.{stack};
ghost use Rattle.tenant_model.specs.State.{State};
ghost use Rattle.tenant_model.specs.Walks.{pick};
ghost use Rattle.tenant_model.specs.Changes.{nest, entry};
ghost use Rattle.arena_rows.specs.Represents.{Rests, RestsSomehow};
ghost use Rattle.arena_rows.specs.HeldChanges.{picked};

use crate::parts::Parts;
use region_tag::RowId;

impl Parts {
    /// The row that a slot takes next goes live on top of it.
    pub fn nest(&mut self, slot: u8, row: RowId)
        requires rests { RestsSomehow self.old }
        requires slot { slot < self.old.config.slots }
        requires next { picked self.old slot ≡ Some row }
        requires height { length (stack self.old.nests slot) < MAX_HEIGHT }
        ensures { (s : State) → Rests self.old s
            → (pick s slot ≡ Some row.number) × Rests self.new (nest s slot row.number) }
    {
        self.start(slot, row);
    }

    /// Counts an entry.
    pub fn enter(&mut self)
        requires { self.old.entries < self.old.config.steps }
        ensures { (s : State) → Rests self.old s → Rests self.new (entry s) }
    {
        self.count();
    }
}
