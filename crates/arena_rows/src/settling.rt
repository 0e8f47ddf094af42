// Settling: the rows that wait and whose context is cancelled are dropped.
ghost use Rattle.std.specs.Prelude.{◌≡◌, ◌<◌, None, IfSome};
ghost use Rattle.cancel_context.specs.Forest.{IsForest};
ghost use Rattle.tenant_model.specs.State.{State};
ghost use Rattle.tenant_model.specs.Walks.{settle};
ghost use Rattle.tenant_model.specs.Changes.{entry};
ghost use Rattle.arena_rows.specs.OpenRows.{AreFine};
ghost use Rattle.arena_rows.specs.Represents.{Holds, HoldsSomehow, Rests};
ghost use Rattle.arena_rows.specs.Endings.{rows_of, IsCancelled};

use crate::parts::Parts;
use region_tag::RowId;

impl Parts {
    /// A row that waits and whose context is cancelled.
    fn next_cancelled(&mut self) -> Option<RowId>
        ensures same { self.new ≡ self.old }
        ensures sound { IsForest self.old.contexts }
        ensures none { result ≡ None → AreFine (rows_of self.old) }
        ensures some { IfSome result (λ id. IsCancelled self.old id) }
    {
        let place = self.rows.next_doomed()?;
        let number = self.entry_at(place).number;
        Some(RowId { number, place })
    }

    /// Drops the rows that wait and whose context is cancelled.
    pub(crate) fn settle(&mut self)
        requires { HoldsSomehow self.old }
        ensures { (s : State) → Holds self.old s → Rests self.new (settle s) }
    {
        while let Some(row) = self.next_cancelled() {
            self.drop_row(row);
        }
    }

    /// Counts an entry, and drops the rows that wait and whose context is cancelled.
    pub fn enter_and_settle(&mut self)
        requires held { HoldsSomehow self.old }
        requires room { self.old.entries < self.old.config.steps }
        ensures { (s : State) → Holds self.old s → Rests self.new (entry s) }
    {
        self.count();
        self.settle();
    }
}
