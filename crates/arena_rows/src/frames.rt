// Steps of a slot's topmost row that change its frame or the cells, for every state that the parts stand for.
ghost use Rattle.std.specs.Prelude.{◌≡◌, ◌<◌, ℕ, pos, length, unwrap_or, Some};
ghost use Rattle.job_language.specs.declared.tenants.TheConstants.{MAX_SLOTS};
ghost use Rattle.tenant_model.specs.State.{State, row};
ghost use Rattle.thread_cells.specs.Cells.{cell, with_cell};
ghost use Rattle.tenant_model.specs.Changes.{with_frame, with_cells};
ghost use Rattle.tenant_model.specs.Walks.{top};
ghost use Rattle.arena_rows.specs.Represents.{Rests, HasTop};
ghost use Rattle.arena_rows.specs.HeldChanges.{with_cells_held};

use crate::parts::Parts;
use job_language::Key;
use job_step::Frame;

impl Parts {
    /// Moves the frame of a slot's topmost row on.
    pub fn move_on(&mut self, slot: u8, frame: Frame)
        requires { HasTop self.old slot }
        ensures { (s : State) (n : ℕ) → Rests self.old s → top s.rows slot ≡ Some n
            → length frame.registers ≡ length (row s.rows n).frame.registers
            → Rests self.new (with_frame s n frame) }
    {
        self.set_frame(slot, frame);
    }

    /// The value of a slot's cell of a key. The cell is made as 0 if there is none.
    #[tactic(auto, using(crate::proofs::CellsHeld::cell_rests))]
    pub fn local(&mut self, slot: u8, key: Key) -> i64
        requires { slot < MAX_SLOTS }
        ensures { (s : State) → Rests self.old s
            → (result ≡ unwrap_or (cell s.cells key slot) (pos 0))
            × Rests self.new (with_cells s (with_cell s.cells key slot result)) }
    {
        self.local_cell(slot, key)
    }

    fn local_cell(&mut self, slot: u8, key: Key) -> i64
        requires { slot < MAX_SLOTS }
        ensures value { result ≡ unwrap_or (cell self.old.cells key slot) (pos 0) }
        ensures made { self.new
            ≡ with_cells_held self.old (with_cell self.old.cells key slot result) }
    {
        self.cells.local(key.index(), usize::from(slot))
    }

    /// Gives a slot's cell of a key a value, and makes the cell if there is none.
    #[tactic(auto, using(crate::proofs::CellsHeld::cell_rests))]
    pub fn store(&mut self, slot: u8, key: Key, value: i64)
        requires { slot < MAX_SLOTS }
        ensures { (s : State) → Rests self.old s
            → Rests self.new (with_cells s (with_cell s.cells key slot value)) }
    {
        self.store_cell(slot, key, value);
    }

    fn store_cell(&mut self, slot: u8, key: Key, value: i64)
        requires { slot < MAX_SLOTS }
        ensures { self.new ≡ with_cells_held self.old (with_cell self.old.cells key slot value) }
    {
        self.cells.store(key.index(), usize::from(slot), value);
    }
}
