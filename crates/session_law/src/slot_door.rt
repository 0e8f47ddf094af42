// The door of one slot of an arena.
use arena_core::Arena;
use job_language::Moved;
use job_step::{Segment, View};
use nested_wait::Door;

/// One slot of an arena that nobody else acts on. A pause says to stop: what can't run now never will.
#[derive(Drop)]
pub struct ArenaDoor<'a> {
    /// The arena.
    pub arena: &'a mut Arena,
    /// The slot, numbered from 0; one that the arena lacks is bare and idle.
    pub slot: u8,
}

impl Door for ArenaDoor<'_> {
    ghost use Rattle.session_law.specs.SlotDoor.{SeesSlot, CommitsSlot, AdvancesSlot, IsSlotAsHigh, PausesSlot};

    ghost views = { SeesSlot };

    ghost commits = { CommitsSlot };

    ghost advances = { AdvancesSlot };

    ghost heights = { IsSlotAsHigh };

    ghost pauses = { PausesSlot };

    fn view(&self) -> View {
        self.arena.view(self.slot)
    }

    fn commit(&mut self, segment: Segment) -> Moved {
        self.arena.commit(self.slot, &segment)
    }

    fn advance(&mut self) -> Moved {
        self.arena.advance(self.slot)
    }

    fn height(&self) -> usize {
        self.arena.height(self.slot)
    }

    fn pause(&mut self) -> bool {
        true
    }
}
