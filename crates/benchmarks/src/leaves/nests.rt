// `nest_stack`: a row is pushed on a slot, the topmost is read, its frame is set, and it is popped again.
ghost use Rattle.std.specs.Prelude.{◌≡◌, ◌<◌, ◌++◌, [], ◌∷◌, false, length};
ghost use Rattle.nest_stack.specs.Nest.{stack, with_stack, below, with_top_frame};

use crate::leaves::rounds::Rounds;
use crate::leaves::rows::{Rows, row_at, row_of_round};
use job_language::MAX_SLOTS;
use job_step::Frame;
use nest_stack::{MAX_HEIGHT, Nested, Nests};
use region_tag::RowId;
use std::alloc::{AllocError, Global};
use std::marker::Model;

/// How many slots there are.
const SLOTS: usize = 16;

const _: () = prove!(SLOTS == MAX_SLOTS as usize);

/// The most rows that are there while a round is made: one slot is full, and each other has room for a row
/// more.
pub(crate) const MOST_NESTED: usize = SLOTS * (MAX_HEIGHT - 1) + 1;

/// Rows on all slots.
#[derive(Drop)]
pub(crate) struct NestedRows {
    nests: Nests,
}

impl Model for NestedRows {
    ghost use Rattle.nest_stack.specs.Nest.{Stacks};
    ghost use Rattle.benchmarks.specs.Nested.{HaveRoom};

    ghost Value = { Stacks };

    ghost view = { λ n. n.nests };

    ghost invariant = { λ n. HaveRoom n.nests };
}

impl NestedRows {
    /// These rows but one, which a round pushes, on the slots in turn. Those that do not fit are left out.
    pub(crate) fn new(alloc: Global, rows: Rows) -> Result<NestedRows, AllocError> {
        let mut nested = NestedRows {
            nests: Nests::new(alloc, SLOTS)?,
        };
        for place in 1..rows.number() {
            nested.push_if_room(row_at(place));
        }
        Ok(nested)
    }

    /// Pushes a row, if there is room for it and one more.
    fn push_if_room(&mut self, row: RowId) {
        let slot = row.place % SLOTS;
        if self.nests.height(slot) + 1 < MAX_HEIGHT {
            self.nests.push(slot, Frame::new(0, 0, 0), row, false);
        }
    }
}

impl Rounds for NestedRows {
    const CALLS: u8 = 4;

    fn round(&mut self, number: u32) -> u64 {
        let slot = number as usize % SLOTS;
        let row = row_of_round(number, slot);
        push(&mut self.nests, slot, Frame::new(0, 0, 0), row);
        let top = top(&self.nests, slot);
        set_top(&mut self.nests, slot, Frame::new(1, i64::from(number), 0));
        let popped = pop(&mut self.nests, slot);
        top.map_or(0, |top| top.row.number)
            .wrapping_add(popped.row.number)
            .wrapping_add(u64::from(popped.frame.procedure))
    }
}

// The calls of a round. None is inlined, or a compiler would leave out what a later one undoes.

/// Pushes a row that is no region.
#[inline(never)]
fn push(nests: &mut Nests, slot: usize, frame: Frame, row: RowId)
    requires slot { slot < length nests.old }
    requires height { length (stack nests.old slot) < MAX_HEIGHT }
    ensures { nests.new ≡ with_stack nests.old slot
        (stack nests.old slot ++ (record { frame = frame; row = row; is_region = false }) ∷ []) }
{
    nests.push(slot, frame, row, false);
}

#[inline(never)]
fn top(nests: &Nests, slot: usize) -> Option<Nested>
    requires { slot < length nests.now }
{
    nests.top(slot).copied()
}

#[inline(never)]
fn set_top(nests: &mut Nests, slot: usize, frame: Frame)
    requires slot { slot < length nests.old }
    requires height { 0 < length (stack nests.old slot) }
    ensures { nests.new ≡ with_stack nests.old slot (with_top_frame (stack nests.old slot) frame) }
{
    nests.set_top(slot, frame);
}

#[inline(never)]
fn pop(nests: &mut Nests, slot: usize) -> Nested
    requires slot { slot < length nests.old }
    requires height { 0 < length (stack nests.old slot) }
    ensures { nests.new ≡ with_stack nests.old slot
        (below (stack nests.old slot) (length (stack nests.old slot))) }
{
    nests.pop(slot)
}
