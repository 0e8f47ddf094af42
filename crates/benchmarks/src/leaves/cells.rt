// `thread_cells`: a round makes a cell and takes it away again.
ghost use Rattle.std.specs.Prelude.{◌≡◌, ◌<◌};
ghost use Rattle.thread_cells.specs.Cells.{no_cells};

use crate::leaves::rounds::Rounds;
use std::marker::Model;
use thread_cells::{Cells, KEYS, SLOTS};

/// The cells of a tenant, none of which is made.
#[derive(Drop)]
pub(crate) struct TenantCells {
    cells: Cells,
}

impl Model for TenantCells {
    ghost use Rattle.std.specs.Prelude.{◌≡◌};
    ghost use Rattle.thread_cells.specs.Cells.{Table, no_cells};

    ghost Value = { Table };

    ghost view = { λ t. t.cells };

    ghost invariant = { λ t. t.cells ≡ no_cells };
}

impl TenantCells {
    pub(crate) fn new() -> TenantCells {
        TenantCells {
            cells: Cells::new(),
        }
    }
}

impl Rounds for TenantCells {
    const CALLS: u8 = 5;

    fn round(&mut self, number: u32) -> u64 {
        let key = number as usize % KEYS;
        let slot = number as usize % SLOTS;
        store(&mut self.cells, key, slot, i64::from(number));
        let value = local(&mut self.cells, key, slot);
        let sum = sum(&self.cells, key);
        let count = count(&self.cells, key) as u64;
        clear(&mut self.cells);
        value
            .unsigned_abs()
            .wrapping_add(sum.unsigned_abs())
            .wrapping_add(count)
    }
}

// The calls of a round. None is inlined, or a compiler would leave out what a later one undoes.

#[inline(never)]
fn store(cells: &mut Cells, key: usize, slot: usize, value: i64)
    requires key { key < KEYS }
    requires slot { slot < SLOTS }
{
    cells.store(key, slot, value);
}

#[inline(never)]
fn local(cells: &mut Cells, key: usize, slot: usize) -> i64
    requires key { key < KEYS }
    requires slot { slot < SLOTS }
{
    cells.local(key, slot)
}

#[inline(never)]
fn sum(cells: &Cells, key: usize) -> i64
    requires { key < KEYS }
{
    cells.sum(key)
}

#[inline(never)]
fn count(cells: &Cells, key: usize) -> usize
    requires { key < KEYS }
{
    cells.count(key)
}

#[inline(never)]
fn clear(cells: &mut Cells)
    ensures { cells.new ≡ no_cells }
{
    cells.clear();
}
