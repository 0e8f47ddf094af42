// A table of cells, by key and by slot.
ghost use Rattle.std.specs.Prelude.{◌≡◌, ◌<◌, ◌≤◌, fold, unwrap_or, pos, length, count_by, is_some};
ghost use Rattle.std.specs.Int.{int_wrapping_add, w64};
ghost use Rattle.thread_cells.specs.Cells.{no_cells, cell, with_cell, cell_sum, cell_count};

use std::marker::Model;

/// How many keys there are. They are numbered from 0.
pub const KEYS: usize = 8;

/// How many slots there are. They are numbered from 0.
pub const SLOTS: usize = 16;

const _: () = prove!(KEYS == 8 && SLOTS == 16);

/// At most one cell for each key on each slot.
#[derive(Clone, Copy, Debug)]
pub struct Cells {
    table: [[Option<i64>; SLOTS]; KEYS],
}

impl Model for Cells {
    ghost use Rattle.thread_cells.specs.Cells.{Table};

    ghost Value = { Table };

    ghost view = { λ c. c.table };

    ghost inverse = { λ table. record { table = table } };
}

impl Cells {
    /// A table without cells.
    pub const fn new() -> Cells
        ensures { result ≡ no_cells }
    {
        Cells {
            table: [[None; SLOTS]; KEYS],
        }
    }

    /// The value of the cell of a key on a slot; the cell is made with 0 if there is none.
    pub fn local(&mut self, key: usize, slot: usize) -> i64
        requires key { key < KEYS }
        requires slot { slot < SLOTS }
        ensures value { result ≡ unwrap_or (cell self.old key slot) (pos 0) }
        ensures made { self.new ≡ with_cell self.old key slot result }
    {
        let cell = &mut self.table[key][slot];
        let value = cell.unwrap_or(0);
        *cell = Some(value);
        value
    }

    /// Sets the cell of a key on a slot, and makes it if there is none.
    pub fn store(&mut self, key: usize, slot: usize, value: i64)
        requires key { key < KEYS }
        requires slot { slot < SLOTS }
        ensures { self.new ≡ with_cell self.old key slot value }
    {
        self.table[key][slot] = Some(value);
    }

    /// The wrapping sum of a key's cells over all slots; 0 if there is none.
    pub fn sum(&self, key: usize) -> i64
        requires { key < KEYS }
        ensures { result ≡ cell_sum self.now key }
    {
        let cells = &self.table[key];
        sum_of(cells)
    }

    /// The number of a key's cells, over all slots.
    pub fn count(&self, key: usize) -> usize
        requires { key < KEYS }
        ensures value { result ≡ cell_count self.now key }
        ensures few { result ≤ SLOTS }
    {
        let cells = &self.table[key];
        count_of(cells)
    }

    /// Takes all cells away.
    pub fn clear(&mut self)
        ensures { self.new ≡ no_cells }
    {
        *self = Cells::new();
    }
}

/// The wrapping sum of the cells that are there.
fn sum_of(cells: &[Option<i64>]) -> i64
    ensures { result ≡ fold (λ sum c. int_wrapping_add w64 sum (unwrap_or c (pos 0)))
        (pos 0) cells.now }
{
    let mut sum = 0i64;
    for cell in cells {
        sum = sum.wrapping_add(cell.unwrap_or(0));
    }
    sum
}

/// The number of the cells that are there.
fn count_of(cells: &[Option<i64>]) -> usize
    ensures value { result ≡ count_by (λ c. is_some c) cells.now }
    ensures few { result ≤ length cells.now }
{
    cells.iter().filter(|cell| cell.is_some()).count()
}
