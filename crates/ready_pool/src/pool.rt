// The pool of the rows that wait.
ghost use Rattle.std.specs.Prelude.{◌≡◌, ◌≢◌, ◌<◌, ◌≤◌, ◌==◌, All, Any, IfOk, IfSome, Some, None, filter, length};
ghost use Rattle.std.specs.Option.{ForSome, option_copied, option_map, option_or};
ghost use Rattle.ready_pool.specs.Ready.{AreRising, empty, with_row, is_waiting, without, IsRegionEntered, is_made_on, first_of, last_or, pick};
ghost use Rattle.ready_pool.specs.Parts.{find, number_of, place_of, row_at};
ghost use Rattle.region_tag.specs.Region.{Table};

use crate::families::{join, leave};
use job_language::{Isolation, MAX_ROWS, MAX_SLOTS};
use place_lists::Lists;
use region_tag::{Regions, RowId};
use slab::Slab;
use std::alloc::{AllocError, Global};
use std::marker::Model;

/// A row that waits to be started.
#[derive(Clone, Copy, Debug, PartialEq, Eq)]
pub struct Waiting {
    pub row: RowId,
    /// The slot on which it was made, numbered from 0; roots and posts are made on none.
    pub made_on: Option<usize>,
    /// The region that it is in; `None` outside all regions.
    pub region: Option<RowId>,
}

/// The rows of a tenant that wait to be started, in order of making. No call takes memory but `new`,
/// and none walks over the rows but `pick` for a waiter in mode within.
pub struct Pool {
    isolation: Isolation,
    slots: usize,
    // The rows, each at a position.
    rows: Slab<Waiting>,
    // By place, the position of the row that waits there. If none waits, it says nothing.
    positions: Vec<usize>,
    // Positions in order of making: of all rows, by the slot that made them, by their region, and by both.
    all: Lists,
    by_slot: Lists,
    by_region: Lists,
    by_both: Lists,
}

impl Drop for Pool {
    // An owner drops it in one call, not part by part at each of its ways out.
    fn drop(self) {
        let Pool {
            isolation: _isolation,
            slots: _slots,
            rows: _rows,
            positions: _positions,
            all: _all,
            by_slot: _by_slot,
            by_region: _by_region,
            by_both: _by_both,
        } = self;
    }
}

impl Model for Pool {
    ghost use Rattle.std.specs.Prelude.{length};
    ghost use Rattle.ready_pool.specs.Ready.{Ready};
    ghost use Rattle.ready_pool.specs.Parts.{HoldsRows, rows_of};

    ghost Value = { Ready };

    ghost view = { λ p. record {
      isolation = p.isolation;
      limit = length p.positions.items;
      slots = p.slots;
      rows = rows_of p.rows.slots p.all;
    } };

    ghost invariant = { λ p. HoldsRows (length p.positions.items)
        (record {
          slots = p.slots;
          nodes = p.rows;
          positions = p.positions.items;
          all = p.all;
          by_slot = p.by_slot;
          by_region = p.by_region;
          by_both = p.by_both;
        })
        (rows_of p.rows.slots p.all) };
}

impl Pool {
    /// An empty pool, with room for as many rows as may be open.
    pub fn new(
        alloc: Global,
        rows: usize,
        slots: usize,
        isolation: Isolation,
    ) -> Result<Pool, AllocError>
        requires rows { rows ≤ MAX_ROWS }
        requires slots { slots ≤ MAX_SLOTS }
        ensures { IfOk result (λ pool. pool ≡ empty isolation rows slots) }
    {
        let held = Slab::with_capacity(alloc, rows)?;
        let room = held.capacity();
        let positions = vec![in alloc; 0; rows]?;
        let all = Lists::new(alloc, 1, room)?;
        let by_slot = Lists::new(alloc, slots, room)?;
        let by_region = Lists::new(alloc, rows, room)?;
        let by_both = Lists::new(alloc, rows * slots, room)?;
        Ok(Pool {
            isolation,
            slots,
            rows: held,
            positions,
            all,
            by_slot,
            by_region,
            by_both,
        })
    }

    /// Adds a row that has just been made.
    pub fn put(
        &mut self,
        row: RowId,
        made_on: Option<usize>,
        region: Option<RowId>,
        regions: &Regions,
    )
        requires room { length self.old.rows < self.old.limit }
        requires newest { All (λ w. w.row.number < row.number) self.old.rows }

        // Its place is a place of its own, and the slot is one of the pool's.
        requires place { row.place < self.old.limit }
        requires free { All (λ w. w.row.place ≢ row.place) self.old.rows }
        requires slot { ForSome made_on (λ slot. slot < self.old.slots) }

        // The regions of the waiting rows are entered, and so is the region of this row.
        requires places { length regions.now ≡ self.old.limit }
        requires region { IsRegionEntered regions.now region }
        requires regions { All (λ w. IsRegionEntered regions.now w.region) self.old.rows }
        ensures { self.new ≡ with_row self.old
            (record { row = row; made_on = made_on; region = region }) }
    {
        let region_place = place_of(region);
        let both = number_of(self.slots, made_on, region_place);
        let position = self.rows.insert_reserved(Waiting {
            row,
            made_on,
            region,
        });
        self.positions[row.place] = position;
        join(&mut self.all, Some(0), position);
        join(&mut self.by_slot, made_on, position);
        join(&mut self.by_region, region_place, position);
        join(&mut self.by_both, both, position);
    }

    /// The row that a slot takes next, of those that it may take while its topmost row is in a region:
    /// the newest one made on the slot, which has the greatest number; if there is none, the oldest,
    /// which has the least.
    pub fn pick(&self, slot: usize, region: Option<RowId>, regions: &Regions) -> Option<RowId>
        requires { slot < self.now.slots }
        ensures value { result ≡ pick self.now regions.now slot region }
        ensures there { IfSome result (λ row. Any (λ w. w.row ≡ row) self.now.rows) }
        ensures rising { AreRising self.now.rows }
    {
        match (region, self.isolation) {
            (None, _) => self.pick_outside(slot),
            (Some(region), Isolation::Exact) => self.pick_in(slot, region),
            (Some(region), Isolation::Within) => self.pick_within(slot, region, regions),
        }
    }

    /// Takes out a row that has started or was dropped, and returns whether the row was there.
    pub fn remove(&mut self, row: RowId, _regions: &Regions) -> bool
        ensures there { result ≡ is_waiting self.old row }
        ensures rest { self.new ≡ without self.old row }
    {
        let Some(position) = find(&self.rows, &self.positions, row) else {
            return false;
        };
        let waiting = self.rows.remove(position);
        let region_place = place_of(waiting.region);
        let both = number_of(self.slots, waiting.made_on, region_place);
        leave(&mut self.all, Some(0), position);
        leave(&mut self.by_slot, waiting.made_on, position);
        leave(&mut self.by_region, region_place, position);
        leave(&mut self.by_both, both, position);
        true
    }

    /// How many rows wait.
    pub fn len(&self) -> usize
        ensures { result ≡ length self.now.rows }
    {
        self.rows.len()
    }

    /// Whether no row waits.
    pub fn is_empty(&self) -> bool
        ensures { result ≡ (length self.now.rows == 0) }
    {
        self.all.first(0).is_none()
    }

    /// The oldest row.
    fn oldest(&self) -> Option<RowId>
        ensures { result ≡ first_of self.now.rows }
    {
        let position = self.all.first(0)?;
        Some(row_at(&self.rows, position)?.row)
    }

    /// The newest row that was made on a slot.
    fn newest_on(&self, slot: usize) -> Option<RowId>
        ensures { result ≡ last_or None (filter (λ w. is_made_on slot w.made_on) self.now.rows) }
    {
        let position = self.by_slot.last(slot)?;
        Some(row_at(&self.rows, position)?.row)
    }

    /// The pick for a waiter outside all regions. The oldest row is looked at only if it is taken.
    fn pick_outside(&self, slot: usize) -> Option<RowId>
        ensures { result ≡ option_or
            (last_or None (filter (λ w. is_made_on slot w.made_on) self.now.rows))
            (first_of self.now.rows) }
    {
        if let Some(row) = self.newest_on(slot) {
            return Some(row);
        }
        self.oldest()
    }

    /// The pick for a waiter in a region in mode exact.
    fn pick_in(&self, slot: usize, region: RowId) -> Option<RowId>
        requires { slot < self.now.slots }
        ensures { (regions : Table) → self.now.isolation ≡ Isolation.Exact
            → result ≡ pick self.now regions slot (Some region) }
    {
        let first = self.by_region.first(region.place)?;
        let oldest = row_at(&self.rows, first)?;
        // The place may be another region's by now.
        if oldest.region != Some(region) {
            return None;
        }
        let newest = self.by_both.last(region.place * self.slots + slot);
        Some(row_at(&self.rows, newest.unwrap_or(first))?.row)
    }

    /// The pick for a waiter in a region in mode within.
    fn pick_within(&self, slot: usize, region: RowId, regions: &Regions) -> Option<RowId>
        ensures { self.now.isolation ≡ Isolation.Within
            → result ≡ pick self.now regions.now slot (Some region) }
    {
        let mut oldest = None;
        let mut newest = None;
        for position in self.all.iter(0) {
            if let Some(waiting) = row_at(&self.rows, position) {
                if regions.within(waiting.region, region) {
                    oldest = oldest.or(Some(waiting.row));
                    if waiting.made_on == Some(slot) {
                        newest = Some(waiting.row);
                    }
                }
            }
        }
        newest.or(oldest)
    }
}

/// The row that waits at a position.
fn row_at(rows: &Slab<Waiting>, position: usize) -> Option<&Waiting>
    ensures { option_copied result ≡ row_at rows.now.slots position }
{
    rows.get(position)
}

/// The position of the row of a handle, if it waits.
fn find(rows: &Slab<Waiting>, positions: &[usize], row: RowId) -> Option<usize>
    ensures { result ≡ find rows.now.slots positions.now row }
{
    let position = *positions.get(row.place)?;
    if rows.get(position)?.row != row {
        return None;
    }
    Some(position)
}

/// The place of a region.
fn place_of(region: Option<RowId>) -> Option<usize>
    ensures { result ≡ place_of region }
{
    Some(region?.place)
}

/// The number of the list of a slot and the place of a region; `None` if one of them is missing.
fn number_of(slots: usize, slot: Option<usize>, place: Option<usize>) -> Option<usize>
    requires slots { slots ≤ MAX_SLOTS }
    requires slot { ForSome slot (λ s. s < slots) }
    requires place { ForSome place (λ p. p < MAX_ROWS) }
    ensures { result ≡ number_of slots slot place }
{
    let (slot, place) = slot.zip(place)?;
    Some(place * slots + slot)
}
