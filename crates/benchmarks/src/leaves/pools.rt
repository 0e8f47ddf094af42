// `ready_pool`: a row more waits, a slot picks, and the row is removed again.
ghost use Rattle.std.specs.Prelude.{◌≡◌, ◌≢◌, ◌+◌, ◌<◌, All, IfOk, Some, length};
ghost use Rattle.ready_pool.specs.Ready.{IsRegionEntered, with_row, without};

use crate::leaves::rounds::Rounds;
use crate::leaves::rows::{Rows, row_at, row_of_round};
use job_language::{Isolation, MAX_SLOTS};
use ready_pool::Pool;
use region_tag::{Regions, RowId};
use std::alloc::{AllocError, Global};
use std::marker::Model;

/// The slot on which all rows were made, and which picks.
const SLOT: usize = 0;

/// Rows that wait, in mode exact.
#[derive(Drop)]
pub(crate) struct WaitingRows {
    pool: Pool,
    regions: Regions,
    /// The region that they are in, and for which the slot picks.
    region: Option<RowId>,
    /// The place that is left for the row of a round.
    free: usize,
}

impl Model for WaitingRows {
    ghost use Rattle.benchmarks.specs.Waiting.{WaitingSeen, AreWaiting};

    ghost Value = { WaitingSeen };

    ghost view = { λ w. record {
      pool = w.pool;
      regions = w.regions;
      region = w.region;
      free = w.free;
    } };

    ghost invariant = { λ w. AreWaiting
        (record { pool = w.pool; regions = w.regions; region = w.region; free = w.free }) };
}

impl WaitingRows {
    /// These rows but one, which a round puts, outside all regions.
    pub(crate) fn outside(alloc: Global, rows: Rows) -> Result<WaitingRows, AllocError>
        ensures { IfOk result (λ waiting. length waiting.pool.rows + 1 ≡ rows) }
    {
        let regions = Regions::new(alloc, rows.number())?;
        WaitingRows::new(alloc, rows, regions, None, 0)
    }

    /// These rows but one, which a round puts: the first is a region, and the others wait in it.
    pub(crate) fn in_region(alloc: Global, rows: Rows) -> Result<WaitingRows, AllocError>
        ensures { IfOk result (λ waiting. length waiting.pool.rows + 2 ≡ rows) }
    {
        let mut regions = Regions::new(alloc, rows.number())?;
        let region = row_at(0);
        regions.enter(region, None, true);
        WaitingRows::new(alloc, rows, regions, Some(region), 1)
    }

    /// Rows that wait from a place on.
    fn new(
        alloc: Global,
        rows: Rows,
        regions: Regions,
        region: Option<RowId>,
        first: usize,
    ) -> Result<WaitingRows, AllocError>
        requires first { first < rows }
        requires places { length regions ≡ rows }
        requires region { IsRegionEntered regions region }
        ensures { IfOk result (λ waiting. length waiting.pool.rows + first + 1 ≡ rows) }
    {
        let slots = usize::from(MAX_SLOTS);
        let mut pool = Pool::new(alloc, rows.number(), slots, Isolation::Exact)?;
        let free = rows.number() - 1;
        for place in first..free {
            pool.put(row_at(place), Some(SLOT), region, &regions);
        }
        Ok(WaitingRows {
            pool,
            regions,
            region,
            free,
        })
    }
}

impl Rounds for WaitingRows {
    const CALLS: u8 = 3;

    fn round(&mut self, number: u32) -> u64 {
        let row = row_of_round(number, self.free);
        put(&mut self.pool, row, self.region, &self.regions);
        let picked = pick(&self.pool, self.region, &self.regions);
        let was_there = remove(&mut self.pool, row, &self.regions);
        picked
            .map_or(0, |row| row.number)
            .wrapping_add(u64::from(was_there))
    }
}

// The calls of a round. None is inlined, or a compiler would leave out what a later one undoes.

/// Puts a row that was made on the slot.
#[inline(never)]
fn put(pool: &mut Pool, row: RowId, region: Option<RowId>, regions: &Regions)
    requires room { length pool.old.rows < pool.old.limit }
    requires newest { All (λ w. w.row.number < row.number) pool.old.rows }
    requires place { row.place < pool.old.limit }
    requires free { All (λ w. w.row.place ≢ row.place) pool.old.rows }
    requires slot { SLOT < pool.old.slots }
    requires places { length regions.now ≡ pool.old.limit }
    requires region { IsRegionEntered regions.now region }
    requires regions { All (λ w. IsRegionEntered regions.now w.region) pool.old.rows }
    ensures { pool.new ≡ with_row pool.old
        (record { row = row; made_on = Some SLOT; region = region }) }
{
    pool.put(row, Some(SLOT), region, regions);
}

/// What the slot picks.
#[inline(never)]
fn pick(pool: &Pool, region: Option<RowId>, regions: &Regions) -> Option<RowId>
    requires { SLOT < pool.now.slots }
{
    pool.pick(SLOT, region, regions)
}

#[inline(never)]
fn remove(pool: &mut Pool, row: RowId, regions: &Regions) -> bool
    ensures { pool.new ≡ without pool.old row }
{
    pool.remove(row, regions)
}
