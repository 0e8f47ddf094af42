// `region_tag`: a row is entered, its region is read, and it exits again.
ghost use Rattle.std.specs.Prelude.{◌≡◌, ◌+◌, ◌<◌, IfOk, IsNone, None, Some, false, length, slice_index_or, slice_set};
ghost use Rattle.region_tag.specs.Region.{IsEntered, tagged};

use crate::leaves::rounds::Rounds;
use crate::leaves::rows::{Rows, row_at, row_of_round};
use region_tag::{Regions, RowId};
use std::alloc::{AllocError, Global};
use std::marker::Model;

/// Rows that are entered: a region, and the rows that were made in it.
#[derive(Drop)]
pub(crate) struct EnteredRows {
    regions: Regions,
    region: RowId,
    /// The place that is left for the row of a round.
    free: usize,
}

impl Model for EnteredRows {
    ghost use Rattle.benchmarks.specs.Entered.{EnteredSeen, AreEntered};

    ghost Value = { EnteredSeen };

    ghost view = { λ e. record { regions = e.regions; region = e.region; free = e.free } };

    ghost invariant = { λ e. AreEntered
        (record { regions = e.regions; region = e.region; free = e.free }) };
}

impl EnteredRows {
    /// These rows but one, which a round enters.
    pub(crate) fn new(alloc: Global, rows: Rows) -> Result<EnteredRows, AllocError>
        ensures { IfOk result (λ entered. entered.free + 1 ≡ rows) }
    {
        let free = rows.number() - 1;
        let region = row_at(0);
        let mut regions = Regions::new(alloc, rows.number())?;
        regions.enter(region, None, true);
        for place in 1..free {
            regions.enter(row_at(place), Some(region), false);
        }
        Ok(EnteredRows {
            regions,
            region,
            free,
        })
    }
}

impl Rounds for EnteredRows {
    const CALLS: u8 = 3;

    fn round(&mut self, number: u32) -> u64 {
        let row = row_of_round(number, self.free);
        enter(&mut self.regions, row, self.region);
        let region = region_of(&self.regions, row);
        exit(&mut self.regions, row);
        region.map_or(0, |region| region.number)
    }
}

// The calls of a round. None is inlined, or a compiler would leave out what a later one undoes.

/// Enters a row that was made in a region.
#[inline(never)]
fn enter(regions: &mut Regions, row: RowId, region: RowId)
    requires place { row.place < length regions.old }
    requires free { IsNone (slice_index_or regions.old row.place None) }
    requires earlier { region.number < row.number }
    ensures { regions.new ≡ slice_set regions.old row.place
        (Some (tagged row (Some region) false)) }
{
    regions.enter(row, Some(region), false);
}

#[inline(never)]
fn region_of(regions: &Regions, row: RowId) -> Option<RowId> {
    regions.region_of(row)
}

#[inline(never)]
fn exit(regions: &mut Regions, row: RowId)
    requires { IsEntered regions.old row }
    ensures { regions.new ≡ slice_set regions.old row.place None }
{
    regions.exit(row);
}
