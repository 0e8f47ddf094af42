// The parts of an arena, and what they answer.
ghost use Rattle.std.specs.Prelude.{◌≡◌, ◌<◌, length, nat_le, option_and_then};
ghost use Rattle.std.specs.Option.{option_copied};
ghost use Rattle.nest_stack.specs.Nest.{stack, top};
ghost use Rattle.region_tag.specs.Region.{region_of};

use crate::open_rows::OpenRows;
use crate::rows::CurrentJob;
use job_language::{Tenant, TenantConfig};
use nest_stack::{Nested, Nests};
use ready_pool::Pool;
use region_tag::{Regions, RowId};
use std::marker::Model;
use thread_cells::Cells;

/// What an arena is made of: its open rows by their places, and the leaves that say what they may do.
pub struct Parts {
    pub(crate) config: TenantConfig,
    /// The open rows by their places, and the contexts.
    pub(crate) rows: OpenRows,
    /// How many rows were made.
    pub(crate) made: u64,
    /// The jobs that are neither retired nor released, in the order of their numbers.
    pub(crate) jobs: Vec<CurrentJob>,
    /// How many jobs were made.
    pub(crate) made_jobs: u64,
    pub(crate) cells: Cells,
    pub(crate) entries: usize,
    pub(crate) epoch: u64,
    pub(crate) regions: Regions,
    pub(crate) pool: Pool,
    pub(crate) nests: Nests,
}

impl Drop for Parts {
    // An owner drops it in one call, not part by part at each of its ways out.
    fn drop(self) {
        let Parts {
            config: _config,
            rows: _rows,
            made: _made,
            jobs: _jobs,
            made_jobs: _made_jobs,
            cells: _cells,
            entries: _entries,
            epoch: _epoch,
            regions: _regions,
            pool: _pool,
            nests: _nests,
        } = self;
    }
}

impl Model for Parts {
    ghost use Rattle.arena_rows.specs.Held.{Held, shown, IsRoomy};

    ghost Value = { Held };

    ghost view = { shown };

    ghost invariant = { IsRoomy };
}

impl Parts {
    ghost use Rattle.job_language.specs.Tenant.{IsValidTenant};
    ghost use Rattle.arena_rows.specs.HeldChanges.{picked};

    /// What the tenant is given.
    pub fn config(&self) -> &Tenant
        ensures value { result.now ≡ self.now.config }
        ensures valid { IsValidTenant self.now.config }
    {
        self.config.tenant()
    }

    /// Whether no step may be an entry any more.
    pub fn is_full(&self) -> bool
        ensures { result ≡ nat_le self.now.config.steps self.now.entries }
    {
        self.config.tenant().steps <= self.entries
    }

    /// How many rows are on a slot.
    pub fn height(&self, slot: u8) -> usize
        requires { slot < length self.now.nests }
        ensures { result ≡ length (stack self.now.nests slot) }
    {
        self.nests.height(usize::from(slot))
    }

    /// The topmost row of a slot.
    pub fn top(&self, slot: u8) -> Option<&Nested>
        requires { slot < length self.now.nests }
        ensures { option_copied result ≡ top (stack self.now.nests slot) }
    {
        self.nests.top(usize::from(slot))
    }

    /// The region of a slot's topmost row.
    fn region_on(&self, slot: u8) -> Option<RowId>
        requires { slot < length self.now.nests }
        ensures { result ≡ option_and_then
            (λ n. region_of self.now.regions n.row) (top (stack self.now.nests slot)) }
    {
        let top = self.nests.top(usize::from(slot))?;
        self.regions.region_of(top.row)
    }

    /// The row that a slot takes next.
    pub fn pick(&self, slot: u8) -> Option<RowId>
        requires slot { slot < length self.now.nests }
        requires slots { slot < self.now.pool.slots }
        ensures { result ≡ picked self.now slot }
    {
        let region = self.region_on(slot);
        self.pool.pick(usize::from(slot), region, &self.regions)
    }
}
