// Parts that stand for a tenant that has done nothing yet.
ghost use Rattle.std.specs.Prelude.{◌≡◌, IfOk};
ghost use Rattle.tenant_model.specs.State.{empty};
ghost use Rattle.arena_rows.specs.Represents.{Rests};
ghost use Rattle.arena_rows.specs.Founding.{founded};

use crate::open_rows::OpenRows;
use crate::parts::Parts;
use job_language::TenantConfig;
use nest_stack::Nests;
use ready_pool::Pool;
use region_tag::Regions;
use std::alloc::{AllocError, Global};
use tenant_model::MAX_JOBS;
use thread_cells::Cells;

impl Parts {
    /// The parts of a tenant that has done nothing yet, with room for all that it may have at once.
    #[tactic(auto, using(crate::proofs::Founded::founded_rests))]
    pub fn new(alloc: Global, config: TenantConfig) -> Result<Parts, AllocError>
        ensures { IfOk result (λ parts. Rests parts (empty config)) }
    {
        Parts::found(alloc, config)
    }

    fn found(alloc: Global, config: TenantConfig) -> Result<Parts, AllocError>
        ensures { IfOk result (λ parts. parts ≡ founded config) }
    {
        let rows = config.tenant().rows;
        let slots = usize::from(config.tenant().slots);
        let isolation = config.tenant().isolation;
        let jobs = Vec::with_capacity(alloc, MAX_JOBS)?;
        let regions = Regions::new(alloc, rows)?;
        let pool = Pool::new(alloc, rows, slots, isolation)?;
        let nests = Nests::new(alloc, slots)?;
        let open = OpenRows::new(alloc, rows)?;
        Ok(Parts {
            config,
            rows: open,
            made: 0,
            jobs,
            made_jobs: 0,
            cells: Cells::new(),
            entries: 0,
            epoch: 0,
            regions,
            pool,
            nests,
        })
    }
}
