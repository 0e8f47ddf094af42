// The arenas and the market of a world that has taken no step yet.
ghost use Rattle.std.specs.Prelude.{◌≡◌, ◌<◌, ℕ, length, map, slice_index_or, IfOk};
ghost use Rattle.tenant_model.specs.State.{empty};
ghost use Rattle.world_model.specs.World.{start, no_tenant};

use crate::arenas::TenantArena;
use job_language::Config;
use market::MarketState;
use market_config::market_config;
use std::alloc::{AllocError, Global};

/// An arena of each tenant, numbered from 0.
pub(crate) fn first_arenas<A: TenantArena>(
    alloc: Global,
    config: &Config,
) -> Result<Vec<A>, AllocError>
    ensures long { IfOk result (λ arenas. length arenas.items ≡ length config.now.tenants) }
    ensures each { IfOk result (λ arenas. (t : ℕ) (d : A) → t < length arenas.items
        → A.stands_for (slice_index_or arenas.items t d)
        (empty (slice_index_or config.now.tenants t no_tenant))) }
{
    let tenants = config.tenants();
    let mut arenas = Vec::with_capacity(alloc, tenants.len())?;
    for tenant in tenants {
        arenas.push(A::new(alloc, *tenant)?)?;
    }
    Ok(arenas)
}

/// The market in which nothing was done yet.
pub(crate) fn first_market(alloc: Global, config: &Config) -> Result<MarketState, AllocError>
    ensures { IfOk result (λ m. m ≡ (start config.now).market) }
{
    let told = market_config(alloc, config)?;
    MarketState::new(alloc, &told, config.workers())
}
