// What the market has to know of a configuration.
ghost use Rattle.std.specs.Prelude.{◌≡◌, map, IfOk};
ghost use Rattle.market_config.specs.Told.{market_tenant};

use crate::config::{MarketConfig, MarketTenant};
use job_language::Config;
use std::alloc::{AllocError, Global};

/// What the market knows of the tenants of a configuration.
pub fn market_config(alloc: Global, config: &Config) -> Result<MarketConfig, AllocError>
    ensures { IfOk result (λ m. m ≡ map market_tenant config.now.tenants) }
{
    let tenants = config.tenants();
    let mut told = Vec::with_capacity(alloc, tenants.len())?;
    for tenant in tenants {
        let tenant = tenant.tenant();
        told.push(MarketTenant {
            level: tenant.priority,
            slots: tenant.slots,
            reserved: tenant.reserved,
        })?;
    }
    Ok(MarketConfig::new(told))
}
