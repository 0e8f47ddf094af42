// What the market knows of the tenants.
ghost use Rattle.std.specs.Prelude.{◌≡◌, ◌+◌, ◌*◌, ◌<◌, ◌≤◌, length};
ghost use Rattle.market_config.specs.Config.{IsMarketConfig, level_in, room_at};

use job_language::Level;
use std::marker::Model;

/// What the market knows of a tenant.
#[derive(Clone, Copy, Debug, PartialEq, Eq)]
pub struct MarketTenant {
    /// The priority of its calls.
    pub level: Level,
    /// How many slots it has, at most 16.
    pub slots: u8,
    /// How many of them are reserved, from 0 to all of them: no worker is called to these.
    pub reserved: u8,
}

/// What the market knows of the tenants, numbered from 0, as many and with as many slots as a
/// configuration may have.
#[derive(Drop)]
pub struct MarketConfig {
    tenants: Vec<MarketTenant>,
}

impl Model for MarketConfig {
    ghost use Rattle.std.specs.Prelude.{List};
    ghost use Rattle.market_config.specs.declared.config.MarketTenant.{MarketTenant};
    ghost use Rattle.market_config.specs.Config.{IsMarketConfig};

    ghost Value = { List MarketTenant };

    ghost view = { λ c. c.tenants.items };

    ghost invariant = { λ c. IsMarketConfig c.tenants.items };
}

impl MarketConfig {
    /// The market's part of a configuration.
    pub fn new(tenants: Vec<MarketTenant>) -> MarketConfig
        requires { IsMarketConfig tenants.items }
        ensures { result ≡ tenants.items }
    {
        MarketConfig { tenants }
    }

    /// What is known of each tenant.
    pub fn tenants(&self) -> &[MarketTenant]
        ensures value { result.now ≡ self.now }
        ensures valid { IsMarketConfig self.now }
    {
        self.tenants.as_slice()
    }

    /// The level of a tenant's calls.
    pub fn level(&self, tenant: usize) -> Level
        requires { tenant < length self.now }
        ensures { result ≡ level_in self.now tenant }
    {
        self.tenants[tenant].level
    }

    /// How many calls a level holds.
    pub fn room(&self, level: Level) -> usize
        ensures room { result ≡ room_at self.now level }
        ensures some { 0 < result }
        ensures few { result ≤ 1024 }
    {
        let mut slots: usize = 0;
        for tenant in &self.tenants {
            if tenant.level == level {
                slots += usize::from(tenant.slots - tenant.reserved);
            }
        }
        slots.max(1)
    }
}
