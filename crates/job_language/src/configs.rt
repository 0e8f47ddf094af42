// Configurations: the tenants that are served, and how many threads work for them.
ghost use Rattle.std.specs.Prelude.{◌≡◌, map, if◌then◌else◌, Some, None, IfSome, ◌≤◌, ◌&&◌, nat_le, length, All};
ghost use Rattle.std.specs.Bool.{OnTrue};
ghost use Rattle.std.specs.List.{list_any};
ghost use Rattle.std.specs.Str.{bytes_eq};
ghost use Rattle.job_language.specs.Tenant.{IsValidTenant};
ghost use Rattle.job_language.specs.Configuration.{are_distinct, is_valid_config, IsValidConfig, names_of};

use crate::tenants::TenantConfig;
use std::marker::Model;

/// How many tenants a configuration may have; it has at least one.
pub const MAX_TENANTS: usize = 64;

/// How many worker threads a configuration may have; it has at least one.
pub const MAX_WORKERS: usize = 32;

/// The tenants, numbered from 0, and the number of worker threads, valid by its type: no two
/// tenants have one name.
#[derive(Drop)]
pub struct Config {
    tenants: Vec<TenantConfig>,
    workers: usize,
}

impl Model for Config {
    ghost use Rattle.job_language.specs.Configuration.{Configuration, IsValidConfig};

    ghost Value = { Configuration };

    ghost view = { λ c. record { tenants = c.tenants.items; workers = c.workers } };

    ghost invariant = { λ c. IsValidConfig
        (record { tenants = c.tenants.items; workers = c.workers }) };
}

impl Config {
    /// The configuration of these tenants and this number of worker threads, if they make one.
    pub fn new(tenants: Vec<TenantConfig>, workers: usize) -> Option<Config>
        ensures { result
            ≡ (if is_valid_config (record { tenants = tenants.items; workers = workers })
            then Some (record { tenants = tenants.items; workers = workers }) else None) }
    {
        if is_valid(tenants.as_slice(), workers) {
            Some(Config { tenants, workers })
        } else {
            None
        }
    }

    /// Its tenants, in order.
    pub fn tenants(&self) -> &[TenantConfig]
        ensures value { result.now ≡ self.now.tenants }
        ensures valid { IsValidConfig self.now }
    {
        self.tenants.as_slice()
    }

    /// How many threads work for all tenants.
    pub fn workers(&self) -> usize
        ensures value { result ≡ self.now.workers }
        ensures valid { IsValidConfig self.now }
    {
        self.workers
    }
}

fn is_valid(tenants: &[TenantConfig], workers: usize) -> bool
    ensures value { result ≡ is_valid_config (record { tenants = tenants.now; workers = workers }) }
    ensures each { OnTrue result (All IsValidTenant tenants.now) }
{
    !tenants.is_empty()
        && tenants.len() <= MAX_TENANTS
        && 1 <= workers
        && workers <= MAX_WORKERS
        && are_distinct(tenants)
}

/// Whether no two tenants have one name.
fn are_distinct(tenants: &[TenantConfig]) -> bool
    ensures value { result ≡ are_distinct (names_of tenants.now) }
    ensures each { OnTrue result (All IsValidTenant tenants.now) }
{
    for (i, tenant) in tenants.iter().enumerate() {
        let later = &tenants[i + 1..];
        let tenant = tenant.tenant();
        if is_named(tenant.name.as_bytes(), later) {
            return false;
        }
    }
    true
}

/// Whether one of the tenants has that name.
fn is_named(name: &[u8], tenants: &[TenantConfig]) -> bool
    ensures { result ≡ list_any (bytes_eq name.now) (names_of tenants.now) }
{
    for tenant in tenants {
        if name == tenant.tenant().name.as_bytes() {
            return true;
        }
    }
    false
}
