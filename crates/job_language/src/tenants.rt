// Tenants: what each is given.
ghost use Rattle.std.specs.Prelude.{◌≡◌, if◌then◌else◌, Some, None};
ghost use Rattle.job_language.specs.TenantWords.{level_word, level_named, isolation_word, isolation_named};

use crate::names::TenantName;
use std::marker::Model;

/// How many slots an arena may have; it has at least one.
pub const MAX_SLOTS: u8 = 16;

/// How many open rows a tenant may be allowed; it is allowed at least one.
pub const MAX_ROWS: usize = 4_096;

/// How many entries a tenant's history may be allowed; it is allowed at least one.
pub const MAX_STEPS: usize = 1_048_576;

/// The priority of an arena: calls of a higher level are handed to workers first.
#[derive(Clone, Copy, Debug, PartialEq, Eq)]
pub enum Level {
    High,
    Normal,
    Low,
}

impl Level {
    /// The level of that word.
    pub fn named(word: &str) -> Option<Level>
        ensures { result ≡ level_named word.now }
    {
        match word {
            "high" => Some(Level::High),
            "normal" => Some(Level::Normal),
            "low" => Some(Level::Low),
            _ => None,
        }
    }

    /// Its word.
    pub fn word(self) -> &'static str
        ensures { result.now ≡ level_word self }
    {
        match self {
            Level::High => "high",
            Level::Normal => "normal",
            Level::Low => "low",
        }
    }
}

/// Which rows a slot may take while its topmost row is in a region.
#[derive(Clone, Copy, Debug, PartialEq, Eq)]
pub enum Isolation {
    /// Rows of exactly that region.
    Exact,
    /// Rows of that region and of the regions inside it.
    Within,
}

impl Isolation {
    /// The mode of that word.
    pub fn named(word: &str) -> Option<Isolation>
        ensures { result ≡ isolation_named word.now }
    {
        match word {
            "exact" => Some(Isolation::Exact),
            "within" => Some(Isolation::Within),
            _ => None,
        }
    }

    /// Its word.
    pub fn word(self) -> &'static str
        ensures { result.now ≡ isolation_word self }
    {
        match self {
            Isolation::Exact => "exact",
            Isolation::Within => "within",
        }
    }
}

/// What a tenant is given.
#[derive(Clone, Copy, Debug, PartialEq, Eq)]
pub struct Tenant {
    pub name: TenantName,
    pub priority: Level,
    pub isolation: Isolation,
    /// The arena's concurrency level, from 1 to 16.
    pub slots: u8,
    /// How many of the slots are reserved, from 0 to all of them: no worker comes to these.
    pub reserved: u8,
    /// How many rows may be open at once, from 1 to 4,096.
    pub rows: usize,
    /// How many entries the history may have, from 1 to 1,048,576.
    pub steps: usize,
}

/// What a tenant is given, in range by its type.
#[derive(Clone, Copy, Debug)]
pub struct TenantConfig {
    tenant: Tenant,
}

impl Model for TenantConfig {
    ghost use Rattle.job_language.specs.declared.tenants.Tenant.{Tenant};

    ghost Value = { Tenant };

    ghost use Rattle.job_language.specs.Tenant.{IsValidTenant};

    ghost view = { λ c. c.tenant };

    ghost invariant = { λ c. IsValidTenant c.tenant };

    ghost inverse = { λ t. record { tenant = t } };
}

impl TenantConfig {
    ghost use Rattle.job_language.specs.Tenant.{is_valid_tenant, IsValidTenant};

    /// The configuration, if each number is in its range.
    pub fn new(tenant: Tenant) -> Option<TenantConfig>
        ensures { result ≡ (if is_valid_tenant tenant then Some tenant else None) }
    {
        // Proof hint: the name is valid by its type.
        let _ = tenant.name.as_bytes();
        let valid = 1 <= tenant.slots
            && tenant.slots <= MAX_SLOTS
            && tenant.reserved <= tenant.slots
            && 1 <= tenant.rows
            && tenant.rows <= MAX_ROWS
            && 1 <= tenant.steps
            && tenant.steps <= MAX_STEPS;
        if valid {
            Some(TenantConfig { tenant })
        } else {
            None
        }
    }

    /// What is configured.
    pub fn tenant(&self) -> &Tenant
        ensures value { result.now ≡ self.now }
        ensures valid { IsValidTenant self.now }
    {
        &self.tenant
    }
}
