// A tenant for a source that is run alone.
ghost use Rattle.std.specs.Prelude.{◌≡◌};

use job_language::{Isolation, Level, MAX_ROWS, MAX_STEPS, Tenant, TenantConfig, TenantName};

/// A tenant of one slot, which is reserved, with as many rows and steps as a tenant may have.
pub fn lone_tenant() -> TenantConfig
    ensures slots { result.slots ≡ 1 }
    ensures reserved { result.reserved ≡ 1 }
    ensures rows { result.rows ≡ MAX_ROWS }
    ensures steps { result.steps ≡ MAX_STEPS }
{
    TenantConfig::new(Tenant {
        name: TenantName::new("lone").unwrap(),
        priority: Level::Normal,
        isolation: Isolation::Exact,
        slots: 1,
        reserved: 1,
        rows: MAX_ROWS,
        steps: MAX_STEPS,
    })
    .unwrap()
}
