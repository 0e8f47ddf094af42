// Whether two tenants are given the same.
ghost use Rattle.std.specs.Prelude.{◌≡◌, ◌↔◌, IsTrue};

use crate::names::is_same_name;
use job_language::Tenant;

/// Whether two tenants have the same name and are given the same.
pub fn is_same_tenant(tenant: &Tenant, other: &Tenant) -> bool
    ensures { IsTrue result ↔ (tenant.now ≡ other.now) }
{
    is_same_name(&tenant.name, &other.name)
        && tenant.priority == other.priority
        && tenant.isolation == other.isolation
        && tenant.slots == other.slots
        && tenant.reserved == other.reserved
        && tenant.rows == other.rows
        && tenant.steps == other.steps
}
