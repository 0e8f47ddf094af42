// Writing tenants.
ghost use Rattle.std.specs.Prelude.{◌≡◌, Some, true, IfOk, OnOk};
ghost use Rattle.serde_json.specs.View.{view};
ghost use Rattle.job_language.specs.Name.{is_name};
ghost use Rattle.job_json.specs.TenantData.{tenant_data};
ghost use Rattle.job_json.specs.TenantOf.{tenant_of};

use job_language::{Isolation, Tenant, TenantConfig};
use serde_json::{Value, json};
use std::alloc::{AllocError, Global};

/// The tenant as JSON. A tenant in mode exact is written without the mode.
pub fn write_tenant(alloc: Global, config: &TenantConfig) -> Result<Value, AllocError>
    ensures value { IfOk result (λ v. view v ≡ tenant_data config.now) }
    ensures reads_back { IfOk result (λ v. tenant_of (view v) ≡ Some config.now) }
{
    let value = write_members(alloc, config.tenant())?;
    Ok(value)
}

fn write_members(alloc: Global, tenant: &Tenant) -> Result<Value, AllocError>
    ensures value { IfOk result (λ v. view v ≡ tenant_data tenant.now) }
    ensures named { OnOk result (is_name tenant.now.name ≡ true) }
{
    let name = tenant.name.as_str();
    let priority = tenant.priority.word();
    match tenant.isolation {
        Isolation::Exact => json!(in alloc; {
            "name": name,
            "priority": priority,
            "reserved": tenant.reserved,
            "rows": tenant.rows,
            "slots": tenant.slots,
            "steps": tenant.steps
        }),
        Isolation::Within => json!(in alloc; {
            "name": name,
            "priority": priority,
            "reserved": tenant.reserved,
            "rows": tenant.rows,
            "slots": tenant.slots,
            "steps": tenant.steps,
            "isolation": "within"
        }),
    }
}
