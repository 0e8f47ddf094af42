// The names of tenants.
ghost use Rattle.std.specs.Prelude.{◌≡◌, IfOk};
ghost use Rattle.job_language.specs.Configuration.{names_of};

use job_language::{TenantConfig, TenantName};
use std::alloc::{AllocError, Global};

/// The names of tenants, in order. It fails only if an allocation failed.
pub fn names_of(alloc: Global, tenants: &[TenantConfig]) -> Result<Vec<TenantName>, AllocError>
    ensures { IfOk result (λ names. names.items ≡ names_of tenants.now) }
{
    let mut names = Vec::with_capacity(alloc, tenants.len())?;
    for tenant in tenants {
        names.push(tenant.tenant().name)?;
    }
    Ok(names)
}
