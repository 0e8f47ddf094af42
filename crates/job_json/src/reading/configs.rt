// Reading configurations.
ghost use Rattle.std.specs.Prelude.{◌≡◌, map, option_map};
ghost use Rattle.std.specs.Option.{ok_or};
ghost use Rattle.serde_json.specs.View.{view};
ghost use Rattle.job_json.specs.ConfigOf.{config_of, config_outline, config_members, tenants_of};
ghost use Rattle.job_json.specs.Reads.{Reads};

use super::tenants::read_tenant;
use crate::errors::{Place, Refused};
use crate::values::{has_members, items_of, number_in};
use job_language::{Config, MAX_WORKERS, TenantConfig};
use serde_json::Value;
use std::alloc::Global;

/// Reads a configuration. `Refused::Memory` comes only if an allocation failed.
pub fn read_config(alloc: Global, value: &Value) -> Result<Config, Refused>
    ensures { Reads (λ config. config) result (ok_or (config_of (view value.now)) Place.Head) }
{
    let Some((workers, tenants)) = config_outline(value) else {
        return Err(Refused::Bad { place: Place::Head });
    };
    let tenants = read_tenants(alloc, tenants)?;
    let Some(config) = Config::new(tenants, workers) else {
        return Err(Refused::Bad { place: Place::Head });
    };
    Ok(config)
}

fn config_outline(value: &Value) -> Option<(usize, &[Value])>
    ensures { option_map (λ o. (o.0, map view o.1.now)) result ≡ config_outline (view value.now) }
{
    if has_members(2, value) {
        config_members(value)
    } else {
        None
    }
}

fn config_members(value: &Value) -> Option<(usize, &[Value])>
    ensures { option_map (λ o. (o.0, map view o.1.now)) result ≡ config_members (view value.now) }
{
    let workers = number_in(1, MAX_WORKERS as u64, value.get("workers")?)? as usize;
    let tenants = items_of(value.get("tenants")?)?;
    Some((workers, tenants))
}

fn read_tenants(alloc: Global, values: &[Value]) -> Result<Vec<TenantConfig>, Refused>
    ensures { Reads (λ v. v.items) result (ok_or (tenants_of (map view values.now)) Place.Head) }
{
    let mut tenants = Vec::new(alloc);
    for value in values {
        tenants.push(read_tenant(value)?)?;
    }
    Ok(tenants)
}
