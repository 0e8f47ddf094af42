// Reading tenants.
ghost use Rattle.std.specs.Prelude.{◌≡◌, option_map, Some};
ghost use Rattle.std.specs.Option.{ok_or, option_map_or};
ghost use Rattle.serde_json.specs.View.{view};
ghost use Rattle.job_json.specs.Json.{get_as, number_in};
ghost use Rattle.job_language.specs.declared.tenants.Isolation.TheVariants.{Exact};
ghost use Rattle.job_json.specs.TenantOf.{name_of, level_of, isolation_of, tenant_of, tenant_of_members};

use crate::errors::{Place, Refused};
use crate::values::{has_members, number_in};
use job_language::{
    Isolation, Level, MAX_ROWS, MAX_SLOTS, MAX_STEPS, Tenant, TenantConfig, TenantName,
};
use serde_json::Value;

/// Reads a tenant. It takes no memory.
pub fn read_tenant(value: &Value) -> Result<TenantConfig, Refused>
    ensures { result ≡ ok_or (tenant_of (view value.now)) (Refused.Bad Place.Head) }
{
    tenant_of(value).ok_or(Refused::Bad { place: Place::Head })
}

fn tenant_of(value: &Value) -> Option<TenantConfig>
    ensures { result ≡ tenant_of (view value.now) }
{
    let isolation = value.get("isolation");
    let members = if isolation.is_some() { 7 } else { 6 };
    if has_members(members, value) {
        tenant_of_members(value)
    } else {
        None
    }
}

fn tenant_of_members(value: &Value) -> Option<TenantConfig>
    ensures { result ≡ tenant_of_members (view value.now) }
{
    let slots = number_at(value, "slots", 1, u64::from(MAX_SLOTS))?;
    TenantConfig::new(Tenant {
        name: name_of(value.get("name")?)?,
        priority: level_of(value.get("priority")?)?,
        isolation: isolation_or_exact(value.get("isolation"))?,
        slots: slots as u8,
        reserved: number_at(value, "reserved", 0, slots)? as u8,
        rows: number_at(value, "rows", 1, MAX_ROWS as u64)? as usize,
        steps: number_at(value, "steps", 1, MAX_STEPS as u64)? as usize,
    })
}

/// The number from `least` to `most` of a member.
fn number_at(value: &Value, key: &str, least: u64, most: u64) -> Option<u64>
    ensures { result ≡ get_as key.now (number_in least most) (view value.now) }
{
    number_in(least, most, value.get(key)?)
}

fn name_of(value: &Value) -> Option<TenantName>
    ensures { result ≡ name_of (view value.now) }
{
    TenantName::new(value.as_str()?)
}

fn level_of(value: &Value) -> Option<Level>
    ensures { result ≡ level_of (view value.now) }
{
    Level::named(value.as_str()?)
}

fn isolation_of(value: &Value) -> Option<Isolation>
    ensures { result ≡ isolation_of (view value.now) }
{
    Isolation::named(value.as_str()?)
}

fn isolation_or_exact(value: Option<&Value>) -> Option<Isolation>
    ensures { result ≡ option_map_or isolation_of (option_map (λ v. view v.now) value.entry)
        (Some Exact) }
{
    match value {
        Some(value) => isolation_of(value),
        None => Some(Isolation::Exact),
    }
}
