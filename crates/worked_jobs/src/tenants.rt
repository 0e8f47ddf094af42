// Tenants of a few slots, and the jobs that tests give them.

use job_json::read_job;
use job_language::{Isolation, Job, Level, Tenant, TenantConfig, TenantName};
use serde_json::Value;
use std::alloc::Global;
use std::test::Fail;

/// The sixth Fibonacci number, a task for each smaller one.
pub const FIB_OF_SIX: &str =
    r#"{"args":[6,0],"fuel":1000,"procs":[[["set",2,2],["lt",3,0,2],["jz",3,4],["ret",0],["set",2,1],["sub",3,0,2],["spawn",0,0,3,1],["sub",3,3,2],["spawn",0,0,3,1],["wait",4,5,0],["ret",4]]]}"#;

/// A tenant of that name, with these slots, of which `reserved` are reserved, and room for `steps` entries. None if
/// that is no tenant.
pub fn tenant(name: &str, slots: u8, reserved: u8, steps: usize) -> Option<TenantConfig> {
    TenantConfig::new(Tenant {
        name: TenantName::new(name)?,
        priority: Level::Normal,
        isolation: Isolation::Exact,
        slots,
        reserved,
        rows: 200,
        steps,
    })
}

/// The job that a text spells.
pub fn job_of(alloc: Global, text: &str) -> Result<Job, Fail> {
    let value = Value::from_str(alloc, text)?;
    Ok(read_job(alloc, &value)?)
}
