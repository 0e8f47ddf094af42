// Tenants, and the jobs that they run.
use crate::stops::Stop;
use job_json::read_job;
use job_language::{Isolation, Job, Level, Reply, Status, Tenant, TenantConfig, TenantName};
use serde_json::Value;
use std::alloc::Global;

/// How many slots a tenant has, and how much it may hold.
#[derive(Clone, Copy)]
pub(crate) struct Size {
    pub(crate) slots: u8,
    /// The reserved slots.
    pub(crate) reserved: u8,
    pub(crate) rows: usize,
    pub(crate) steps: usize,
}

/// A tenant of that name and size.
pub(crate) fn tenant(name: &str, size: Size) -> Result<TenantConfig, Stop> {
    let name = TenantName::new(name).ok_or(Stop::Invalid)?;
    let tenant = Tenant {
        name,
        priority: Level::Normal,
        isolation: Isolation::Exact,
        slots: size.slots,
        reserved: size.reserved,
        rows: size.rows,
        steps: size.steps,
    };
    TenantConfig::new(tenant).ok_or(Stop::Invalid)
}

/// The job that a text spells.
pub(crate) fn job_of(alloc: Global, text: &str) -> Result<Job, Stop> {
    match Value::from_str(alloc, text) {
        Ok(value) => read_job(alloc, &value).map_err(|_| Stop::Invalid),
        Err(_) => Err(Stop::Invalid),
    }
}

/// The value of a job that completed, by the reply to its collection.
pub(crate) fn value_of(reply: Reply) -> Result<i64, Stop> {
    match reply {
        Reply::Job(_, Status::Complete(value)) => Ok(value),
        _ => Err(Stop::Outcome),
    }
}
