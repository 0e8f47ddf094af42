// The tenants, and the jobs that they run.
use crate::stops::Stop;
use crate::tenants::{Size, job_of, tenant};
use job_language::{Job, TenantConfig};
use std::alloc::Global;
use worked_jobs::JobText;

/// How many rows a tenant may have open.
const ROWS: usize = 200;

/// A tenant with these slots, of which `reserved` are reserved, whose history may have `steps` entries.
pub(crate) fn with_slots(slots: u8, reserved: u8, steps: usize) -> Result<TenantConfig, Stop> {
    let size = Size {
        slots,
        reserved,
        rows: ROWS,
        steps,
    };
    tenant("acme", size)
}

/// The job of that text.
pub(crate) fn worked_job(alloc: Global, job: JobText) -> Result<Job, Stop> {
    let mut text = String::new(alloc);
    job.write(&mut text)?;
    job_of(alloc, text.as_str())
}
