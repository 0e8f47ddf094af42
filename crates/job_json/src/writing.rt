// Writing jobs and tenants as JSON values.
mod instructions;
mod jobs;
mod tenants;

pub use jobs::write_job;
pub use tenants::write_tenant;
