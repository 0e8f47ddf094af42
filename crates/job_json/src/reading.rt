// Reading JSON values as jobs, tenants and configurations.
mod configs;
mod instructions;
mod jobs;
mod tenants;

pub use configs::read_config;
pub use jobs::read_job;
pub use tenants::read_tenant;
