//! Jobs, tenants and configurations as JSON values: reading and writing them.
#![tactic(auto)]

mod canonical;
mod errors;
mod operations;
mod reading;
pub mod values;
mod writing;

pub use canonical::{read_canonical_job, reads_back};
pub use errors::{Place, Refused};
pub use reading::{read_config, read_job, read_tenant};
pub use writing::{write_job, write_tenant};
