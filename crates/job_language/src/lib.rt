//! The language of jobs: instructions, programs, tenants, and what is asked and answered.
#![tactic(auto)]

mod answers;
mod configs;
mod errors;
mod instructions;
mod jobs;
mod limits;
mod names;
mod programs;
mod requests;
mod serials;
mod steps;
mod tenants;

pub use answers::{Answer, Came, Moved, Reply, Status};
pub use configs::{Config, MAX_TENANTS, MAX_WORKERS};
pub use errors::{Error, JobFault};
pub use instructions::{GROUPS, Group, Instr, KEYS, Key, REGISTERS, Register};
pub use jobs::{Fuel, Job, MAX_FUEL};
pub use names::{MAX_NAME, TenantName};
pub use programs::{MAX_INSTRS, MAX_PROCS, Proc, Program};
pub use requests::Request;
pub use steps::{Entry, Step};
pub use tenants::{Isolation, Level, MAX_ROWS, MAX_SLOTS, MAX_STEPS, Tenant, TenantConfig};
