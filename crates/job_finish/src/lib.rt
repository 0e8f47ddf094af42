//! Finishing a tenant's jobs by advances alone, and the law that says what is done then.
#![tactic(auto)]

mod finishing;
mod laws;

pub use finishing::finish;
pub use laws::quiet_tenants_are_done;
