//! A tenant taken from its history, and finished.
#![tactic(auto)]

mod finishing;
mod recovering;

pub use finishing::finish_tenant;
pub use recovering::{Recovered, recover_tenant};
