//! What a configuration tells those who work by it: the names and levels of tenants, and calls for workers.
#![tactic(auto)]

mod calls;
mod config;
mod names;
mod telling;

pub use calls::Call;
pub use config::{MarketConfig, MarketTenant};
pub use names::names_of;
pub use telling::market_config;
