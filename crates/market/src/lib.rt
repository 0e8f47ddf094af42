//! The market between tenants and workers as plain lists: which slots call for a worker, which
//! calls wait, and where each worker is.
#![tactic(auto)]

mod slots;
mod state;
mod waiting;

pub use market_config::{MarketConfig, MarketTenant};
pub use state::MarketState;
