//! Advances of a slot: private runs, payments, shared instructions and picks, for every state that
//! the parts of an arena stand for.
#![tactic(auto)]

mod advances;
mod arrivals;
mod execution;
mod makes;
mod returns;
mod runs;
mod steps;

pub use advances::{advance, advance_within, commit_within, is_idle};
pub use arrivals::arrive_within;
