//! The rows that wait to be started, and which of them a slot takes next.
#![tactic(auto)]

mod families;
mod pool;

pub use pool::{Pool, Waiting};
