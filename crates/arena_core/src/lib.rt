//! The arena of one tenant: its steps, answered as the definitions do at a cost that does not grow.
#![tactic(auto)]

mod arena;
mod asks;
mod views;

pub use arena::Arena;
