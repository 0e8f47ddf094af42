//! The stack of each slot: the rows that are live on it, one above the other.
#![tactic(auto)]

mod nests;
mod stack;

pub use nests::Nests;
pub use stack::{MAX_HEIGHT, Nested};
