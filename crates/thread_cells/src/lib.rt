//! The cells of a tenant: at most one number for each key on each slot.
#![tactic(auto)]

mod tables;

pub use tables::{Cells, KEYS, SLOTS};
