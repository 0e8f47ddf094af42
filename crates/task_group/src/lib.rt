//! The task groups of one frame: how many rows of each are pending, and what those that are done
//! have given.
#![tactic(auto)]

mod groups;

pub use groups::{GROUPS, Groups};
