//! The plain evaluator of one tenant's steps, over the list of all its rows, and the check of a history by it.
#![tactic(auto)]

mod advances;
mod asks;
mod chains;
mod checking;
mod execution;
mod groups;
mod shared;
mod solo;
mod stacks;
mod state;

pub use checking::{Verdict, check};
pub use solo::Solo;
