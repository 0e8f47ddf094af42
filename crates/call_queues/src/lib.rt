//! Queues of calls for workers that threads share, one for each level of priority.
#![tactic(auto)]

mod level;
mod marks;
mod queues;
mod rule;

pub use queues::{CallQueues, Pushed, QueuePass};
