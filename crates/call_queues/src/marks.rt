// Marked calls, and what passes know of a level.
use job_language::{MAX_SLOTS, MAX_TENANTS};
use market_config::Call;
use std::collections::LinkedList;

/// How many calls a level holds at most: one for each slot of each tenant that there may be.
pub const MAX_CALLS: usize = 1_024;

const _: () = prove!(MAX_CALLS == MAX_TENANTS * MAX_SLOTS as usize);

/// A call in a queue, with its mark: the number of the pass that pushed it, and how many pushes
/// that pass had made at this level.
#[derive(Clone, Copy)]
pub struct Marked {
    pub by: usize,
    pub at: u64,
    pub call: Call,
}

/// What one pass pushed and popped at a level, oldest first. No value of it is made.
pub struct PassLog {
    pub pushed: LinkedList<Marked>,
    pub popped: LinkedList<Marked>,
}

/// What a pass knows of its level. No value of it is made.
pub enum QueueView {
    /// The pass of this number, and what it pushed and popped.
    Owner(usize, PassLog),
    /// The first pass, which the others go out from and come back to: how many numbers were given
    /// out, what is known of those that are here, by number, and what was drained.
    Keeper(usize, LinkedList<PassLog>, LinkedList<Marked>),
    /// A pass that has come back.
    Spent,
}
