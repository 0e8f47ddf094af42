//! Checking a tenant's history by its arena, at a cost that does not grow with the history before an
//! entry.
#![tactic(auto)]

mod checking;

pub use checking::check;
