//! The outcomes of the jobs that a tenant holds at the end of its history.
#![tactic(auto)]

mod outcomes;

pub use outcomes::{JobOutcome, JobOutcomes};
