//! Serial values of functions of the source, and of what is compiled from them.
#![tactic(auto)]

mod laws;

pub use laws::{jobs_have_source_values, source_values};
