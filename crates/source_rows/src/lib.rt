//! Rows of jobs whose programs are compiled from functions of the source.
#![tactic(auto)]

mod laws;

pub use laws::{advances_follow_source, rows_follow_source, worked_example};
