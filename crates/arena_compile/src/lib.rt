//! From the text of a source to the line of its job.
#![tactic(auto)]

mod errors;
mod heads;
mod instructions;
mod jobs;
mod lines;
mod listing;
mod messages;
mod words;

pub use errors::{CompileError, CompileFault, CrowdedFunction};
pub use jobs::job_of;
pub use lines::job_line;
pub use listing::job_listing;
pub use messages::fault_line;
pub use words::{args_in, given_in};
