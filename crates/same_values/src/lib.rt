//! Whether two values are the same, by what they hold: programs, frames, requests, answers and
//! tenants.
#![tactic(auto)]

mod answers;
mod frames;
mod names;
mod programs;
mod requests;
mod tenants;

pub use answers::{is_same_answer, is_same_reply};
pub use frames::is_same_frame;
pub use programs::is_same_program;
pub use requests::{is_same_job, is_same_request};
pub use tenants::is_same_tenant;
