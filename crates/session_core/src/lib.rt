//! Sessions: the lines of one client, asked of the tenants' doors, and the replies written.
#![tactic(auto)]

mod doors;
mod jobs;
mod replying;
mod serving;

pub use doors::{Answered, Doors};
pub use serving::{SessionEnd, serve};
