//! Frames, and what a frame does between two shared instructions.
#![tactic(auto)]

mod effects;
mod frames;
mod laws;
mod runs;
mod segments;

pub use effects::{Effect, effect_on};
pub use frames::{Frame, LAST_PLACE};
pub use laws::runs_are_least;
pub use runs::{RUN_LIMIT, Run, Stop, run_private};
pub use segments::{Segment, Top, View, segment_of};
