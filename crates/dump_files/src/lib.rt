//! The files of histories.
#![tactic(auto)]

mod dumps;
mod parts;

pub use dumps::{can_dump, dump_history};
pub use parts::{Broken, Kept, Part, Whole, make_part};
