//! Attending a slot: what one activity does there until the slot's stack is low enough.
#![tactic(auto)]

mod attending;
mod doors;

pub use attending::{Attended, attend, take_turn};
pub use doors::{Door, MAX_HEIGHT};
