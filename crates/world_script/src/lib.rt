//! Scripts of a world: the steps that lines spell, and what each is answered.
#![tactic(auto)]

mod raw_lines;
mod worlds;

pub use worlds::NamedWorld;
