//! Registers of a frame for the virtual registers of a function: a choice, and its check.
#![tactic(auto)]

mod again;
mod check;
mod choose;
mod compile;
mod keeping;
mod liveness;
mod memory;
mod programs;
mod rename;
mod uses;

pub use check::is_coloured;
pub use compile::{ChoiceError, ChoiceRefusal, Crowd, compile_function, compile_in};
pub use memory::ChoiceMemory;
pub use programs::{ChoiceProgramError, compile_program};
