//! The serial value of a program: what its root gives if each task runs as soon as it is made.
#![tactic(auto)]

mod serials;

pub use serials::serial;
