//! Values that a function reads more than once, in variables of their own.
#![tactic(auto)]

mod best;
mod gains;
mod keep;
mod laws;
mod values;

pub use keep::keep_best;
pub use laws::{given_is_compiled, kept_value_is_compiled};
