//! Values of variables, computed again where the variables are read.
#![tactic(auto)]

mod costs;
mod laws;
mod reading;
mod touching;

pub use costs::cost_of;
pub use laws::again_is_compiled;
pub use reading::{copy_of, read_again};
pub use touching::{is_free, is_untouched};
