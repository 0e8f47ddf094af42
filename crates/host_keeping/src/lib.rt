//! Whoever looks after a host's terms: they are opened, left and closed, and what the host does is shown.
#![tactic(auto)]

mod context;
mod journaling;
mod keeping;
mod shower;
mod showing;

pub use context::{HostContext, Progress};
pub use journaling::keep_journals;
pub use keeping::Keeper;
pub use shower::Shower;
