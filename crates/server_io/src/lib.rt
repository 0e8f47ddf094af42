//! What a server takes from the system and gives back: its configuration, its socket, what is reported of its
//! connections, and how it ends.
#![tactic(auto)]

mod configs;
mod endpoint;
mod ends;
mod rooms;
mod watching;

pub use configs::{MAX_CONFIG, config_of};
pub use endpoint::{Access, BindFault, Endpoint};
pub use ends::{ServerEnd, ServerFault, exit_status};
pub use watching::Watch;
