//! The words that `arena-server` and `arena-host` are called with.
#![tactic(auto)]

mod durable;
mod faults;
mod host;
mod numbers;
mod options;
mod server;

pub use durable::Durable;
pub use faults::WordsFault;
pub use host::{HostWords, read_host_words};
pub use server::{MAX_CONNECTIONS, ServerWords, read_server_words};
