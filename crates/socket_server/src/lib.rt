//! The threads of a server: a session for each connection over a Unix socket, and workers beside them.
#![tactic(auto)]

mod connections;
mod reception;
mod serving;

pub use serving::{Served, serve_connections};
