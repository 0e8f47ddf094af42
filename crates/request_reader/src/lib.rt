//! Reading what a client asks: lines of bytes, and the requests and configurations that they spell.
#![tactic(auto)]

mod canonical;
mod configs;
mod job_requests;
mod lines;
mod newlines;
mod requests;
mod sources;
mod turns;
mod windows;

pub use configs::config_in;
pub use job_requests::ready;
pub use lines::{LineRead, LineReader};
pub use requests::{Asked, MAX_REQUEST, is_blank, read_request, request_of, value_in};
pub use sources::Source;
pub use turns::MAX_TURNS;
