//! What a host shows of itself: its status, and its events.
#![tactic(auto)]

mod events;
mod status;

pub use events::{Event, Fault, Refusal};
pub use status::{
    ClosedTerm, CutSoFar, HostStatus, Jobs, Rows, TenantStatus, TermStatus, Worker, status_line,
};
