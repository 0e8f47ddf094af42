//! A server's ways to tenants that are behind locks: one thread's to their slots, and one session's.
#![tactic(auto)]

mod places;
mod sessions;
mod slots;

pub use sessions::SessionDoors;
pub use slots::{HeldSlot, MOVES_UNDER_LOCK, SHORT_RUN};
