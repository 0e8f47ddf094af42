//! A tenant behind a lock: its door, which any thread may use, and how the door is closed.
#![tactic(auto)]

mod awaited;
mod closing;
mod copies;
mod counts;
mod doors;
mod faults;
mod held;
mod looks;
mod moving_slot;
mod news;
mod seat_logs;
mod stop_flag;
mod waits;

pub use closing::fault_of;
pub use counts::{Counts, JobTally, Tally};
pub use doors::{Closed, TenantDoor};
pub use faults::CloseFault;
pub use held::MovedAndSeen;
pub use looks::MOST_COMPARED;
pub use stop_flag::StopFlag;
pub use waits::WaitCounts;
