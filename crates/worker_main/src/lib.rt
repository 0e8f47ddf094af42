//! Workers: threads that serve whichever tenant calls.
#![tactic(auto)]

mod bell;
mod doors;
mod gate;
mod ringer;
mod signal;
mod slot_door;
mod visiting;
mod visits;
mod working;

pub use bell::Bell;
pub use doors::{SlotAccess, WorkerAccess};
pub use gate::{Gate, NoGate};
pub use ringer::Ringer;
pub use signal::Signal;
pub use slot_door::SlotDoor;
pub use visiting::Visiting;
pub use working::{serve_call, worker};
