//! One tenant's arena with the history that replays to it, the tokens of those who move and ask it,
//! and the cell that its lock keeps.
#![tactic(auto)]

mod cells;
mod closing;
mod laws;
mod logs;
mod notes;
mod passes;
mod places;
mod replay;
mod seats;
mod slots;

pub use cells::{AskOutcome, TenantCell};
pub use closing::{SlotFault, are_all_told, are_seats, first_slot_fault, is_one_full, slot_fault};
pub use laws::some_holder_can_move;
pub use passes::Pass;
pub use replay::Replay;
pub use seats::{Seat, first_seats};
pub use slots::{Advanced, Arrived};
