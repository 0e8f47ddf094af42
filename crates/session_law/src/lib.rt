//! What sessions and waits come to over arenas that one thread holds: the law that the doors of a server are
//! held against.
#![tactic(auto)]

mod arenas;
mod doors;
mod one_slot;
mod serving;
mod slot_door;

pub use doors::ArenaDoors;
pub use one_slot::attend_slot;
pub use serving::serve_arenas;
pub use slot_door::ArenaDoor;
