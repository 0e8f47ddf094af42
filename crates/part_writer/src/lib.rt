//! Writing a tenant's history to a part as it is made, so that a crash at any moment loses nothing that is on the disk.
#![tactic(auto)]

mod adding;
mod asks;
mod files;
mod instructions;
mod jobs;
mod journals;
mod moves;
mod parts;
mod texts;
mod writers;

pub use files::{PartFault, PartFile};
pub use journals::{add_slice, bring_journal_to_disk};
pub use parts::LivePart;
pub use texts::entries_of;
pub use writers::{add_entries, bring_to_disk};
