//! Reading a part: a file to which a tenant's dump was being written when a crash came.
#![tactic(auto)]

mod journals;
mod laws;
mod reading;

pub use journals::{JournalLine, read_journal};
pub use laws::{torn_journals_read_back, torn_parts_read_back};
pub use reading::{PartRead, read_part};
