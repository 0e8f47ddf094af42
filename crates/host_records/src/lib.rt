//! What a host has of its terms to write: their journals, the notes of what tenants forget, what it prints and reports,
//! and what a term has come to that is closed.
#![tactic(auto)]

mod journals;
mod notes;
mod outlet;
mod syncs;
mod term_ends;

pub use journals::{Journal, Kept, bring_to_journal};
pub use notes::Notes;
pub use outlet::{Outlet, write_printed, write_reported};
pub use term_ends::TermEnd;
