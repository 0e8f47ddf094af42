//! What a host writes besides what it writes while it serves: the beginnings of journals and notes, the files of terms
//! that are closed, and what an earlier host left. And how a host ends if some of it failed.
#![tactic(auto)]

mod clocks;
mod configs;
mod ends;
mod fates;
mod filing;
mod forgetting;
mod journaling;
mod office;
mod recovering;
mod system;
mod writing;

pub use clocks::{millis, seconds};
pub use configs::read_config;
pub use ends::{Faults, end_of, event_fault};
pub use fates::Filed;
pub use filing::Filing;
pub use forgetting::begin_notes;
pub use journaling::begin_journal;
pub use office::Office;
pub use recovering::recover_all;
pub use system::System;
pub use writing::{UnfiledTerm, Writer, write_histories};
