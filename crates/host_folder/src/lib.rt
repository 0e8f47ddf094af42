//! The folder in which a host works: its paths, what an earlier host left there, and how that is finished.
#![tactic(auto)]

mod files;
mod finishing;
mod folders;
mod forgotten;
mod listing;
mod numbers;
mod recovering;
mod results;
mod shelves;
mod words;

pub use files::sync_folder;
pub use folders::{Begin, Folder, LeftJournal};
pub use forgotten::{Forgotten, read_notes, remove_old_notes};
pub use recovering::{Recovery, recover};
pub use shelves::Shelves;
