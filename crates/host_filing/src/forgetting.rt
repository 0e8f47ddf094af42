// The notes in which a tenant forgets jobs of its closed terms.

use crate::office::Office;
use host_folder::sync_folder;
use host_records::Notes;
use program_words::Durable;
use server_io::ServerFault;
use std::alloc::Global;
use std::fs::{File, Files, OpenOptions};
use std::os::unix::fs::OpenOptionsExt;

/// The notes of a tenant from now on, whose newest term has that number or is to have it. `Device` if their file can't
/// be made, and `Memory` if an allocation fails.
pub fn begin_notes<R: Files<File = File>>(
    rt: &R,
    alloc: Global,
    office: Office<'_>,
    name: &str,
    term: u64,
) -> Result<Notes, ServerFault> {
    let path = office.folder.forgotten(alloc, name, term)?;
    let mut options = OpenOptions::new();
    options.append(true).create(true).mode(0o600);
    let file = match options.open(rt, path.as_str()) {
        Ok(file) => file,
        Err(fault) => return Err(ServerFault::of_system(fault)),
    };
    let is_synced = matches!(office.words.durable, Durable::Second | Durable::Reply);
    if is_synced {
        if let Err(fault) = sync_folder(rt, office.folder.notes.as_str()) {
            return Err(ServerFault::of_system(fault));
        }
    }
    Ok(Notes::new(file, is_synced))
}
