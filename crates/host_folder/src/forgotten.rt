// What tenants have forgotten of their closed terms, in files of notes: one for each term, of what was noted while it
// was the newest one of its tenant.
ghost use Rattle.std.specs.Prelude.{◌≡◌, ◌==◌, filter, nat_lt};
ghost use Rattle.std.specs.List.{list_any};
ghost use Rattle.host_folder.specs.Notes.{IsNotedIn};
ghost use Rattle.host_folder.specs.Results.{is_kept};

use crate::files::bytes_of;
use crate::folders::Folder;
use crate::listing::{listed, parts_of};
use crate::shelves::Shelves;
use crate::words::{after, number_in};
use server_io::ServerFault;
use std::alloc::{AllocError, Global};
use std::fs::{File, Files};
use std::{fs, str};
use term_life::Outcome;

/// What is noted of a tenant.
#[derive(Drop)]
pub struct Forgotten {
    /// The jobs that were released, by their numbers outside.
    released: Vec<u64>,
    /// The jobs of terms before the one of this number are retired.
    retired: u64,
}

/// Whether a job is one of them.
fn is_among(jobs: &[u64], job: u64) -> bool
    ensures { result ≡ list_any (λ other. other == job) jobs.now }
{
    jobs.iter().any(|other| *other == job)
}

impl Forgotten {
    fn new(alloc: Global) -> Forgotten {
        Forgotten {
            released: Vec::new(alloc),
            retired: 0,
        }
    }

    /// Whether all jobs of a term are retired.
    pub fn has_retired(&self, term: u64) -> bool
        ensures { result ≡ nat_lt term self.now.retired }
    {
        term < self.retired
    }

    /// Takes those outcomes away whose jobs were released.
    pub fn leave_out_of(&self, outcomes: &mut Vec<Outcome>)
        ensures { outcomes.new.items ≡ filter (is_kept self.now) outcomes.old.items }
    {
        outcomes.retain(|outcome| !is_among(self.released.as_slice(), outcome.job));
    }

    /// Adds what a text notes. Lines that note nothing are passed over.
    fn add(&mut self, text: &[u8]) -> Result<(), AllocError> {
        for line in text.split(|byte| *byte == b'\n') {
            if let Some(job) = noted_in(line, "\"released\":") {
                self.released.push(job)?;
            }
            if let Some(term) = noted_in(line, "\"retired\":") {
                self.retired = self.retired.max(term);
            }
        }
        Ok(())
    }
}

/// The number that a line notes behind that word. Before the note may stand the first part of one that could not be
/// written.
fn noted_in(line: &[u8], word: &str) -> Option<u64>
    ensures { IsNotedIn word.now line.now result }
{
    let text = str::from_utf8(line).ok()?;
    let (_, note) = text.rsplit_once('{')?;
    let number = after(note, word)?.strip_suffix("}")?;
    number_in(number)
}

/// What a tenant's notes say. `Device` if they can't be read, and `Memory` if an allocation fails.
pub fn read_notes<R: Files<File = File> + AllocGlobal + Clone + Drop>(
    rt: &R,
    alloc: Global,
    folder: &Folder,
    name: &str,
) -> Result<Forgotten, ServerFault> {
    let mut forgotten = Forgotten::new(alloc);
    for entry in &listed(rt, folder.notes.as_str())? {
        if has_name(folder.notes.as_str(), entry.as_str(), name) {
            match bytes_of(rt, alloc, entry.as_str()) {
                Ok(text) => forgotten.add(text.as_slice())?,
                Err(fault) => return Err(ServerFault::of_system(fault)),
            }
        }
    }
    Ok(forgotten)
}

/// Whether a path is that of a tenant's notes.
fn has_name(folder: &str, path: &str, name: &str) -> bool {
    match parts_of(folder, path) {
        Some((known, _)) => known == name,
        None => false,
    }
}

/// Removes the notes that are only of terms whose outcomes are gone: no dump is there of their own term or an older
/// one.
pub fn remove_old_notes<R: Files + AllocGlobal + Clone + Drop>(
    rt: &R,
    folder: &Folder,
    shelves: &Shelves,
) -> Result<(), ServerFault> {
    for entry in &listed(rt, folder.notes.as_str())? {
        let path = entry.as_str();
        if let Some((name, term)) = parts_of(folder.notes.as_str(), path) {
            if !shelves.numbers(name).iter().any(|dumped| *dumped <= term) {
                // It is tried again at the next start if it can't be removed now.
                let _ = fs::remove_file(rt, path);
            }
        }
    }
    Ok(())
}
