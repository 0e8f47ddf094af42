// Journals that a host left become histories and outcomes: each job that was acknowledged gets its outcome.

use crate::files::bytes_of;
use crate::finishing::{Finished, finish_part, outcomes_of};
use crate::folders::{Folder, LeftJournal};
use crate::shelves::Shelves;
use dump_files::dump_history;
use dump_lines::DumpFault;
use server_io::ServerFault;
use std::alloc::Global;
use std::fs;
use std::fs::{File, Files};
use term_life::running;

/// What became of a journal that a host left.
#[derive(Clone, Copy, Debug, PartialEq, Eq)]
pub enum Recovery {
    /// It had no whole line, so nothing was acknowledged by it: the host was killed before its term served. It is
    /// removed.
    Empty,
    /// It names no tenant. It stays where it is.
    Unread,
    /// Its term is finished: its history and outcomes are on the disk.
    Finished {
        /// How many jobs the tenant has then.
        jobs: usize,
        /// How many of these have no outcome, since the history was full.
        lost: usize,
        /// Whether it had an entry that the tenant has not done. The term is finished by those before it.
        is_torn_wrong: bool,
    },
}

/// Finishes a journal that a host left, and writes its history and outcomes; of its tenant's dumps at least `keep` newer
/// ones stay. If the host is killed meanwhile, it can be done again: the journal is removed once both are on the disk, and
/// a history that is there is taken in its place. `Device` if a file can't be read or written, and `Memory` if an
/// allocation fails.
pub fn recover<R: Files<File = File>>(
    rt: &R,
    alloc: Global,
    folder: &Folder,
    shelves: &mut Shelves,
    journal: &LeftJournal,
    keep: u32,
) -> Result<Recovery, ServerFault> {
    let (name, term) = (journal.name.as_str(), journal.term);
    let dump = folder.dump(alloc, name, term)?;
    let is_dumped = shelves.has(name, term);
    let source = if is_dumped {
        dump.as_str()
    } else {
        journal.path.as_str()
    };
    let Some(finished) = finished_of(rt, alloc, source)? else {
        return pass_over(rt, alloc, journal);
    };
    if !is_dumped {
        put_history(rt, alloc, dump.as_str(), &finished)?;
    }
    let outcomes = outcomes_of(alloc, &finished.replay, journal.base)?;
    if folder
        .put_outcomes(rt, alloc, name, term, outcomes.as_slice())
        .is_err()
    {
        return Err(ServerFault::Device);
    }
    folder.shelve(rt, alloc, shelves, name, term, keep)?;
    // If it can't be removed, it is done again at the next start.
    let _ = fs::remove_file(rt, journal.path.as_str());
    Ok(Recovery::Finished {
        jobs: outcomes.len(),
        lost: running(outcomes.as_slice()),
        is_torn_wrong: finished.is_torn_wrong,
    })
}

/// Passes over a journal that names no tenant. `Device` if it can't be read.
fn pass_over<R: Files<File = File>>(
    rt: &R,
    alloc: Global,
    journal: &LeftJournal,
) -> Result<Recovery, ServerFault> {
    let path = journal.path.as_str();
    let Ok(bytes) = bytes_of(rt, alloc, path) else {
        return Err(ServerFault::Device);
    };
    if bytes.contains(&b'\n') {
        return Ok(Recovery::Unread);
    }
    // If it can't be removed, it is passed over at the next start.
    let _ = fs::remove_file(rt, path);
    Ok(Recovery::Empty)
}

/// What a file of a journal or a dump is finished to.
fn finished_of<R: Files<File = File>>(
    rt: &R,
    alloc: Global,
    path: &str,
) -> Result<Option<Finished>, ServerFault> {
    match bytes_of(rt, alloc, path) {
        Ok(bytes) => Ok(finish_part(alloc, bytes.as_slice())?),
        Err(_) => Err(ServerFault::Device),
    }
}

/// Writes the history of a term that is finished.
fn put_history<R: Files<File = File>>(
    rt: &R,
    alloc: Global,
    path: &str,
    finished: &Finished,
) -> Result<(), ServerFault> {
    let history = finished.replay.history();
    match dump_history(rt, alloc, path, &finished.config, history) {
        Ok(_kept) => Ok(()),
        Err(fault) => Err(dump_fault(fault)),
    }
}

/// Why the host can't begin that can't write a history at its start.
fn dump_fault(fault: DumpFault) -> ServerFault {
    match fault {
        DumpFault::Memory => ServerFault::Memory,
        DumpFault::Device | DumpFault::NoEntry => ServerFault::Device,
    }
}
