// What a host finds in its folder when it begins.
ghost use Rattle.std.specs.Prelude.{option_map, IfOk, string_bytes};
ghost use Rattle.host_folder.specs.Paths.{IsJournalOf, IsTermOf};

use super::Folder;
use crate::listing::{is_part, journal_in, listed, parts_of};
use crate::shelves::Shelves;
use job_language::TenantName;
use server_io::ServerFault;
use std::alloc::{AllocError, Global};
use std::fs;
use std::fs::{DirBuilder, Files};
use std::os::unix::fs::DirBuilderExt;

/// The numbers of terms that a host counts in the names of files lie below this one: it has not that many, even if it
/// opens one each microsecond for thirty years.
const MOST_TERMS: u64 = 1_000_000_000_000_000;

/// The journal of a term, which a host left that was killed or stopped before its jobs had their outcomes.
#[derive(Drop)]
pub struct LeftJournal {
    /// Its path.
    pub path: String,
    /// The tenant's name.
    pub name: String,
    /// The term's number.
    pub term: u64,
    /// The number of a job after which its jobs are numbered.
    pub base: u64,
}

impl Folder {
    /// Makes the folders, removes what a host left that was killed and the dumps that are too old, and gives the dumps
    /// that stay. `Device` if a folder can't be made or listed, and `Memory` if an allocation fails.
    pub fn prepare<R: Files + AllocGlobal + Clone + Drop>(
        &self,
        rt: &R,
        keep: u32,
    ) -> Result<Shelves, ServerFault> {
        let folders = [
            &self.dumps,
            &self.terms,
            &self.results,
            &self.journals,
            &self.notes,
        ];
        for folder in folders {
            // It may be there; if it can't be made, nothing can be written to it either.
            let _ = DirBuilder::new().mode(0o700).create(rt, folder.as_str());
        }
        // They are there only if a host was killed. A socket that can't be removed shows when the new one is bound.
        let _ = fs::remove_file(rt, self.socket.as_str());
        let _ = fs::remove_file(rt, self.rotate.as_str());
        let mut shelves = Shelves::new(rt.alloc());
        for entry in &listed(rt, self.dumps.as_str())? {
            let path = entry.as_str();
            if is_part(path) {
                // It is tried again at the next start if it can't be removed now.
                let _ = fs::remove_file(rt, path);
            }
            if let Some((name, number)) = self.dump_in(rt.alloc(), path)? {
                if number < MOST_TERMS {
                    self.shelve(rt, rt.alloc(), &mut shelves, name, number, keep)?;
                }
            }
        }
        Ok(shelves)
    }

    /// The journals that a host left. `Device` if the folder can't be listed, and `Memory` if an allocation fails.
    pub fn left_journals<R: Files + AllocGlobal + Clone + Drop>(
        &self,
        rt: &R,
    ) -> Result<Vec<LeftJournal>, ServerFault> {
        let alloc = rt.alloc();
        let mut journals = Vec::new(alloc);
        for entry in &listed(rt, self.journals.as_str())? {
            let path = entry.as_str();
            if let Some((name, term, base)) = self.journal_in(alloc, path)? {
                journals.reserve(1)?;
                journals.push_reserved(LeftJournal {
                    path: String::from_str(alloc, path)?,
                    name: String::from_str(alloc, name)?,
                    term,
                    base,
                });
            }
        }
        Ok(journals)
    }

    /// The tenant's name, the number of the term and the base of its jobs' numbers, whose journal a path is. None if it is
    /// that of none.
    fn journal_in<'a>(
        &self,
        alloc: Global,
        path: &'a str,
    ) -> Result<Option<(&'a str, u64, u64)>, AllocError>
        ensures { IfOk result (λ found. IsJournalOf (string_bytes self.now.journals) path.now
            (option_map (λ parts. (parts.0.now, parts.1, parts.2)) found)) }
    {
        let Some((name, term, base)) = journal_in(self.journals.as_str(), path) else {
            return Ok(None);
        };
        if TenantName::new(name).is_some()
            && self.journal(alloc, name, term, base)?.as_str() == path
        {
            Ok(Some((name, term, base)))
        } else {
            Ok(None)
        }
    }

    /// The tenant's name and the number of the term whose dump a path is. None if it is that of none.
    fn dump_in<'a>(
        &self,
        alloc: Global,
        path: &'a str,
    ) -> Result<Option<(&'a str, u64)>, AllocError>
        ensures { IfOk result (λ found. IsTermOf (string_bytes self.now.dumps) path.now
            (option_map (λ parts. (parts.0.now, parts.1)) found)) }
    {
        let Some((name, number)) = parts_of(self.dumps.as_str(), path) else {
            return Ok(None);
        };
        if TenantName::new(name).is_some() && self.dump(alloc, name, number)?.as_str() == path {
            Ok(Some((name, number)))
        } else {
            Ok(None)
        }
    }

    /// Notes that a tenant's dump of a term is there, and removes the one that is too old then, with its outcomes: of
    /// which at least `keep` newer ones are there.
    pub fn shelve<R: Files>(
        &self,
        rt: &R,
        alloc: Global,
        shelves: &mut Shelves,
        name: &str,
        term: u64,
        keep: u32,
    ) -> Result<(), AllocError> {
        if let Some(old) = shelves.put(alloc, name, term, keep)? {
            // They may be gone. It is tried again at the next start if they can't be removed now.
            let _ = fs::remove_file(rt, self.dump(alloc, name, old)?.as_str());
            let _ = fs::remove_file(rt, self.result(alloc, name, old)?.as_str());
            let _ = fs::remove_file(rt, self.forgotten(alloc, name, old)?.as_str());
        }
        Ok(())
    }
}
