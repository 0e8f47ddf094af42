// The folder in which a host works.
ghost use Rattle.std.specs.Prelude.{◌≡◌, IfOk, max, string_bytes};
ghost use Rattle.host_folder.specs.Beginning.{job_behind, number_behind};
ghost use Rattle.host_folder.specs.Paths.{journal_path, term_path};
ghost use Rattle.host_folder.specs.Shelves.{numbers_of, ComeBefore};

mod finding;

use crate::files::{put_text, text_of};
use crate::numbers::{span_in, span_line};
use crate::results::{outcomes_in, outcomes_text};
use crate::shelves::Shelves;
pub use finding::LeftJournal;
use server_io::ServerFault;
use std::alloc::{AllocError, Global};
use std::fs::{File, Files};
use std::io;
use term_life::{Outcome, Span};

/// The paths in the folder.
pub struct Folder {
    run: String,
    /// The file that a host locks while it works here.
    pub lock: String,
    /// The socket.
    pub socket: String,
    /// The file by which somebody asks for the next term of each tenant.
    pub rotate: String,
    /// The file that shows what the host does.
    pub status: String,
    dumps: String,
    terms: String,
    results: String,
    /// The folder of the journals.
    pub journals: String,
    /// The folder of the notes of what tenants forget.
    pub notes: String,
}

impl Drop for Folder {
    // An owner drops it in one call, not part by part at each of its ways out.
    fn drop(self) {
        let Folder {
            run: _run,
            lock: _lock,
            socket: _socket,
            rotate: _rotate,
            status: _status,
            dumps: _dumps,
            terms: _terms,
            results: _results,
            journals: _journals,
            notes: _notes,
        } = self;
    }
}

/// What a folder says of a tenant's terms.
#[derive(Clone, Copy, Debug, PartialEq, Eq)]
pub struct Begin {
    /// The number of the next term.
    pub number: u64,
    /// The number of a job after which its jobs are to be numbered.
    pub base: u64,
}

impl Folder {
    /// The paths in a folder.
    pub fn new(alloc: Global, run: &str) -> Result<Folder, AllocError> {
        Ok(Folder {
            run: String::from_str(alloc, run)?,
            lock: format!(in alloc; "{run}/lock")?,
            socket: format!(in alloc; "{run}/socket")?,
            rotate: format!(in alloc; "{run}/rotate")?,
            status: format!(in alloc; "{run}/status.json")?,
            dumps: format!(in alloc; "{run}/dumps")?,
            terms: format!(in alloc; "{run}/terms")?,
            results: format!(in alloc; "{run}/results")?,
            journals: format!(in alloc; "{run}/journals")?,
            notes: format!(in alloc; "{run}/forgotten")?,
        })
    }

    /// The file of a tenant's history in a term.
    pub fn dump(&self, alloc: Global, name: &str, term: u64) -> Result<String, AllocError>
        ensures { IfOk result (λ path. string_bytes path
            ≡ term_path (string_bytes self.now.dumps) name.now term) }
    {
        format!(in alloc; "{}/{name}.{term:06}.jsonl", self.dumps.as_str())
    }

    /// The file of the outcomes of a tenant's jobs in a term.
    fn result(&self, alloc: Global, name: &str, term: u64) -> Result<String, AllocError>
        ensures { IfOk result (λ path. string_bytes path
            ≡ term_path (string_bytes self.now.results) name.now term) }
    {
        format!(in alloc; "{}/{name}.{term:06}.jsonl", self.results.as_str())
    }

    /// The file in which a tenant notes what it forgets while that term is its newest.
    pub fn forgotten(&self, alloc: Global, name: &str, term: u64) -> Result<String, AllocError>
        ensures { IfOk result (λ path. string_bytes path
            ≡ term_path (string_bytes self.now.notes) name.now term) }
    {
        format!(in alloc; "{}/{name}.{term:06}.jsonl", self.notes.as_str())
    }

    /// The file of a tenant's journal in a term whose jobs are numbered after `base`.
    pub fn journal(
        &self,
        alloc: Global,
        name: &str,
        term: u64,
        base: u64,
    ) -> Result<String, AllocError>
        ensures { IfOk result (λ path. string_bytes path
            ≡ journal_path (string_bytes self.now.journals) name.now term base) }
    {
        format!(in alloc; "{}/{name}.{term:06}.{base}.jsonl", self.journals.as_str())
    }

    /// The file by which somebody asks for a tenant's next term.
    pub fn order(&self, alloc: Global, name: &str) -> Result<String, AllocError> {
        format!(in alloc; "{}/rotate.{name}", self.run.as_str())
    }

    /// Brings the numbers of a tenant's newest term to the disk.
    pub fn put_span<R: Files<File = File>>(
        &self,
        rt: &R,
        alloc: Global,
        name: &str,
        span: Span,
    ) -> Result<(), ServerFault> {
        let path = format!(in alloc; "{}/{name}", self.terms.as_str())?;
        let line = span_line(alloc, span)?;
        match put_text(
            rt,
            alloc,
            self.terms.as_str(),
            path.as_str(),
            line.as_bytes(),
        ) {
            Ok(()) => Ok(()),
            Err(fault) => Err(ServerFault::of_system(fault)),
        }
    }

    /// Where a tenant's terms and jobs are to begin, by what is on the disk of its newest term: behind all that could
    /// be known of. `Device` if the numbers are there and can't be read.
    pub fn begin<R: Files<File = File>>(
        &self,
        rt: &R,
        alloc: Global,
        name: &str,
        shelves: &Shelves,
    ) -> Result<Begin, ServerFault>
        ensures { IfOk result (λ begin. ComeBefore begin.number (numbers_of shelves.now name.now)) }
    {
        let path = format!(in alloc; "{}/{name}", self.terms.as_str())?;
        // Dumps of a host that had no such numbers count as well.
        let dumped = shelves.next(name);
        match text_of(rt, alloc, path.as_str()) {
            Ok(text) => match span_in(text.as_slice()) {
                Some(span) => Ok(begin_behind(dumped, Some(span))),
                None => Err(ServerFault::Device),
            },
            Err(fault) if fault.kind() == io::ErrorKind::NotFound => Ok(begin_behind(dumped, None)),
            Err(fault) => Err(ServerFault::of_system(fault)),
        }
    }

    /// The outcomes of a tenant's term, if they are on the disk. `Device` if they are there and can't be read, and
    /// `Memory` if an allocation fails.
    pub fn outcomes<R: Files<File = File>>(
        &self,
        rt: &R,
        alloc: Global,
        name: &str,
        term: u64,
    ) -> Result<Vec<Outcome>, ServerFault> {
        let path = self.result(alloc, name, term)?;
        match text_of(rt, alloc, path.as_str()) {
            Ok(text) => Ok(outcomes_in(alloc, text.as_slice())?),
            Err(fault) if fault.kind() == io::ErrorKind::NotFound => Ok(Vec::new(alloc)),
            Err(fault) => Err(ServerFault::of_system(fault)),
        }
    }

    /// Brings the outcomes of a tenant's term to the disk, in the place of those that are there.
    pub fn put_outcomes<R: Files<File = File>>(
        &self,
        rt: &R,
        alloc: Global,
        name: &str,
        term: u64,
        outcomes: &[Outcome],
    ) -> io::Result<()> {
        let path = self.result(alloc, name, term)?;
        let text = outcomes_text(alloc, outcomes)?;
        put_text(
            rt,
            alloc,
            self.results.as_str(),
            path.as_str(),
            text.as_slice(),
        )
    }
}

/// Where a tenant's terms and jobs are to begin: behind its dumps, whose next number is `dumped`, and behind its newest
/// term.
fn begin_behind(dumped: u64, newest: Option<Span>) -> Begin
    ensures number { result.number ≡ max dumped (number_behind newest) }
    ensures base { result.base ≡ job_behind newest }
{
    match newest {
        Some(Span { number, base, room }) => Begin {
            number: dumped.max(number.saturating_add(1)),
            base: base.saturating_add(room),
        },
        None => Begin {
            number: dumped,
            base: 0,
        },
    }
}
