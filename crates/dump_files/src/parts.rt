// The file that a history is written to before it takes its place.
ghost use Rattle.std.specs.Prelude.{◌≡◌, ◌≢◌, All, Any, Err, IfErr, IfOk, None, OnOk, string_bytes};
ghost use Rattle.std.specs.Io.KnownBytes.{Appends};
ghost use Rattle.dump_files.specs.Paths.{IsPathOfPart, part_path};
ghost use Rattle.dump_lines.specs.Dumps.{HasLine, ReadsBack, dump_text};
ghost use Rattle.dump_lines.specs.Parts.{AppendsPart};
ghost use Rattle.dump_lines.specs.Written.{entry_data};
ghost use Rattle.dump_lines.specs.declared.whole.DumpFault.TheVariants.{NoEntry};

use dump_lines::{DumpFault, write_dump};
use job_language::{Entry, TenantConfig};
use std::alloc::{AllocError, Global};
use std::fs;
use std::fs::{File, Files, OpenFile, OpenOptions};
use std::io::{ErrorKind, Write};
use std::marker::Model;
use std::os::unix::fs::OpenOptionsExt;

/// How many parts of one dump there may be: those that other processes are writing, or left when they were killed.
const MAX_PARTS: u8 = 64;

/// A new file beside the one whose place it is to take.
#[derive(Drop)]
pub struct Part<F> {
    file: F,
    path: String,
}

/// A part that has the whole of a history, all of which is on the disk. `Part::fill` alone makes one.
#[derive(Drop)]
pub struct Whole<F> {
    part: Part<F>,
}

/// A part that has a first piece of a history at most, and why.
#[derive(Drop)]
pub struct Broken<F> {
    pub part: Part<F>,
    pub fault: DumpFault,
}

/// A whole part has taken its file's place. `Whole::keep` alone makes one.
#[derive(Clone, Copy, Debug, PartialEq, Eq)]
pub struct Kept {
    _made_here: (),
}

impl<F> Model for Part<F> {
    ghost use Rattle.std.specs.Prelude.{string_bytes};
    ghost use Rattle.dump_files.specs.Paths.{PartSeen};

    ghost Value = { PartSeen F };

    ghost view = { λ p. record { file = p.file; path = string_bytes p.path } };
}

impl<F> Model for Whole<F> {
    ghost use Rattle.dump_files.specs.Paths.{PartSeen};

    ghost Value = { PartSeen F };

    ghost view = { λ w. w.part };
}

/// Makes a part of the dump at a path, which nobody else has and its owner alone may read: `PATH.part`, or
/// `PATH.part2` and so on up to 64 if that is taken. `Device` if it can't be made, and `Memory` if an allocation fails.
pub fn make_part<R: Files>(rt: &R, alloc: Global, path: &str) -> Result<Part<R::File>, DumpFault>
    ensures path { IfOk result (λ part. IsPathOfPart path.now part.path) }
    ensures no_entry { result ≢ Err NoEntry }
{
    for number in 1..=MAX_PARTS {
        let part = path_of(alloc, path, number)?;
        let mut options = OpenOptions::new();
        options.write(true).create_new(true).mode(0o600);
        match options.open(rt, part.as_str()) {
            Ok(file) => return Ok(Part { file, path: part }),
            Err(fault) if fault.kind() == ErrorKind::AlreadyExists => {}
            Err(_) => return Err(DumpFault::Device),
        }
    }
    Err(DumpFault::Device)
}

impl<F: OpenFile + Write + Drop> Part<F> {
    /// Writes a whole history to the part, and brings it to the disk: the tenant's line and one for each entry, which
    /// all read back. At a fault the part has a first piece of it. `Device` if the file fails, `Memory` if an
    /// allocation fails, and `NoEntry` if no history holds one of the entries.
    pub fn fill(
        self,
        alloc: Global,
        config: &TenantConfig,
        history: &[Entry],
    ) -> Result<Whole<F>, Broken<F>>
        ensures path { IfOk result (λ whole. whole.path ≡ self.path) }
        ensures written { IfOk result (λ whole. Appends (F.contents self.file)
            (F.contents whole.file) (dump_text config.now history.now)) }
        ensures piece { IfErr result (λ broken. AppendsPart (F.contents self.file)
            (F.contents broken.part.file) (dump_text config.now history.now)) }
        ensures all { OnOk result (All HasLine history.now) }
        ensures reads_back { OnOk result
            (ReadsBack (dump_text config.now history.now) config.now history.now) }
        ensures entry { IfErr result (λ broken. broken.fault ≡ NoEntry
            → Any (λ e. entry_data e ≡ None) history.now) }
    {
        let mut part = self;
        match part.write(alloc, config, history) {
            Ok(()) => Ok(Whole { part }),
            Err(fault) => Err(Broken { part, fault }),
        }
    }

    /// Writes the text, and brings it to the disk.
    fn write(
        &mut self,
        alloc: Global,
        config: &TenantConfig,
        history: &[Entry],
    ) -> Result<(), DumpFault>
        ensures path { self.new.path ≡ self.old.path }
        ensures written { OnOk result (Appends (F.contents self.old.file) (F.contents self.new.file)
            (dump_text config.now history.now)) }
        ensures piece { AppendsPart (F.contents self.old.file) (F.contents self.new.file)
            (dump_text config.now history.now) }
        ensures all { OnOk result (All HasLine history.now) }
        ensures reads_back { OnOk result
            (ReadsBack (dump_text config.now history.now) config.now history.now) }
        ensures entry { result ≡ Err NoEntry → Any (λ e. entry_data e ≡ None) history.now }
    {
        write_dump(alloc, &mut self.file, config, history)?;
        match self.file.sync_all() {
            Ok(()) => Ok(()),
            Err(_) => Err(DumpFault::Device),
        }
    }

    /// Removes the part. `Device` if it can't be removed.
    pub fn remove<R: Files>(self, rt: &R) -> Result<(), DumpFault>
        ensures { result ≢ Err NoEntry }
    {
        match fs::remove_file(rt, self.path.as_str()) {
            Ok(()) => Ok(()),
            Err(_) => Err(DumpFault::Device),
        }
    }
}

impl<F: OpenFile + Write + Drop> Whole<F> {
    /// Takes the place of the file at the path for which it was made, and brings that to the disk. `Device` if it can't
    /// take it: it is removed then, and the file stays. `Device` too if its name may not be on the disk.
    pub fn keep<R: Files>(self, rt: &R, path: &str) -> Result<Kept, DumpFault>
        ensures { result ≢ Err NoEntry }
    {
        if fs::rename(rt, self.part.path.as_str(), path).is_ok() {
            sync_folder(rt, path)?;
            return Ok(Kept { _made_here: () });
        }
        // The end is the same if it can't be removed.
        let _ = self.part.remove(rt);
        Err(DumpFault::Device)
    }

    /// The part, to be removed.
    pub fn into_part(self) -> Part<F>
        ensures { result ≡ self }
    {
        let Whole { part } = self;
        part
    }
}

/// Brings the names in the folder of a path to the disk, if its file system can do that for a folder. `Device` if it
/// fails.
fn sync_folder<R: Files>(rt: &R, path: &str) -> Result<(), DumpFault>
    ensures { result ≢ Err NoEntry }
{
    let folder = match path.rsplit_once('/') {
        Some(("", _)) => "/",
        Some((folder, _)) => folder,
        None => ".",
    };
    let Ok(folder) = File::open(rt, folder) else {
        return Err(DumpFault::Device);
    };
    match folder.sync_all() {
        Ok(()) => Ok(()),
        Err(fault) if fault.kind() == ErrorKind::InvalidInput => Ok(()),
        Err(_) => Err(DumpFault::Device),
    }
}

/// The path of the part of that number.
fn path_of(alloc: Global, path: &str, number: u8) -> Result<String, AllocError>
    ensures { IfOk result (λ part. string_bytes part ≡ part_path path.now number) }
{
    match number {
        1 => format!(in alloc; "{path}.part"),
        _ => format!(in alloc; "{path}.part{number}"),
    }
}
