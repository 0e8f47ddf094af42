// What a tenant forgets of its closed terms, noted in a file that outlives the host: which jobs were released, and
// before which term all jobs are retired.
ghost use Rattle.std.specs.Prelude.{◌≡◌, false};

use std::alloc::Global;
use std::fs::File;
use std::io;
use std::io::{ErrorKind, Write};

/// The file in which a tenant notes what it forgets.
#[derive(Drop)]
pub struct Notes {
    /// What is written goes to its end.
    file: File,
    /// Whether a reply waits until the note is on the disk, and not only written.
    is_synced: bool,
    /// Whether the file failed since somebody asked.
    has_failed: bool,
}

impl Notes {
    /// Notes at the end of a file. If they are synced, a reply waits until its note is on the disk.
    pub fn new(file: File, is_synced: bool) -> Notes
        ensures { result ≡ record { file = file; is_synced = is_synced; has_failed = false } }
    {
        Notes {
            file,
            is_synced,
            has_failed: false,
        }
    }

    /// Notes that a job, by its number outside, is released, whose term is closed. If that fails, it may be noted or
    /// not.
    pub fn release(&mut self, alloc: Global, job: u64) -> io::Result<()> {
        let line = format!(in alloc; "{{\"released\":{job}}}\n")?;
        self.add(line.as_str())
    }

    /// Notes that all jobs are retired whose terms are before the one of that number. If that fails, it may be noted or
    /// not.
    pub fn retire(&mut self, alloc: Global, before: u64) -> io::Result<()> {
        let line = format!(in alloc; "{{\"retired\":{before}}}\n")?;
        self.add(line.as_str())
    }

    /// Whether the file has failed since this was asked last.
    pub fn take_failure(&mut self) -> bool
        ensures failed { result ≡ self.old.has_failed }
        ensures taken { self.new ≡ record self.old { has_failed = false } }
    {
        let has_failed = self.has_failed;
        self.has_failed = false;
        has_failed
    }

    fn add(&mut self, line: &str) -> io::Result<()> {
        let added = self.write(line);
        if let Err(fault) = &added {
            self.has_failed |= fault.kind() != ErrorKind::OutOfMemory;
        }
        added
    }

    fn write(&mut self, line: &str) -> io::Result<()> {
        self.file.write_all(line.as_bytes())?;
        if self.is_synced {
            self.file.sync_data()?;
        }
        Ok(())
    }
}
