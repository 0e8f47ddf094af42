// A term's journal: its tenant's history in a file, as it is made.
ghost use Rattle.std.specs.Prelude.{OnOk};
ghost use Rattle.std.specs.Io.KnownBytes.{Appends};
ghost use Rattle.dump_lines.specs.Dumps.{entries_text};
ghost use Rattle.host_records.specs.Journals.{AreNext, AreWritten};

use crate::syncs::Synced;
use job_language::{Entry, TenantConfig};
use part_writer::{LivePart, PartFault};
use std::alloc::{AllocError, Global};
use std::fs::File;
use std::io::Write;
use std::sync::atomic::{AtomicBool, AtomicUsize, Ordering};
use std::sync::{Condvar, Mutex, MutexGuard, Wait};
use std::thread;
use tenant_book::Naming;
use tenant_lock::TenantDoor;

/// How many entries are copied at a time at most, while nobody else can ask the tenant.
const SLICE: usize = 64;

/// How many slices are written by one call of the system at most.
const SLICES: usize = 8;

/// How often a session that has entries to write lets other threads go first while another one writes, before it
/// sleeps.
const LOOKS: u32 = 100;

/// How often a session that is about to bring the file to the disk lets other threads go first, which may have more to
/// write.
const GRACES: u32 = 4;

/// What is kept under the lock of whoever writes.
#[derive(Drop)]
struct Written<F: Write + Drop> {
    part: LivePart<F>,
    /// How many entries it has.
    count: usize,
    /// Room for the next ones.
    next: Vec<Entry>,
}

/// A term's journal.
#[derive(Drop)]
pub struct Journal {
    /// One session at a time writes for all.
    written: Mutex<Written<File>>,
    /// How many entries the file has: who needs no more of them writes nothing.
    count: AtomicUsize,
    /// The same file, which one session brings to the disk for all while others write.
    file: File,
    synced: Mutex<Synced>,
    /// A session has brought the file to the disk, or failed.
    changed: Condvar,
    /// Whether a reply waits until what it tells is on the disk, and not only written.
    is_synced: bool,
    /// Whether the file failed: nothing is asked of it any more.
    is_broken: AtomicBool,
}

/// All that a term's tenant was asked up to a moment is where it outlives what it is to outlive. `bring_to_journal`
/// makes one, or `of_nothing` if no term was asked, and the replies that go out with it end it.
pub struct Kept {
    _made_here: (),
}

impl Kept {
    /// No term was asked for what the replies tell.
    pub fn of_nothing() -> Kept {
        Kept { _made_here: () }
    }

    /// The replies go out.
    pub fn end(self) {
        let Kept { _made_here: () } = self;
    }
}

/// Brings to its journal, if it has one, what a tenant was asked. None if that fails.
pub fn bring_to_journal<J: Naming, R: Wait>(
    rt: &R,
    alloc: Global,
    journal: Option<&Journal>,
    door: Option<&TenantDoor<J>>,
) -> Option<Kept> {
    if let (Some(journal), Some(door)) = (journal, door) {
        let wanted = door.counts(rt, &mut door.front()).entries;
        journal.write(rt, alloc, door, wanted)?;
        if journal.is_synced {
            journal.sync(rt, wanted)?;
        }
    }
    Some(Kept { _made_here: () })
}

impl Journal {
    /// The journal of a term that is to begin, in a file that is empty. If it is synced, a reply waits until what it
    /// tells is on the disk. `Memory` if an allocation fails, and `Failed` if the file does.
    pub fn begin(
        alloc: Global,
        file: File,
        tenant: &TenantConfig,
        is_synced: bool,
    ) -> Result<Journal, PartFault> {
        let Ok(handle) = file.try_clone() else {
            return Err(PartFault::Failed);
        };
        let next = Vec::with_capacity(alloc, SLICE)?;
        Ok(Journal {
            written: Mutex::new(Written {
                part: LivePart::begin(alloc, file, tenant)?,
                count: 0,
                next,
            }),
            count: AtomicUsize::new(0),
            file: handle,
            synced: Mutex::new(Synced::new()),
            changed: Condvar::new(),
            is_synced,
            is_broken: AtomicBool::new(false),
        })
    }

    /// Whether the file failed.
    pub fn is_broken(&self) -> bool {
        self.is_broken.load(Ordering::SeqCst)
    }

    /// Whether the file has so many entries.
    fn has(&self, wanted: usize) -> bool {
        self.count.load(Ordering::SeqCst) >= wanted
    }

    /// Writes what the tenant's history has and the file has not, until the file has so many entries. None if that
    /// fails.
    fn write<J: Naming, R: Wait>(
        &self,
        rt: &R,
        alloc: Global,
        door: &TenantDoor<J>,
        wanted: usize,
    ) -> Option<()> {
        let Some(mut written) = self.turn_to_write(rt, wanted) else {
            return if self.is_broken() { None } else { Some(()) };
        };
        for _call in rt.forever() {
            if self.is_broken() {
                return None;
            }
            if self.has(wanted) {
                return Some(());
            }
            if let Err(fault) = written.write_more(rt, alloc, door) {
                self.note(fault);
                return None;
            }
            self.count.store(written.count, Ordering::SeqCst);
        }
        None
    }

    /// Takes the turn to write, unless the file has so many entries before, or fails.
    fn turn_to_write<R: Wait>(
        &self,
        rt: &R,
        wanted: usize,
    ) -> Option<MutexGuard<'_, Written<File>>> {
        for _look in 0..LOOKS {
            if self.is_broken() || self.has(wanted) {
                return None;
            }
            if let Some(turn) = self.written.try_lock() {
                return Some(turn);
            }
            thread::yield_now();
        }
        Some(self.written.lock(rt))
    }

    /// Brings the file to the disk, unless so many entries are there. None if that fails.
    fn sync<R: Wait>(&self, rt: &R, wanted: usize) -> Option<()> {
        if !self.has_turn_to_sync(rt, wanted) {
            return Some(());
        }
        for _grace in 0..GRACES {
            thread::yield_now();
        }
        let there = self.brought_there();
        if there.is_none() {
            self.note(PartFault::Failed);
        }
        self.synced.lock(rt).end_turn(there);
        self.changed.notify_all();
        there.map(|_count| ())
    }

    /// Brings the file to the disk, and says how many entries are there then. None if that fails.
    fn brought_there(&self) -> Option<usize> {
        let count = self.count.load(Ordering::SeqCst);
        if self.is_broken() || self.file.sync_data().is_err() {
            return None;
        }
        Some(count)
    }

    /// Waits until so many entries are on the disk, or it is the caller's turn to bring them there, and says whether it
    /// is.
    fn has_turn_to_sync<R: Wait>(&self, rt: &R, wanted: usize) -> bool {
        let mut synced = self
            .changed
            .wait_while(rt, self.synced.lock(rt), |synced| synced.holds_up(wanted));
        synced.take_turn(wanted)
    }

    /// Writes what the history has and the file has not, and brings the file to the disk if that is wanted or replies
    /// wait for it. It says whether all of the history is there, which it is not if the file failed. If an allocation
    /// fails, it can be done again.
    pub fn catch_up<J: Naming, R: Wait>(
        &self,
        rt: &R,
        alloc: Global,
        door: &TenantDoor<J>,
        syncs: bool,
    ) -> Result<bool, AllocError> {
        let wanted = door.counts(rt, &mut door.front()).entries;
        let is_there = self.write(rt, alloc, door, wanted).is_some()
            && (!(syncs || self.is_synced) || self.sync(rt, wanted).is_some());
        if is_there || self.is_broken() {
            Ok(is_there)
        } else {
            Err(AllocError)
        }
    }

    /// Without memory it is tried again; a file that failed once may have lost what it was given.
    fn note(&self, fault: PartFault) {
        if fault != PartFault::Memory {
            self.is_broken.store(true, Ordering::SeqCst);
        }
    }
}

impl<F: Write + Drop> Written<F> {
    /// Writes what the tenant's history has and the file has not, by one call of the system: all of it, unless it is
    /// very much.
    fn write_more<J: Naming, R: Wait>(
        &mut self,
        rt: &R,
        alloc: Global,
        door: &TenantDoor<J>,
    ) -> Result<(), PartFault>
        ensures next { OnOk result (AreWritten door.now.tenant self.old self.new) }
        ensures given { OnOk result (Appends (F.contents self.old.part)
            (F.contents self.new.part) (entries_text self.new.next.items)) }
    {
        self.copy_more(rt, door)?;
        self.part.add(alloc, self.next.as_slice())?;
        self.count = self.count.saturating_add(self.next.len());
        Ok(())
    }

    /// Copies what the tenant's history has and the file has not, a slice at a time.
    fn copy_more<J: Naming, R: Wait>(
        &mut self,
        rt: &R,
        door: &TenantDoor<J>,
    ) -> Result<(), PartFault>
        ensures { OnOk result (AreNext door.now.tenant self.old self.new) }
    {
        self.next.clear();
        for _slice in 0..SLICES {
            let from = self.count.saturating_add(self.next.len());
            let there = door.copy_entries(rt, &mut door.front(), from, SLICE, &mut self.next)?;
            if self.count.saturating_add(self.next.len()) >= there {
                return Ok(());
            }
        }
        Ok(())
    }
}
