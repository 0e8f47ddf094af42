// The thread that writes histories, so that the thread that looks after terms does not wait for them.

use dump_files::{Broken, Part, Whole};
use host_records::TermEnd;
use std::alloc::Global;
use std::fs::File;
use std::sync::{Condvar, Mutex, Wait};
use term_life::Trial;

/// A term that is closed, with the part of the file that its history is written to.
#[derive(Drop)]
pub(crate) struct Work {
    pub(crate) unfiled: UnfiledTerm,
    pub(crate) part: Part<File>,
}

/// The same when the history was written, or could not be.
#[derive(Drop)]
pub(crate) struct Done {
    pub(crate) unfiled: UnfiledTerm,
    pub(crate) written: Result<Whole<File>, Broken<File>>,
}

/// A term that is closed and whose files are to be written.
pub struct UnfiledTerm {
    /// The tenant's number at the host.
    pub tenant: usize,
    pub end: TermEnd,
    /// When its end began, in milliseconds of the monotonic clock.
    pub since: u64,
    /// When its files are tried again, once one could not be written, in the same milliseconds.
    pub trial: Trial,
    /// Whether its end was printed.
    pub is_told: bool,
}

impl Drop for UnfiledTerm {
    // An owner drops it in one call, not part by part at each of its ways out.
    fn drop(self) {
        let UnfiledTerm {
            tenant: _tenant,
            end: _end,
            since: _since,
            trial: _trial,
            is_told: _is_told,
        } = self;
    }
}

impl Work {
    /// Writes the history.
    fn write(self, alloc: Global) -> Done {
        let Work { unfiled, part } = self;
        let written = match &unfiled.end.end {
            Some(Ok(closed)) => part.fill(alloc, &unfiled.end.tenant, closed.history.as_slice()),
            // It has no history, and so no part is made for it.
            _ => Err(Broken {
                part,
                fault: dump_lines::DumpFault::Device,
            }),
        };
        Done { unfiled, written }
    }
}

/// Where the history of a term is.
#[derive(Drop)]
struct Tray {
    /// To be written.
    next: Option<Work>,
    /// Written, or found that it can't be.
    done: Option<Done>,
    /// Whether one was given that was not taken back.
    is_busy: bool,
    /// Whether no more come.
    is_closed: bool,
}

/// What the two threads share. It has room for one history.
#[derive(Drop)]
pub struct Writer {
    desk: Mutex<Tray>,
    changed: Condvar,
}

impl Writer {
    /// No history is being written.
    pub fn new() -> Writer {
        Writer {
            desk: Mutex::new(Tray {
                next: None,
                done: None,
                is_busy: false,
                is_closed: false,
            }),
            changed: Condvar::new(),
        }
    }

    /// Whether a history is being written.
    pub(crate) fn is_busy<R: Wait>(&self, rt: &R) -> bool {
        self.desk.lock(rt).is_busy
    }

    /// Gives a history to be written. None is being written.
    pub(crate) fn give<R: Wait>(&self, rt: &R, work: Work) {
        let mut desk = self.desk.lock(rt);
        desk.next = Some(work);
        desk.is_busy = true;
        self.changed.notify_all();
    }

    /// Takes the history back, if it is written or could not be.
    pub(crate) fn take<R: Wait>(&self, rt: &R) -> Option<Done> {
        let mut desk = self.desk.lock(rt);
        let done = desk.done.take()?;
        desk.is_busy = false;
        Some(done)
    }

    /// Gives no more.
    pub fn close<R: Wait>(&self, rt: &R) {
        self.desk.lock(rt).is_closed = true;
        self.changed.notify_all();
    }

    /// Waits for a history. None once no more come.
    fn next<R: Wait>(&self, rt: &R) -> Option<Work> {
        let mut desk = self.changed.wait_while(rt, self.desk.lock(rt), |desk| {
            desk.next.is_none() && !desk.is_closed
        });
        desk.next.take()
    }

    /// Gives a history back.
    fn put<R: Wait>(&self, rt: &R, done: Done) {
        self.desk.lock(rt).done = Some(done);
        self.changed.notify_all();
    }
}

/// Writes histories until no more come.
pub fn write_histories<R: Wait>(rt: &R, alloc: Global, writer: &Writer) {
    for _work in rt.forever() {
        let Some(work) = writer.next(rt) else {
            break;
        };
        writer.put(rt, work.write(alloc));
    }
}
