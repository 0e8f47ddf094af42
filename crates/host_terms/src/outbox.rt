// The replies of a session on their way to its client. They wait until what they tell is kept: those of requests that
// came together wait for one write of the journal, and go out by one write to the stream.
ghost use Rattle.std.specs.Prelude.{◌≤◌, IfOk, length};

use host_records::Kept;
use std::alloc::{AllocError, Global};
use std::io;
use std::io::{ErrorKind, Write};
use std::os::unix::net::UnixStream;
use std::sync::atomic::{AtomicBool, Ordering};
use std::sync::{Arc, Mutex, Wait};

/// How many bytes of replies wait at most.
const ROOM: usize = 4096;

/// The outbox knows that a term has answered, so that the reply goes out only once that is kept. `Outbox::owe` alone
/// makes one, and the reply that tells the answer ends it.
pub struct Owed {
    _made_here: (),
}

impl Owed {
    /// The reply tells the answer.
    pub fn told(self) {
        let Owed { _made_here: () } = self;
    }
}

/// What waits for a client.
#[derive(Drop)]
struct Held {
    stream: Arc<UnixStream>,
    /// The replies.
    lines: Vec<u8>,
}

/// The replies of a desk's session on their way to its client. A client that takes none holds up the session's thread
/// alone: no other thread takes the lock.
#[derive(Drop)]
pub struct Outbox {
    held: Mutex<Option<Held>>,
    /// Whether what the term was asked in which the session has its place may not be kept yet. What other terms were
    /// asked is.
    is_owing: AtomicBool,
    /// Whether something can't be kept: nothing goes out any more.
    is_lost: AtomicBool,
}

impl Outbox {
    /// There is no client.
    pub(crate) fn new() -> Outbox {
        Outbox {
            held: Mutex::new(None),
            is_owing: AtomicBool::new(false),
            is_lost: AtomicBool::new(false),
        }
    }

    /// From now on replies are for the client of a stream.
    pub fn open<R: Wait>(
        &self,
        rt: &R,
        alloc: Global,
        stream: Arc<UnixStream>,
    ) -> Result<(), AllocError> {
        let lines = Vec::with_capacity(alloc, ROOM)?;
        self.is_owing.store(false, Ordering::SeqCst);
        self.is_lost.store(false, Ordering::SeqCst);
        *self.held.lock(rt) = Some(Held { stream, lines });
        Ok(())
    }

    /// The client's session has ended.
    pub fn close<R: Wait>(&self, rt: &R) {
        let _ended = self.held.lock(rt).take();
    }

    /// The term in which the session has its place was asked for the next reply, which goes out once that is kept.
    pub fn owe(&self) -> Owed {
        self.is_owing.store(true, Ordering::SeqCst);
        Owed { _made_here: () }
    }

    /// Whether what the session's term was asked may not be kept yet.
    pub(crate) fn is_owing(&self) -> bool {
        self.is_owing.load(Ordering::SeqCst)
    }

    /// What the session's term was asked is kept. If it can't be, nothing goes out any more.
    pub(crate) fn settle(&self, kept: Option<Kept>) {
        match kept {
            Some(kept) => kept.end(),
            None => self.is_lost.store(true, Ordering::SeqCst),
        }
        self.is_owing.store(false, Ordering::SeqCst);
    }

    /// Whether no reply waits.
    pub(crate) fn is_empty<R: Wait>(&self, rt: &R) -> bool {
        match &*self.held.lock(rt) {
            Some(held) => held.lines.is_empty(),
            None => true,
        }
    }

    /// Lets all replies go out that wait, since what they tell is kept.
    pub(crate) fn send<R: Wait>(&self, rt: &R, kept: Kept) -> io::Result<()> {
        self.settle(Some(kept));
        if self.is_lost.load(Ordering::SeqCst) {
            return Err(lost());
        }
        let mut held = self.held.lock(rt);
        let Some(held) = held.as_mut() else {
            return Ok(());
        };
        let mut stream = &*held.stream;
        let sent = stream.write_all(held.lines.as_slice());
        held.lines.clear();
        sent
    }

    /// Adds a part of a reply to those that wait, and says how many bytes it took.
    pub fn hold<R: Wait>(&self, rt: &R, bytes: &[u8]) -> io::Result<usize>
        ensures { IfOk result (λ count. count ≤ length bytes.now) }
    {
        let mut held = self.held.lock(rt);
        let Some(held) = held.as_mut() else {
            return Err(lost());
        };
        held.lines.extend_from_slice(bytes)?;
        Ok(bytes.len())
    }

    /// Whether there is no room for so many bytes more.
    pub fn is_full_with<R: Wait>(&self, rt: &R, more: usize) -> bool {
        match &*self.held.lock(rt) {
            Some(held) => held.lines.len().saturating_add(more) > ROOM,
            None => false,
        }
    }
}

/// The replies can't go out.
pub(crate) fn lost() -> io::Error {
    io::Error::from(ErrorKind::BrokenPipe)
}
