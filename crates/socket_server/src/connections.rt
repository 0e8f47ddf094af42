// A connection: what the thread that accepted it keeps of it, and what its session's thread does.

use std::io;
use std::net::Shutdown;
use std::os::fd::{AsRawFd, RawFd};
use std::os::unix::net::UnixStream;
use std::sync::atomic::{AtomicBool, Ordering};
use tenant_lock::StopFlag;

/// A client's stream, with the flag by which its session stops waiting, and whether the session has ended.
#[derive(Drop)]
pub(crate) struct Connection {
    pub(crate) stream: UnixStream,
    /// Raised when the client has gone: nobody is there who could take a reply.
    pub(crate) is_gone: StopFlag,
    is_over: AtomicBool,
}

impl Connection {
    pub(crate) fn new(stream: UnixStream) -> Connection {
        Connection {
            stream,
            is_gone: StopFlag::new(),
            is_over: AtomicBool::new(false),
        }
    }

    /// Whether its session has ended.
    pub(crate) fn is_over(&self) -> bool {
        self.is_over.load(Ordering::SeqCst)
    }

    /// Ends the connection, when its session has ended.
    pub(crate) fn end(&self) {
        // The client may have gone before.
        let _ = self.stream.shutdown(Shutdown::Both);
        self.is_over.store(true, Ordering::SeqCst);
    }

    /// Lets no more lines in. Those that came before are still read.
    pub(crate) fn end_lines(&self) {
        let _ = self.stream.shutdown(Shutdown::Read);
    }

    /// Cuts the connection off: a reply that the client does not take fails.
    pub(crate) fn cut(&self) {
        let _ = self.stream.shutdown(Shutdown::Both);
    }

    pub(crate) fn fd(&self) -> RawFd {
        self.stream.as_raw_fd()
    }
}
