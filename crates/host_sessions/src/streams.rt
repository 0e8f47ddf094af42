// The streams of a desk's session: what it reads, and where it writes its replies.

use host_terms::Desk;
use std::alloc::Global;
use std::io;
use std::io::{Read, Write};
use std::os::unix::net::UnixStream;
use std::sync::Wait;
use tenant_book::Naming;

/// What a desk's session reads: before more is read, the replies to what was read go out.
#[derive(Drop)]
pub(crate) struct Incoming<'s, J: Naming, R: Wait> {
    pub(crate) rt: &'s R,
    pub(crate) alloc: Global,
    pub(crate) desk: &'s Desk<J>,
    pub(crate) stream: &'s UnixStream,
}

impl<'s, J: Naming, R: Wait> Read for Incoming<'s, J, R> {
    fn read(&mut self, room: &mut [u8]) -> io::Result<usize> {
        self.desk.let_out(self.rt, self.alloc)?;
        let mut stream = self.stream;
        stream.read(room)
    }
}

/// Where a desk's session writes its replies.
#[derive(Drop)]
pub(crate) struct Outgoing<'s, J: Naming, R: Wait> {
    pub(crate) rt: &'s R,
    pub(crate) alloc: Global,
    pub(crate) desk: &'s Desk<J>,
}

impl<'s, J: Naming, R: Wait> Write for Outgoing<'s, J, R> {
    fn write(&mut self, bytes: &[u8]) -> io::Result<usize> {
        let outbox = self.desk.outbox();
        if outbox.is_full_with(self.rt, bytes.len()) {
            self.desk.let_out(self.rt, self.alloc)?;
        }
        outbox.hold(self.rt, bytes)
    }

    fn flush(&mut self) -> io::Result<()> {
        self.desk.let_out(self.rt, self.alloc)
    }
}
