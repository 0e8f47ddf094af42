// Readers and writers over memory that take or give few bytes at a call, and then fail.
use std::io;
use std::io::{ErrorKind, Read, Write};

/// A reader that gives some bytes at a call, and fails at their end.
#[derive(Drop)]
pub(super) struct Few<'b> {
    pub bytes: &'b [u8],
    pub at_a_call: usize,
}

impl Read for Few<'_> {
    fn read(&mut self, room: &mut [u8]) -> io::Result<usize> {
        if self.bytes.is_empty() {
            return Err(io::Error::from(ErrorKind::TimedOut));
        }
        let count = self.at_a_call.min(self.bytes.len()).min(room.len());
        let (now, later) = self.bytes.split_at(count);
        room[..count].copy_from_slice(now);
        self.bytes = later;
        Ok(count)
    }
}

/// A writer that takes `room` bytes, and then fails.
#[derive(Drop)]
pub(super) struct Full {
    pub taken: Vec<u8>,
    pub room: usize,
}

impl Write for Full {
    fn write(&mut self, bytes: &[u8]) -> io::Result<usize> {
        let count = bytes.len().min(self.room);
        if count == 0 {
            return Err(io::Error::from(ErrorKind::BrokenPipe));
        }
        self.room -= count;
        self.taken.extend_from_slice(&bytes[..count])?;
        Ok(count)
    }

    fn flush(&mut self) -> io::Result<()> {
        Ok(())
    }
}

/// A writer that takes some bytes at a call, and never fails.
#[derive(Drop)]
pub(super) struct Slow {
    pub taken: Vec<u8>,
    pub at_a_call: usize,
}

impl Write for Slow {
    fn write(&mut self, bytes: &[u8]) -> io::Result<usize> {
        let count = bytes.len().min(self.at_a_call);
        self.taken.extend_from_slice(&bytes[..count])?;
        Ok(count)
    }

    fn flush(&mut self) -> io::Result<()> {
        Ok(())
    }
}
