// Readers over memory that give few bytes at a call, or fail.
use request_reader::{LineRead, LineReader};
use std::alloc::{AllocError, Global};
use std::io;
use std::io::{ErrorKind, Read};

/// A reader that gives some bytes at a call, and fails at the calls of some numbers, from 1 on.
#[derive(Drop)]
pub(super) struct Few<'b> {
    pub bytes: &'b [u8],
    pub at_a_call: usize,
    pub failure: ErrorKind,
    pub first_failing: u64,
    pub last_failing: u64,
    pub calls: u64,
}

impl Few<'_> {
    /// A reader that never fails.
    pub(super) fn new(bytes: &[u8], at_a_call: usize) -> Few<'_> {
        Few {
            bytes,
            at_a_call,
            failure: ErrorKind::TimedOut,
            first_failing: 0,
            last_failing: 0,
            calls: 0,
        }
    }

    /// The same reader, but the calls from the first to the last of these fail.
    pub(super) fn failing(self, failure: ErrorKind, first: u64, last: u64) -> Self {
        Few {
            failure,
            first_failing: first,
            last_failing: last,
            ..self
        }
    }
}

impl Read for Few<'_> {
    fn read(&mut self, room: &mut [u8]) -> io::Result<usize> {
        self.calls = self.calls.wrapping_add(1);
        if self.first_failing <= self.calls && self.calls <= self.last_failing {
            return Err(io::Error::from(self.failure));
        }
        let count = self.at_a_call.min(self.bytes.len()).min(room.len());
        let (now, later) = self.bytes.split_at(count);
        room[..count].copy_from_slice(now);
        self.bytes = later;
        Ok(count)
    }
}

/// Adds what a read tells: its line in parentheses, `#` for one that is too long, `!` for a fault of the
/// reader, and `$` for the end. Returns whether no other read is made.
fn tell(told: &mut Vec<u8>, read: LineRead, line: &[u8]) -> Result<bool, AllocError> {
    match read {
        LineRead::Line => {
            told.push(b'(')?;
            told.extend_from_slice(line)?;
            told.push(b')')?;
        }
        LineRead::TooLong => told.push(b'#')?,
        LineRead::ReadFault => told.push(b'!')?,
        LineRead::TurnLimit => return Ok(true),
        LineRead::End => {
            told.push(b'$')?;
            return Ok(true);
        }
    }
    Ok(false)
}

/// What reading to the end tells, by lines of at most `limit` bytes.
pub(super) fn told<R: Read>(
    alloc: Global,
    limit: u16,
    reader: &mut R,
) -> Result<Vec<u8>, AllocError> {
    let mut lines = LineReader::new(alloc, usize::from(limit))?;
    let mut told = Vec::new(alloc);
    for _line in 0..1000u32 {
        let read = lines.read_line(reader);
        if tell(&mut told, read, lines.line())? {
            break;
        }
    }
    Ok(told)
}
