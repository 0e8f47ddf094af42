// Small requests, read line by line and read as JSON values alone.
use request_reader::{LineRead, LineReader, MAX_REQUEST, read_request};
use serde_json::Value;
use std::alloc::{AllocError, Global};
use std::io;
use std::io::Read;

/// A reader that hands over a block of bytes at a call.
#[derive(Drop)]
struct Blocks<'b> {
    rest: &'b [u8],
    block: usize,
}

impl Read for Blocks<'_> {
    fn read(&mut self, room: &mut [u8]) -> io::Result<usize> {
        let count = self.block.min(self.rest.len()).min(room.len());
        let (now, later) = self.rest.split_at(count);
        room[..count].copy_from_slice(now);
        self.rest = later;
        Ok(count)
    }
}

/// That many requests, each on a line.
pub(crate) fn requests_of(alloc: Global, count: usize) -> Result<String, AllocError> {
    let mut text = String::new(alloc);
    for number in 0..count {
        match number % 4 {
            0 => text.push_str("{\"job\":1,\"op\":\"poll\"}\n")?,
            1 => text.push_str("{\"key\":0,\"op\":\"cells\"}\n")?,
            2 => text.push_str("{\"op\":\"arena\"}\n")?,
            _ => text.push_str("{\"job\":12345678,\"op\":\"collect\"}\n")?,
        }
    }
    Ok(text)
}

/// The number of requests in the lines of a text that arrives in blocks of `block` bytes.
pub(crate) fn requests_in(alloc: Global, text: &str, block: usize) -> Result<u64, AllocError> {
    let mut lines = LineReader::new(alloc, MAX_REQUEST)?;
    let mut reader = Blocks {
        rest: text.as_bytes(),
        block,
    };
    let mut requests = 0u64;
    for _line in 0..u64::MAX {
        match lines.read_line(&mut reader) {
            LineRead::Line => {
                if read_request(alloc, lines.line()).is_ok() {
                    requests = requests.wrapping_add(1);
                }
            }
            _ => break,
        }
    }
    Ok(requests)
}

/// How many of the lines of a text are JSON values.
pub(crate) fn values_in(alloc: Global, text: &str) -> u64 {
    let mut values = 0u64;
    for line in text.lines() {
        if Value::from_str(alloc, line).is_ok() {
            values = values.wrapping_add(1);
        }
    }
    values
}
