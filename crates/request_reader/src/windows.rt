// The bytes that a reader of lines holds.
ghost use Rattle.std.specs.Prelude.{◌≡◌, ℕ, List, [], ◌++◌, ◌<◌, ◌≤◌, ◌+◌, ◌-◌, length, take, drop, slice_range, vec_len, IfOk, OnErr};
ghost use Rattle.std.specs.Io.KnownBytes.{Keeps, Consumes, IsAtEnd};

use crate::sources::Source;
use crate::turns::Turns;
use std::alloc::{AllocError, Global};
use std::io;
use std::marker::Model;

/// A buffer of a fixed size: the line that was cut off last, and after it the bytes that are held.
#[derive(Drop)]
pub(crate) struct Window {
    bytes: Vec<u8>,
    line_start: usize,
    line_end: usize,
    start: usize,
    end: usize,
}

impl Model for Window {
    ghost use Rattle.request_reader.specs.Buffered.{Buffered};

    ghost Value = { Buffered };

    ghost use Rattle.request_reader.specs.Buffered.{buffered, IsOrdered};

    ghost view = { buffered };

    ghost invariant = { IsOrdered };
}

impl Window {
    /// An empty window over `size` bytes.
    pub(crate) fn new(alloc: Global, size: usize) -> Result<Window, AllocError>
        ensures { IfOk result (λ w. w ≡ record { size = size; line = []; held = [] }) }
    {
        let mut bytes = Vec::with_capacity(alloc, size)?;
        bytes.resize(size, 0)?;
        Ok(Window {
            bytes,
            line_start: 0,
            line_end: 0,
            start: 0,
            end: 0,
        })
    }

    /// The line that was cut off last.
    pub(crate) fn line(&self) -> &[u8]
        ensures { result.now ≡ self.now.line }
    {
        &self.bytes[self.line_start..self.line_end]
    }

    /// The bytes that are held.
    pub(crate) fn held(&self) -> &[u8]
        ensures value { result.now ≡ self.now.held }
        ensures fits { length result.now ≤ self.now.size }
    {
        &self.bytes[self.start..self.end]
    }

    /// Cuts a line of that length off the front, and drops all of the front up to that place.
    pub(crate) fn cut(&mut self, len: usize, end: usize)
        requires len { len ≤ end }
        requires end { end ≤ length self.old.held }
        ensures { self.new ≡ record {
          size = self.old.size;
          line = take len self.old.held;
          held = drop end self.old.held;
        } }
    {
        self.line_start = self.start;
        self.line_end = self.start + len;
        self.start += end;
    }

    /// Reads once, as many bytes as there is room for. The line is gone afterwards.
    pub(crate) fn fill<R: Source>(&mut self, turns: &mut Turns, reader: &mut R) -> io::Result<usize>
        requires room { length self.old.held < self.old.size }
        requires turns { 0 < turns.old }
        ensures turns { turns.new + 1 ≡ turns.old }
        ensures size { self.new.size ≡ self.old.size }
        ensures fits { length self.new.held ≤ self.new.size }
        ensures line { self.new.line ≡ [] }
        ensures ok { IfOk result (λ n. (came : List ℕ) × (length came ≡ n)
            × (self.new.held ≡ self.old.held ++ came)
            × Consumes (R.remaining reader.old) (R.remaining reader.new) came) }
        ensures end { IfOk result (λ n. n ≡ 0 → IsAtEnd (R.remaining reader.new)) }
        ensures err { OnErr result ((self.new.held ≡ self.old.held)
            × Keeps (R.remaining reader.old) (R.remaining reader.new)) }
        ensures called { R.called reader.old reader.new }
        ensures failed { OnErr result (R.failed reader.new) }
    {
        let (start, end) = (self.start, self.end);
        move_to_front(&mut self.bytes, start, end);
        self.line_start = 0;
        self.line_end = 0;
        self.start = 0;
        self.end = end - start;
        let count = read_from(turns, reader, &mut self.bytes, end - start)?;
        self.end += count;
        Ok(count)
    }
}

/// Moves the bytes between two places to the front.
fn move_to_front(bytes: &mut Vec<u8>, start: usize, end: usize)
    requires order { start ≤ end }
    requires within { end ≤ vec_len bytes.old }
    ensures len { vec_len bytes.new ≡ vec_len bytes.old }
    ensures front { take (end - start) bytes.new.items ≡ slice_range bytes.old.items start end }
{
    if start > 0 {
        bytes.as_mut_slice().copy_within(start..end, 0);
    }
}

/// Reads once into the bytes from a place on.
fn read_from<R: Source>(
    turns: &mut Turns,
    reader: &mut R,
    bytes: &mut Vec<u8>,
    start: usize,
) -> io::Result<usize>
    requires start { start < vec_len bytes.old }
    requires turns { 0 < turns.old }
    ensures turns { turns.new + 1 ≡ turns.old }
    ensures len { vec_len bytes.new ≡ vec_len bytes.old }
    ensures before { take start bytes.new.items ≡ take start bytes.old.items }
    ensures bound { IfOk result (λ n. start + n ≤ vec_len bytes.new) }
    ensures ok { IfOk result
        (λ n. Consumes (R.remaining reader.old) (R.remaining reader.new)
        (take n (drop start bytes.new.items))) }
    ensures end { IfOk result (λ n. n ≡ 0 → IsAtEnd (R.remaining reader.new)) }
    ensures err { OnErr result (Keeps (R.remaining reader.old) (R.remaining reader.new)) }
    ensures called { R.called reader.old reader.new }
    ensures failed { OnErr result (R.failed reader.new) }
{
    let room = &mut bytes.as_mut_slice()[start..];
    turns.read(reader, room)
}
