// Lines of bytes from a reader.
ghost use Rattle.std.specs.Prelude.{◌≡◌, ℕ, List, [], ◌++◌, ◌<◌, ◌≤◌, ◌+◌, ◌^◌, length, take, false, IfOk, IfSome, Some, None, IsSome, unwrap_or, ◌⊎◌};
ghost use Rattle.std.specs.Io.KnownBytes.{Consumes, IsAtEnd};

use crate::newlines::newline_from;
use crate::sources::Source;
use crate::turns::{MAX_TURNS, Turns};
use crate::windows::Window;
use std::alloc::{AllocError, Global};
use std::io::ErrorKind;
use std::marker::Model;

/// How many bytes are asked for at once, at least.
const BLOCK: usize = 65_536;

/// What reading a line came to.
#[derive(Clone, Copy, Debug, PartialEq, Eq)]
pub enum LineRead {
    /// A line, which `LineReader::line` lends.
    Line,
    /// A line of more bytes than the limit; they are dropped.
    TooLong,
    /// The reader has no more bytes.
    End,
    /// The reader failed.
    ReadFault,
    /// The reader was called 1,048,576 times.
    TurnLimit,
}

/// Reads the lines of a reader, which is called 1,048,576 times at most. Its memory is all taken by
/// `new`.
#[derive(Drop)]
pub struct LineReader {
    window: Window,
    limit: usize,
    is_within_long: bool,
    is_ended: bool,
    turns: Turns,
}

impl Model for LineReader {
    ghost use Rattle.request_reader.specs.Reading.{Reading};

    ghost Value = { Reading };

    ghost use Rattle.request_reader.specs.ReaderState.{reading, IsReader};

    ghost view = { reading };

    ghost invariant = { IsReader };
}

impl LineReader {
    ghost use Rattle.request_reader.specs.Calls.{AreCalls};
    ghost use Rattle.request_reader.specs.LineReads.{told_by, ComesTo, Finds, FindsLast, LowersWork, TurnsTo};
    ghost use Rattle.request_reader.specs.Lines.{HasNoNewline};
    ghost use Rattle.request_reader.specs.Newlines.{IsFirstNewline};
    ghost use Rattle.request_reader.specs.Reading.{is_long, lines_left, IsPending, NeedsBytes, Reads};

    /// A reader of lines of at most `limit` bytes, not counting the newline.
    pub fn new(alloc: Global, limit: usize) -> Result<LineReader, AllocError>
        requires { limit + BLOCK < 2 ^ 64 }
        ensures { IfOk result
            (λ r. r ≡ record {
              limit = limit;
              line = [];
              held = [];
              is_within_long = false;
              is_ended = false;
              turns = MAX_TURNS;
            }) }
    {
        Ok(LineReader {
            window: Window::new(alloc, limit + BLOCK)?,
            limit,
            is_within_long: false,
            is_ended: false,
            turns: Turns::new(),
        })
    }

    /// The line that was read last, without its newline; empty if `read_line` answered anything
    /// but `Line`.
    pub fn line(&self) -> &[u8]
        ensures { result.now ≡ self.now.line }
    {
        self.window.line()
    }

    /// Reads on to the end of the next line. A line that is longer than the limit is read to its
    /// newline and told once. An interrupted call of `read` counts, and is tried again.
    pub fn read_line<R: Source>(&mut self, reader: &mut R) -> LineRead
        // Where the bytes are known, the lines that were left are those reported now, followed by
        // those that are left.
        ensures lines { IsSome (R.remaining reader.old)
            → lines_left self.old (unwrap_or (R.remaining reader.old) [])
            ≡ told_by result self.new
            ++ lines_left self.new (unwrap_or (R.remaining reader.new) []) }
        ensures known { IsSome (R.remaining reader.old) → IsSome (R.remaining reader.new) }

        // At any reader, the lines reported are those of the bytes that came.
        ensures reads { Reads self.old self.new (R.remaining reader.old) (R.remaining reader.new)
            (told_by result self.new) }
        ensures comes_to { ComesTo result self.old self.new }
        ensures unread { self.new.turns ≡ self.old.turns → reader.new ≡ reader.old }

        // A line that is held whole is reported without a call of the reader, and so is the end.
        ensures at_once { NeedsBytes self.old ⊎ (self.new.turns ≡ self.old.turns) }
        ensures lowers { LowersWork result self.old self.new }

        // Each turn that is gone was a call of the reader, whose fault is its own.
        ensures calls { AreCalls R.called self.old.turns self.new.turns reader.old reader.new }
        ensures fault { result ≡ LineRead.ReadFault → R.failed reader.new }
    {
        self.read_on(reader)
    }

    fn read_on<R: Source>(&mut self, reader: &mut R) -> LineRead
        ensures reads { Reads self.old self.new (R.remaining reader.old) (R.remaining reader.new)
            (told_by result self.new) }
        ensures comes_to { ComesTo result self.old self.new }
        ensures unread { self.new.turns ≡ self.old.turns → reader.new ≡ reader.old }
        ensures at_once { NeedsBytes self.old ⊎ (self.new.turns ≡ self.old.turns) }
        ensures lowers { LowersWork result self.old self.new }
        ensures calls { AreCalls R.called self.old.turns self.new.turns reader.old reader.new }
        ensures fault { result ≡ LineRead.ReadFault → R.failed reader.new }
    {
        if self.is_ended {
            self.window.cut(0, 0);
            return LineRead::End;
        }
        if let Some(told) = self.next_held(0) {
            return told;
        }
        while !self.turns.are_over() {
            if let Some(told) = self.turn(reader) {
                return told;
            }
        }
        LineRead::TurnLimit
    }

    /// Calls the reader once, and tells a line that is whole then.
    fn turn<R: Source>(&mut self, reader: &mut R) -> Option<LineRead>
        requires pending { IsPending self.old }
        requires turns { 0 < self.old.turns }
        ensures turns_to { TurnsTo result self.old self.new (R.remaining reader.old)
            (R.remaining reader.new) }
        ensures turns { self.new.turns + 1 ≡ self.old.turns }
        ensures room { length self.new.held ≤ self.new.limit + BLOCK }
        ensures called { R.called reader.old reader.new }
        ensures fault { result ≡ Some LineRead.ReadFault → R.failed reader.new }
    {
        let start = self.window.held().len();
        match self.window.fill(&mut self.turns, reader) {
            Ok(0) => Some(self.tell_last()),
            Ok(_) => self.next_held(start),
            Err(error) if error.kind() == ErrorKind::Interrupted => None,
            Err(_) => Some(LineRead::ReadFault),
        }
    }

    /// Tells what is held as the last line, once no more bytes come.
    fn tell_last(&mut self) -> LineRead
        requires { IsPending self.old }
        ensures finds { FindsLast result self.old self.new }
        ensures held { length self.new.held ≤ length self.old.held }
    {
        let len = self.window.held().len();
        let was_within_long = self.is_within_long;
        self.is_within_long = false;
        self.is_ended = true;
        if was_within_long {
            self.window.cut(0, len);
            LineRead::TooLong
        } else if len > 0 {
            self.window.cut(len, len);
            LineRead::Line
        } else {
            LineRead::End
        }
    }

    /// The next line, if a newline that is held ends it. None stands before `start`.
    fn next_held(&mut self, start: usize) -> Option<LineRead>
        requires not_ended { self.old.is_ended ≡ false }
        requires within { start ≤ length self.old.held }
        requires before { HasNoNewline (take start self.old.held) }
        ensures finds { Finds result self.old self.new }
        ensures goes_on { self.new.is_ended ≡ false }
        ensures none { result ≡ None → HasNoNewline self.old.held }
        ensures fewer { IfSome result (λ _. length self.new.held < length self.old.held) }
        ensures held { length self.new.held ≤ length self.old.held }
    {
        match newline_from(self.window.held(), start) {
            Some(place) => Some(self.tell(place)),
            None => {
                self.drop_if_long();
                None
            }
        }
    }

    /// Tells the line before the first newline.
    fn tell(&mut self, place: usize) -> LineRead
        requires not_ended { self.old.is_ended ≡ false }
        requires place { IsFirstNewline self.old.held place }
        requires fits { place + 1 < 2 ^ 64 }
        ensures finds { Finds (Some result) self.old self.new }
        ensures goes_on { self.new.is_ended ≡ false }
        ensures fewer { length self.new.held < length self.old.held }
    {
        let is_long = self.is_long(place);
        self.is_within_long = false;
        if is_long {
            self.window.cut(0, place + 1);
            LineRead::TooLong
        } else {
            self.window.cut(place, place + 1);
            LineRead::Line
        }
    }

    /// Drops what is held of a line that is too long.
    fn drop_if_long(&mut self)
        requires not_ended { self.old.is_ended ≡ false }
        requires held { HasNoNewline self.old.held }
        ensures finds { Finds None self.old self.new }
        ensures goes_on { self.new.is_ended ≡ false }
        ensures held { length self.new.held ≤ length self.old.held }
    {
        let len = self.window.held().len();
        if self.is_long(len) {
            self.is_within_long = true;
            self.window.cut(0, len);
        } else {
            self.window.cut(0, 0);
        }
    }

    /// Whether a line is too long that has `len` of the bytes that are held.
    fn is_long(&self, len: usize) -> bool
        ensures { result ≡ is_long self.now len }
    {
        self.is_within_long || len > self.limit
    }
}
