// The calls of a reader, counted.
ghost use Rattle.std.specs.Prelude.{◌≡◌, ◌<◌, ◌+◌, ◌↔◌, IsTrue, OnErr};
ghost use Rattle.std.specs.Io.{ReadsAtMost};
ghost use Rattle.std.specs.Io.KnownBytes.{ReadConsumes};

use crate::sources::Source;
use std::io;
use std::marker::Model;

/// How often a `LineReader` calls `read`.
pub const MAX_TURNS: u64 = 1_048_576;

const _: () = prove!(MAX_TURNS == 1_048_576);

/// How often a reader may still be called. All calls go by it, and each lowers it by one.
#[derive(Drop)]
pub(crate) struct Turns {
    left: u64,
}

impl Model for Turns {
    ghost use Rattle.std.specs.Prelude.{ℕ};

    ghost Value = { ℕ };

    ghost view = { λ t. t.left };
}

impl Turns {
    /// As many as a reader of lines has.
    pub(crate) fn new() -> Turns
        ensures { result ≡ MAX_TURNS }
    {
        Turns { left: MAX_TURNS }
    }

    /// Whether none is left.
    pub(crate) fn are_over(&self) -> bool
        ensures { IsTrue result ↔ (self.now ≡ 0) }
    {
        self.left == 0
    }

    /// Calls the reader once.
    pub(crate) fn read<R: Source>(&mut self, reader: &mut R, room: &mut [u8]) -> io::Result<usize>
        requires { 0 < self.old }
        ensures turns { self.new + 1 ≡ self.old }
        ensures bound { ReadsAtMost result room.new }
        ensures bytes { ReadConsumes (R.remaining reader.old)
            (R.remaining reader.new) result room.new }
        ensures called { R.called reader.old reader.new }
        ensures failed { OnErr result (R.failed reader.new) }
    {
        self.left -= 1;
        reader.read_once(room)
    }
}
