// Readers that report their calls and their failures.
ghost use Rattle.std.specs.Prelude.{OnErr};
ghost use Rattle.std.specs.Io.{ReadsAtMost};
ghost use Rattle.std.specs.Io.KnownBytes.{ReadConsumes};

use std::io;
use std::io::Read;

/// A reader that says when it was called, and when it has failed. Every `Read` is one, so this is a bound
/// alone: what is proved of any `Source` can say that it was called only if it was, and that it has failed
/// only if a call of it was answered with an error.
pub trait Source: Read {
    /// One call leads from the first reader to the second.
    ghost called: { Self → Self → Type 0 };

    /// The last call was answered with an error.
    ghost failed: { Self → Type 0 };

    /// Calls `read`, once.
    fn read_once(&mut self, room: &mut [u8]) -> io::Result<usize>
        ensures bound { ReadsAtMost result room.new }
        ensures bytes { ReadConsumes (Self.remaining self.old)
            (Self.remaining self.new) result room.new }
        ensures called { called self.old self.new }
        ensures failed { OnErr result (failed self.new) };
}

impl<R: Read> Source for R {
    ghost called = { λ _ _. Unit {0} };

    ghost failed = { λ _. Unit {0} };

    fn read_once(&mut self, room: &mut [u8]) -> io::Result<usize> {
        self.read(room)
    }
}
