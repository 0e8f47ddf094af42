// Writers that report their failures.
ghost use Rattle.std.specs.Prelude.{◌≡◌, ◌<◌, length, IfOk, OnErr};
ghost use Rattle.std.specs.Io.{WritesAtMost};
ghost use Rattle.std.specs.Io.KnownBytes.{WriteAppends};

use std::io;
use std::io::Write;

/// A writer that says when it has failed. Every `Write` is one, so this is a bound alone: what is proved of
/// any `Sink` can call it failed only if a call of it was answered with an error, or took nothing.
pub trait Sink: Write {
    /// The last call was answered with an error, or took none of the bytes that it was given.
    ghost failed: { Self → Type 0 };

    /// Calls `write`, once.
    fn write_once(&mut self, bytes: &[u8]) -> io::Result<usize>
        ensures bound { WritesAtMost result bytes.now }
        ensures bytes { WriteAppends (Self.contents self.old)
            (Self.contents self.new) result bytes.now }
        ensures failed { OnErr result (failed self.new) }
        ensures none { IfOk result (λ n. n ≡ 0 → 0 < length bytes.now → failed self.new) };
}

impl<W: Write> Sink for W {
    ghost failed = { λ _. Unit {0} };

    fn write_once(&mut self, bytes: &[u8]) -> io::Result<usize> {
        self.write(bytes)
    }
}
