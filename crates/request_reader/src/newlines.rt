// Where a line ends.
ghost use Rattle.std.specs.Prelude.{◌<◌, ◌≤◌, ◌+◌, ◌^◌, length, take, MatchOption, IfSome};
ghost use Rattle.request_reader.specs.Lines.{HasNoNewline};
ghost use Rattle.request_reader.specs.Newlines.{IsFirstNewline};

use memchr::memchr;

/// The place of the first newline, if none stands before `start`.
pub(crate) fn newline_from(bytes: &[u8], start: usize) -> Option<usize>
    requires within { start ≤ length bytes.now }
    requires before { HasNoNewline (take start bytes.now) }
    ensures fits { IfSome result (λ place. place + 1 < 2 ^ 64) }
    ensures first { MatchOption result (HasNoNewline bytes.now) (IsFirstNewline bytes.now) }
{
    let place = memchr(b'\n', &bytes[start..])?;
    Some(start + place)
}
