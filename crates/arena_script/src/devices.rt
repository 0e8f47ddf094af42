// The lines that a script reads, and the bytes that it writes.
ghost use Rattle.std.specs.Prelude.{◌≡◌, ◌≢◌, ◌<◌, ◌≤◌, ◌++◌, ◌⊎◌, [], unwrap_or, Ok, IsSome, IfOk, OnOk, OnErr};
ghost use Rattle.std.specs.Io.KnownBytes.{Appends};
ghost use Rattle.request_reader.specs.Calls.{AreCalls};
ghost use Rattle.request_reader.specs.Reading.{lines_left, work_left};
ghost use Rattle.dump_lines.specs.Parts.{AppendsFewer};
ghost use Rattle.arena_script.specs.ScriptLines.{lines_read, WasLost};

use crate::inputs::Input;
use reply_writer::{Sink, write_all_of};
use request_reader::{LineRead, LineReader, Source};

/// The reader or the writer failed, or the reader was called too often. Only this module makes one.
#[derive(Clone, Copy, Debug, PartialEq, Eq)]
pub(crate) struct DeviceFault {
    _made_here: (),
}

/// Reads on to the next line.
pub(crate) fn next_line<R: Source>(
    lines: &mut LineReader,
    reader: &mut R,
) -> Result<Input, DeviceFault>
    ensures lines { IsSome (R.remaining reader.old)
        → lines_left lines.old (unwrap_or (R.remaining reader.old) [])
        ≡ lines_read result lines.new.line
        ++ lines_left lines.new (unwrap_or (R.remaining reader.new) []) }
    ensures known { IsSome (R.remaining reader.old) → IsSome (R.remaining reader.new) }
    ensures end { result ≡ Ok Input.End
        → lines_left lines.new (unwrap_or (R.remaining reader.new) []) ≡ [] }
    ensures lowers { IfOk result (λ input. input ≢ Input.End
        → work_left lines.new < work_left lines.old) }
    ensures turns { lines.new.turns ≤ lines.old.turns }
    ensures device { OnErr result (WasLost lines.old lines.new) }
    ensures calls { AreCalls R.called lines.old.turns lines.new.turns reader.old reader.new }
    ensures cause { OnErr result (R.failed reader.new ⊎ (lines.new.turns ≡ 0)) }
{
    match lines.read_line(reader) {
        LineRead::Line => Ok(Input::Line),
        LineRead::TooLong => Ok(Input::TooLong),
        LineRead::End => Ok(Input::End),
        LineRead::ReadFault | LineRead::TurnLimit => Err(DeviceFault { _made_here: () }),
    }
}

/// Writes all of a line.
pub(crate) fn put<W: Sink>(writer: &mut W, line: &[u8]) -> Result<(), DeviceFault>
    ensures ok { OnOk result (Appends (W.contents writer.old) (W.contents writer.new) line.now) }
    ensures failed { OnErr result (W.failed writer.new) }
    ensures part { OnErr result
        (AppendsFewer (W.contents writer.old) (W.contents writer.new) line.now) }
{
    match write_all_of(writer, line) {
        Ok(()) => Ok(()),
        Err(_) => Err(DeviceFault { _made_here: () }),
    }
}
