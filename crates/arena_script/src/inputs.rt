// The lines of a script.
ghost use Rattle.std.specs.Prelude.{◌≡◌, ◌≢◌, ◌<◌, ◌++◌, ◌⊎◌, [], ◌∷◌, Ok, IsSome, IfNone, IfSome, IfOk, OnErr};
ghost use Rattle.request_reader.specs.Calls.{AreCalls};
ghost use Rattle.request_reader.specs.Reading.{work_left};
ghost use Rattle.arena_script.specs.ScriptLines.{input_lines, line_seen, script_lines, lines_read, WasLost};

use crate::devices::{DeviceFault, next_line};
use request_reader::{LineReader, Source, is_blank};

/// How many bytes a line of a script may have, without its newline.
pub const MAX_SCRIPT_LINE: usize = 1_048_576;

const _: () = prove!(MAX_SCRIPT_LINE == 1_048_576);

/// What reading a line came to.
#[derive(Clone, Copy, Debug, PartialEq, Eq)]
pub(crate) enum Input {
    /// A line, which the reader of lines lends.
    Line,
    TooLong,
    End,
}

/// A line of a script, as the reader of lines lends it.
#[derive(Drop)]
pub(crate) enum ScriptLine<'l> {
    Whole(&'l [u8]),
    TooLong,
}

impl Input {
    /// The line that was read; at the end there is none.
    pub(crate) fn lent(self, lines: &LineReader) -> Option<ScriptLine<'_>>
        ensures line { IfSome result (λ line.
            input_lines self lines.now.line ≡ line_seen line ∷ []) }
        ensures some { IfSome result (λ line. self ≢ Input.End) }
        ensures none { IfNone result (self ≡ Input.End) }
    {
        match self {
            Input::Line => Some(ScriptLine::Whole(lines.line())),
            Input::TooLong => Some(ScriptLine::TooLong),
            Input::End => None,
        }
    }
}

/// Reads on to the next line that is not blank.
pub(crate) fn next_input<R: Source>(
    lines: &mut LineReader,
    reader: &mut R,
) -> Result<Input, DeviceFault>
    ensures lines { IsSome (R.remaining reader.old)
        → script_lines lines.old (R.remaining reader.old)
        ≡ lines_read result lines.new.line ++ script_lines lines.new (R.remaining reader.new) }
    ensures known { IsSome (R.remaining reader.old) → IsSome (R.remaining reader.new) }
    ensures end { result ≡ Ok Input.End
        → script_lines lines.new (R.remaining reader.new) ≡ [] }
    ensures lowers { IfOk result (λ input. input ≢ Input.End
        → work_left lines.new < work_left lines.old) }
    ensures device { OnErr result (WasLost lines.old lines.new) }
    ensures calls { AreCalls R.called lines.old.turns lines.new.turns reader.old reader.new }
    ensures cause { OnErr result (R.failed reader.new ⊎ (lines.new.turns ≡ 0)) }
{
    loop {
        match next_line(lines, reader)? {
            Input::Line if is_blank(lines.line()) => {}
            input => return Ok(input),
        }
    }
}
