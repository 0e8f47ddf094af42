// A script, from its words and its first line to its end.
ghost use Rattle.std.specs.Prelude.{◌≡◌, ◌≢◌, ℕ, List, ◌∷◌, Some, None, Err, Contains, IsErr, IsOk, IsSome, IfErr, OnOk};
ghost use Rattle.std.specs.Io.KnownBytes.{Appends};
ghost use Rattle.request_reader.specs.Calls.{AreCalls};
ghost use Rattle.request_reader.specs.declared.turns.TheConstants.{MAX_TURNS};
ghost use Rattle.request_reader.specs.Lines.{whole};
ghost use Rattle.tenant_model.specs.State.{State};
ghost use Rattle.arena_core.specs.Stands.{StandsFor};
ghost use Rattle.dump_lines.specs.Parts.{AppendsPart};
ghost use Rattle.dump_lines.specs.Requests.{tenant_in};
ghost use Rattle.part_lines.specs.Parts.{part_in};
ghost use Rattle.arena_script.specs.Commands.{command_of, ends_of};
ghost use Rattle.arena_script.specs.DumpData.{dump_of};
ghost use Rattle.arena_script.specs.DumpText.{AnswersDump};
ghost use Rattle.arena_script.specs.Faults.{HasCause, IsFault};
ghost use Rattle.arena_script.specs.Finishing.{Finishes, IsWrongPart, StartsFinished, bytes_in};
ghost use Rattle.arena_script.specs.RunAnswers.{AnswersRun, HasNoConfig, StartsRun};
ghost use Rattle.arena_script.specs.ScriptAnswers.{own_answers, own_text};
ghost use Rattle.arena_script.specs.ScriptLines.{script_lines, all_lines, first_tenant, lines_in};
ghost use Rattle.arena_script.specs.SerialAnswers.{serial_answers};
ghost use Rattle.arena_script.specs.Taken.{answer_told};

use crate::checks::check_dump;
use crate::commands::Command;
use crate::devices::put;
use crate::ends::ScriptEnd;
use crate::finishing::finish_dump;
use crate::inputs::{Input, MAX_SCRIPT_LINE, next_input};
use crate::own::{read_arena, take_line};
use crate::runs::run;
use crate::serials::serial_values;
use arena_core::Arena;
use job_language::Answer;
use reply_writer::{ReplyBuf, Sink, answer_line, bad_step_line};
use request_reader::{LineReader, Source};
use std::alloc::Global;

/// Does the whole work of `arena-script`: reads a script, and writes one line for each of its
/// steps, in order. Without a word, or with the word `own`, the first line is a
/// tenant and the others are its steps. With the word `run` the first line is a configuration and
/// the others are the steps of its world. With the word `serial` each line is a job, whose serial
/// value is asked. With the word `check` it reads a dump and writes one line: its verdict, or the
/// number of its first bad line. With the word `finish` it reads a dump whose end may be missing, lets
/// its tenant's jobs go on until each has an outcome, and writes the dump of all that.
pub fn script<R: Source, W: Sink>(
    alloc: Global,
    words: &[&str],
    reader: &mut R,
    writer: &mut W,
) -> ScriptEnd
    ensures ends { Contains (ends_of (command_of words.now)) result }
    ensures unread { result ≡ ScriptEnd.Words → reader.new ≡ reader.old }

    // Nothing is written before the first line is a tenant, or a configuration.
    ensures unwritten { result ≡ ScriptEnd.Words → writer.new ≡ writer.old }
    ensures no_answer { result ≡ ScriptEnd.Config → writer.new ≡ writer.old }
    ensures no_history { result ≡ ScriptEnd.History → writer.new ≡ writer.old }

    // Where the bytes are known, the answers to all lines are written, or the result of a check.
    ensures no_tenant { command_of words.now ≡ Some Command.Own → result ≡ ScriptEnd.Config
        → IsSome (R.remaining reader.old)
        → first_tenant (all_lines (R.remaining reader.old)) ≡ None }
    ensures no_config { command_of words.now ≡ Some Command.Run → result ≡ ScriptEnd.Config
        → IsSome (R.remaining reader.old)
        → HasNoConfig (all_lines (R.remaining reader.old)) }
    ensures outcomes { command_of words.now ≡ Some Command.Run → result ≡ ScriptEnd.Done
        → IsSome (R.remaining reader.old)
        → AnswersRun (all_lines (R.remaining reader.old))
        (W.contents writer.old) (W.contents writer.new) }
    ensures done { command_of words.now ≡ Some Command.Own → result ≡ ScriptEnd.Done
        → IsSome (R.remaining reader.old)
        → IsSome (first_tenant (all_lines (R.remaining reader.old)))
        × Appends (W.contents writer.old) (W.contents writer.new)
        (own_text (all_lines (R.remaining reader.old))) }
    ensures verdict { command_of words.now ≡ Some Command.Check → result ≡ ScriptEnd.Done
        → IsSome (R.remaining reader.old)
        → IsOk (dump_of (lines_in (R.remaining reader.old)))
        × (text : List ℕ) × AnswersDump (dump_of (lines_in (R.remaining reader.old))) text
        × Appends (W.contents writer.old) (W.contents writer.new) text }
    ensures bad_line { command_of words.now ≡ Some Command.Check → result ≡ ScriptEnd.BadLine
        → IsSome (R.remaining reader.old)
        → IsErr (dump_of (lines_in (R.remaining reader.old)))
        × (text : List ℕ) × AnswersDump (dump_of (lines_in (R.remaining reader.old))) text
        × Appends (W.contents writer.old) (W.contents writer.new) text }
    ensures values { command_of words.now ≡ Some Command.Serial → result ≡ ScriptEnd.Done
        → IsSome (R.remaining reader.old)
        → Appends (W.contents writer.old) (W.contents writer.new)
        (serial_answers (all_lines (R.remaining reader.old))) }

    ensures finished { command_of words.now ≡ Some Command.Finish → result ≡ ScriptEnd.Done
        → IsSome (R.remaining reader.old)
        → Finishes (bytes_in (R.remaining reader.old))
        (W.contents writer.old) (W.contents writer.new) }
    ensures no_dump { command_of words.now ≡ Some Command.Finish → result ≡ ScriptEnd.Config
        → IsSome (R.remaining reader.old)
        → part_in (bytes_in (R.remaining reader.old)) ≡ None }
    ensures wrong { command_of words.now ≡ Some Command.Finish → result ≡ ScriptEnd.History
        → IsSome (R.remaining reader.old)
        → IsWrongPart (bytes_in (R.remaining reader.old)) }

    // A device's fault is the reader's or the writer's.
    ensures cause { HasCause (R.failed reader.new)
        (AreCalls R.called MAX_TURNS 0 reader.old reader.new) (W.failed writer.new) result }

    // At each early end what is written is a first part of that.
    ensures own_part { command_of words.now ≡ Some Command.Own → IsSome (R.remaining reader.old)
        → AppendsPart (W.contents writer.old) (W.contents writer.new)
        (own_text (all_lines (R.remaining reader.old))) }
    ensures run_part { command_of words.now ≡ Some Command.Run → IsSome (R.remaining reader.old)
        → StartsRun (all_lines (R.remaining reader.old))
        (W.contents writer.old) (W.contents writer.new) }
    ensures check_part { command_of words.now ≡ Some Command.Check → IsSome (R.remaining reader.old)
        → (text : List ℕ) → AnswersDump (dump_of (lines_in (R.remaining reader.old))) text
        → AppendsPart (W.contents writer.old) (W.contents writer.new) text }
    ensures finish_part { command_of words.now ≡ Some Command.Finish
        → IsSome (R.remaining reader.old)
        → StartsFinished (bytes_in (R.remaining reader.old))
        (W.contents writer.old) (W.contents writer.new) }
    ensures serial_part { command_of words.now ≡ Some Command.Serial
        → IsSome (R.remaining reader.old)
        → AppendsPart (W.contents writer.old) (W.contents writer.new)
        (serial_answers (all_lines (R.remaining reader.old))) }
{
    let ended = match Command::of(words) {
        Some(Command::Own) => own(alloc, reader, writer),
        Some(Command::Run) => run::<Arena, R, W>(alloc, reader, writer),
        Some(Command::Check) => check_dump(alloc, reader, writer),
        Some(Command::Finish) => finish_dump(alloc, reader, writer),
        Some(Command::Serial) => serial_values(alloc, reader, writer),
        None => Err(ScriptEnd::Words),
    };
    match ended {
        Ok(()) => ScriptEnd::Done,
        Err(end) => end,
    }
}

#[tactic(auto, using(dump_lines::proofs::Parts::part_none))]
fn own<R: Source, W: Sink>(alloc: Global, reader: &mut R, writer: &mut W) -> Result<(), ScriptEnd>
    ensures ends { IfErr result (IsFault Command.Own) }
    ensures cause { IfErr result (HasCause (R.failed reader.new)
        (AreCalls R.called MAX_TURNS 0 reader.old reader.new) (W.failed writer.new)) }
    ensures unwritten { result ≡ Err ScriptEnd.Config → writer.new ≡ writer.old }
    ensures no_tenant { result ≡ Err ScriptEnd.Config → IsSome (R.remaining reader.old)
        → first_tenant (all_lines (R.remaining reader.old)) ≡ None }
    ensures done { OnOk result (IsSome (R.remaining reader.old)
        → IsSome (first_tenant (all_lines (R.remaining reader.old)))
        × Appends (W.contents writer.old) (W.contents writer.new)
        (own_text (all_lines (R.remaining reader.old)))) }
    ensures part { IsSome (R.remaining reader.old)
        → AppendsPart (W.contents writer.old) (W.contents writer.new)
        (own_text (all_lines (R.remaining reader.old))) }
{
    let mut lines = LineReader::new(alloc, MAX_SCRIPT_LINE)?;
    if next_input(&mut lines, reader)? != Input::Line {
        return Err(ScriptEnd::Config);
    }
    take_from(alloc, lines, reader, writer)
}

/// Takes the steps of a tenant that the line read last names.
#[tactic(auto, using(dump_lines::proofs::Parts::part_none))]
fn take_from<R: Source, W: Sink>(
    alloc: Global,
    lines: LineReader,
    reader: &mut R,
    writer: &mut W,
) -> Result<(), ScriptEnd>
    ensures ends { IfErr result (IsFault Command.Own) }
    ensures cause { IfErr result (HasCause (R.failed reader.new)
        (AreCalls R.called lines.turns 0 reader.old reader.new) (W.failed writer.new)) }
    ensures unwritten { result ≡ Err ScriptEnd.Config → writer.new ≡ writer.old }
    ensures no_tenant { result ≡ Err ScriptEnd.Config → tenant_in lines.line ≡ None }
    ensures done { OnOk result (IsSome (R.remaining reader.old)
        → IsSome (tenant_in lines.line)
        × Appends (W.contents writer.old) (W.contents writer.new)
        (own_text (whole lines.line ∷ script_lines lines (R.remaining reader.old)))) }
    ensures part { IsSome (R.remaining reader.old)
        → AppendsPart (W.contents writer.old) (W.contents writer.new)
        (own_text (whole lines.line ∷ script_lines lines (R.remaining reader.old))) }
{
    match read_arena(alloc, lines.line())? {
        Some(mut arena) => take_all(alloc, &mut arena, lines, reader, writer),
        None => Err(ScriptEnd::Config),
    }
}

/// Takes a tenant's steps to the end of a script.
fn take_all<R: Source, W: Sink>(
    alloc: Global,
    arena: &mut Arena,
    mut lines: LineReader,
    reader: &mut R,
    writer: &mut W,
) -> Result<(), ScriptEnd>
    ensures ends { IfErr result (λ end. IsFault Command.Own end × (end ≢ ScriptEnd.Config)) }
    ensures cause { IfErr result (HasCause (R.failed reader.new)
        (AreCalls R.called lines.turns 0 reader.old reader.new) (W.failed writer.new)) }
    ensures done { (s : State) → StandsFor arena.old s
        → OnOk result (IsSome (R.remaining reader.old)
        → Appends (W.contents writer.old) (W.contents writer.new)
        (own_answers s (script_lines lines (R.remaining reader.old)))) }
    ensures part { (s : State) → StandsFor arena.old s
        → IsSome (R.remaining reader.old)
        → AppendsPart (W.contents writer.old) (W.contents writer.new)
        (own_answers s (script_lines lines (R.remaining reader.old))) }
{
    'steps: loop {
        let input = next_input(&mut lines, reader)?;
        let Some(line) = input.lent(&lines) else {
            return Ok(());
        };
        let answer = take_line(alloc, arena, line)?;
        put(writer, told(answer).line())?;
    }
}

/// The line that tells an answer, or that there is none.
fn told(answer: Option<Answer>) -> ReplyBuf
    ensures { result ≡ answer_told answer }
{
    match answer {
        Some(answer) => answer_line(&answer),
        None => bad_step_line(),
    }
}
