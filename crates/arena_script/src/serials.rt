// The serial values of jobs, one on each line.
ghost use Rattle.std.specs.Prelude.{◌≡◌, IsSome, Ok, IfOk, IfErr, OnErr, OnOk};
ghost use Rattle.std.specs.Io.KnownBytes.{Appends};
ghost use Rattle.std.specs.Result.{result_map_both};
ghost use Rattle.serde_json.specs.View.{view};
ghost use Rattle.job_language.specs.declared.errors.Error.TheVariants.{BadProgram};
ghost use Rattle.job_json.specs.Job.{job_of};
ghost use Rattle.request_reader.specs.Calls.{AreCalls};
ghost use Rattle.request_reader.specs.declared.turns.TheConstants.{MAX_TURNS};
ghost use Rattle.request_reader.specs.LineAsks.{IsText};
ghost use Rattle.request_reader.specs.Lines.{whole};
ghost use Rattle.dump_lines.specs.Parts.{AppendsPart};
ghost use Rattle.arena_script.specs.ScriptLines.{all_lines, line_seen, IsTextLine};
ghost use Rattle.arena_script.specs.SerialAnswers.{job_in, serial_answer, serial_answers};
ghost use Rattle.arena_script.specs.declared.commands.Command.TheVariants as command;
ghost use Rattle.arena_script.specs.Faults.{HasCause, IsFault};

use crate::devices::put;
use crate::ends::ScriptEnd;
use crate::inputs::{MAX_SCRIPT_LINE, ScriptLine, next_input};
use job_json::{Refused, read_job};
use job_language::{Error, Job};
use reply_writer::{SerialAnswer, Sink, serial_line};
use request_reader::{LineReader, Source, value_in};
use serde_json::Value;
use serial_eval::serial;
use std::alloc::{AllocError, Global};

/// Reads a job from each line, and writes its serial value with its fuel as the number of
/// instructions, or why there is none.
pub(crate) fn serial_values<R: Source, W: Sink>(
    alloc: Global,
    reader: &mut R,
    writer: &mut W,
) -> Result<(), ScriptEnd>
    ensures ends { IfErr result (IsFault command.Serial) }
    ensures cause { IfErr result (HasCause (R.failed reader.new)
        (AreCalls R.called MAX_TURNS 0 reader.old reader.new) (W.failed writer.new)) }
    ensures done { OnOk result (IsSome (R.remaining reader.old)
        → Appends (W.contents writer.old) (W.contents writer.new)
        (serial_answers (all_lines (R.remaining reader.old)))) }
    ensures part { IsSome (R.remaining reader.old)
        → AppendsPart (W.contents writer.old) (W.contents writer.new)
        (serial_answers (all_lines (R.remaining reader.old))) }
{
    let mut lines = LineReader::new(alloc, MAX_SCRIPT_LINE)?;
    loop {
        let input = next_input(&mut lines, reader)?;
        let Some(line) = input.lent(&lines) else {
            return Ok(());
        };
        let answer = serial_of_line(alloc, line)?;
        put(writer, serial_line(&answer).line())?;
    }
}

/// The answer to a line.
fn serial_of_line(alloc: Global, line: ScriptLine<'_>) -> Result<SerialAnswer, AllocError>
    ensures ok { IfOk result (λ answer. answer ≡ serial_answer (job_in (line_seen line.entry))) }
    ensures takes { OnErr result (IsTextLine (line_seen line.entry)) }
{
    match line {
        ScriptLine::Whole(text) => serial_in(alloc, text),
        ScriptLine::TooLong => Ok(SerialAnswer::Refused(Error::LineTooLong)),
    }
}

/// The answer to the job that a text spells.
fn serial_in(alloc: Global, line: &[u8]) -> Result<SerialAnswer, AllocError>
    ensures ok { IfOk result (λ answer. answer ≡ serial_answer (job_in (whole line.now))) }
    ensures takes { OnErr result (IsText line.now) }
{
    match value_in(alloc, line)? {
        Some(value) => serial_of_value(alloc, &value),
        None => Ok(SerialAnswer::Refused(Error::BadJson)),
    }
}

fn serial_of_value(alloc: Global, value: &Value) -> Result<SerialAnswer, AllocError>
    ensures { IfOk result (λ answer. answer ≡ serial_answer
        (result_map_both (λ job. job) (λ place. BadProgram) (job_of (view value.now)))) }
{
    match read_job(alloc, value) {
        Ok(job) => serial_of_job(alloc, &job),
        Err(Refused::Bad { .. }) => Ok(SerialAnswer::Refused(Error::BadProgram)),
        Err(Refused::Memory(error)) => Err(error),
    }
}

fn serial_of_job(alloc: Global, job: &Job) -> Result<SerialAnswer, AllocError>
    ensures { IfOk result (λ answer. answer ≡ serial_answer (Ok job.now)) }
{
    if !job.program.is_serial() {
        return Ok(SerialAnswer::NotSerial);
    }
    match serial(alloc, &job.program, job.args, job.fuel.instructions())? {
        Some(value) => Ok(SerialAnswer::Value(value)),
        None => Ok(SerialAnswer::NoValue),
    }
}
