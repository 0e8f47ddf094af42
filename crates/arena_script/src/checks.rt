// Checking a dump.
ghost use Rattle.std.specs.Prelude.{◌≡◌, ℕ, List, Err, IsErr, IsOk, IsSome, IfErr, IfOk, OnOk, string_bytes};
ghost use Rattle.std.specs.Io.KnownBytes.{Appends};
ghost use Rattle.request_reader.specs.Calls.{AreCalls};
ghost use Rattle.request_reader.specs.declared.turns.TheConstants.{MAX_TURNS};
ghost use Rattle.dump_lines.specs.Parts.{AppendsPart};
ghost use Rattle.arena_script.specs.declared.commands.Command.TheVariants as command;
ghost use Rattle.arena_script.specs.Faults.{HasCause, IsFault};
ghost use Rattle.arena_script.specs.DumpData.{dump_of};
ghost use Rattle.arena_script.specs.DumpText.{AnswersDump};
ghost use Rattle.arena_script.specs.ScriptLines.{lines_in};
ghost use Rattle.arena_script.specs.VerdictText.{verdict_text, bad_line_text};

use crate::devices::put;
use crate::dumps::{DumpRead, read_dump};
use crate::ends::ScriptEnd;
use reply_writer::Sink;
use request_reader::Source;
use solo_eval::Verdict;
use std::alloc::{AllocError, Global};

/// Reads a dump, and writes its verdict, or the number of its first bad line.
#[tactic(auto, using(dump_lines::proofs::Parts::part_none))]
pub(crate) fn check_dump<R: Source, W: Sink>(
    alloc: Global,
    reader: &mut R,
    writer: &mut W,
) -> Result<(), ScriptEnd>
    ensures verdict { OnOk result (IsSome (R.remaining reader.old)
        → IsOk (dump_of (lines_in (R.remaining reader.old)))
        × (text : List ℕ) × AnswersDump (dump_of (lines_in (R.remaining reader.old))) text
        × Appends (W.contents writer.old) (W.contents writer.new) text) }
    ensures bad_line { result ≡ Err ScriptEnd.BadLine → IsSome (R.remaining reader.old)
        → IsErr (dump_of (lines_in (R.remaining reader.old)))
        × (text : List ℕ) × AnswersDump (dump_of (lines_in (R.remaining reader.old))) text
        × Appends (W.contents writer.old) (W.contents writer.new) text }
    ensures part { IsSome (R.remaining reader.old)
        → (text : List ℕ) → AnswersDump (dump_of (lines_in (R.remaining reader.old))) text
        → AppendsPart (W.contents writer.old) (W.contents writer.new) text }
    ensures ends { IfErr result (IsFault command.Check) }
    ensures cause { IfErr result (HasCause (R.failed reader.new)
        (AreCalls R.called MAX_TURNS 0 reader.old reader.new) (W.failed writer.new)) }
{
    match read_dump(alloc, reader)? {
        DumpRead::Whole(dump) => {
            let verdict = dump.verdict(alloc)?;
            put(writer, verdict_line(alloc, verdict)?.as_bytes())?;
            Ok(())
        }
        DumpRead::BadLine(number) => {
            put(writer, bad_line(alloc, number)?.as_bytes())?;
            Err(ScriptEnd::BadLine)
        }
    }
}

/// The line that tells a verdict.
fn verdict_line(alloc: Global, verdict: Verdict) -> Result<String, AllocError>
    ensures { IfOk result (λ line. string_bytes line ≡ verdict_text verdict) }
{
    match verdict {
        Verdict::Yes => format!(in alloc; "yes\n"),
        Verdict::No(number) => format!(in alloc; "no at step {number}\n"),
    }
}

/// The line that tells the number of a bad line.
fn bad_line(alloc: Global, number: u64) -> Result<String, AllocError>
    ensures { IfOk result (λ line. string_bytes line ≡ bad_line_text number) }
{
    format!(in alloc; "bad line {number}\n")
}
