// A script of a world, from its first line to its end.
ghost use Rattle.std.specs.Prelude.{◌≡◌, ◌≢◌, ℕ, List, Err, IsSome, IfOk, IfErr, OnOk};
ghost use Rattle.request_reader.specs.Calls.{AreCalls};
ghost use Rattle.request_reader.specs.declared.turns.TheConstants.{MAX_TURNS};
ghost use Rattle.world_model.specs.World.{World as Known};
ghost use Rattle.world_script.specs.Knowing.{Knows};
ghost use Rattle.arena_script.specs.Answered.{AnswersAll, AnswersPart};
ghost use Rattle.arena_script.specs.declared.commands.Command.TheVariants as command;
ghost use Rattle.arena_script.specs.Faults.{HasCause, IsFault};
ghost use Rattle.arena_script.specs.RunAnswers.{AnswersRun, HasNoConfig, StartsRun, TakesLine, TellsOutcome};
ghost use Rattle.arena_script.specs.ScriptLines.{all_lines, line_seen, script_lines};

use crate::devices::put;
use crate::ends::ScriptEnd;
use crate::inputs::{Input, MAX_SCRIPT_LINE, ScriptLine, next_input};
use reply_writer::Sink;
use request_reader::{LineReader, Source};
use std::alloc::{AllocError, Global};
use world_core::TenantArena;
use world_model::Outcome;
use world_script::NamedWorld;

/// Reads a configuration, and then the steps of its world; writes the outcome of each.
#[tactic(auto, using(crate::proofs::Running::starts_none))]
pub(crate) fn run<A: TenantArena, R: Source, W: Sink>(
    alloc: Global,
    reader: &mut R,
    writer: &mut W,
) -> Result<(), ScriptEnd>
    ensures ends { IfErr result (IsFault command.Run) }
    ensures cause { IfErr result (HasCause (R.failed reader.new)
        (AreCalls R.called MAX_TURNS 0 reader.old reader.new) (W.failed writer.new)) }
    ensures unwritten { result ≡ Err ScriptEnd.Config → writer.new ≡ writer.old }
    ensures no_config { result ≡ Err ScriptEnd.Config → IsSome (R.remaining reader.old)
        → HasNoConfig (all_lines (R.remaining reader.old)) }
    ensures done { OnOk result (IsSome (R.remaining reader.old)
        → AnswersRun (all_lines (R.remaining reader.old))
        (W.contents writer.old) (W.contents writer.new)) }
    ensures part { IsSome (R.remaining reader.old)
        → StartsRun (all_lines (R.remaining reader.old))
        (W.contents writer.old) (W.contents writer.new) }
{
    let mut lines = LineReader::new(alloc, MAX_SCRIPT_LINE)?;
    if next_input(&mut lines, reader)? != Input::Line {
        return Err(ScriptEnd::Config);
    }
    match NamedWorld::<A>::read(alloc, lines.line())? {
        Some(mut world) => take_all(alloc, &mut world, lines, reader, writer),
        None => Err(ScriptEnd::Config),
    }
}

/// Takes a world's steps to the end of a script.
fn take_all<A: TenantArena, R: Source, W: Sink>(
    alloc: Global,
    world: &mut NamedWorld<A>,
    mut lines: LineReader,
    reader: &mut R,
    writer: &mut W,
) -> Result<(), ScriptEnd>
    ensures ends { IfErr result (λ end. IsFault command.Run end × (end ≢ ScriptEnd.Config)) }
    ensures cause { IfErr result (HasCause (R.failed reader.new)
        (AreCalls R.called lines.turns 0 reader.old reader.new) (W.failed writer.new)) }
    ensures done { (names : List (List ℕ)) (w : Known) → Knows A.stands_for names w world.old
        → OnOk result (IsSome (R.remaining reader.old) → (final : Known)
        × AnswersAll (TellsOutcome names) (script_lines lines (R.remaining reader.old)) w
        (W.contents writer.old) (W.contents writer.new) final) }
    ensures part { (names : List (List ℕ)) (w : Known) → Knows A.stands_for names w world.old
        → IsSome (R.remaining reader.old)
        → AnswersPart (TellsOutcome names) (script_lines lines (R.remaining reader.old)) w
        (W.contents writer.old) (W.contents writer.new) }
{
    'steps: loop {
        let input = next_input(&mut lines, reader)?;
        let Some(line) = input.lent(&lines) else {
            return Ok(());
        };
        let outcome = take_line(alloc, world, line)?;
        put(writer, world.told(outcome).line())?;
    }
}

/// Takes the step of a line. A line that is too long is no step.
fn take_line<A: TenantArena>(
    alloc: Global,
    world: &mut NamedWorld<A>,
    line: ScriptLine<'_>,
) -> Result<Option<Outcome>, AllocError>
    ensures { (names : List (List ℕ)) (w : Known) → Knows A.stands_for names w world.old
        → IfOk result (λ outcome. (v : Known)
        × (TakesLine names (line_seen line.entry) w outcome v
        × Knows A.stands_for names v world.new)) }
{
    match line {
        ScriptLine::Whole(text) => world.take(alloc, text),
        ScriptLine::TooLong => Ok(None),
    }
}
