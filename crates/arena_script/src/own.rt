// The steps of one tenant, as the lines of a script spell them, and their answers.
ghost use Rattle.std.specs.Prelude.{◌≡◌, option_and_then, option_map, Some, None, IfNone, IfSome, IfOk, OnErr, codes};
ghost use Rattle.job_language.specs.declared.steps.Step.TheVariants as step;
ghost use Rattle.job_language.specs.declared.tenants.Tenant.{Tenant as Limits};
ghost use Rattle.tenant_model.specs.Solo.{step as step_of};
ghost use Rattle.tenant_model.specs.State.{State, empty};
ghost use Rattle.serde_json.specs.Find.{as_str, get};
ghost use Rattle.serde_json.specs.View.{view};
ghost use Rattle.job_json.specs.Json.{get_as};
ghost use Rattle.request_reader.specs.Answers.{HasJob};
ghost use Rattle.request_reader.specs.Asks.{asked_by_value};
ghost use Rattle.request_reader.specs.LineAsks.{IsText, value_in};
ghost use Rattle.arena_core.specs.Stands.{StandsFor, Takes};
ghost use Rattle.dump_lines.specs.Requests.{request_in, tenant_in};
ghost use Rattle.arena_script.specs.ScriptAnswers.{line_taken};
ghost use Rattle.arena_script.specs.ScriptLines.{line_seen, IsTextLine};
ghost use Rattle.arena_script.specs.Steps.{asked, slot_of, step_taken, value_taken};
ghost use Rattle.arena_script.specs.Taken.{or_none, StepTakesMemory, ValueTakesMemory};

use crate::inputs::ScriptLine;
use arena_core::Arena;
use dump_lines::{request_in, tenant_of};
use job_json::values::{has_members, take_member};
use job_language::{Answer, Reply};
use request_reader::value_in;
use serde_json::Value;
use std::alloc::{AllocError, Global};

/// The arena of the tenant that a script's first line names, which has done nothing yet.
#[tactic(auto, using(crate::proofs::Telling::text_of_tenant))]
pub(crate) fn read_arena(alloc: Global, line: &[u8]) -> Result<Option<Arena>, AllocError>
    ensures none { IfOk result (λ arena. IfNone arena (tenant_in line.now ≡ None)) }
    ensures new { IfOk result (λ arena. IfSome arena
        (λ arena. (c : Limits) × (tenant_in line.now ≡ Some c)
        × StandsFor arena (empty c))) }
    ensures takes { OnErr result (IsText line.now) }
{
    match tenant_of(alloc, line)? {
        Some(config) => Ok(Some(Arena::new(alloc, config)?)),
        None => Ok(None),
    }
}

/// Takes the step of a line, and gives the answer; what is no step has none. A line that is too long
/// is no step.
pub(crate) fn take_line(
    alloc: Global,
    arena: &mut Arena,
    line: ScriptLine<'_>,
) -> Result<Option<Answer>, AllocError>
    ensures ok { (s : State) → StandsFor arena.old s → IfOk result (λ answer.
        Takes arena.new answer (or_none s (line_taken s (line_seen line.entry)))) }
    ensures err { OnErr result (arena.new ≡ arena.old) }
    ensures takes { OnErr result (IsTextLine (line_seen line.entry)) }
{
    match line {
        ScriptLine::Whole(text) => take(alloc, arena, text),
        ScriptLine::TooLong => Ok(None),
    }
}

/// Takes the step of a line.
fn take(alloc: Global, arena: &mut Arena, line: &[u8]) -> Result<Option<Answer>, AllocError>
    ensures ok { (s : State) → StandsFor arena.old s → IfOk result (λ answer.
        Takes arena.new answer (or_none s (option_and_then (value_taken s) (value_in line.now)))) }
    ensures err { OnErr result (arena.new ≡ arena.old) }
    ensures takes { OnErr result (IsText line.now) }
{
    match value_in(alloc, line)? {
        Some(value) => take_value(alloc, arena, value),
        None => Ok(None),
    }
}

/// Takes the step that a value spells.
fn take_value(alloc: Global, arena: &mut Arena, value: Value) -> Result<Option<Answer>, AllocError>
    ensures ok { (s : State) → StandsFor arena.old s → IfOk result (λ answer.
        Takes arena.new answer (or_none s (value_taken s (view value)))) }
    ensures err { OnErr result (arena.new ≡ arena.old) }
    ensures takes { OnErr result (ValueTakesMemory (view value)) }
{
    if !has_members(2, &value) {
        return Ok(None);
    }
    let Some(name) = step_name(&value) else {
        return Ok(None);
    };
    match name {
        "ask" => ask(alloc, arena, value),
        "arrive" => Ok(arrive(arena, &value)),
        "advance" => Ok(advance(arena, &value)),
        _ => Ok(None),
    }
}

fn step_name(value: &Value) -> Option<&str>
    ensures { option_map (λ name. name.now) result ≡ get_as (codes "step") as_str (view value.now) }
{
    value.get("step")?.as_str()
}

fn ask(alloc: Global, arena: &mut Arena, value: Value) -> Result<Option<Answer>, AllocError>
    ensures ok { (s : State) → StandsFor arena.old s → IfOk result (λ answer.
        Takes arena.new answer (or_none s (step_taken s (codes "ask") (view value)))) }
    ensures err { OnErr result (arena.new ≡ arena.old) }
    ensures takes { OnErr result (StepTakesMemory (codes "ask") (view value)) }
{
    match take_member("request", value) {
        Some(request) => Ok(Some(Answer::Replied(reply_to(alloc, arena, request)?))),
        None => Ok(None),
    }
}

fn reply_to(alloc: Global, arena: &mut Arena, request: Value) -> Result<Reply, AllocError>
    ensures ok { (s : State) → StandsFor arena.old s → IfOk result (λ reply.
        Takes arena.new (Answer.Replied reply) (asked s (request_in (view request)))) }
    ensures err { OnErr result (arena.new ≡ arena.old) }
    ensures takes { OnErr result (HasJob (asked_by_value (view request))) }
{
    match request_in(alloc, request)? {
        Ok(request) => Ok(arena.ask(request)),
        Err(error) => Ok(Reply::Refused(error)),
    }
}

fn arrive(arena: &mut Arena, value: &Value) -> Option<Answer>
    ensures { (s : State) → StandsFor arena.old s
        → Takes arena.new result (or_none s (step_taken s (codes "arrive") (view value.now))) }
{
    let slot = slot_of(arena, value)?;
    Some(Answer::Came(arena.arrive(slot)))
}

fn advance(arena: &mut Arena, value: &Value) -> Option<Answer>
    ensures { (s : State) → StandsFor arena.old s
        → Takes arena.new result (or_none s (step_taken s (codes "advance") (view value.now))) }
{
    let slot = slot_of(arena, value)?;
    Some(Answer::Moved(arena.advance(slot)))
}

/// The slot that a value names, if the tenant has it.
fn slot_of(arena: &Arena, value: &Value) -> Option<u8>
    ensures { (s : State) → StandsFor arena.now s → result ≡ slot_of s (view value.now) }
{
    let slot = value.get("slot")?.as_u64()?;
    if slot < u64::from(arena.config().slots) {
        Some(slot as u8)
    } else {
        None
    }
}
