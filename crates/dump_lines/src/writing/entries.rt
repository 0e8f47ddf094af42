// The entries of a history as JSON.
ghost use Rattle.std.specs.Prelude.{◌≡◌, Some, true, IfOk, IfSome, option_map};
ghost use Rattle.serde_json.specs.View.{view};
ghost use Rattle.job_language.specs.Recorded.{is_entry};
ghost use Rattle.job_language.specs.declared.answers.Answer.TheVariants.{Replied};
ghost use Rattle.job_language.specs.declared.steps.Step.TheVariants as step;
ghost use Rattle.dump_lines.specs.Lines.{SaysEntry, ask, arrival, advance};
ghost use Rattle.dump_lines.specs.Written.{entry_data, step_data, ask_data, advance_data, arrival_data, bare_advance, nested_advance};

use super::replies::reply_value;
use super::requests::request_value;
use job_language::{Answer, Came, Entry, Moved, Reply, Request, Step};
use serde_json::{Value, json};
use std::alloc::{AllocError, Global};

/// An entry as JSON, if a history can hold it.
pub(super) fn entry_value(alloc: Global, entry: &Entry) -> Result<Option<Value>, AllocError>
    ensures value { IfOk result (λ v. option_map view v ≡ entry_data entry.now) }
    ensures reads_back { IfOk result (λ v. IfSome v (λ v. SaysEntry (view v) entry.now)) }
{
    if !entry.answer.is_entry() {
        return Ok(None);
    }
    match (&entry.step, entry.answer) {
        (Step::Ask(request), Answer::Replied(reply)) => ask_value(alloc, request, reply),
        (Step::Arrive(slot), Answer::Came(Came::At(row))) => arrival_value(alloc, *slot, row),
        (Step::Advance(slot), Answer::Moved(moved)) => advance_value(alloc, *slot, moved),
        _ => Ok(None),
    }
}

#[tactic(auto, using(crate::proofs::RoundTrip::read_ask))]
fn ask_value(alloc: Global, request: &Request, reply: Reply) -> Result<Option<Value>, AllocError>
    requires { is_entry (Replied reply) ≡ true }
    ensures value { IfOk result (λ v. option_map view v
        ≡ step_data (step.Ask request.now) (Replied reply)) }
    ensures reads_back { IfOk result (λ v. IfSome v
        (λ v. SaysEntry (view v) (ask request.now reply))) }
{
    let Some(request) = request_value(alloc, request)? else {
        return Ok(None);
    };
    let reply = reply_value(alloc, reply)?;
    Ok(Some(ask_data(alloc, reply, request)?))
}

fn ask_data(alloc: Global, reply: Value, request: Value) -> Result<Value, AllocError>
    ensures { IfOk result (λ v. view v ≡ ask_data (view reply) (view request)) }
{
    json!(in alloc; {"reply": reply, "request": request, "step": "ask"})
}

fn arrival_value(alloc: Global, slot: u8, row: u64) -> Result<Option<Value>, AllocError>
    ensures value { IfOk result (λ v. option_map view v ≡ Some (arrival_data slot row)) }
    ensures reads_back { IfOk result (λ v. IfSome v (λ v. SaysEntry (view v) (arrival slot row))) }
{
    let value = json!(in alloc; {"moved": "arrived", "row": row, "slot": slot, "step": "arrive"})?;
    Ok(Some(value))
}

fn advance_value(alloc: Global, slot: u8, moved: Moved) -> Result<Option<Value>, AllocError>
    ensures value { IfOk result (λ v. option_map view v ≡ advance_data slot moved) }
    ensures reads_back { IfOk result (λ v. IfSome v
        (λ v. SaysEntry (view v) (advance slot moved))) }
{
    let value = match moved {
        Moved::Ran => bare_advance(alloc, "ran", slot),
        Moved::Freed => bare_advance(alloc, "freed", slot),
        Moved::Nested(row) => nested_advance(alloc, slot, row),
        Moved::Left | Moved::Idle | Moved::Stale | Moved::Full => return Ok(None),
    };
    Ok(Some(value?))
}

fn bare_advance(alloc: Global, word: &str, slot: u8) -> Result<Value, AllocError>
    ensures { IfOk result (λ v. view v ≡ bare_advance word.now slot) }
{
    json!(in alloc; {"moved": word, "slot": slot, "step": "advance"})
}

fn nested_advance(alloc: Global, slot: u8, row: u64) -> Result<Value, AllocError>
    ensures { IfOk result (λ v. view v ≡ nested_advance slot row) }
{
    json!(in alloc; {"moved": "nested", "row": row, "slot": slot, "step": "advance"})
}
