// What the lines of a dump after the first say.
ghost use Rattle.std.specs.Prelude.{◌≡◌, Some, codes, IfOk, OnErr};
ghost use Rattle.serde_json.specs.View.{view};
ghost use Rattle.job_json.specs.Json.{get_as};
ghost use Rattle.request_reader.specs.Answers.{HasJob};
ghost use Rattle.request_reader.specs.Asks.{asked_by_value};
ghost use Rattle.request_reader.specs.LineAsks.{IsText};
ghost use Rattle.dump_lines.specs.Lines.{said_by, said_in_value, entry_in, ask_in, arrival_in, advance_in, moved_in, nested_in, ask, arrival, advance, recorded};
ghost use Rattle.dump_lines.specs.Replies.{only, reply_in, two};
ghost use Rattle.dump_lines.specs.Requests.{request_in};

use crate::members::{is_word, natural, slot};
use crate::replies::reply_in;
use crate::requests::request_in;
use job_json::values::{has_members, take_member};
use job_language::{Answer, Came, Entry, Moved, Reply, Request, Step};
use request_reader::value_in;
use serde_json::Value;
use std::alloc::{AllocError, Global};

/// What a line of a dump says.
#[derive(Drop)]
pub enum Said {
    /// An entry of a history.
    Entry(Entry),
    /// An entry of a slot that no tenant has, or with an answer that no tenant gives.
    Foreign,
}

/// What a line says, if it has the shape of an entry. It fails only if an allocation failed.
pub fn said_by(alloc: Global, line: &[u8]) -> Result<Option<Said>, AllocError>
    ensures ok { IfOk result (λ said. said ≡ said_by line.now) }
    ensures takes { OnErr result (IsText line.now) }
{
    match value_in(alloc, line)? {
        Some(value) => said_in_value(alloc, value),
        None => Ok(None),
    }
}

fn said_in_value(alloc: Global, value: Value) -> Result<Option<Said>, AllocError>
    ensures { IfOk result (λ said. said ≡ said_in_value (view value)) }
{
    match entry_in(alloc, value)? {
        Some(Some(entry)) => Ok(Some(Said::Entry(entry))),
        Some(None) => Ok(Some(Said::Foreign)),
        None => Ok(None),
    }
}

/// The entry that a value spells; one that no tenant has is an inner `None`.
fn entry_in(alloc: Global, value: Value) -> Result<Option<Option<Entry>>, AllocError>
    ensures { IfOk result (λ entry. entry ≡ entry_in (view value)) }
{
    if is_word("step", "ask", &value) {
        asked(alloc, value)
    } else if is_word("step", "arrive", &value) && is_word("moved", "arrived", &value) {
        Ok(arrived(&value))
    } else if is_word("step", "advance", &value) {
        Ok(advanced(&value))
    } else {
        Ok(None)
    }
}

fn asked(alloc: Global, value: Value) -> Result<Option<Option<Entry>>, AllocError>
    ensures { IfOk result (λ entry. entry ≡ ask_in (view value)) }
{
    if !has_members(3, &value) {
        return Ok(None);
    }
    let Some(reply) = reply_of(&value) else {
        return Ok(None);
    };
    let Some(request) = take_member("request", value) else {
        return Ok(None);
    };
    match recorded(alloc, request)? {
        Some(request) => Ok(Some(ask(request, reply))),
        None => Ok(None),
    }
}

fn reply_of(value: &Value) -> Option<Option<Reply>>
    ensures { result ≡ get_as (codes "reply") reply_in (view value.now) }
{
    reply_in(value.get("reply")?)
}

fn ask(request: Request, reply: Option<Reply>) -> Option<Entry>
    ensures { result ≡ two ask (Some request) reply }
{
    Some(Entry {
        answer: Answer::Replied(reply?),
        step: Step::Ask(request),
    })
}

/// The request that a value spells, if it is valid and no hello.
fn recorded(alloc: Global, value: Value) -> Result<Option<Request>, AllocError>
    ensures ok { IfOk result (λ request. request ≡ recorded (request_in (view value))) }
    ensures takes { OnErr result (HasJob (asked_by_value (view value))) }
{
    match request_in(alloc, value)? {
        Ok(Request::Hello(_)) | Err(_) => Ok(None),
        Ok(request) => Ok(Some(request)),
    }
}

fn arrived(value: &Value) -> Option<Option<Entry>>
    ensures { result ≡ arrival_in (view value.now) }
{
    if !has_members(4, value) {
        return None;
    }
    let slot = slot("slot", value)?;
    Some(arrival(slot, natural("row", value)?))
}

fn arrival(slot: Option<u8>, row: Option<u64>) -> Option<Entry>
    ensures { result ≡ two arrival slot row }
{
    Some(Entry {
        step: Step::Arrive(slot?),
        answer: Answer::Came(Came::At(row?)),
    })
}

fn advanced(value: &Value) -> Option<Option<Entry>>
    ensures { result ≡ advance_in (view value.now) }
{
    let slot = slot("slot", value)?;
    Some(advance(slot, moved_in(value)?))
}

fn advance(slot: Option<u8>, moved: Option<Moved>) -> Option<Entry>
    ensures { result ≡ two advance slot moved }
{
    Some(Entry {
        step: Step::Advance(slot?),
        answer: Answer::Moved(moved?),
    })
}

/// What an advance did; a row of a number below 0 is an inner `None`.
fn moved_in(value: &Value) -> Option<Option<Moved>>
    ensures { result ≡ moved_in (view value.now) }
{
    if is_word("moved", "ran", value) {
        bare(Moved::Ran, value)
    } else if is_word("moved", "freed", value) {
        bare(Moved::Freed, value)
    } else if is_word("moved", "nested", value) {
        nested(value)
    } else {
        None
    }
}

/// What an advance did that names no row.
fn bare(moved: Moved, value: &Value) -> Option<Option<Moved>>
    ensures { result ≡ only 3 (view value.now) (Some (Some moved)) }
{
    if has_members(3, value) {
        Some(Some(moved))
    } else {
        None
    }
}

fn nested(value: &Value) -> Option<Option<Moved>>
    ensures { result ≡ nested_in (view value.now) }
{
    if !has_members(4, value) {
        return None;
    }
    Some(natural("row", value)?.map(Moved::Nested))
}
