// The replies that the lines of a dump hold.
ghost use Rattle.std.specs.Prelude.{◌≡◌, ◌==◌, None, Some, find, if◌then◌else◌};
ghost use Rattle.serde_json.specs.View.{view};
ghost use Rattle.job_language.specs.declared.answers.Reply.TheVariants as reply;
ghost use Rattle.job_language.specs.ErrorCodes.{code_of};
ghost use Rattle.dump_lines.specs.Replies.{arena_in, canceled_in, cells_in, complete_in, epoch_in, error_in, errors, faulted_in, job_canceled_in, made_in, named_in, placed_in, refusal_in, released_in, reply_in, running_in, three, two};

use crate::members::{fault, is_word, key, natural, signed, slot, word};
use job_json::values::has_members;
use job_language::{Error, Key, Level, Reply, Status};
use serde_json::Value;

/// The reply that a value spells. A value without the shape of one has none; one of such a shape
/// that no tenant gives, as with slot 300, is an inner `None`.
pub(crate) fn reply_in(value: &Value) -> Option<Option<Reply>>
    ensures { result ≡ reply_in (view value.now) }
{
    made(value)
        .or(epoch(value))
        .or(released(value))
        .or(named(value))
        .or(refused(value))
        .or(placed(value))
        .or(canceled(value))
        .or(running(value))
        .or(job_canceled(value))
        .or(complete(value))
        .or(faulted(value))
        .or(arena(value))
        .or(cells(value))
}

fn made(value: &Value) -> Option<Option<Reply>>
    ensures { result ≡ made_in (view value.now) }
{
    if !has_members(1, value) {
        return None;
    }
    Some(natural("job", value)?.map(Reply::Made))
}

fn epoch(value: &Value) -> Option<Option<Reply>>
    ensures { result ≡ epoch_in (view value.now) }
{
    if !has_members(1, value) {
        return None;
    }
    Some(natural("epoch", value)?.map(Reply::Epoch))
}

fn released(value: &Value) -> Option<Option<Reply>>
    ensures { result ≡ released_in (view value.now) }
{
    if !has_members(1, value) {
        return None;
    }
    Some(natural("released", value)?.map(Reply::Released))
}

/// The name with which a hello is answered; a tenant never answers with it.
fn named(value: &Value) -> Option<Option<Reply>>
    ensures { result ≡ named_in (view value.now) }
{
    if !has_members(1, value) {
        return None;
    }
    let _name = word("tenant", value)?;
    Some(None)
}

fn refused(value: &Value) -> Option<Option<Reply>>
    ensures { result ≡ refusal_in (view value.now) }
{
    if !has_members(2, value) {
        return None;
    }
    Some(Some(Reply::Refused(error_in(value)?)))
}

fn placed(value: &Value) -> Option<Option<Reply>>
    ensures { result ≡ placed_in (view value.now) }
{
    if !has_members(2, value) {
        return None;
    }
    let job = natural("job", value)?;
    Some(placed_at(job, slot("slot", value)?))
}

fn placed_at(job: Option<u64>, slot: Option<u8>) -> Option<Reply>
    ensures { result ≡ two reply.Placed job slot }
{
    Some(Reply::Placed(job?, slot?))
}

fn canceled(value: &Value) -> Option<Option<Reply>>
    ensures { result ≡ canceled_in (view value.now) }
{
    if !has_members(2, value) {
        return None;
    }
    let job = natural("job", value)?;
    Some(canceled_by(job, value.get("first")?.as_bool()?))
}

fn canceled_by(job: Option<u64>, first: bool) -> Option<Reply>
    ensures { result ≡ two reply.Cancelled job (Some first) }
{
    Some(Reply::Cancelled(job?, first))
}

fn running(value: &Value) -> Option<Option<Reply>>
    ensures { result ≡ running_in (view value.now) }
{
    if !has_members(2, value) || !is_word("status", "running", value) {
        return None;
    }
    Some(job_of(natural("job", value)?, Some(Status::Running)))
}

fn job_canceled(value: &Value) -> Option<Option<Reply>>
    ensures { result ≡ job_canceled_in (view value.now) }
{
    if !has_members(2, value) || !is_word("status", "canceled", value) {
        return None;
    }
    Some(job_of(natural("job", value)?, Some(Status::Cancelled)))
}

fn complete(value: &Value) -> Option<Option<Reply>>
    ensures { result ≡ complete_in (view value.now) }
{
    if !has_members(3, value) || !is_word("status", "complete", value) {
        return None;
    }
    let job = natural("job", value)?;
    Some(job_of(job, signed("value", value)?.map(Status::Complete)))
}

fn faulted(value: &Value) -> Option<Option<Reply>>
    ensures { result ≡ faulted_in (view value.now) }
{
    if !has_members(3, value) || !is_word("status", "fault", value) {
        return None;
    }
    let job = natural("job", value)?;
    Some(job_of(job, fault("fault", value)?.map(Status::Fault)))
}

fn job_of(job: Option<u64>, status: Option<Status>) -> Option<Reply>
    ensures { result ≡ two reply.Job job status }
{
    Some(Reply::Job(job?, status?))
}

fn arena(value: &Value) -> Option<Option<Reply>>
    ensures { result ≡ arena_in (view value.now) }
{
    if !has_members(3, value) {
        return None;
    }
    let level = Level::named(word("priority", value)?)?;
    let reserved = slot("reserved", value)?;
    Some(arena_of(level, reserved, slot("slots", value)?))
}

fn arena_of(level: Level, reserved: Option<u8>, slots: Option<u8>) -> Option<Reply>
    ensures { result ≡ three reply.Arena (Some level) reserved slots }
{
    Some(Reply::Arena(level, reserved?, slots?))
}

fn cells(value: &Value) -> Option<Option<Reply>>
    ensures { result ≡ cells_in (view value.now) }
{
    if !has_members(3, value) {
        return None;
    }
    let key = key("key", value)?;
    let count = natural("count", value)?;
    Some(cells_of(key, count, signed("sum", value)?))
}

fn cells_of(key: Option<Key>, count: Option<u64>, sum: Option<i64>) -> Option<Reply>
    ensures { result ≡ three reply.Cells key count sum }
{
    Some(Reply::Cells(key?, count?, sum?))
}

/// The error whose code and name stand there.
fn error_in(value: &Value) -> Option<Error>
    ensures { result ≡ error_in (view value.now) }
{
    let error = error_coded(value.get("code")?.as_u64()?)?;
    if is_word("error", error.name(), value) {
        Some(error)
    } else {
        None
    }
}

fn error_coded(code: u64) -> Option<Error>
    ensures { result ≡ find (λ e. code_of e == code) errors }
{
    match code {
        1 => Some(Error::LineTooLong),
        2 => Some(Error::BadJson),
        3 => Some(Error::BadRequest),
        4 => Some(Error::BadProgram),
        5 => Some(Error::UnknownTenant),
        6 => Some(Error::UnknownJob),
        7 => Some(Error::JobLimit),
        8 => Some(Error::HistoryFull),
        9 => Some(Error::NoMemory),
        10 => Some(Error::TaskLimit),
        11 => Some(Error::NoTenant),
        12 => Some(Error::Busy),
        13 => Some(Error::ConnectionLimit),
        _ => None,
    }
}
