// What a line asks for.
ghost use Rattle.std.specs.Prelude.{◌≡◌, ◌≤◌, length, IfOk, OnErr, option_map};
ghost use Rattle.std.specs.List.{list_all};
ghost use Rattle.serde_json.specs.View.{view};
ghost use Rattle.job_json.specs.Json.{result_map};
ghost use Rattle.request_reader.specs.Asks.{asked_by_value, collect_of, collect_with, plain_asked, plain_of, hello_of, number_of, key_of, job_value, alone, operand};
ghost use Rattle.request_reader.specs.Answers.{asked_data};
ghost use Rattle.request_reader.specs.Blank.{is_blank_byte};
ghost use Rattle.request_reader.specs.Exact.{ExactOrNoMemory};
ghost use Rattle.request_reader.specs.LineAsks.{asked_by, request_of, value_in, IsShortText, IsText};

use crate::canonical::canonical_request;
use job_json::values::{has_members, take_member};
use job_language::{Error, Job, Key, Request, TenantName};
use serde_json::Value;
use std::alloc::{AllocError, Global};

/// How many bytes the line of a request may have, without its newline.
pub const MAX_REQUEST: usize = 65_536;

const _: () = prove!(MAX_REQUEST == 65_536);

/// What a line asks for, before its job is read.
#[derive(Drop)]
pub enum Asked {
    /// A request that brings no job.
    Plain(Request),
    /// The job of a submit, not read yet.
    Submit(Value),
    /// The job of an execute, not read yet.
    Execute(Value),
    /// The job of a submit, read from its canonical text.
    SubmitJob(Job),
    /// The job of an execute, read from its canonical text.
    ExecuteJob(Job),
}

/// Whether a line has only spaces, tabs and carriage returns, or nothing.
pub fn is_blank(line: &[u8]) -> bool
    ensures { result ≡ list_all is_blank_byte line.now }
{
    line.iter().all(|b| is_blank_byte(*b))
}

fn is_blank_byte(b: u8) -> bool
    ensures { result ≡ is_blank_byte b }
{
    b == b' ' || b == b'\t' || b == b'\r'
}

/// The request that a line spells. Errors come in this order: too long, no JSON, no request. Only a
/// text takes memory.
pub fn read_request(alloc: Global, line: &[u8]) -> Result<Asked, Error>
    ensures { ExactOrNoMemory asked_data (IsShortText line.now) result (asked_by line.now) }
{
    if line.len() > MAX_REQUEST {
        return Err(Error::LineTooLong);
    }
    match canonical_request(alloc, line) {
        Some(asked) => Ok(asked),
        None => read_any(alloc, line),
    }
}

/// The request that a line spells, in whatever way, by the JSON value that it is.
fn read_any(alloc: Global, line: &[u8]) -> Result<Asked, Error>
    requires { length line.now ≤ MAX_REQUEST }
    ensures { ExactOrNoMemory asked_data (IsShortText line.now) result (asked_by line.now) }
{
    match value_in(alloc, line)? {
        Some(value) => request_of(value),
        None => Err(Error::BadJson),
    }
}

/// The JSON value that a line spells, if it spells one. It fails only if an allocation failed.
pub fn value_in(alloc: Global, line: &[u8]) -> Result<Option<Value>, AllocError>
    ensures ok { IfOk result (λ value. option_map view value ≡ value_in line.now) }
    ensures takes { OnErr result (IsText line.now) }
{
    let Ok(text) = str::from_utf8(line) else {
        return Ok(None);
    };
    match Value::from_str(alloc, text) {
        Ok(value) => Ok(Some(value)),
        Err(error) if error.is_memory() => Err(AllocError),
        Err(_) => Ok(None),
    }
}

/// The request that a value spells. The job of `submit` and `execute` is taken out of the value,
/// whatever it is.
pub fn request_of(value: Value) -> Result<Asked, Error>
    ensures { result_map asked_data result ≡ request_of (view value) }
{
    asked_in(value).ok_or(Error::BadRequest)
}

fn asked_in(value: Value) -> Option<Asked>
    ensures { option_map asked_data result ≡ asked_by_value (view value) }
{
    let op = value.get("op")?.as_str()?;
    match op {
        "submit" => Some(Asked::Submit(job_value(value)?)),
        "execute" => Some(Asked::Execute(job_value(value)?)),
        _ => plain_asked(op, &value),
    }
}

fn plain_asked(op: &str, value: &Value) -> Option<Asked>
    ensures { option_map asked_data result ≡ plain_asked op.now (view value.now) }
{
    Some(Asked::Plain(plain_of(op, value)?))
}

/// The request of that name, which holds no job.
fn plain_of(op: &str, value: &Value) -> Option<Request>
    ensures { result ≡ plain_of op.now (view value.now) }
{
    match op {
        "hello" => Some(Request::Hello(hello_of(value)?)),
        "poll" => Some(Request::Poll(number_of(value)?)),
        "collect" => collect_of(value),
        "cancel" => Some(Request::Cancel(number_of(value)?)),
        "cells" => Some(Request::Cells(key_of(value)?)),
        "arena" => alone(value, Request::Arena),
        "retire" => alone(value, Request::Retire),
        "release" => Some(Request::Release(number_of(value)?)),
        _ => None,
    }
}

/// A request that has no member beside its name.
fn alone(value: &Value, request: Request) -> Option<Request>
    ensures { result ≡ alone (view value.now) request }
{
    if has_members(1, value) {
        Some(request)
    } else {
        None
    }
}

/// What the member of that name is, if it is the only one beside the request's name.
fn operand<'v>(name: &str, value: &'v Value) -> Option<&'v Value>
    ensures { option_map (λ v. view v.now) result ≡ operand name.now (view value.now) }
{
    if has_members(2, value) {
        value.get(name)
    } else {
        None
    }
}

/// Any text; one that can name no tenant is `None`.
fn hello_of(value: &Value) -> Option<Option<TenantName>>
    ensures { result ≡ hello_of (view value.now) }
{
    let name = operand("tenant", value)?.as_str()?;
    Some(TenantName::new(name))
}

fn number_of(value: &Value) -> Option<u64>
    ensures { result ≡ number_of (view value.now) }
{
    operand("job", value)?.as_u64()
}

/// A collect, which may say whether the job is released with its outcome.
fn collect_of(value: &Value) -> Option<Request>
    ensures { result ≡ collect_of (view value.now) }
{
    if has_members(3, value) {
        collect_with(value)
    } else {
        Some(Request::Collect(number_of(value)?))
    }
}

fn collect_with(value: &Value) -> Option<Request>
    ensures { result ≡ collect_with (view value.now) }
{
    let job = value.get("job")?.as_u64()?;
    if value.get("release")?.as_bool()? {
        Some(Request::Take(job))
    } else {
        Some(Request::Collect(job))
    }
}

fn key_of(value: &Value) -> Option<Key>
    ensures { result ≡ key_of (view value.now) }
{
    Key::new(operand("key", value)?.as_u64()?)
}

fn job_value(value: Value) -> Option<Value>
    ensures { option_map view result ≡ job_value (view value) }
{
    if has_members(2, &value) {
        take_member("job", value)
    } else {
        None
    }
}
