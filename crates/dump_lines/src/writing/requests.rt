// The requests of entries as JSON.
ghost use Rattle.std.specs.Prelude.{◌≡◌, Some, Ok, IfOk, OnOk, IfSome, option_map};
ghost use Rattle.serde_json.specs.Data.{number, unsigned};
ghost use Rattle.serde_json.specs.View.{view};
ghost use Rattle.job_json.specs.Job.{job_of};
ghost use Rattle.job_json.specs.JobData.{job_data};
ghost use Rattle.job_language.specs.declared.requests.Request.TheVariants as request;
ghost use Rattle.dump_lines.specs.Lines.{recorded};
ghost use Rattle.dump_lines.specs.Requests.{request_in};
ghost use Rattle.dump_lines.specs.Written.{request_data, bare_request, job_request, count_data};

use job_json::write_job;
use job_language::{Job, Key, Request};
use serde_json::{Value, json};
use std::alloc::{AllocError, Global};

/// A request as JSON; a hello has none here.
pub(super) fn request_value(alloc: Global, request: &Request) -> Result<Option<Value>, AllocError>
    ensures value { IfOk result (λ v. option_map view v ≡ request_data request.now) }
    ensures reads_back { IfOk result (λ v. IfSome v
        (λ v. recorded (request_in (view v)) ≡ Some request.now)) }
{
    let value = match request {
        Request::Hello(_) => return Ok(None),
        Request::Submit(job) => job_brought(alloc, "submit", job),
        Request::Execute(job) => job_brought(alloc, "execute", job),
        Request::Poll(job) => job_named(alloc, "poll", *job),
        Request::Collect(job) => job_named(alloc, "collect", *job),
        Request::Cancel(job) => job_named(alloc, "cancel", *job),
        Request::Cells(key) => cells_request(alloc, *key),
        Request::Arena => bare_request(alloc, "arena"),
        Request::Retire => bare_request(alloc, "retire"),
        Request::Release(job) => job_named(alloc, "release", *job),
        Request::Take(job) => take_request(alloc, *job),
    };
    Ok(Some(value?))
}

/// A request that brings a job.
fn job_brought(alloc: Global, op: &str, job: &Job) -> Result<Value, AllocError>
    ensures value { IfOk result (λ v. view v ≡ job_request op.now (job_data job.now)) }
    ensures reads_back { OnOk result (job_of (job_data job.now) ≡ Ok job.now) }
{
    let job = write_job(alloc, job)?;
    job_request(alloc, op, job)
}

/// A request of a job by its number.
fn job_named(alloc: Global, op: &str, job: u64) -> Result<Value, AllocError>
    ensures { IfOk result (λ v. view v ≡ job_request op.now (number (unsigned job))) }
{
    job_request(alloc, op, Value::from(job))
}

fn cells_request(alloc: Global, key: Key) -> Result<Value, AllocError>
    ensures value { IfOk result (λ v. Some (view v) ≡ request_data (request.Cells key)) }
    ensures reads_back { IfOk result (λ v. recorded (request_in (view v))
        ≡ Some (request.Cells key)) }
{
    json!(in alloc; {"key": key.index() as u64, "op": "cells"})
}

/// A collect that releases the job.
fn take_request(alloc: Global, job: u64) -> Result<Value, AllocError>
    ensures value { IfOk result (λ v. Some (view v) ≡ request_data (request.Take job)) }
    ensures reads_back { IfOk result (λ v. recorded (request_in (view v))
        ≡ Some (request.Take job)) }
{
    json!(in alloc; {"job": job, "op": "collect", "release": true})
}

fn job_request(alloc: Global, op: &str, job: Value) -> Result<Value, AllocError>
    ensures { IfOk result (λ v. view v ≡ job_request op.now (view job)) }
{
    json!(in alloc; {"job": job, "op": op})
}

fn bare_request(alloc: Global, op: &str) -> Result<Value, AllocError>
    ensures { IfOk result (λ v. view v ≡ bare_request op.now) }
{
    json!(in alloc; {"op": op})
}
