// Texts that are read and written, each call made again if an allocation failed.
use crate::jobs::FIBONACCI;
use crate::retries::again;
use job_json::{read_config, read_job, read_tenant, write_job, write_tenant};
use job_language::Request;
use request_reader::{ready, request_of};
use serde_json::Value;
use std::alloc::Global;

const CONFIG: &str =
    r#"{"tenants":[{"name":"acme","priority":"normal","reserved":1,"rows":200,"slots":2,"steps":10000}],"workers":2}"#;

const REQUEST: &str = r#"{"job":{"args":[7,0],"fuel":10,"procs":[[["ret",0]]]},"op":"submit"}"#;

/// Whether a job is written as it was read.
pub(crate) fn is_job_written_back(alloc: Global) -> Option<bool> {
    let value = again(|| Value::from_str(alloc, FIBONACCI).ok())?;
    let job = again(|| read_job(alloc, &value).ok())?;
    let written = again(|| write_job(alloc, &job).ok())?;
    Some(written == value)
}

/// How many rows the only tenant of a configuration may have, as it is written and read again.
pub(crate) fn rows_of_tenant(alloc: Global) -> Option<usize> {
    let value = again(|| Value::from_str(alloc, CONFIG).ok())?;
    let config = again(|| read_config(alloc, &value).ok())?;
    let tenant = config.tenants().first()?;
    let written = again(|| write_tenant(alloc, tenant).ok())?;
    let read = read_tenant(&written).ok()?;
    Some(read.tenant().rows)
}

/// The first argument of the job that a request submits. The request takes its value apart, so each
/// try reads the text anew.
pub(crate) fn argument_of_request(alloc: Global) -> Option<i64> {
    match again(|| requested(alloc))? {
        Request::Submit(job) => Some(job.args[0]),
        _ => None,
    }
}

fn requested(alloc: Global) -> Option<Request> {
    let value = Value::from_str(alloc, REQUEST).ok()?;
    let asked = request_of(value).ok()?;
    ready(alloc, asked).ok()
}
