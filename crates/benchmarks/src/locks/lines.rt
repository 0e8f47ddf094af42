// The lines of a session.
use crate::stops::Stop;
use serde_json::Value;
use std::alloc::{AllocError, Global};
use worked_jobs::JobText;

/// Binds the session to the tenant.
pub(crate) const HELLO: &str = "{\"op\":\"hello\",\"tenant\":\"acme\"}\n";

/// Adds the request that brings a job.
pub(crate) fn push_job(lines: &mut String, op: &str, job: JobText) -> Result<(), AllocError> {
    lines.push_str("{\"job\":")?;
    job.write(lines)?;
    lines.push_str(",\"op\":\"")?;
    lines.push_str(op)?;
    lines.push_str("\"}\n")
}

/// The value in the last of the replies.
pub(crate) fn last_value(alloc: Global, replies: &[u8]) -> Result<i64, Stop> {
    let text = str::from_utf8(replies).map_err(|_| Stop::Outcome)?;
    let last = text.lines().last().ok_or(Stop::Outcome)?;
    let reply = Value::from_str(alloc, last).map_err(|_| Stop::Outcome)?;
    value_in(&reply).ok_or(Stop::Outcome)
}

fn value_in(reply: &Value) -> Option<i64> {
    reply.get("value")?.as_i64()
}
