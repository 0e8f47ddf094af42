// Requests that bring a job in its canonical text, read without a JSON value between.
ghost use Rattle.std.specs.Prelude.{◌≡◌, ◌≤◌, ◌++◌, length, true, IfSome, Ok};
ghost use Rattle.std.specs.Str.{is_utf8};
ghost use Rattle.serde_json.specs.Written.{compact_text};
ghost use Rattle.job_json.specs.Canonical.{IsCanonical};
ghost use Rattle.job_json.specs.JobData.{job_data};
ghost use Rattle.request_reader.specs.Answers.{asked_data};
ghost use Rattle.request_reader.specs.LineAsks.{asked_by};

use crate::requests::{Asked, MAX_REQUEST};
use job_json::read_canonical_job;
use job_language::Job;
use std::alloc::Global;

/// A line of fewer bytes brings no job.
const LEAST: usize = 64;

/// What a line asks for, if it is the canonical text of a submit or of an execute. `None` says nothing
/// of the line.
pub(crate) fn canonical_request(alloc: Global, line: &[u8]) -> Option<Asked>
    requires { length line.now ≤ MAX_REQUEST }
    ensures { IfSome result (λ asked. asked_by line.now ≡ Ok (asked_data asked)) }
{
    if line.len() < LEAST {
        return None;
    }
    if let Some(text) = between(line, "{\"job\":", ",\"op\":\"execute\"}") {
        let job = job_in(alloc, line, text)?;
        return Some(Asked::ExecuteJob(job));
    }
    let text = between(line, "{\"job\":", ",\"op\":\"submit\"}")?;
    let job = job_in(alloc, line, text)?;
    Some(Asked::SubmitJob(job))
}

/// What stands between two texts that a line begins and ends with.
fn between<'l>(line: &'l [u8], front: &str, back: &str) -> Option<&'l [u8]>
    ensures { IfSome result (λ text. line.now ≡ front.now ++ (text.now ++ back.now)) }
{
    let rest = line.strip_prefix(front.as_bytes())?;
    rest.strip_suffix(back.as_bytes())
}

/// The job whose canonical text stands in a line of text.
fn job_in(alloc: Global, line: &[u8], text: &[u8]) -> Option<Job>
    ensures line { IfSome result (λ job. is_utf8 line.now ≡ true) }
    ensures text { IfSome result (λ job. text.now ≡ compact_text (job_data job)) }
    ensures canonical { IfSome result (λ job. IsCanonical 4 (job_data job)) }
{
    let job = read_canonical_job(alloc, text)?;
    match str::from_utf8(line) {
        Ok(_) => Some(job),
        Err(_) => None,
    }
}
