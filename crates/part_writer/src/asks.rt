// The lines of requests with their replies.
ghost use Rattle.std.specs.Prelude.{◌≡◌, ◌++◌, IfOk, OnOk, codes, decimal, is_some, true, false};
ghost use Rattle.dump_lines.specs.Dumps.{HasLine, entry_text};
ghost use Rattle.dump_lines.specs.Lines.{ask};
ghost use Rattle.dump_lines.specs.Written.{request_data};
ghost use Rattle.job_json.specs.CanonicalText.{job_then};
ghost use Rattle.part_writer.specs.Added.{Adds};
ghost use Rattle.part_writer.specs.Requests.{request_then};

use crate::adding::{add_bytes, add_number};
use crate::jobs::add_job;
use dump_lines::replies_have_one_text;
use job_language::{Answer, Entry, Job, Reply, Request, Step};
use reply_writer::reply_line;
use std::alloc::AllocError;

/// Adds the line of an entry if that is a request with its reply, and says whether it is.
#[tactic(auto, using(crate::proofs::AskTexts::of_entry, crate::proofs::AskTexts::line_of_entry))]
pub(crate) fn add_ask(text: &mut Vec<u8>, entry: &Entry) -> Result<bool, AllocError>
    ensures ask { IfOk result (λ is_ask. is_ask ≡ true
        → text.new.items ≡ text.old.items ++ entry_text entry.now) }
    ensures line { IfOk result (λ is_ask. is_ask ≡ true → HasLine entry.now) }
    ensures other { IfOk result (λ is_ask. is_ask ≡ false → text.new ≡ text.old) }
{
    match (&entry.step, entry.answer) {
        (Step::Ask(request), Answer::Replied(reply)) => add_replied(text, request, reply),
        _ => Ok(false),
    }
}

/// Adds the line of a request with its reply, if a history can hold them, and says whether it can.
fn add_replied(text: &mut Vec<u8>, request: &Request, reply: Reply) -> Result<bool, AllocError>
    ensures ask { IfOk result (λ is_ask. is_ask ≡ true
        → text.new.items ≡ text.old.items ++ entry_text (ask request.now reply)) }
    ensures line { IfOk result (λ is_ask. is_ask ≡ true → HasLine (ask request.now reply)) }
    ensures other { IfOk result (λ is_ask. is_ask ≡ false → text.new ≡ text.old) }
{
    if !has_text(request) || !reply.is_recorded() {
        return Ok(false);
    }
    replies_have_one_text();
    add_bytes(text, b"{\"reply\":")?;
    add_bytes(text, reply_line(&reply).text())?;
    add_bytes(text, b",\"request\":")?;
    add_request(text, request)?;
    add_bytes(text, b",\"step\":\"ask\"}\n")?;
    Ok(true)
}

/// Whether a history can hold a request.
fn has_text(request: &Request) -> bool
    ensures { result ≡ is_some (request_data request.now) }
{
    !matches!(request, Request::Hello(_))
}

/// Adds the text of a request; a hello has none here.
fn add_request(text: &mut Vec<u8>, request: &Request) -> Result<(), AllocError>
    ensures { OnOk result (Adds text.old.items text.new.items (request_then request.now)) }
{
    match request {
        Request::Hello(_) => Ok(()),
        Request::Submit(job) => add_brought(text, job, b",\"op\":\"submit\"}"),
        Request::Execute(job) => add_brought(text, job, b",\"op\":\"execute\"}"),
        Request::Poll(job) => add_about(text, *job, b",\"op\":\"poll\"}"),
        Request::Collect(job) => add_about(text, *job, b",\"op\":\"collect\"}"),
        Request::Cancel(job) => add_about(text, *job, b",\"op\":\"cancel\"}"),
        Request::Cells(key) => {
            add_number(text, b"{\"key\":", key.index() as u64)?;
            add_bytes(text, b",\"op\":\"cells\"}")?;
            Ok(())
        }
        Request::Arena => add_bytes(text, b"{\"op\":\"arena\"}"),
        Request::Retire => add_bytes(text, b"{\"op\":\"retire\"}"),
        Request::Release(job) => add_about(text, *job, b",\"op\":\"release\"}"),
        Request::Take(job) => add_about(text, *job, b",\"op\":\"collect\",\"release\":true}"),
    }
}

/// Adds the text of a request that brings a job.
fn add_brought(text: &mut Vec<u8>, job: &Job, behind: &[u8]) -> Result<(), AllocError>
    ensures { OnOk result (Adds text.old.items text.new.items
        (λ rest. codes "{\"job\":" ++ job_then job.now (behind.now ++ rest))) }
{
    add_bytes(text, b"{\"job\":")?;
    add_job(text, job)?;
    add_bytes(text, behind)?;
    Ok(())
}

/// Adds the text of a request about the job of a number.
fn add_about(text: &mut Vec<u8>, job: u64, behind: &[u8]) -> Result<(), AllocError>
    ensures { OnOk result (Adds text.old.items text.new.items
        (λ rest. codes "{\"job\":" ++ (decimal job ++ (behind.now ++ rest)))) }
{
    add_number(text, b"{\"job\":", job)?;
    add_bytes(text, behind)?;
    Ok(())
}
