// The text of each reply.
ghost use Rattle.std.specs.Prelude.{◌≡◌, ◌≢◌, ◌<◌, ◌≤◌, ◌++◌, length, codes, decimal};
ghost use Rattle.arrayvec.specs.ArrayString.{array_string_len};
ghost use Rattle.reply_writer.specs.ReplyText.{reply_text, job_text, bool_text};

use crate::texts::{MAX_LINE, ReplyBuf, push_number, push_signed};
use arrayvec::ArrayString;
use job_language::{Error, JobFault, Key, Level, Reply, Status, TenantName};

/// The line of a reply. A pending reply has none.
pub fn reply_line(reply: &Reply) -> ReplyBuf
    requires { reply.now ≢ Reply.Pending }
    ensures { result ≡ reply_text reply.now }
{
    match *reply {
        Reply::Bound(name) => ReplyBuf::of(bound(name)),
        Reply::Made(job) => ReplyBuf::of(made(job)),
        Reply::Placed(job, slot) => ReplyBuf::of(placed(job, slot)),
        Reply::Job(job, status) => ReplyBuf::of(job_status(job, status)),
        Reply::Cancelled(job, first) => ReplyBuf::of(canceled(job, first)),
        Reply::Cells(key, count, sum) => ReplyBuf::of(cells(key, count, sum)),
        Reply::Arena(level, reserved, slots) => ReplyBuf::of(arena(level, reserved, slots)),
        Reply::Epoch(epoch) => ReplyBuf::of(epoch_text(epoch)),
        Reply::Released(job) => ReplyBuf::of(released(job)),
        Reply::Refused(error) => ReplyBuf::of(refused(error)),
        Reply::Pending => unreachable!(),
    }
}

fn bound(name: TenantName) -> ArrayString<MAX_LINE>
    ensures text { result.bytes ≡ reply_text (Reply.Bound name) }
    ensures room { array_string_len result < MAX_LINE }
{
    let mut text = ArrayString::new();
    text.push_str("{\"tenant\":\"");
    text.push_str(name.as_str());
    text.push_str("\"}");
    text
}

fn made(job: u64) -> ArrayString<MAX_LINE>
    ensures text { result.bytes ≡ reply_text (Reply.Made job) }
    ensures room { array_string_len result < MAX_LINE }
{
    let mut text = ArrayString::new();
    text.push_str("{\"job\":");
    push_number(&mut text, job);
    text.push_str("}");
    text
}

fn placed(job: u64, slot: u8) -> ArrayString<MAX_LINE>
    ensures text { result.bytes ≡ reply_text (Reply.Placed job slot) }
    ensures room { array_string_len result < MAX_LINE }
{
    let mut text = ArrayString::new();
    text.push_str("{\"job\":");
    push_number(&mut text, job);
    text.push_str(",\"slot\":");
    push_number(&mut text, u64::from(slot));
    text.push_str("}");
    text
}

fn job_status(job: u64, status: Status) -> ArrayString<MAX_LINE>
    ensures text { result.bytes ≡ job_text job status }
    ensures room { array_string_len result < MAX_LINE }
{
    match status {
        Status::Running => job_then(job, ",\"status\":\"running\"}"),
        Status::Cancelled => job_then(job, ",\"status\":\"canceled\"}"),
        Status::Complete(value) => complete(job, value),
        Status::Fault(fault) => faulted(job, fault),
    }
}

/// A job's number, and then the rest of the text.
fn job_then(job: u64, rest: &str) -> ArrayString<MAX_LINE>
    requires { length rest.now < 100 }
    ensures text { result.bytes ≡ codes "{\"job\":" ++ decimal job ++ rest.now }
    ensures room { array_string_len result < MAX_LINE }
{
    let mut text = ArrayString::new();
    text.push_str("{\"job\":");
    push_number(&mut text, job);
    text.push_str(rest);
    text
}

fn complete(job: u64, value: i64) -> ArrayString<MAX_LINE>
    ensures text { result.bytes ≡ job_text job (Status.Complete value) }
    ensures room { array_string_len result < MAX_LINE }
{
    let mut text = ArrayString::new();
    text.push_str("{\"job\":");
    push_number(&mut text, job);
    text.push_str(",\"status\":\"complete\",\"value\":");
    push_signed(&mut text, value);
    text.push_str("}");
    text
}

fn faulted(job: u64, fault: JobFault) -> ArrayString<MAX_LINE>
    ensures text { result.bytes ≡ job_text job (Status.Fault fault) }
    ensures room { array_string_len result < MAX_LINE }
{
    let mut text = ArrayString::new();
    text.push_str("{\"fault\":");
    push_number(&mut text, u64::from(fault.code()));
    text.push_str(",\"job\":");
    push_number(&mut text, job);
    text.push_str(",\"status\":\"fault\"}");
    text
}

fn canceled(job: u64, first: bool) -> ArrayString<MAX_LINE>
    ensures text { result.bytes ≡ reply_text (Reply.Cancelled job first) }
    ensures room { array_string_len result < MAX_LINE }
{
    let mut text = ArrayString::new();
    text.push_str("{\"first\":");
    text.push_str(bool_text(first));
    text.push_str(",\"job\":");
    push_number(&mut text, job);
    text.push_str("}");
    text
}

fn bool_text(truth: bool) -> &'static str
    ensures text { result.now ≡ bool_text truth }
    ensures short { length result.now ≤ 5 }
{
    if truth { "true" } else { "false" }
}

fn cells(key: Key, count: u64, sum: i64) -> ArrayString<MAX_LINE>
    ensures text { result.bytes ≡ reply_text (Reply.Cells key count sum) }
    ensures room { array_string_len result < MAX_LINE }
{
    let mut text = ArrayString::new();
    text.push_str("{\"count\":");
    push_number(&mut text, count);
    text.push_str(",\"key\":");
    push_number(&mut text, key.index() as u64);
    text.push_str(",\"sum\":");
    push_signed(&mut text, sum);
    text.push_str("}");
    text
}

fn arena(level: Level, reserved: u8, slots: u8) -> ArrayString<MAX_LINE>
    ensures text { result.bytes ≡ reply_text (Reply.Arena level reserved slots) }
    ensures room { array_string_len result < MAX_LINE }
{
    let mut text = ArrayString::new();
    text.push_str("{\"priority\":\"");
    text.push_str(level.word());
    text.push_str("\",\"reserved\":");
    push_number(&mut text, u64::from(reserved));
    text.push_str(",\"slots\":");
    push_number(&mut text, u64::from(slots));
    text.push_str("}");
    text
}

fn epoch_text(epoch: u64) -> ArrayString<MAX_LINE>
    ensures text { result.bytes ≡ reply_text (Reply.Epoch epoch) }
    ensures room { array_string_len result < MAX_LINE }
{
    let mut text = ArrayString::new();
    text.push_str("{\"epoch\":");
    push_number(&mut text, epoch);
    text.push_str("}");
    text
}

fn released(job: u64) -> ArrayString<MAX_LINE>
    ensures text { result.bytes ≡ reply_text (Reply.Released job) }
    ensures room { array_string_len result < MAX_LINE }
{
    let mut text = ArrayString::new();
    text.push_str("{\"released\":");
    push_number(&mut text, job);
    text.push_str("}");
    text
}

fn refused(error: Error) -> ArrayString<MAX_LINE>
    ensures text { result.bytes ≡ reply_text (Reply.Refused error) }
    ensures room { array_string_len result < MAX_LINE }
{
    let mut text = ArrayString::new();
    text.push_str("{\"code\":");
    push_number(&mut text, u64::from(error.code()));
    text.push_str(",\"error\":\"");
    text.push_str(error.name());
    text.push_str("\"}");
    text
}
