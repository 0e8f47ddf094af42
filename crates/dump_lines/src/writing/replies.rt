// The replies of entries as JSON.
ghost use Rattle.std.specs.Prelude.{◌≡◌, true, IfOk};
ghost use Rattle.serde_json.specs.View.{view};
ghost use Rattle.job_language.specs.Recorded.{is_recorded_reply};
ghost use Rattle.job_language.specs.declared.answers.Reply.TheVariants as reply;
ghost use Rattle.job_language.specs.declared.answers.Status.TheVariants as status;
ghost use Rattle.dump_lines.specs.Replies.{SpellsReply};
ghost use Rattle.dump_lines.specs.Written.{reply_data, refusal_data, status_data};

use job_language::{Error, JobFault, Key, Level, Reply, Status};
use serde_json::{Value, json};
use std::alloc::{AllocError, Global};

/// A reply as JSON, if it is one that is recorded; else null.
#[tactic(auto, using(crate::proofs::RoundTrip::read_refusal))]
pub(super) fn reply_value(alloc: Global, reply: Reply) -> Result<Value, AllocError>
    ensures value { IfOk result (λ v. view v ≡ reply_data reply) }
    ensures reads_back { IfOk result (λ v. is_recorded_reply reply ≡ true
        → SpellsReply (view v) reply) }
{
    match reply {
        Reply::Bound(_) | Reply::Pending => Ok(Value::Null),
        Reply::Made(job) => made(alloc, job),
        Reply::Placed(job, slot) => placed(alloc, job, slot),
        Reply::Job(job, status) => status_value(alloc, job, status),
        Reply::Cancelled(job, first) => canceled(alloc, job, first),
        Reply::Cells(key, count, sum) => cells(alloc, key, count, sum),
        Reply::Arena(level, reserved, slots) => arena(alloc, level, reserved, slots),
        Reply::Epoch(number) => epoch(alloc, number),
        Reply::Released(job) => released(alloc, job),
        Reply::Refused(error) => refusal_value(alloc, error),
    }
}

fn made(alloc: Global, job: u64) -> Result<Value, AllocError>
    ensures value { IfOk result (λ v. view v ≡ reply_data (reply.Made job)) }
    ensures reads_back { IfOk result (λ v. SpellsReply (view v) (reply.Made job)) }
{
    json!(in alloc; {"job": job})
}

fn placed(alloc: Global, job: u64, slot: u8) -> Result<Value, AllocError>
    ensures value { IfOk result (λ v. view v ≡ reply_data (reply.Placed job slot)) }
    ensures reads_back { IfOk result (λ v. SpellsReply (view v) (reply.Placed job slot)) }
{
    json!(in alloc; {"job": job, "slot": slot})
}

fn canceled(alloc: Global, job: u64, first: bool) -> Result<Value, AllocError>
    ensures value { IfOk result (λ v. view v ≡ reply_data (reply.Cancelled job first)) }
    ensures reads_back { IfOk result (λ v. SpellsReply (view v) (reply.Cancelled job first)) }
{
    json!(in alloc; {"first": first, "job": job})
}

fn cells(alloc: Global, key: Key, count: u64, sum: i64) -> Result<Value, AllocError>
    ensures value { IfOk result (λ v. view v ≡ reply_data (reply.Cells key count sum)) }
    ensures reads_back { IfOk result (λ v. SpellsReply (view v) (reply.Cells key count sum)) }
{
    json!(in alloc; {"count": count, "key": key.index() as u64, "sum": sum})
}

fn arena(alloc: Global, level: Level, reserved: u8, slots: u8) -> Result<Value, AllocError>
    ensures value { IfOk result (λ v. view v ≡ reply_data (reply.Arena level reserved slots)) }
    ensures reads_back { IfOk result (λ v. SpellsReply (view v)
        (reply.Arena level reserved slots)) }
{
    json!(in alloc; {"priority": level.word(), "reserved": reserved, "slots": slots})
}

fn epoch(alloc: Global, epoch: u64) -> Result<Value, AllocError>
    ensures value { IfOk result (λ v. view v ≡ reply_data (reply.Epoch epoch)) }
    ensures reads_back { IfOk result (λ v. SpellsReply (view v) (reply.Epoch epoch)) }
{
    json!(in alloc; {"epoch": epoch})
}

fn released(alloc: Global, job: u64) -> Result<Value, AllocError>
    ensures value { IfOk result (λ v. view v ≡ reply_data (reply.Released job)) }
    ensures reads_back { IfOk result (λ v. SpellsReply (view v) (reply.Released job)) }
{
    json!(in alloc; {"released": job})
}

fn refusal_value(alloc: Global, error: Error) -> Result<Value, AllocError>
    ensures { IfOk result (λ v. view v ≡ refusal_data error) }
{
    json!(in alloc; {"code": error.code(), "error": error.name()})
}

fn status_value(alloc: Global, job: u64, status: Status) -> Result<Value, AllocError>
    ensures value { IfOk result (λ v. view v ≡ status_data job status) }
    ensures reads_back { IfOk result (λ v. SpellsReply (view v) (reply.Job job status)) }
{
    match status {
        Status::Running => running(alloc, job),
        Status::Cancelled => job_canceled(alloc, job),
        Status::Complete(value) => complete(alloc, job, value),
        Status::Fault(fault) => faulted(alloc, job, fault),
    }
}

fn running(alloc: Global, job: u64) -> Result<Value, AllocError>
    ensures value { IfOk result (λ v. view v ≡ reply_data (reply.Job job status.Running)) }
    ensures reads_back { IfOk result (λ v. SpellsReply (view v) (reply.Job job status.Running)) }
{
    json!(in alloc; {"job": job, "status": "running"})
}

fn job_canceled(alloc: Global, job: u64) -> Result<Value, AllocError>
    ensures value { IfOk result (λ v. view v ≡ reply_data (reply.Job job status.Cancelled)) }
    ensures reads_back { IfOk result (λ v. SpellsReply (view v) (reply.Job job status.Cancelled)) }
{
    json!(in alloc; {"job": job, "status": "canceled"})
}

fn complete(alloc: Global, job: u64, value: i64) -> Result<Value, AllocError>
    ensures value { IfOk result (λ v. view v ≡ reply_data (reply.Job job (status.Complete value))) }
    ensures reads_back { IfOk result (λ v. SpellsReply (view v)
        (reply.Job job (status.Complete value))) }
{
    json!(in alloc; {"job": job, "status": "complete", "value": value})
}

fn faulted(alloc: Global, job: u64, fault: JobFault) -> Result<Value, AllocError>
    ensures value { IfOk result (λ v. view v ≡ reply_data (reply.Job job (status.Fault fault))) }
    ensures reads_back { IfOk result (λ v. SpellsReply (view v)
        (reply.Job job (status.Fault fault))) }
{
    json!(in alloc; {"fault": fault.code(), "job": job, "status": "fault"})
}
