// The line of a job.
ghost use Rattle.std.specs.Prelude.{◌≡◌, IfOk, IfErr, map, string_bytes};
ghost use Rattle.serde_json.specs.Written.{compact_text};
ghost use Rattle.job_json.specs.JobData.{job_data};
ghost use Rattle.source_tokens.specs.Givens.{view_given};
ghost use Rattle.arena_compile.specs.Jobs.{IsLineOf, IsErrorOf};

use crate::errors::CompileError;
use crate::jobs::job_of;
use job_json::write_job;
use job_language::Job;
use source_tokens::Given;
use std::alloc::{AllocError, Global};

/// The text of a job, without a newline.
fn text_of(alloc: Global, job: &Job) -> Result<String, AllocError>
    ensures { IfOk result (λ line. string_bytes line ≡ compact_text (job_data job.now)) }
{
    let value = write_job(alloc, job)?;
    let line = value.to_string(alloc)?;
    Ok(line)
}

/// The line of the job of a source, without its newline. Its params have the numbers that they are given.
pub fn job_line(
    alloc: Global,
    args: [i64; 2],
    givens: &[Given],
    text: &[u8],
) -> Result<String, CompileError>
    ensures made { IfOk result (λ line. IsLineOf args (map view_given givens.now) text.now (string_bytes line)) }
    ensures refused { IfErr result (IsErrorOf (map view_given givens.now) text.now) }
{
    let job = job_of(alloc, args, givens, text)?;
    match text_of(alloc, &job) {
        Ok(line) => Ok(line),
        Err(_) => Err(CompileError::Memory),
    }
}
