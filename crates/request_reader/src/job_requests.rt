// Requests with their jobs read.
ghost use Rattle.std.specs.Prelude.{Some, ⊤};
ghost use Rattle.serde_json.specs.View.{view};
ghost use Rattle.job_json.specs.Job.{job_of};
ghost use Rattle.request_reader.specs.Answers.{asked_data, HasJob};
ghost use Rattle.request_reader.specs.Exact.{ExactOrNoMemory};
ghost use Rattle.request_reader.specs.Ready.{job_or_refused, ready_of};

use crate::requests::Asked;
use job_json::{Refused, read_job, reads_back};
use job_language::{Error, Job, Request};
use serde_json::Value;
use std::alloc::Global;

/// The request that is asked for, with its job read. A job that is not valid is error 4; only a
/// job takes memory.
#[tactic(auto, using(crate::proofs::Exactness::refuses_with_job))]
pub fn ready(alloc: Global, asked: Asked) -> Result<Request, Error>
    ensures { ExactOrNoMemory (λ request. request) (HasJob (Some (asked_data asked))) result
        (ready_of (asked_data asked)) }
{
    match asked {
        Asked::Plain(request) => Ok(request),
        Asked::Submit(job) => Ok(Request::Submit(job_in(alloc, &job)?)),
        Asked::Execute(job) => Ok(Request::Execute(job_in(alloc, &job)?)),
        Asked::SubmitJob(job) => {
            reads_back(&job);
            Ok(Request::Submit(job))
        }
        Asked::ExecuteJob(job) => {
            reads_back(&job);
            Ok(Request::Execute(job))
        }
    }
}

fn job_in(alloc: Global, value: &Value) -> Result<Job, Error>
    ensures { ExactOrNoMemory (λ job. job) ⊤ result (job_or_refused (job_of (view value.now))) }
{
    match read_job(alloc, value) {
        Ok(job) => Ok(job),
        Err(Refused::Bad { .. }) => Err(Error::BadProgram),
        Err(Refused::Memory(_)) => Err(Error::NoMemory),
    }
}
