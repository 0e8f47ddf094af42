// Whether two requests are the same.
ghost use Rattle.std.specs.Prelude.{◌≡◌, ◌↔◌, IsTrue};

use crate::names::is_same_name;
use crate::programs::is_same_program;
use job_language::{Job, Request, TenantName};

fn are_same_names(name: &Option<TenantName>, other: &Option<TenantName>) -> bool
    ensures { IsTrue result ↔ (name.now ≡ other.now) }
{
    match (name, other) {
        (None, None) => true,
        (Some(name), Some(other)) => is_same_name(name, other),
        _ => false,
    }
}

fn are_same_args(args: &[i64; 2], others: &[i64; 2]) -> bool
    ensures { IsTrue result ↔ (args.now ≡ others.now) }
{
    args == others
}

/// Whether two jobs have the same instructions, arguments and fuel.
pub fn is_same_job(job: &Job, other: &Job) -> bool
    ensures { IsTrue result ↔ (job.now ≡ other.now) }
{
    job.fuel == other.fuel
        && are_same_args(&job.args, &other.args)
        && is_same_program(&job.program, &other.program)
}

/// Whether two requests ask the same.
pub fn is_same_request(request: &Request, other: &Request) -> bool
    ensures { IsTrue result ↔ (request.now ≡ other.now) }
{
    match (request, other) {
        (Request::Hello(name), Request::Hello(its)) => are_same_names(name, its),
        (Request::Submit(job), Request::Submit(its)) => is_same_job(job, its),
        (Request::Execute(job), Request::Execute(its)) => is_same_job(job, its),
        (Request::Poll(job), Request::Poll(its)) => job == its,
        (Request::Collect(job), Request::Collect(its)) => job == its,
        (Request::Cancel(job), Request::Cancel(its)) => job == its,
        (Request::Cells(key), Request::Cells(its)) => key == its,
        (Request::Arena, Request::Arena) => true,
        (Request::Retire, Request::Retire) => true,
        (Request::Release(job), Request::Release(its)) => job == its,
        (Request::Take(job), Request::Take(its)) => job == its,
        _ => false,
    }
}
