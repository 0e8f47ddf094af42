// The tenant, its job and its steps; a reading is repeated if an allocation failed.
use crate::retries::again;
use job_json::{read_job, read_tenant};
use job_language::{Job, Reply, Request, Status, Step, TenantConfig};
use serde_json::Value;
use std::alloc::Global;

/// The sixth Fibonacci number. Each task above 1 first makes a region, which stores and posts.
pub(crate) const FIBONACCI: &str =
    r#"{"args":[6,0],"fuel":5000,"procs":[[["set",2,2],["lt",3,0,2],["jz",3,4],["ret",0],["isolate",6,1,0,0],["set",2,1],["sub",3,0,2],["spawn",0,0,3,1],["sub",3,3,2],["spawn",0,0,3,1],["wait",4,5,0],["ret",4]],[["store",0,0],["post",2,0,0],["ret",0]],[["ret",0]]]}"#;

/// The same without regions, so that it has a serial value.
pub(crate) const SERIAL: &str =
    r#"{"args":[6,0],"fuel":5000,"procs":[[["set",2,2],["lt",3,0,2],["jz",3,4],["ret",0],["set",2,1],["sub",3,0,2],["spawn",0,0,3,1],["sub",3,3,2],["spawn",0,0,3,1],["wait",4,5,0],["ret",4]]]}"#;

const TENANT: &str =
    r#"{"name":"acme","priority":"normal","reserved":1,"rows":200,"slots":2,"steps":10000}"#;

/// How many advances the root takes on the reserved slot.
const ADVANCES_OF_ROOT: usize = 133;

/// How many advances the tasks that it posted take on the other slot.
const ADVANCES_OF_POSTED: usize = 23;

/// More moves than the job takes on any slot.
pub(crate) const MOVES: usize = 200;

/// What a reply reports of a job.
pub(crate) fn status_of(reply: &Reply) -> Option<Status> {
    match reply {
        Reply::Job(_, status) => Some(*status),
        _ => None,
    }
}

/// The tenant.
pub(crate) fn tenant(alloc: Global) -> Option<TenantConfig> {
    again(|| read_tenant_once(alloc))
}

fn read_tenant_once(alloc: Global) -> Option<TenantConfig> {
    let value = Value::from_str(alloc, TENANT).ok()?;
    read_tenant(&value).ok()
}

/// The job with the regions and the posts.
pub(crate) fn fibonacci(alloc: Global) -> Option<Job> {
    again(|| read(alloc, FIBONACCI))
}

fn read(alloc: Global, text: &str) -> Option<Job> {
    let value = Value::from_str(alloc, text).ok()?;
    read_job(alloc, &value).ok()
}

/// The execute, the advances on both slots and the collect.
pub(crate) fn steps(alloc: Global) -> Option<Vec<Step>> {
    again(|| steps_once(alloc))
}

fn steps_once(alloc: Global) -> Option<Vec<Step>> {
    let mut steps = Vec::new(alloc);
    let job = read(alloc, FIBONACCI)?;
    steps.push(Step::Ask(Request::Execute(job))).ok()?;
    for _advance in 0..ADVANCES_OF_ROOT {
        steps.push(Step::Advance(0)).ok()?;
    }
    steps.push(Step::Arrive(1)).ok()?;
    for _advance in 0..ADVANCES_OF_POSTED {
        steps.push(Step::Advance(1)).ok()?;
    }
    steps.push(Step::Ask(Request::Collect(1))).ok()?;
    Some(steps)
}
