// The requests and the tenant that lines hold.
ghost use Rattle.std.specs.Prelude.{◌≡◌, IfOk, OnErr};
ghost use Rattle.serde_json.specs.View.{view};
ghost use Rattle.request_reader.specs.Answers.{HasJob};
ghost use Rattle.request_reader.specs.Asks.{asked_by_value};
ghost use Rattle.request_reader.specs.LineAsks.{IsText};
ghost use Rattle.dump_lines.specs.Requests.{request_in, tenant_in, tenant_in_value};

use job_json::read_tenant;
use job_json::values::has_members;
use job_language::{Error, Request, TenantConfig};
use request_reader::{ready, request_of, value_in};
use serde_json::Value;
use std::alloc::{AllocError, Global};

/// The tenant that a line names, as the first line of a dump does, if it names one. It fails only if
/// an allocation failed.
pub fn tenant_of(alloc: Global, line: &[u8]) -> Result<Option<TenantConfig>, AllocError>
    ensures ok { IfOk result (λ config. config ≡ tenant_in line.now) }
    ensures takes { OnErr result (IsText line.now) }
{
    match value_in(alloc, line)? {
        Some(value) => Ok(tenant_of_value(&value)),
        None => Ok(None),
    }
}

fn tenant_of_value(value: &Value) -> Option<TenantConfig>
    ensures { result ≡ tenant_in_value (view value.now) }
{
    if !has_members(1, value) {
        return None;
    }
    read_tenant(value.get("tenant")?).ok()
}

/// The request that a value spells, with its job read, or why it is refused. It fails only if an
/// allocation failed, and only a job takes memory.
pub fn request_in(alloc: Global, value: Value) -> Result<Result<Request, Error>, AllocError>
    ensures ok { IfOk result (λ request. request ≡ request_in (view value)) }
    ensures takes { OnErr result (HasJob (asked_by_value (view value))) }
{
    let asked = match request_of(value) {
        Ok(asked) => asked,
        Err(error) => return Ok(Err(error)),
    };
    match ready(alloc, asked) {
        Ok(request) => Ok(Ok(request)),
        Err(Error::NoMemory) => Err(AllocError),
        Err(error) => Ok(Err(error)),
    }
}
