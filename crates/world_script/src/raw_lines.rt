// The steps of a world that lines spell.
ghost use Rattle.std.specs.Prelude.{◌≡◌, option_map};
ghost use Rattle.serde_json.specs.View.{view};
ghost use Rattle.world_script.specs.RawLines.{raw_line, members_step, tenant_step, worker_step, text_of, number_of};
ghost use Rattle.world_script.specs.Spelled.{data_of};

use job_json::values::has_members;
use serde_json::Value;

/// A step of a world: of a tenant, by its name, with the text of a line or a slot, or of a worker.
/// The tenant, the slot or the worker may not be there.
#[derive(Drop)]
pub(crate) enum RawLine<'v> {
    Line(&'v str, &'v str),
    Master(&'v str, u64),
    Push(&'v str, u64),
    Pop(u64),
    Arrive(u64),
    Advance(u64),
}

/// The step that a value spells.
pub(crate) fn raw_line(value: &Value) -> Option<RawLine<'_>>
    ensures { option_map data_of result ≡ raw_line (view value.now) }
{
    members_step(text_of("step", value)?, value)
}

fn members_step<'v>(step: &str, value: &'v Value) -> Option<RawLine<'v>>
    ensures { option_map data_of result ≡ members_step step.now (view value.now) }
{
    if has_members(3, value) {
        tenant_step(step, text_of("tenant", value)?, value)
    } else if has_members(2, value) {
        worker_step(step, number_of("worker", value)?)
    } else {
        None
    }
}

fn tenant_step<'v>(step: &str, tenant: &'v str, value: &'v Value) -> Option<RawLine<'v>>
    ensures { option_map data_of result ≡ tenant_step step.now tenant.now (view value.now) }
{
    match step {
        "line" => Some(RawLine::Line(tenant, text_of("text", value)?)),
        "master" => Some(RawLine::Master(tenant, number_of("slot", value)?)),
        "push" => Some(RawLine::Push(tenant, number_of("slot", value)?)),
        _ => None,
    }
}

fn worker_step<'v>(step: &str, worker: u64) -> Option<RawLine<'v>>
    ensures { option_map data_of result ≡ worker_step step.now worker }
{
    match step {
        "pop" => Some(RawLine::Pop(worker)),
        "arrive" => Some(RawLine::Arrive(worker)),
        "advance" => Some(RawLine::Advance(worker)),
        _ => None,
    }
}

/// The text of a member.
fn text_of<'v>(name: &str, value: &'v Value) -> Option<&'v str>
    ensures { option_map (λ text. text.now) result ≡ text_of name.now (view value.now) }
{
    value.get(name)?.as_str()
}

/// The whole number of a member.
fn number_of(name: &str, value: &Value) -> Option<u64>
    ensures { result ≡ number_of name.now (view value.now) }
{
    value.get(name)?.as_u64()
}
