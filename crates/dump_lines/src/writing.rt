// Writing the lines of a dump.
ghost use Rattle.std.specs.Prelude.{◌≡◌, ◌≤◌, false, Some, IfOk, IfSome, option_map, string_bytes};
ghost use Rattle.serde_json.specs.Data.{depth};
ghost use Rattle.serde_json.specs.Read.{max_depth};
ghost use Rattle.serde_json.specs.View.{view};
ghost use Rattle.serde_json.specs.Written.{compact_text, has_float};
ghost use Rattle.request_reader.specs.LineAsks.{value_in};
ghost use Rattle.dump_lines.specs.Lines.{said_by};
ghost use Rattle.dump_lines.specs.Requests.{tenant_in, tenant_in_value};
ghost use Rattle.dump_lines.specs.Written.{entry_data, first_data};
ghost use Rattle.dump_lines.specs.declared.lines.Said.TheVariants as said;

mod entries;
mod replies;
mod requests;

use entries::entry_value;
use job_json::write_tenant;
use job_language::{Entry, TenantConfig};
use serde_json::{Value, json};
use std::alloc::{AllocError, Global};

/// The first line of a tenant's dump, without its newline.
#[tactic(auto, using(crate::proofs::Plain::first_writable))]
pub fn first_line(alloc: Global, config: &TenantConfig) -> Result<String, AllocError>
    ensures text { IfOk result (λ line. string_bytes line ≡ compact_text (first_data config.now)) }
    ensures reads_back { IfOk result (λ line. tenant_in (string_bytes line) ≡ Some config.now) }
{
    let value = first_value(alloc, config)?;
    text_of(alloc, &value)
}

fn first_value(alloc: Global, config: &TenantConfig) -> Result<Value, AllocError>
    ensures value { IfOk result (λ v. view v ≡ first_data config.now) }
    ensures reads_back { IfOk result (λ v. tenant_in_value (view v) ≡ Some config.now) }
{
    let tenant = write_tenant(alloc, config)?;
    json!(in alloc; {"tenant": tenant})
}

/// The line of an entry, without its newline. An entry that no history holds has none: one whose
/// answer is not recorded or does not answer such a step, or a hello.
pub fn entry_line(alloc: Global, entry: &Entry) -> Result<Option<String>, AllocError>
    ensures text { IfOk result (λ line. option_map string_bytes line
        ≡ option_map compact_text (entry_data entry.now)) }
    ensures reads_back { IfOk result (λ line. IfSome line
        (λ line. said_by (string_bytes line) ≡ Some (said.Entry entry.now))) }
{
    match entry_value(alloc, entry)? {
        Some(value) => Ok(Some(text_of(alloc, &value)?)),
        None => Ok(None),
    }
}

/// The text of a value, which reads back as that value.
fn text_of(alloc: Global, value: &Value) -> Result<String, AllocError>
    requires whole { has_float (view value.now) ≡ false }
    requires depth { depth (view value.now) ≤ max_depth }
    ensures text { IfOk result (λ line. string_bytes line ≡ compact_text (view value.now)) }
    ensures read { IfOk result (λ line. value_in (string_bytes line) ≡ Some (view value.now)) }
{
    let text = value.to_string(alloc)?;
    // Proof hint: it is UTF-8.
    let _ = text.as_str().as_bytes();
    Ok(text)
}
