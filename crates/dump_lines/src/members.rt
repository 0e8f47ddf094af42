// The members of a reply's object.
ghost use Rattle.std.specs.Prelude.{◌≡◌, None, Some, if◌then◌else◌, option_map};
ghost use Rattle.serde_json.specs.Find.{as_str};
ghost use Rattle.serde_json.specs.View.{view};
ghost use Rattle.job_json.specs.Instruction.{below, key};
ghost use Rattle.job_json.specs.Json.{get_as, whole, integer};
ghost use Rattle.dump_lines.specs.Replies.{fault_of, is_whole, is_word, number};

use job_language::{JobFault, Key};
use serde_json::Value;

/// A member that is a text.
pub(crate) fn word<'v>(name: &str, value: &'v Value) -> Option<&'v str>
    ensures { option_map (λ it. it.now) result ≡ get_as name.now as_str (view value.now) }
{
    value.get(name)?.as_str()
}

/// Whether a member is that text.
pub(crate) fn is_word(name: &str, text: &str, value: &Value) -> bool
    ensures { result ≡ is_word name.now text.now (view value.now) }
{
    match word(name, value) {
        Some(it) => it == text,
        None => false,
    }
}

/// A member that is a whole number of 64 bits, with or without a sign.
fn whole_member<'v>(name: &str, value: &'v Value) -> Option<&'v Value>
    ensures { option_map (λ it. view it.now) result
        ≡ get_as name.now (λ it. if is_whole it then Some it else None) (view value.now) }
{
    let number = value.get(name)?;
    if number.as_u64().is_some() || number.as_i64().is_some() {
        Some(number)
    } else {
        None
    }
}

/// Such a member; an inner `None` is a number below 0.
pub(crate) fn natural(name: &str, value: &Value) -> Option<Option<u64>>
    ensures { result ≡ number whole name.now (view value.now) }
{
    Some(whole_member(name, value)?.as_u64())
}

/// Such a member; an inner `None` is a number of 2^63 or more.
pub(crate) fn signed(name: &str, value: &Value) -> Option<Option<i64>>
    ensures { result ≡ number integer name.now (view value.now) }
{
    Some(whole_member(name, value)?.as_i64())
}

/// Such a member; an inner `None` is a number outside 0 to 255.
pub(crate) fn slot(name: &str, value: &Value) -> Option<Option<u8>>
    ensures { result ≡ number (below 256) name.now (view value.now) }
{
    Some(slot_of(whole_member(name, value)?))
}

fn slot_of(value: &Value) -> Option<u8>
    ensures { result ≡ below 256 (view value.now) }
{
    let number = value.as_u64()?;
    if number < 256 {
        Some(number as u8)
    } else {
        None
    }
}

/// Such a member; an inner `None` is the number of no key.
pub(crate) fn key(name: &str, value: &Value) -> Option<Option<Key>>
    ensures { result ≡ number key name.now (view value.now) }
{
    Some(key_of(whole_member(name, value)?))
}

fn key_of(value: &Value) -> Option<Key>
    ensures { result ≡ key (view value.now) }
{
    Key::new(value.as_u64()?)
}

/// Such a member; an inner `None` is the code of no fault.
pub(crate) fn fault(name: &str, value: &Value) -> Option<Option<JobFault>>
    ensures { result ≡ number fault_of name.now (view value.now) }
{
    Some(fault_of(whole_member(name, value)?))
}

fn fault_of(value: &Value) -> Option<JobFault>
    ensures { result ≡ fault_of (view value.now) }
{
    match value.as_u64()? {
        1 => Some(JobFault::Division),
        2 => Some(JobFault::Fuel),
        3 => Some(JobFault::TooDeep),
        4 => Some(JobFault::TaskLimit),
        5 => Some(JobFault::MissingWait),
        _ => None,
    }
}
