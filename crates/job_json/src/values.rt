// Parts of JSON values.
ghost use Rattle.std.specs.Prelude.{◌≡◌, ◌≤◌, map, option_map, IfSome};
ghost use Rattle.serde_json.specs.Find.{get};
ghost use Rattle.serde_json.specs.View.{view};
ghost use Rattle.job_json.specs.Json.{items_of, has_members, number_in};

use serde_json::Value;

/// The items of an array.
pub fn items_of(value: &Value) -> Option<&[Value]>
    ensures { option_map (λ items. map view items.now) result ≡ items_of (view value.now) }
{
    match value.as_array() {
        Some(items) => Some(items.as_slice()),
        None => None,
    }
}

/// Whether it is an object with exactly `count` members.
pub fn has_members(count: usize, value: &Value) -> bool
    ensures { result ≡ has_members count (view value.now) }
{
    match value.as_object() {
        Some(members) => members.len() == count,
        None => false,
    }
}

/// The member of that name, taken out of an object.
pub fn take_member(name: &str, value: Value) -> Option<Value>
    ensures { option_map view result ≡ get name.now (view value) }
{
    match value {
        Value::Object(mut members) => members.remove(name),
        _ => None,
    }
}

/// A whole number from the lowest to the highest that may stand there.
pub fn number_in(lowest: u64, highest: u64, value: &Value) -> Option<u64>
    ensures value { result ≡ number_in lowest highest (view value.now) }
    ensures some { IfSome result (λ n. lowest ≤ n) }
    ensures most { IfSome result (λ n. n ≤ highest) }
{
    let number = value.as_u64()?;
    if lowest <= number && number <= highest {
        Some(number)
    } else {
        None
    }
}
