// Copies of a tenant's history.
ghost use Rattle.std.specs.Prelude.{◌≡◌, ◌++◌, IfOk, OnOk, drop, take};

use job_language::Entry;
use std::alloc::AllocError;

/// The entries from that number on, `most` of them at most.
pub(crate) fn slice_of(history: &[Entry], from: usize, most: usize) -> &[Entry]
    ensures { result.now ≡ take most (drop from history.now) }
{
    let from = from.min(history.len());
    let rest = &history[from..];
    let most = most.min(rest.len());
    &rest[..most]
}

/// Adds copies of entries to a vector. At a fault some of them were added.
pub(crate) fn copy_all(entries: &[Entry], copies: &mut Vec<Entry>) -> Result<(), AllocError>
    ensures { OnOk result (copies.new.items ≡ copies.old.items ++ entries.now) }
{
    for entry in entries {
        copies.push(copy_of(entry)?)?;
    }
    Ok(())
}

/// The same entry.
fn copy_of(entry: &Entry) -> Result<Entry, AllocError>
    ensures { IfOk result (λ copy. copy ≡ entry.now) }
{
    Ok(Entry {
        step: entry.step.try_clone()?,
        answer: entry.answer,
    })
}
