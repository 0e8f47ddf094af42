// Reading a journal.
ghost use Rattle.std.specs.Prelude.{◌≡◌, IfOk, map, option_map};
ghost use Rattle.part_lines.specs.Journals.{journal_in, mark_in};
ghost use Rattle.part_lines.specs.JournalLines.{mark_seen};

use crate::reading::first_line;
use dump_lines::{Said, said_by, tenant_of};
use job_language::{Entry, TenantConfig};
use std::alloc::{AllocError, Global};

/// A line of a journal.
#[derive(Drop)]
pub enum JournalLine {
    /// The entries that follow are of this tenant.
    Names(TenantConfig),
    Says(Entry),
}

/// The whole lines of a journal, up to the first that marks nothing. It fails only if an allocation failed.
pub fn read_journal(alloc: Global, bytes: &[u8]) -> Result<Vec<JournalLine>, AllocError>
    ensures { IfOk result (λ lines. map mark_seen lines.items ≡ journal_in bytes.now) }
{
    let mut lines = Vec::new(alloc);
    let mut left = bytes;
    'lines: while let Some((line, rest)) = first_line(left) {
        match mark_in(alloc, line)? {
            Some(mark) => lines.push(mark)?,
            None => return Ok(lines),
        }
        left = rest;
    }
    Ok(lines)
}

/// What a line marks, if it marks something.
fn mark_in(alloc: Global, line: &[u8]) -> Result<Option<JournalLine>, AllocError>
    ensures { IfOk result (λ mark. option_map mark_seen mark ≡ mark_in line.now) }
{
    match said_by(alloc, line)? {
        Some(Said::Entry(entry)) => Ok(Some(JournalLine::Says(entry))),
        Some(Said::Foreign) | None => match tenant_of(alloc, line)? {
            Some(config) => Ok(Some(JournalLine::Names(config))),
            None => Ok(None),
        },
    }
}
