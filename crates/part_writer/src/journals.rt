// A journal, to which the histories of several tenants are written at once.
ghost use Rattle.std.specs.Prelude.{◌≡◌, ◌++◌, [], List, All, IfOk, OnOk, string_bytes};
ghost use Rattle.dump_lines.specs.Dumps.{line_text};
ghost use Rattle.part_lines.specs.Journals.{IsMark, Mark, marks_text};
ghost use Rattle.part_writer.specs.Journals.{IsJournal, RecoversMarks, slice};
ghost use Rattle.part_writer.specs.Moments.{LeavesOnly};

use crate::files::{PartFault, PartFile};
use crate::texts::{add_text, entries_of};
use dump_lines::first_line;
use job_language::{Entry, TenantConfig};
use std::alloc::Global;

/// Adds a slice of a tenant's history to a journal. A crash at any moment leaves a file from which all that was on the
/// disk is read, and then some of what was added, from the first on.
pub fn add_slice<F: PartFile>(
    alloc: Global,
    file: &mut F,
    config: &TenantConfig,
    entries: &[Entry],
) -> Result<(), PartFault>
    ensures writing { (there : List Mark) (more : List Mark)
        → IsJournal there more (F.durable file.old) (F.pending file.old)
        → OnOk result (IsJournal there (more ++ slice config.now entries.now)
        (F.durable file.new) (F.pending file.new)) }
    ensures any_moment { (there : List Mark) (more : List Mark)
        → IsJournal there more (F.durable file.old) (F.pending file.old)
        → LeavesOnly F.moment F.left_since file.old file.new
        (RecoversMarks there (more ++ slice config.now entries.now)) }
{
    let text = slice_of(alloc, config, entries)?;
    file.append(text.as_str().as_bytes())
}

/// Brings a journal to the disk: from then on each crash leaves a file from which all its lines are read.
pub fn bring_journal_to_disk<F: PartFile>(file: &mut F) -> Result<(), PartFault>
    ensures acknowledged { (there : List Mark) (more : List Mark)
        → IsJournal there more (F.durable file.old) (F.pending file.old)
        → OnOk result (IsJournal (there ++ more) [] (F.durable file.new) (F.pending file.new)) }
    ensures any_moment { (there : List Mark) (more : List Mark)
        → IsJournal there more (F.durable file.old) (F.pending file.old)
        → LeavesOnly F.moment F.left_since file.old file.new (RecoversMarks there more) }
{
    file.sync()
}

/// The lines of a slice.
fn slice_of(alloc: Global, config: &TenantConfig, entries: &[Entry]) -> Result<String, PartFault>
    ensures text { IfOk result
        (λ text. string_bytes text ≡ marks_text (slice config.now entries.now)) }
    ensures marks { OnOk result (All IsMark (slice config.now entries.now)) }
{
    let first = first_line(alloc, config)?;
    let rest = entries_of(alloc, entries)?;
    joined(alloc, first.as_str(), rest.as_str())
}

/// A line with its newline, and a text behind it.
fn joined(alloc: Global, first: &str, rest: &str) -> Result<String, PartFault>
    ensures { IfOk result (λ text. string_bytes text ≡ line_text first.now ++ rest.now) }
{
    let mut text = String::new(alloc);
    add_text(&mut text, first)?;
    text.push_str(rest)?;
    Ok(text)
}
