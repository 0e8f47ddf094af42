// A part that is written as its history is made.
ghost use Rattle.std.specs.Prelude.{◌≡◌, ◌++◌, [], List, OnOk};
ghost use Rattle.job_language.specs.declared.steps.Entry.{Entry};
ghost use Rattle.job_language.specs.declared.tenants.Tenant.{Tenant};
ghost use Rattle.part_writer.specs.Moments.{LeavesOnly};
ghost use Rattle.part_writer.specs.Writing.{IsWriting, Recovers};

use crate::files::{PartFault, PartFile};
use crate::texts::entries_of;
use job_language::Entry;
use std::alloc::Global;

/// Adds entries to a part. A crash at any moment leaves a file from which all that was on the disk is read, and then
/// some of what was added, from the first on.
pub fn add_entries<F: PartFile>(
    alloc: Global,
    file: &mut F,
    entries: &[Entry],
) -> Result<(), PartFault>
    ensures writing { (c : Tenant) (there : List Entry) (more : List Entry)
        → IsWriting c there more (F.durable file.old) (F.pending file.old)
        → OnOk result (IsWriting c there (more ++ entries.now)
        (F.durable file.new) (F.pending file.new)) }
    ensures any_moment { (c : Tenant) (there : List Entry) (more : List Entry)
        → IsWriting c there more (F.durable file.old) (F.pending file.old)
        → LeavesOnly F.moment F.left_since file.old file.new
        (Recovers c there (more ++ entries.now)) }
{
    let text = entries_of(alloc, entries)?;
    file.append(text.as_str().as_bytes())
}

/// Brings a part to the disk: from then on each crash leaves a file from which all its entries are read.
pub fn bring_to_disk<F: PartFile>(file: &mut F) -> Result<(), PartFault>
    ensures acknowledged { (c : Tenant) (there : List Entry) (more : List Entry)
        → IsWriting c there more (F.durable file.old) (F.pending file.old)
        → OnOk result (IsWriting c (there ++ more) [] (F.durable file.new) (F.pending file.new)) }
    ensures any_moment { (c : Tenant) (there : List Entry) (more : List Entry)
        → IsWriting c there more (F.durable file.old) (F.pending file.old)
        → LeavesOnly F.moment F.left_since file.old file.new (Recovers c there more) }
{
    file.sync()
}
