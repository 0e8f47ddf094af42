// Reading a part.
ghost use Rattle.std.specs.Prelude.{◌≡◌, IfOk, option_map};
ghost use Rattle.part_lines.specs.Parts.{entries_said, part_in, whole_lines};
ghost use Rattle.part_lines.specs.Cuts.{IsFirstLine};

use dump_lines::{Said, said_by, tenant_of};
use job_language::{Entry, TenantConfig};
use std::alloc::{AllocError, Global};

/// What a part says.
#[derive(Drop)]
pub struct PartRead {
    pub config: TenantConfig,
    pub entries: Vec<Entry>,
}

/// What the bytes of a part say: its tenant, and the entries of its whole lines, up to the first that says none. None
/// if it has no whole line that names a tenant. It fails only if an allocation failed.
pub fn read_part(alloc: Global, bytes: &[u8]) -> Result<Option<PartRead>, AllocError>
    ensures { IfOk result (λ part. option_map (λ p. (p.config, p.entries.items)) part
        ≡ part_in bytes.now) }
{
    let Some((first, rest)) = first_line(bytes) else {
        return Ok(None);
    };
    let Some(config) = tenant_of(alloc, first)? else {
        return Ok(None);
    };
    let entries = read_entries(alloc, rest)?;
    Ok(Some(PartRead { config, entries }))
}

/// The entries of whole lines, up to the first that says none.
fn read_entries(alloc: Global, bytes: &[u8]) -> Result<Vec<Entry>, AllocError>
    ensures { IfOk result (λ entries. entries.items ≡ entries_said (whole_lines bytes.now)) }
{
    let mut entries = Vec::new(alloc);
    let mut left = bytes;
    'lines: while let Some((line, rest)) = first_line(left) {
        match said_by(alloc, line)? {
            Some(Said::Entry(entry)) => entries.push(entry)?,
            Some(Said::Foreign) | None => return Ok(entries),
        }
        left = rest;
    }
    Ok(entries)
}

/// The first line, if it is whole, and what follows its newline.
pub(crate) fn first_line(bytes: &[u8]) -> Option<(&[u8], &[u8])>
    ensures { IsFirstLine bytes.now (option_map (λ cut. (cut.0.now, cut.1.now)) result) }
{
    for (at, byte) in bytes.iter().enumerate() {
        if *byte == 0 {
            return None;
        }
        if *byte == b'\n' {
            return Some((&bytes[..at], &bytes[at + 1..]));
        }
    }
    None
}
