// A history becomes a file.
ghost use Rattle.std.specs.Prelude.{◌≡◌, ◌≢◌, All, Any, Err, None, OnOk};
ghost use Rattle.dump_lines.specs.Dumps.{HasLine, ReadsBack, dump_text};
ghost use Rattle.dump_lines.specs.Written.{entry_data};
ghost use Rattle.dump_lines.specs.declared.whole.DumpFault.TheVariants.{NoEntry};

use crate::parts::{Broken, Kept, make_part};
use dump_lines::DumpFault;
use job_language::{Entry, TenantConfig};
use std::alloc::Global;
use std::fs;
use std::fs::Files;

/// Whether a dump can be written at a path: a part can be made beside it, and it is not that of a folder. `Device` if
/// not, and `Memory` if an allocation fails. Nothing is left there.
pub fn can_dump<R: Files>(rt: &R, alloc: Global, path: &str) -> Result<(), DumpFault>
    ensures { result ≢ Err NoEntry }
{
    make_part(rt, alloc, path)?.remove(rt)?;
    match fs::symlink_metadata(rt, path) {
        Ok(file) if file.is_dir() => Err(DumpFault::Device),
        _ => Ok(()),
    }
}

/// Writes a history to the file at a path. It is written to a part beside that file, brought to the disk, and then
/// takes its place, so that there is a whole history at any moment: the one before, or this one. A part belongs to
/// whoever made it, so two that dump to one path don't disturb each other, and the later one's file stays. A fault is
/// as of `Part::fill` and `Whole::keep`: no part is left then, and the file that was there stays, unless `keep` failed
/// at its last step, after the new one had taken its place. `Kept` comes from a part that was filled whole.
pub fn dump_history<R: Files>(
    rt: &R,
    alloc: Global,
    path: &str,
    config: &TenantConfig,
    history: &[Entry],
) -> Result<Kept, DumpFault>
    ensures all { OnOk result (All HasLine history.now) }
    ensures reads_back { OnOk result
        (ReadsBack (dump_text config.now history.now) config.now history.now) }
    ensures entry { result ≡ Err NoEntry → Any (λ e. entry_data e ≡ None) history.now }
{
    let part = make_part(rt, alloc, path)?;
    match part.fill(alloc, config, history) {
        Ok(whole) => whole.keep(rt, path),
        Err(Broken { part, fault }) => {
            // The end is the same if it can't be removed.
            let _ = part.remove(rt);
            Err(fault)
        }
    }
}
