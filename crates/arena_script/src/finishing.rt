// Finishing a dump whose end may be missing.
ghost use Rattle.std.specs.Prelude.{◌≡◌, ◌≢◌, Err, None, IsSome, IfErr, IfOk, OnErr, OnOk};
ghost use Rattle.request_reader.specs.Calls.{AreCalls};
ghost use Rattle.request_reader.specs.declared.turns.TheConstants.{MAX_TURNS};
ghost use Rattle.dump_lines.specs.Dumps.{ReadsBack, dump_text};
ghost use Rattle.part_lines.specs.Parts.{part_in};
ghost use Rattle.arena_script.specs.declared.commands.Command.TheVariants as command;
ghost use Rattle.arena_script.specs.Faults.{HasCause, IsFault};
ghost use Rattle.arena_script.specs.Finishing.{Finishes, IsFinishedDump, IsWrongPart, StartsFinished, bytes_in};

use crate::bytes::read_all;
use crate::devices::put;
use crate::ends::ScriptEnd;
use dump_lines::{DumpFault, write_dump};
use job_language::TenantConfig;
use part_lines::read_part;
use reply_writer::Sink;
use request_reader::Source;
use std::alloc::{AllocError, Global};
use tenant_finish::{Recovered, finish_tenant, recover_tenant};
use tenant_record::Replay;

/// Reads what is whole of a dump, finishes its tenant's jobs, and writes the dump of all that. Nothing
/// is written before it is there.
pub(crate) fn finish_dump<R: Source, W: Sink>(
    alloc: Global,
    reader: &mut R,
    writer: &mut W,
) -> Result<(), ScriptEnd>
    ensures finished { OnOk result (IsSome (R.remaining reader.old)
        → Finishes (bytes_in (R.remaining reader.old))
        (W.contents writer.old) (W.contents writer.new)) }
    ensures no_tenant { result ≡ Err ScriptEnd.Config → IsSome (R.remaining reader.old)
        → part_in (bytes_in (R.remaining reader.old)) ≡ None }
    ensures wrong { result ≡ Err ScriptEnd.History → IsSome (R.remaining reader.old)
        → IsWrongPart (bytes_in (R.remaining reader.old)) }
    ensures unwritten { result ≡ Err ScriptEnd.Config → writer.new ≡ writer.old }
    ensures untold { result ≡ Err ScriptEnd.History → writer.new ≡ writer.old }
    ensures part { IsSome (R.remaining reader.old)
        → StartsFinished (bytes_in (R.remaining reader.old))
        (W.contents writer.old) (W.contents writer.new) }
    ensures ends { IfErr result (IsFault command.Finish) }
    ensures cause { IfErr result (HasCause (R.failed reader.new)
        (AreCalls R.called MAX_TURNS 0 reader.old reader.new) (W.failed writer.new)) }
{
    let bytes = read_all(alloc, reader)?;
    let text = finished(alloc, bytes.as_slice())?;
    put(writer, text.as_slice())?;
    Ok(())
}

/// The finished dump of what is whole of one.
fn finished(alloc: Global, bytes: &[u8]) -> Result<Vec<u8>, ScriptEnd>
    ensures finished { IfOk result (λ text. IsFinishedDump bytes.now text.items) }
    ensures no_tenant { result ≡ Err ScriptEnd.Config → part_in bytes.now ≡ None }
    ensures wrong { result ≡ Err ScriptEnd.History → IsWrongPart bytes.now }
    ensures ends { IfErr result (λ end. IsFault command.Finish end × (end ≢ ScriptEnd.Device)) }
{
    let Some(part) = read_part(alloc, bytes)? else {
        return Err(ScriptEnd::Config);
    };
    let config = part.config;
    match recover_tenant(alloc, config, part.entries)? {
        Recovered::Tenant(replay) => {
            let mut replay = replay;
            finish_tenant(&mut replay);
            Ok(text_of(alloc, &config, &replay)?)
        }
        Recovered::WrongAfter(_) => Err(ScriptEnd::History),
    }
}

/// The dump of a tenant, in memory.
fn text_of(alloc: Global, config: &TenantConfig, replay: &Replay) -> Result<Vec<u8>, ScriptEnd>
    ensures text { IfOk result (λ text. text.items ≡ dump_text config.now replay.now.history) }
    ensures reads_back { IfOk result (λ text.
        ReadsBack text.items config.now replay.now.history) }
    ensures memory { IfErr result (λ end. end ≡ ScriptEnd.Memory) }
{
    let mut text = Vec::new(alloc);
    match write_dump(alloc, &mut text, config, replay.history()) {
        Ok(()) => Ok(text),
        // Each entry of a right history has a line.
        Err(DumpFault::NoEntry) => unreachable!(),
        Err(DumpFault::Device | DumpFault::Memory) => Err(ScriptEnd::Memory),
    }
}
