// Writing a whole dump.
ghost use Rattle.std.specs.Prelude.{◌≡◌, ◌≢◌, ◌++◌, ◌∷◌, [], All, Any, Err, None, OnOk};
ghost use Rattle.std.specs.Io.KnownBytes.{Appends};
ghost use Rattle.dump_lines.specs.Parts.{AppendsPart};
ghost use Rattle.dump_lines.specs.Dumps.{HasLine, NamesItself, ReadsBack, SaysItself, dump_text, entries_text, entry_text, first_text, line_text};
ghost use Rattle.dump_lines.specs.Written.{entry_data};
ghost use Rattle.dump_lines.specs.declared.whole.DumpFault.TheVariants.{Memory, NoEntry};

use crate::writing::{entry_line, first_line};
use job_language::{Entry, TenantConfig};
use reply_writer::write_all_of;
use std::alloc::{AllocError, Global};
use std::io::Write;

/// Why a dump was not written whole.
#[derive(Clone, Copy, Debug, PartialEq, Eq)]
pub enum DumpFault {
    /// The writer failed.
    Device,
    /// An allocation failed.
    Memory,
    /// No history holds the entry.
    NoEntry,
}

impl From<AllocError> for DumpFault {
    ghost from_gives = { λ _ e. e ≡ Memory };

    fn from(_error: AllocError) -> DumpFault {
        DumpFault::Memory
    }
}

/// Writes a tenant's dump: its line, and then one for each entry of its history, which all read back. At
/// a fault the writer has a first part of it.
pub fn write_dump<W: Write>(
    alloc: Global,
    writer: &mut W,
    config: &TenantConfig,
    entries: &[Entry],
) -> Result<(), DumpFault>
    ensures written { OnOk result (Appends (W.contents writer.old) (W.contents writer.new)
        (dump_text config.now entries.now)) }
    ensures part { AppendsPart (W.contents writer.old) (W.contents writer.new)
        (dump_text config.now entries.now) }
    ensures all { OnOk result (All HasLine entries.now) }
    ensures reads_back { OnOk result
        (ReadsBack (dump_text config.now entries.now) config.now entries.now) }
    ensures entry { result ≡ Err NoEntry → Any (λ e. entry_data e ≡ None) entries.now }
{
    write_first(alloc, writer, config)?;
    write_entries(alloc, writer, entries)
}

fn write_first<W: Write>(
    alloc: Global,
    writer: &mut W,
    config: &TenantConfig,
) -> Result<(), DumpFault>
    ensures written { OnOk result (Appends (W.contents writer.old) (W.contents writer.new)
        (first_text config.now)) }
    ensures part { AppendsPart (W.contents writer.old) (W.contents writer.new)
        (first_text config.now) }
    ensures reads_back { OnOk result (NamesItself config.now) }
    ensures no_entry { result ≢ Err NoEntry }
{
    let first = first_line(alloc, config)?;
    write_line(writer, first.as_str())
}

fn write_entries<W: Write>(
    alloc: Global,
    writer: &mut W,
    entries: &[Entry],
) -> Result<(), DumpFault>
    ensures written { OnOk result (Appends (W.contents writer.old) (W.contents writer.new)
        (entries_text entries.now)) }
    ensures part { AppendsPart (W.contents writer.old) (W.contents writer.new)
        (entries_text entries.now) }
    ensures all { OnOk result (All HasLine entries.now) }
    ensures read_back { OnOk result (All SaysItself entries.now) }
    ensures entry { result ≡ Err NoEntry → Any (λ e. entry_data e ≡ None) entries.now }
{
    for entry in entries {
        write_entry(alloc, writer, entry)?;
    }
    Ok(())
}

fn write_entry<W: Write>(alloc: Global, writer: &mut W, entry: &Entry) -> Result<(), DumpFault>
    ensures written { OnOk result (Appends (W.contents writer.old) (W.contents writer.new)
        (entry_text entry.now)) }
    ensures part { AppendsPart (W.contents writer.old) (W.contents writer.new)
        (entry_text entry.now) }
    ensures line { OnOk result (HasLine entry.now) }
    ensures reads_back { OnOk result (SaysItself entry.now) }
    ensures entry { result ≡ Err NoEntry → entry_data entry.now ≡ None }
{
    match entry_line(alloc, entry)? {
        Some(line) => write_line(writer, line.as_str()),
        None => Err(DumpFault::NoEntry),
    }
}

/// Writes a line and its newline.
#[tactic(auto, using(crate::proofs::Parts::part_then, crate::proofs::Parts::part_more))]
fn write_line<W: Write>(writer: &mut W, line: &str) -> Result<(), DumpFault>
    ensures written { OnOk result (Appends (W.contents writer.old) (W.contents writer.new)
        (line_text line.now)) }
    ensures part { AppendsPart (W.contents writer.old) (W.contents writer.new)
        (line_text line.now) }
    ensures no_entry { result ≢ Err NoEntry }
{
    write_bytes(writer, line.as_bytes())?;
    write_bytes(writer, b"\n")
}

#[tactic(auto, using(crate::proofs::Parts::part_all))]
fn write_bytes<W: Write>(writer: &mut W, bytes: &[u8]) -> Result<(), DumpFault>
    ensures written { OnOk result
        (Appends (W.contents writer.old) (W.contents writer.new) bytes.now) }
    ensures part { AppendsPart (W.contents writer.old) (W.contents writer.new) bytes.now }
    ensures no_entry { result ≢ Err NoEntry }
{
    match write_all_of(writer, bytes) {
        Ok(()) => Ok(()),
        Err(_) => Err(DumpFault::Device),
    }
}
