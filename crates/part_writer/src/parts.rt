// A part in a file of the system.
ghost use Rattle.std.specs.Prelude.{◌≡◌, ◌++◌, All, IfOk, OnOk};
ghost use Rattle.std.specs.Io.KnownBytes.{Appends};
ghost use Rattle.dump_lines.specs.Dumps.{HasLine, NamesItself, entries_text, entry_text, first_text};
ghost use Rattle.dump_lines.specs.Parts.{AppendsPart};

use crate::asks::add_ask;
use crate::files::PartFault;
use crate::moves::add_move;
use crate::texts::{add_line, add_text};
use dump_lines::first_line;
use job_language::{Entry, TenantConfig};
use reply_writer::write_all_of;
use std::alloc::Global;
use std::io::Write;
use std::marker::Model;

/// A file to which a tenant's history is written as it is made: the tenant's line, and one for each entry.
#[derive(Drop)]
pub struct LivePart<F> {
    file: F,
}

impl<F> Model for LivePart<F> {
    ghost Value = { F };

    ghost view = { λ p. p.file };
}

impl<F: Write + Drop> LivePart<F> {
    /// Begins a part with the tenant's line. `Memory` if an allocation fails, and `Failed` if the file does.
    pub fn begin(alloc: Global, file: F, config: &TenantConfig) -> Result<LivePart<F>, PartFault>
        ensures written { IfOk result (λ part. Appends (F.contents file) (F.contents part) (first_text config.now)) }
        ensures names { OnOk result (NamesItself config.now) }
    {
        let mut part = LivePart { file };
        let first = first_line(alloc, config)?;
        let mut text = String::new(alloc);
        add_text(&mut text, first.as_str())?;
        part.append(text.as_str().as_bytes())?;
        Ok(part)
    }

    /// Adds entries. At a fault the file has a first piece of their lines more, and nothing may be added to it any
    /// more:
    /// `Memory` if an allocation fails, `Failed` if the file does, and `NoEntry` if no history holds one of them.
    pub fn add(&mut self, alloc: Global, entries: &[Entry]) -> Result<(), PartFault>
        ensures written { OnOk result (Appends (F.contents self.old) (F.contents self.new) (entries_text entries.now)) }
        ensures piece { AppendsPart (F.contents self.old) (F.contents self.new) (entries_text entries.now) }
        ensures lines { OnOk result (All HasLine entries.now) }
    {
        let text = lines_of(alloc, entries)?;
        self.append(text.as_slice())
    }

    #[tactic(auto, using(dump_lines::proofs::Parts::part_all))]
    fn append(&mut self, bytes: &[u8]) -> Result<(), PartFault>
        ensures written { OnOk result (Appends (F.contents self.old) (F.contents self.new) bytes.now) }
        ensures piece { AppendsPart (F.contents self.old) (F.contents self.new) bytes.now }
    {
        match write_all_of(&mut self.file, bytes) {
            Ok(()) => Ok(()),
            Err(_) => Err(PartFault::Failed),
        }
    }
}

/// The lines of some entries, each with its newline.
fn lines_of(alloc: Global, entries: &[Entry]) -> Result<Vec<u8>, PartFault>
    ensures text { IfOk result (λ text. text.items ≡ entries_text entries.now) }
    ensures lines { OnOk result (All HasLine entries.now) }
{
    let mut text = Vec::new(alloc);
    for entry in entries {
        add_entry(alloc, &mut text, entry)?;
    }
    Ok(text)
}

/// Adds the line of an entry.
fn add_entry(alloc: Global, text: &mut Vec<u8>, entry: &Entry) -> Result<(), PartFault>
    ensures text { OnOk result (text.new.items ≡ text.old.items ++ entry_text entry.now) }
    ensures line { OnOk result (HasLine entry.now) }
{
    if add_move(text, entry)? || add_ask(text, entry)? {
        return Ok(());
    }
    let mut line = String::new(alloc);
    add_line(alloc, &mut line, entry)?;
    text.extend_from_slice(line.as_str().as_bytes())?;
    Ok(())
}
