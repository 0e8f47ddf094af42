// The text of some entries.
ghost use Rattle.std.specs.Prelude.{◌≡◌, ◌++◌, All, IfOk, OnOk, string_bytes};
ghost use Rattle.dump_lines.specs.Dumps.{HasLine, SaysItself, entries_text, entry_text, line_text};

use crate::files::PartFault;
use dump_lines::entry_line;
use job_language::Entry;
use std::alloc::Global;

/// The lines of some entries, each with its newline.
pub fn entries_of(alloc: Global, entries: &[Entry]) -> Result<String, PartFault>
    ensures text { IfOk result (λ text. string_bytes text ≡ entries_text entries.now) }
    ensures lines { OnOk result (All HasLine entries.now) }
    ensures says { OnOk result (All SaysItself entries.now) }
{
    let mut text = String::new(alloc);
    for entry in entries {
        add_line(alloc, &mut text, entry)?;
    }
    Ok(text)
}

/// Adds the line of an entry.
pub(crate) fn add_line(alloc: Global, text: &mut String, entry: &Entry) -> Result<(), PartFault>
    ensures text { OnOk result (string_bytes text.new ≡ string_bytes text.old ++ entry_text entry.now) }
    ensures line { OnOk result (HasLine entry.now) }
    ensures says { OnOk result (SaysItself entry.now) }
{
    match entry_line(alloc, entry)? {
        Some(line) => add_text(text, line.as_str()),
        None => Err(PartFault::NoEntry),
    }
}

/// Adds a line and its newline.
pub(crate) fn add_text(text: &mut String, line: &str) -> Result<(), PartFault>
    ensures { OnOk result (string_bytes text.new ≡ string_bytes text.old ++ line_text line.now) }
{
    text.push_str(line)?;
    text.push_str("\n")?;
    Ok(())
}
