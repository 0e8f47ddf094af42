// What is read of a part.
ghost use Rattle.std.specs.Prelude.{◌≡◌, [], ◌++◌, List, All, Some};
ghost use Rattle.job_language.specs.declared.steps.Entry.{Entry};
ghost use Rattle.job_language.specs.declared.tenants.Tenant.{Tenant};
ghost use Rattle.dump_lines.specs.Dumps.{HasLine, NamesItself, SaysItself, dump_text};
ghost use Rattle.part_lines.specs.Journals.{FirstLinesHaveFirstEntries, InventsNoMarks, IsMark, KeepsMarks, Mark};
ghost use Rattle.part_lines.specs.Parts.{InventsNothing, KeepsWhatIsThere, part_in};

/// What was brought to the disk of a dump is read whatever follows it; and of what a crash tore, only entries that were
/// written are read, from the first on. It does nothing: its contract is the law.
pub fn torn_parts_read_back()
    ensures whole { (c : Tenant) (es : List Entry) → NamesItself c → All HasLine es
        → All SaysItself es → part_in (dump_text c es) ≡ Some (c, es) }
    ensures kept { (c : Tenant) (es : List Entry) → NamesItself c → All HasLine es
        → All SaysItself es → KeepsWhatIsThere c es }
    ensures torn { (c : Tenant) (es : List Entry) → NamesItself c → All HasLine es
        → All SaysItself es → InventsNothing c es }
{}

/// The same of a journal, to which the dumps of several tenants are written at once: its lines that were brought to the
/// disk are read whatever follows, and of a torn end only lines that were written, from the first on; so of each tenant
/// the first of its entries, all that were brought to the disk among them. It does nothing: its contract is the law.
pub fn torn_journals_read_back()
    ensures kept { (ms : List Mark) → All IsMark ms → KeepsMarks ms }
    ensures torn { (ms : List Mark) → All IsMark ms → InventsNoMarks ms }
    ensures first { (ms : List Mark) → FirstLinesHaveFirstEntries ms }
{}
