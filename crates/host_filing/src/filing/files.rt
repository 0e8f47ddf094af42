// The files of a term that is closed, and what is told of it.
ghost use Rattle.std.specs.Prelude.{◌≡◌, IfOk};

use crate::office::Office;
use dump_files::{Broken, Whole};
use dump_lines::DumpFault;
use host_records::TermEnd;
use host_status::ClosedTerm;
use std::alloc::{AllocError, Global};
use std::fs;
use std::fs::{File, Files};
use std::sync::Wait;

/// The path of a term's dump.
pub(super) fn dump_path(
    alloc: Global,
    office: Office<'_>,
    end: &TermEnd,
) -> Result<String, AllocError> {
    let named = end.tenant.tenant().name;
    office.folder.dump(alloc, named.as_str(), end.span.number)
}

/// Lets a part that was written take its place, or removes it.
pub(super) fn keep_part<R>(
    rt: &R,
    alloc: Global,
    office: Office<'_>,
    end: &TermEnd,
    written: Result<Whole<File>, Broken<File>>,
) -> Result<(), DumpFault>
where
    R: Files<File = File>,
{
    match (written, dump_path(alloc, office, end)) {
        (Ok(whole), Ok(path)) => {
            let _kept = whole.keep(rt, path.as_str())?;
            Ok(())
        }
        (Err(Broken { part, fault }), _) => {
            // It is removed at the next start if it can't be now.
            let _ = part.remove(rt);
            Err(fault)
        }
        (Ok(whole), Err(_)) => {
            // As above.
            let _ = whole.into_part().remove(rt);
            Err(DumpFault::Memory)
        }
    }
}

/// Writes the outcomes of a term's jobs to their file.
pub(super) fn put_outcomes<R>(
    rt: &R,
    alloc: Global,
    office: Office<'_>,
    end: &TermEnd,
) -> Result<(), std::io::Error>
where
    R: Files<File = File>,
{
    let named = end.tenant.tenant().name;
    let outcomes = end.outcomes.as_slice();
    office
        .folder
        .put_outcomes(rt, alloc, named.as_str(), end.span.number, outcomes)
}

/// Removes a term's journal, if it has one, once its history and outcomes are in their files.
pub(super) fn remove_journal<R: Files<File = File>>(
    rt: &R,
    alloc: Global,
    office: Office<'_>,
    end: &TermEnd,
) {
    let named = end.tenant.tenant().name;
    let (number, base) = (end.span.number, end.span.base);
    if let Ok(path) = office.folder.journal(alloc, named.as_str(), number, base) {
        // It is removed at the next start if it can't be now.
        let _ = fs::remove_file(rt, path.as_str());
    }
}

/// Prints how a term was closed.
pub(super) fn tell_end<R: Wait>(rt: &R, alloc: Global, office: Office<'_>, end: &TermEnd) {
    let named = end.tenant.tenant().name;
    let name = named.as_str();
    let term = end.span.number;
    let line = match &end.end {
        Some(Ok(closed)) => {
            let entries = closed.history.len();
            format!(in alloc; "{name}.{term:06}: closed, {entries} entries").ok()
        }
        Some(Err(fault)) => {
            let code = fault.code();
            format!(in alloc; "{name}.{term:06}: close fault {code}").ok()
        }
        None => return,
    };
    // Whoever reads it learns the same from the status, so it may be lost.
    office.outlet.print(rt, line);
}

/// What the status shows of a term that was closed at that time, in seconds since 1970, within so many milliseconds.
pub(super) fn closed_term(
    alloc: Global,
    end: &TermEnd,
    ended: u64,
    ms: u64,
    is_dumped: bool,
) -> Result<ClosedTerm, AllocError>
    ensures term { IfOk result (λ shown. shown.term ≡ end.now.span.number) }
    ensures base { IfOk result (λ shown. shown.base ≡ end.now.span.base) }
    ensures times { IfOk result (λ shown. (shown.began ≡ end.now.began) × (shown.ended ≡ ended) × (shown.ms ≡ ms)) }
    ensures dumped { IfOk result (λ shown. shown.dumped ≡ is_dumped) }
{
    let named = end.tenant.tenant().name;
    let (entries, fault) = match &end.end {
        Some(Ok(closed)) => (closed.history.len(), None),
        Some(Err(fault)) => (0, Some(fault.code())),
        None => (0, None),
    };
    Ok(ClosedTerm {
        tenant: String::from_str(alloc, named.as_str())?,
        term: end.span.number,
        began: end.began,
        ended,
        why: end.why,
        base: end.span.base,
        entries,
        lost: end.lost(),
        left: end.left_over(),
        fault,
        dumped: is_dumped,
        ms,
    })
}
