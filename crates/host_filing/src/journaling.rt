// How the journal of a term begins.

use crate::ends::part_fault;
use crate::office::Office;
use host_folder::sync_folder;
use host_records::Journal;
use job_language::TenantConfig;
use program_words::Durable;
use server_io::ServerFault;
use std::alloc::Global;
use std::fs::{File, Files, OpenOptions};
use std::os::unix::fs::OpenOptionsExt;
use term_life::Span;

/// The journal of a term that is to begin, if terms have one. `Device` if its file can't be made, and `Memory` if an
/// allocation fails.
pub fn begin_journal<R: Files<File = File>>(
    rt: &R,
    alloc: Global,
    office: Office<'_>,
    span: Span,
    tenant: &TenantConfig,
) -> Result<Option<Journal>, ServerFault> {
    let durable = office.words.durable;
    if durable == Durable::Off {
        return Ok(None);
    }
    let named = tenant.tenant().name;
    let folder = office.folder;
    let path = folder.journal(alloc, named.as_str(), span.number, span.base)?;
    let mut options = OpenOptions::new();
    options.write(true).create(true).truncate(true).mode(0o600);
    let Ok(file) = options.open(rt, path.as_str()) else {
        return Err(ServerFault::Device);
    };
    let journal = match Journal::begin(alloc, file, tenant, durable == Durable::Reply) {
        Ok(journal) => journal,
        Err(fault) => return Err(part_fault(fault)),
    };
    if durable != Durable::Write && sync_folder(rt, folder.journals.as_str()).is_err() {
        return Err(ServerFault::Device);
    }
    Ok(Some(journal))
}
