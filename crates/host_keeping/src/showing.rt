// What a host shows of itself.

use crate::context::HostContext;
use host_filing::seconds;
use host_status::{
    ClosedTerm, CutSoFar, HostStatus, Jobs, Rows, TenantStatus, TermStatus, Worker, status_line,
};
use host_terms::{HostTerm, Place, Tenancy};
use job_language::TenantName;
use program_version::VERSION;
use program_words::HostWords;
use std::alloc::{AllocError, Global};
use std::fs::{File, Files, OpenFile, OpenOptions, Permissions};
use std::io::{ErrorKind, Write};
use std::os::unix::fs::{OpenOptionsExt, PermissionsExt, chown};
use std::sync::Wait;
use std::sync::atomic::Ordering;
use std::time::Clock;
use std::{fs, io};
use tenant_book::Naming;
use tenant_lock::JobTally;

/// How many bytes a page of memory has.
const PAGE: u64 = 4096;

/// Writes what the host does to its file, which it replaces whole.
pub(crate) fn show<J: Naming, R: Files<File = File> + Wait + Clock + AllocGlobal>(
    rt: &R,
    alloc: Global,
    context: HostContext<'_, J>,
    closed: &[ClosedTerm],
) -> io::Result<()> {
    let workers = workers(rt, alloc, context)?;
    let tenants = tenants(rt, alloc, context)?;
    let terms = terms(rt, alloc, context)?;
    let words = context.office.words;
    let status = HostStatus {
        version: VERSION,
        time: seconds(rt),
        began: context.began,
        connections: words.connections,
        connected: context.connected(rt),
        served: context.progress.served.load(Ordering::SeqCst),
        cut: cut_so_far(context),
        tenant_connections: words.tenant_connections,
        hello_seconds: words.hello_seconds,
        idle_seconds: words.idle_seconds,
        rotate_at: words.rotate_at,
        keep: words.keep,
        finish: words.finish,
        durable: words.durable.word(),
        memory: resident(rt),
        workers: workers.as_slice(),
        tenants: tenants.as_slice(),
        terms: terms.as_slice(),
        closed,
    };
    let Ok(line) = status_line(alloc, &status) else {
        return Err(io::Error::from(ErrorKind::OutOfMemory));
    };
    let path = context.office.folder.status.as_str();
    let part = format!(in alloc; "{path}.part")?;
    write_status(rt, part.as_str(), words, line.as_str())?;
    fs::rename(rt, part.as_str(), path)
}

/// How many connections were ended since the host began.
fn cut_so_far<J: Naming>(context: HostContext<'_, J>) -> CutSoFar {
    CutSoFar {
        hello: context.progress.cut_hello.load(Ordering::SeqCst),
        idle: context.progress.cut_idle.load(Ordering::SeqCst),
    }
}

/// Where the workers are.
fn workers<J: Naming, R: Wait>(
    rt: &R,
    alloc: Global,
    context: HostContext<'_, J>,
) -> Result<Vec<Worker>, AllocError> {
    let mut workers = Vec::with_capacity(alloc, context.places.len())?;
    for (worker, place) in context.places.iter().enumerate() {
        let (tenant, slot) = where_is(rt, alloc, context, place)?;
        workers.push(Worker {
            worker,
            tenant,
            slot,
        })?;
    }
    Ok(workers)
}

/// The name of the tenant at whose slot a worker is, and the slot.
fn where_is<J: Naming, R: Wait>(
    rt: &R,
    alloc: Global,
    context: HostContext<'_, J>,
    place: &Place,
) -> Result<(Option<String>, Option<u8>), AllocError> {
    let Some((tenant, slot)) = place.seen() else {
        return Ok((None, None));
    };
    match context.host.tenancy(rt, tenant as usize) {
        Some(tenancy) => Ok((Some(text_of(alloc, tenancy.name())?), Some(slot))),
        None => Ok((None, None)),
    }
}

fn text_of(alloc: Global, name: TenantName) -> Result<String, AllocError> {
    String::from_str(alloc, name.as_str())
}

/// What each tenant has of the connections.
fn tenants<J: Naming, R: Wait>(
    rt: &R,
    alloc: Global,
    context: HostContext<'_, J>,
) -> Result<Vec<TenantStatus>, AllocError> {
    let mut tenants = Vec::new(alloc);
    for tenant in 0..context.host.count(rt) {
        if let Some(tenancy) = context.host.tenancy(rt, tenant) {
            tenants.push(TenantStatus {
                tenant: text_of(alloc, tenancy.name())?,
                connected: tenancy.connected(),
                refused: tenancy.refused(),
            })?;
        }
    }
    Ok(tenants)
}

/// The terms that are not closed.
fn terms<J: Naming, R: Wait>(
    rt: &R,
    alloc: Global,
    context: HostContext<'_, J>,
) -> Result<Vec<TermStatus>, AllocError> {
    let mut terms = Vec::new(alloc);
    for tenant in 0..context.host.count(rt) {
        if let Some(tenancy) = context.host.tenancy(rt, tenant) {
            add_terms(rt, alloc, &tenancy, &mut terms)?;
        }
    }
    Ok(terms)
}

fn add_terms<J: Naming, R: Wait>(
    rt: &R,
    alloc: Global,
    tenancy: &Tenancy<J>,
    terms: &mut Vec<TermStatus>,
) -> Result<(), AllocError> {
    for term in &tenancy.live(rt, alloc)? {
        if let Some(status) = term_status(rt, alloc, tenancy, term)? {
            terms.push(status)?;
        }
    }
    Ok(())
}

fn term_status<J: Naming, R: Wait>(
    rt: &R,
    alloc: Global,
    tenancy: &Tenancy<J>,
    term: &HostTerm<J>,
) -> Result<Option<TermStatus>, AllocError> {
    let span = term.span();
    let Some(known) = tenancy.known(rt, span.number) else {
        return Ok(None);
    };
    let Some(door) = term.door() else {
        return Ok(None);
    };
    let mut me = door.front();
    let (counts, tally) = (door.counts(rt, &mut me), door.tally(rt, &mut me));
    Ok(Some(TermStatus {
        tenant: text_of(alloc, tenancy.name())?,
        term: span.number,
        state: known.stage(),
        began: term.began(),
        why: known.why,
        base: span.base,
        steps: term.tenant().tenant().steps,
        entries: counts.entries,
        asks: counts.asks,
        jobs: door.jobs(),
        jobs_now: jobs(tally.jobs),
        rows: Rows {
            open: tally.open_rows,
            waiting: tally.waiting_rows,
        },
    }))
}

/// How far jobs are, in the words of the status.
fn jobs(tally: JobTally) -> Jobs {
    Jobs {
        running: tally.running,
        complete: tally.complete,
        canceled: tally.cancelled,
        fault: tally.faulted,
    }
}

/// Writes a line to a new file, readable by whoever may connect, whatever the process' mask is.
fn write_status<R: Files>(rt: &R, path: &str, words: HostWords<'_>, line: &str) -> io::Result<()> {
    // It is there if the last one could not be renamed.
    let _ = fs::remove_file(rt, path);
    let mut options = OpenOptions::new();
    options.write(true).create_new(true).mode(0o600);
    let mut file = options.open(rt, path)?;
    file.write_all(line.as_bytes())?;
    file.write_all(b"\n")?;
    if words.group.is_some() {
        chown(rt, path, None, words.group)?;
    }
    file.set_permissions(Permissions::from_mode(readers(words.mode)))
}

/// Read permission for everyone who has write permission in `mode`, and both for the owner.
fn readers(mode: u32) -> u32 {
    0o600 | (mode & 0o022) << 1
}

/// The resident bytes of the process, if the system says.
fn resident<R: Files + AllocGlobal>(rt: &R) -> Option<u64> {
    let text = fs::read_to_string(rt, "/proc/self/statm").ok()?;
    let pages = text.as_str().split(' ').nth(1)?.parse::<u64>().ok()?;
    pages.checked_mul(PAGE)
}
