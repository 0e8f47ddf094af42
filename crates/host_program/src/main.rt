//! `arena-host`: serves tenants over a Unix socket, each in one term after another.
#![tactic(auto)]

mod accepting;
mod ends;
mod hosting;

use crate::ends::{fault_text, words_fault};
use crate::hosting::host_tenants;
use host_filing::System;
use host_folder::Folder;
use host_records::{Outlet, write_printed, write_reported};
use program_version::{asks_version, print_version};
use program_words::{HostWords, read_host_words};
use server_io::{ServerEnd, ServerFault, exit_status};
use std::alloc::{AllocError, Global};
use std::env::Env;
use std::fs::{File, OpenOptions};
use std::io::ErrorKind;
use std::os::unix::fs::OpenOptionsExt;
use std::process::ExitCode;
use std::sync::{Arc, Wait};
use std::time::{Clock, Duration};
use std::{env, io, thread};

/// How long whoever reads what the host writes has for the rest of it once the host ends, in milliseconds.
const LAST_WORDS: u64 = 2000;

fn main(rt: HostRuntime) -> ExitCode {
    let alloc = rt.alloc();
    let (outlet, printed, reported) = match new_outlet(alloc) {
        Ok(handles) => handles,
        Err(_) => return unheard(&rt, ServerFault::Memory),
    };
    // These write as long as the process lives, so that nobody else waits for whoever reads the lines.
    let printer = thread::spawn(&rt, move || write_printed(&rt, alloc, &printed));
    let reporter = thread::spawn(&rt, move || write_reported(&rt, alloc, &reported));
    if printer.is_err() || reporter.is_err() {
        return unheard(&rt, ServerFault::Device);
    }
    let end = run(&rt, &outlet);
    report_end(&rt, &outlet, end);
    ExitCode::from(exit_status(end))
}

/// Three handles on an outlet: the host's, and those of the threads that write.
fn new_outlet(alloc: Global) -> Result<(Arc<Outlet>, Arc<Outlet>, Arc<Outlet>), AllocError> {
    let outlet = Arc::new(alloc, Outlet::new(alloc)?)?;
    let printed = Arc::try_clone(&outlet)?;
    let reported = Arc::try_clone(&outlet)?;
    Ok((outlet, printed, reported))
}

/// Ends a host that has no outlet, for that reason.
fn unheard<R: Eprint>(rt: &R, fault: ServerFault) -> ExitCode {
    // The process' status says the same even if standard error takes nothing.
    let _ = rt.eprintln(fault_text(fault));
    ExitCode::from(exit_status(Err(fault)))
}

/// Hosts the tenants that the words name, and tells how that ended.
fn run<R: System + Env + Print>(rt: &R, outlet: &Outlet) -> Result<ServerEnd, ServerFault> {
    match words_of(rt) {
        Ok(words) => host_words(rt, words.as_slice(), outlet),
        Err(fault) => match fault.kind() {
            // A word that is no text.
            ErrorKind::InvalidData => Err(ServerFault::Words),
            _ => Err(ServerFault::Memory),
        },
    }
}

/// Reports how the host ended, and lets what it reported be written.
fn report_end<R: Wait + Clock + AllocGlobal>(
    rt: &R,
    outlet: &Outlet,
    end: Result<ServerEnd, ServerFault>,
) {
    if let Err(fault) = end {
        // The process' status says the same.
        outlet.report(rt, String::from_str(rt.alloc(), fault_text(fault)).ok());
    }
    outlet.drain(rt, Duration::from_millis(LAST_WORDS));
}

/// The words that the program was called with, its name first.
fn words_of<R: Env + AllocGlobal>(rt: &R) -> io::Result<Vec<String>> {
    let mut words = Vec::new(rt.alloc());
    for word in env::args(rt)? {
        words.push(word)?;
    }
    Ok(words)
}

/// Does what the words say that the program was called with.
fn host_words<R: System + Print>(
    rt: &R,
    words: &[String],
    outlet: &Outlet,
) -> Result<ServerEnd, ServerFault> {
    let mut texts = Vec::new(rt.alloc());
    for word in words {
        if texts.push(word.as_str()).is_err() {
            return Err(ServerFault::Memory);
        }
    }
    if let [_name, words @ ..] = texts.as_slice()
        && asks_version(words)
    {
        return match print_version(rt, "arena-host") {
            Ok(()) => Ok(ServerEnd::Done),
            Err(_) => Err(ServerFault::Device),
        };
    }
    match read_host_words(rt.alloc(), texts.as_slice()) {
        Ok(words) => host_alone(rt, words, outlet),
        Err(fault) => Err(words_fault(fault)),
    }
}

/// Hosts the tenants, if no other host works in the folder. `Device` if one does, or the folder's lock can't be opened.
fn host_alone<R: System>(
    rt: &R,
    words: HostWords<'_>,
    outlet: &Outlet,
) -> Result<ServerEnd, ServerFault> {
    let alloc = rt.alloc();
    let folder = Folder::new(alloc, words.run)?;
    let Ok(lock) = OpenOptions::new()
        .write(true)
        .create(true)
        .mode(0o600)
        .open(rt, folder.lock.as_str())
    else {
        return Err(ServerFault::Device);
    };
    if !is_locked(rt, &lock) {
        return Err(ServerFault::Device);
    }
    let end = host_tenants(rt, alloc, words, &folder, outlet);
    // Another host may work there from now on.
    drop(lock);
    end
}

/// Locks the folder, for which it waits half a second at most: somebody may be looking whether a host works there.
fn is_locked<R: Clock>(rt: &R, lock: &File) -> bool {
    for _try in 0..25 {
        if lock.try_lock().is_ok() {
            return true;
        }
        thread::sleep(rt, Duration::from_millis(20));
    }
    false
}
