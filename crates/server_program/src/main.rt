//! `arena-server`: serves tenants to clients over a Unix socket.
#![tactic(auto)]

ghost use Rattle.std.specs.Prelude.{◌≡◌, ◌≢◌, ◌≤◌, ◌⊎◌, Err, IfErr, IfSome, IsErr, IsOk, None, Ok};
ghost use Rattle.std.specs.IoError.{error_kind};
ghost use Rattle.server_io.specs.declared.ends.ServerEnd.TheVariants.{Done};
ghost use Rattle.server_io.specs.declared.ends.ServerFault.TheVariants.{Device, Memory, Words};

mod dumps;
mod ends;

use crate::dumps::try_folder;
use crate::ends::close_tenants;
use job_language::Config;
use program_version::{asks_version, print_version};
use program_words::{ServerWords, WordsFault, read_server_words};
use server_house::{House, Opened};
use server_io::{Access, Endpoint, MAX_CONFIG, ServerEnd, ServerFault, config_of, exit_status};
use socket_server::{Served, serve_connections};
use std::alloc::Global;
use std::env::Env;
use std::fs::{File, Files};
use std::io::{ErrorKind, Read};
use std::marker::Brand;
use std::net::Net;
use std::process::ExitCode;
use std::sync::Wait;
use std::thread::Threads;
use std::{env, io};
use tenant_book::{Naming, OpenedRegistry, Registry};

fn main(rt: HostRuntime) -> ExitCode {
    let end = match words_of(&rt) {
        Ok(words) => serve_words(&rt, words.as_slice()),
        Err(fault) => Err(unread(&fault)),
    };
    if let Err(fault) = end {
        // The status tells of the fault even if standard error takes nothing.
        let _ = rt.eprintln(fault.text());
    }
    ExitCode::from(exit_status(end))
}

/// The words that the program was called with, its name first.
fn words_of<R: Env + AllocGlobal>(rt: &R) -> io::Result<Vec<String>> {
    let mut words = Vec::new(rt.alloc());
    for word in env::args(rt)? {
        words.push(word)?;
    }
    Ok(words)
}

/// Why words could not be read: one is no text, or an allocation failed.
fn unread(fault: &io::Error) -> ServerFault
    ensures words { error_kind fault.now ≡ ErrorKind.InvalidData → result ≡ Words }
    ensures memory { error_kind fault.now ≢ ErrorKind.InvalidData → result ≡ Memory }
{
    match fault.kind() {
        ErrorKind::InvalidData => ServerFault::Words,
        _ => ServerFault::Memory,
    }
}

/// Does what the words say that the program was called with.
fn serve_words<R>(rt: &R, words: &[String]) -> Result<ServerEnd, ServerFault>
where
    R: Files + Net + Threads + Wait + Sync + Print + Eprint + AllocGlobal,
{
    let mut texts = Vec::new(rt.alloc());
    for word in words {
        if texts.push(word.as_str()).is_err() {
            return Err(ServerFault::Memory);
        }
    }
    if let [_name, words @ ..] = texts.as_slice()
        && asks_version(words)
    {
        return told(print_version(rt, "arena-server"));
    }
    let words = match read_server_words(rt.alloc(), texts.as_slice()) {
        Ok(words) => words,
        Err(fault) => return Err(words_fault(fault)),
    };
    // Dumps in a folder without a name would go to the root.
    if let Some("") = words.dump {
        return Err(ServerFault::Words);
    }
    serve_tenants(rt, words)
}

/// How a server ends that only told what it is.
fn told(printed: io::Result<()>) -> Result<ServerEnd, ServerFault>
    ensures done { IsOk printed → result ≡ Ok Done }
    ensures device { IsErr printed → result ≡ Err Device }
{
    match printed {
        Ok(()) => Ok(ServerEnd::Done),
        Err(_) => Err(ServerFault::Device),
    }
}

/// Why a server can't serve that does not know its words.
fn words_fault(fault: WordsFault) -> ServerFault
    ensures words { fault ≡ WordsFault.Words → result ≡ Words }
    ensures memory { fault ≡ WordsFault.Memory → result ≡ Memory }
{
    match fault {
        WordsFault::Words => ServerFault::Words,
        WordsFault::Memory => ServerFault::Memory,
    }
}

/// Reads the configuration, serves its tenants, and closes them. Their histories are those of one registry.
fn serve_tenants<R>(rt: &R, words: ServerWords<'_>) -> Result<ServerEnd, ServerFault>
where
    R: Files + Net + Threads + Wait + Sync + Print + Eprint + AllocGlobal,
    requires { 1 ≤ words.connections }
{
    let alloc = rt.alloc();
    let bytes = config_bytes(rt, words.config)?;
    let config = config_of(alloc, bytes.as_slice())?;
    serve_named::<Brand, R>(rt, alloc, OpenedRegistry::new(), &config, words)
}

/// Opens the tenants of a configuration, serves them, and closes them.
fn serve_named<J: Naming + Send + Sync, R>(
    rt: &R,
    alloc: Global,
    opened: OpenedRegistry,
    config: &Config,
    words: ServerWords<'_>,
) -> Result<ServerEnd, ServerFault>
where
    R: Files + Net + Threads + Wait + Sync + Print + Eprint,
    requires registry { opened ≡ J.registry }
    requires connections { 1 ≤ words.connections }
{
    let registry: Registry<J> = opened.named();
    let Opened {
        house,
        passes,
        seats,
    } = House::open(rt, alloc, &registry, config, words.connections)?;
    if let Some(folder) = words.dump {
        try_folder(rt, alloc, folder, config.tenants())?;
    }
    let endpoint = listen(rt, alloc, words.socket)?;
    let served = serve_connections(
        rt,
        alloc,
        &house,
        passes,
        seats,
        &endpoint,
        config.workers(),
        words.connections,
    );
    endpoint.remove(rt);
    let Served { returned, fault } = served?;
    let closed = close_tenants(rt, alloc, house, returned, config.tenants(), words.dump);
    first_fault(fault, closed)
}

/// How a server ends that closed its tenants like that, after a fault or without one.
fn first_fault(
    fault: Option<ServerFault>,
    closed: Result<ServerEnd, ServerFault>,
) -> Result<ServerEnd, ServerFault>
    ensures fault { IfSome fault (λ first. result ≡ Err first) }
    ensures none { fault ≡ None → result ≡ closed }
{
    match fault {
        Some(fault) => Err(fault),
        None => closed,
    }
}

/// Listens at a path, for the server's owner alone. If the path is why it can't, standard error has a line of that.
fn listen<'p, R: Files + Net + Eprint>(
    rt: &R,
    alloc: Global,
    path: &'p str,
) -> Result<Endpoint<'p>, ServerFault>
    ensures { IfErr result (λ end. (end ≡ Device) ⊎ (end ≡ Memory)) }
{
    match Endpoint::bind(rt, alloc, path, Access::OWNER) {
        Ok(endpoint) => Ok(endpoint),
        Err(fault) => {
            if let Some(why) = fault.why() {
                // The status tells of the fault even if standard error takes nothing.
                let _ = eprintln!(rt; "arena-server: {path}: {why}");
            }
            Err(ServerFault::from(fault))
        }
    }
}

/// The bytes of a configuration's file, one more than it may have at most.
fn config_bytes<R: Files + AllocGlobal>(rt: &R, path: &str) -> Result<Vec<u8>, ServerFault>
    ensures { IfErr result (λ end. (end ≡ Device) ⊎ (end ≡ Memory)) }
{
    let mut bytes = Vec::new(rt.alloc());
    let Ok(file) = File::open(rt, path) else {
        return Err(ServerFault::Device);
    };
    match file.take(MAX_CONFIG as u64 + 1).read_to_end(&mut bytes) {
        Ok(_) => Ok(bytes),
        Err(fault) => Err(read_end(&fault)),
    }
}

/// How a server ends whose configuration could not be read.
fn read_end(fault: &io::Error) -> ServerFault
    ensures memory { error_kind fault.now ≡ ErrorKind.OutOfMemory → result ≡ Memory }
    ensures device { error_kind fault.now ≢ ErrorKind.OutOfMemory → result ≡ Device }
{
    match fault.kind() {
        ErrorKind::OutOfMemory => ServerFault::Memory,
        _ => ServerFault::Device,
    }
}
