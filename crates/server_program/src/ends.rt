// How a server's tenants are closed, and what is told of each one's end.
ghost use Rattle.std.specs.Prelude.{◌≡◌, IfOk, is_ok};
ghost use Rattle.std.specs.List.{list_all};
ghost use Rattle.server_program.specs.Ends.{AreDoorsOf, AreOwnEnds, EndsAs, IsOwnEnd, end_of_all};

use crate::dumps::{dump_path, end_at};
use dump_files::dump_history;
use job_language::TenantConfig;
use server_house::{House, Returned};
use server_io::{ServerEnd, ServerFault};
use std::alloc::Global;
use std::fs::Files;
use std::io;
use std::sync::Wait;
use tenant_book::Naming;
use tenant_lock::{CloseFault, Closed};

/// Closes all tenants, reports each one's end, and goes on after a fault. The first fault is the end.
pub(crate) fn close_tenants<J: Naming, R: Files + Print + Wait>(
    rt: &R,
    alloc: Global,
    house: House<J>,
    returned: Returned<J>,
    configs: &[TenantConfig],
    folder: Option<&str>,
) -> Result<ServerEnd, ServerFault>
    requires { AreDoorsOf configs.now house.doors }
    ensures { IfOk result (λ end. EndsAs house.doors returned end) }
{
    let ends = house.close_returned(rt, alloc, returned)?;
    match report_ends(rt, alloc, ends.as_slice(), configs, folder) {
        Some(fault) => Err(fault),
        None => Ok(end_of_all(ends.as_slice())),
    }
}

/// Reports each tenant's end, and goes on after a fault: the first one, if there is any.
fn report_ends<R: Files + Print>(
    rt: &R,
    alloc: Global,
    ends: &[Result<Closed, CloseFault>],
    configs: &[TenantConfig],
    folder: Option<&str>,
) -> Option<ServerFault>
    requires { AreOwnEnds configs.now ends.now }
{
    let ([end, ends @ ..], [config, configs @ ..]) = (ends, configs) else {
        return None;
    };
    let fault = report_end(rt, alloc, end, config, folder).err();
    let later = report_ends(rt, alloc, ends, configs, folder);
    fault.or(later)
}

/// Prints a tenant's end, and writes its history to the folder, if there is one.
fn report_end<R: Files + Print>(
    rt: &R,
    alloc: Global,
    end: &Result<Closed, CloseFault>,
    config: &TenantConfig,
    folder: Option<&str>,
) -> Result<(), ServerFault>
    requires { IsOwnEnd config.now end.now }
{
    let is_printed = print_end(rt, end, config).is_ok();
    if let (Some(folder), Ok(closed)) = (folder, end) {
        let path = dump_path(alloc, folder, config)?;
        let history = closed.history.as_slice();
        let _kept = dump_history(rt, alloc, path.as_str(), config, history).map_err(end_at)?;
    }
    if is_printed {
        Ok(())
    } else {
        Err(ServerFault::Device)
    }
}

fn print_end<R: Print>(
    rt: &R,
    end: &Result<Closed, CloseFault>,
    config: &TenantConfig,
) -> io::Result<()> {
    let name = config.tenant().name;
    match end {
        Ok(closed) => println!(rt;
            "{}: closed, {} entries",
            name.as_str(),
            closed.history.len()
        ),
        Err(fault) => println!(rt; "{}: close fault {}", name.as_str(), fault.code()),
    }
}

/// How a server ends whose tenants were closed like that.
fn end_of_all(ends: &[Result<Closed, CloseFault>]) -> ServerEnd
    ensures { result ≡ end_of_all ends.now }
{
    if have_all_closed(ends) {
        ServerEnd::Done
    } else {
        ServerEnd::Close
    }
}

/// Whether all tenants closed without a fault.
fn have_all_closed(ends: &[Result<Closed, CloseFault>]) -> bool
    ensures { result ≡ list_all is_ok ends.now }
{
    ends.iter().all(|end| end.is_ok())
}
