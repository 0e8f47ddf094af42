// Where the histories of a server's tenants are kept.
ghost use Rattle.std.specs.Prelude.{◌≡◌, ◌⊎◌, IfErr, IfOk, string_bytes};
ghost use Rattle.server_io.specs.declared.ends.ServerFault.TheVariants.{Device, Memory};
ghost use Rattle.server_program.specs.Dumps.{dump_at, end_of_dump};

use dump_files::can_dump;
use dump_lines::DumpFault;
use job_language::TenantConfig;
use server_io::ServerFault;
use std::alloc::Global;
use std::fs::Files;

/// Whether the dump of each tenant can be made in a folder: `Device` if not. Nothing is left there.
pub(crate) fn try_folder<R: Files>(
    rt: &R,
    alloc: Global,
    folder: &str,
    configs: &[TenantConfig],
) -> Result<(), ServerFault>
    ensures { IfErr result (λ end. (end ≡ Device) ⊎ (end ≡ Memory)) }
{
    for config in configs {
        let path = dump_path(alloc, folder, config)?;
        can_dump(rt, alloc, path.as_str()).map_err(end_at)?;
    }
    Ok(())
}

/// The file of a tenant's history in a folder.
pub(crate) fn dump_path(
    alloc: Global,
    folder: &str,
    config: &TenantConfig,
) -> Result<String, ServerFault>
    ensures path { IfOk result (λ path. string_bytes path ≡ dump_at folder.now config.now.name) }
    ensures fault { IfErr result (λ end. end ≡ Memory) }
{
    let name = config.tenant().name;
    Ok(format!(in alloc; "{folder}/{}.jsonl", name.as_str())?)
}

/// What a dump that was not written is for the server.
pub(crate) fn end_at(fault: DumpFault) -> ServerFault
    ensures { result ≡ end_of_dump fault }
{
    match fault {
        DumpFault::Memory => ServerFault::Memory,
        DumpFault::Device | DumpFault::NoEntry => ServerFault::Device,
    }
}
