// The configuration of a server, from the bytes of its file.
ghost use Rattle.std.specs.Prelude.{◌≡◌, ◌≤◌, ◌⊎◌, ◌<◌, Some, None, Err, IfErr, IfOk, length};
ghost use Rattle.server_io.specs.declared.ends.ServerFault.TheVariants as end;
ghost use Rattle.request_reader.specs.LineConfigs.{config_in};

use crate::ends::ServerFault;
use job_language::Config;
use request_reader::config_in;
use std::alloc::Global;

/// How many bytes the file of a configuration may have.
pub const MAX_CONFIG: usize = 1_048_576;

const _: () = prove!(MAX_CONFIG == 1_048_576);

/// The configuration that a file holds. `Config` if it is too long or holds none, and `Memory` if an allocation fails.
pub fn config_of(alloc: Global, bytes: &[u8]) -> Result<Config, ServerFault>
    ensures config { IfOk result (λ config. config_in bytes.now ≡ Some config) }
    ensures short { IfOk result (λ config. length bytes.now ≤ MAX_CONFIG) }
    ensures none { result ≡ Err end.Config
        → (MAX_CONFIG < length bytes.now) ⊎ (config_in bytes.now ≡ None) }
    ensures fault { IfErr result (λ fault. (fault ≡ end.Config) ⊎ (fault ≡ end.Memory)) }
{
    if bytes.len() > MAX_CONFIG {
        return Err(ServerFault::Config);
    }
    match config_in(alloc, bytes)? {
        Some(config) => Ok(config),
        None => Err(ServerFault::Config),
    }
}
