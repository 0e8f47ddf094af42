// A configuration, from the bytes of a line.
ghost use Rattle.std.specs.Prelude.{◌≡◌, IfOk};
ghost use Rattle.request_reader.specs.LineConfigs.{config_in};

use crate::requests::value_in;
use job_json::{Refused, read_config};
use job_language::Config;
use std::alloc::{AllocError, Global};

/// The configuration that a line holds, if it holds one. It fails only if an allocation failed.
pub fn config_in(alloc: Global, line: &[u8]) -> Result<Option<Config>, AllocError>
    ensures { IfOk result (λ config. config ≡ config_in line.now) }
{
    let Some(value) = value_in(alloc, line)? else {
        return Ok(None);
    };
    match read_config(alloc, &value) {
        Ok(config) => Ok(Some(config)),
        Err(Refused::Bad { .. }) => Ok(None),
        Err(Refused::Memory(error)) => Err(error),
    }
}
