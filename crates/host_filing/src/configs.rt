// The configuration in its file.

use job_language::Config;
use server_io::{MAX_CONFIG, ServerFault, config_of};
use std::alloc::Global;
use std::fs::{File, Files};
use std::io::{ErrorKind, Read};

/// The configuration in a file.
pub fn read_config<R: Files<File = File>>(
    rt: &R,
    alloc: Global,
    path: &str,
) -> Result<Config, ServerFault> {
    let mut bytes = Vec::new(alloc);
    let Ok(file) = File::open(rt, path) else {
        return Err(ServerFault::Device);
    };
    match file.take(MAX_CONFIG as u64 + 1).read_to_end(&mut bytes) {
        Ok(_) => config_of(alloc, bytes.as_slice()),
        Err(fault) if fault.kind() == ErrorKind::OutOfMemory => Err(ServerFault::Memory),
        Err(_) => Err(ServerFault::Device),
    }
}
