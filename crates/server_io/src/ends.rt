// How a server ends.
ghost use Rattle.std.specs.Prelude.{◌≡◌, ◌≢◌, ◌⊎◌};
ghost use Rattle.std.specs.IoError.{error_kind};
ghost use Rattle.server_io.specs.Ends.{status_of, text_of, fault_of_bind};
ghost use Rattle.server_io.specs.declared.ends.ServerFault.TheVariants.{Device, Memory};

use crate::endpoint::BindFault;
use std::alloc::{AllocError, AllocFailed};
use std::io;
use std::io::ErrorKind;

/// How a server ended that did what it was called for.
#[derive(Clone, Copy, Debug, PartialEq, Eq)]
pub enum ServerEnd {
    /// All connections were served, and all tenants closed.
    Done,
    /// A tenant's history and what its threads were told of it differ.
    Close,
}

/// Why a server could not serve, or not close its tenants.
#[derive(Clone, Copy, Debug, PartialEq, Eq)]
pub enum ServerFault {
    /// The server was not called with words that it knows.
    Words,
    /// The file holds no configuration.
    Config,
    /// A file, the socket, a thread or the terminal failed.
    Device,
    /// An allocation failed.
    Memory,
}

/// The status that the process ends with.
pub fn exit_status(end: Result<ServerEnd, ServerFault>) -> u8
    ensures { result ≡ status_of end }
{
    match end {
        Ok(ServerEnd::Done) => 0,
        Ok(ServerEnd::Close) => 4,
        Err(ServerFault::Words | ServerFault::Config) => 2,
        Err(ServerFault::Device | ServerFault::Memory) => 3,
    }
}

impl ServerFault {
    /// What a fault of the system is for a server.
    pub fn of_system(fault: io::Error) -> ServerFault
        ensures memory { error_kind fault ≡ ErrorKind.OutOfMemory → result ≡ Memory }
        ensures device { error_kind fault ≢ ErrorKind.OutOfMemory → result ≡ Device }
        ensures either { (result ≡ Device) ⊎ (result ≡ Memory) }
    {
        match fault.kind() {
            ErrorKind::OutOfMemory => ServerFault::Memory,
            _ => ServerFault::Device,
        }
    }

    /// What `arena-server` writes to standard error.
    pub fn text(self) -> &'static str
        ensures { result.now ≡ text_of self }
    {
        match self {
            ServerFault::Words => "arena-server: words",
            ServerFault::Config => "arena-server: config",
            ServerFault::Device => "arena-server: device",
            ServerFault::Memory => "arena-server: memory",
        }
    }
}

impl From<AllocError> for ServerFault {
    ghost from_gives = { λ _ e. e ≡ Memory };

    fn from(_error: AllocError) -> ServerFault {
        ServerFault::Memory
    }
}

impl From<BindFault> for ServerFault {
    ghost from_gives = { λ fault e. e ≡ fault_of_bind fault };

    fn from(fault: BindFault) -> ServerFault {
        match fault {
            BindFault::Memory => ServerFault::Memory,
            BindFault::Taken | BindFault::NoRoom | BindFault::Replaced | BindFault::Device =>
                ServerFault::Device,
        }
    }
}
