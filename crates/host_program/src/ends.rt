// What a host that could not serve is told to have lacked.

use program_words::WordsFault;
use server_io::ServerFault;

/// What the process writes to standard error.
pub(crate) fn fault_text(fault: ServerFault) -> &'static str {
    match fault {
        ServerFault::Words => "arena-host: words",
        ServerFault::Config => "arena-host: config",
        ServerFault::Device => "arena-host: device",
        ServerFault::Memory => "arena-host: memory",
    }
}

/// Why the host can't serve whose words were not read.
pub(crate) fn words_fault(fault: WordsFault) -> ServerFault {
    match fault {
        WordsFault::Words => ServerFault::Words,
        WordsFault::Memory => ServerFault::Memory,
    }
}
