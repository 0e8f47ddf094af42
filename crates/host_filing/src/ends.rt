// How a host ends, and what it reports of what went wrong.
ghost use Rattle.std.specs.Prelude.{◌≡◌, Err, Ok, true, false};

use dump_lines::DumpFault;
use host_status::Fault;
use part_writer::PartFault;
use server_io::{ServerEnd, ServerFault};

/// What went wrong with the histories of closed terms.
#[derive(Clone, Copy, Debug, PartialEq, Eq, Default)]
pub struct Faults {
    /// Whether some term was closed with a fault.
    pub has_close_fault: bool,
    /// Whether some history, or the outcomes of a term, could not be brought to the disk.
    pub has_lost_history: bool,
}

/// How the host ends, if that went wrong with histories.
pub fn end_of(faults: Faults) -> Result<ServerEnd, ServerFault>
    ensures lost { faults.has_lost_history ≡ true → result ≡ Err ServerFault.Device }
    ensures fault { faults.has_lost_history ≡ false → faults.has_close_fault ≡ true
        → result ≡ Ok ServerEnd.Close }
    ensures done { faults.has_lost_history ≡ false → faults.has_close_fault ≡ false
        → result ≡ Ok ServerEnd.Done }
{
    if faults.has_lost_history {
        Err(ServerFault::Device)
    } else if faults.has_close_fault {
        Ok(ServerEnd::Close)
    } else {
        Ok(ServerEnd::Done)
    }
}

/// What an event says of a term that could not be opened.
pub fn event_fault(fault: ServerFault) -> Fault {
    match fault {
        ServerFault::Config | ServerFault::Words => Fault::Config,
        ServerFault::Memory => Fault::Memory,
        ServerFault::Device => Fault::Device,
    }
}

/// What an event says of a dump that was not written.
pub(crate) fn event_dump_fault(fault: DumpFault) -> Fault {
    match fault {
        DumpFault::Memory => Fault::Memory,
        DumpFault::Device | DumpFault::NoEntry => Fault::Dump,
    }
}

/// Why the host can't begin a journal.
pub(crate) fn part_fault(fault: PartFault) -> ServerFault {
    match fault {
        PartFault::Memory => ServerFault::Memory,
        PartFault::Failed | PartFault::NoEntry => ServerFault::Device,
    }
}
