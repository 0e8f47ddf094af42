// Why a run ends early.
use std::alloc::{AllocError, AllocFailed};
use std::{fmt, io};
use tenant_lock::CloseFault;

/// Why a run ends early.
#[derive(Clone, Copy, Debug)]
pub(crate) enum Stop {
    /// The words ask for nothing that there is.
    Words,
    /// Standard input or output failed, or the words are no text.
    Device,
    /// An allocation failed.
    Memory,
    /// What was read or written is no tenant or no job.
    Invalid,
    /// Not all requests were read.
    Unread,
    /// A pass or a seat is missing.
    Place,
    /// A job did not complete.
    Outcome,
    /// The door was not closed.
    Close(CloseFault),
    /// The history is not that of the tenant alone.
    History,
}

/// What is printed if the words ask for nothing that there is.
const USAGE: &str = "usage: benchmarks [WHAT ..], and WHAT is one of
    arena [fib N JOBS WAITING | recorded N JOBS | cancels JOBS]
    leaves [LEAF ROWS ROUNDS]
    locks [steps EVENTS THREADS TENANTS]
    private_run
    reading [BLOCK REQUESTS]";

impl Stop {
    /// The status that the program ends with.
    pub(crate) fn status(self) -> u8 {
        match self {
            Stop::Words => 2,
            _ => 1,
        }
    }
}

impl From<io::Error> for Stop {
    fn from(_error: io::Error) -> Stop {
        Stop::Device
    }
}

impl From<AllocError> for Stop {
    fn from(_error: AllocError) -> Stop {
        Stop::Memory
    }
}

impl<T: Drop> From<AllocFailed<T>> for Stop {
    fn from(_error: AllocFailed<T>) -> Stop {
        Stop::Memory
    }
}

impl From<CloseFault> for Stop {
    fn from(fault: CloseFault) -> Stop {
        Stop::Close(fault)
    }
}

impl fmt::Display for Stop {
    fn fmt<W: fmt::Write>(&self, f: &mut fmt::Formatter<W>) -> fmt::Result {
        match self {
            Stop::Words => f.write_str(USAGE),
            Stop::Device => f.write_str("standard input or output failed"),
            Stop::Memory => f.write_str("out of memory"),
            Stop::Invalid => f.write_str("the tenant or the job is not valid"),
            Stop::Unread => f.write_str("not all requests were read"),
            Stop::Place => f.write_str("a pass or a seat is missing"),
            Stop::Outcome => f.write_str("a job did not complete"),
            Stop::Close(fault) => write!(f, "{fault}"),
            Stop::History => f.write_str("the history does not replay"),
        }
    }
}
