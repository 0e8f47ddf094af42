// Why the rounds end early.
use std::alloc::{AllocError, AllocFailed};
use std::{fmt, io};

/// Why the rounds end early.
#[derive(Drop)]
pub(crate) enum Stop {
    /// The arena and the evaluator differ, in the round and in the way that the text says.
    Differs(String),
    /// The words are no seed and number of rounds.
    Words,
    /// The input's line of that number is no job.
    Line(usize),
    /// The input has no line.
    NoJobs,
    /// What was drawn is no tenant.
    NoTenant,
    /// An allocation failed.
    Memory,
    /// A word or the input could not be read, or the output not written.
    Io,
}

impl Stop {
    /// The program's exit status.
    pub(crate) fn status(&self) -> u8 {
        match self {
            Stop::Differs(_) => 1,
            Stop::Words | Stop::Line(_) | Stop::NoJobs => 2,
            Stop::NoTenant | Stop::Memory | Stop::Io => 3,
        }
    }
}

impl From<AllocError> for Stop {
    fn from(_error: AllocError) -> Stop {
        Stop::Memory
    }
}

impl<T: Drop> From<AllocFailed<T>> for Stop {
    fn from(_error: AllocFailed<T>) -> Stop {
        Stop::Memory
    }
}

impl From<io::Error> for Stop {
    fn from(_error: io::Error) -> Stop {
        Stop::Io
    }
}

impl fmt::Display for Stop {
    fn fmt<W: fmt::Write>(&self, f: &mut fmt::Formatter<W>) -> fmt::Result {
        match self {
            Stop::Differs(text) => f.write_str(text.as_str()),
            Stop::Words => f.write_str("usage: arena_fuzz [SEED ROUNDS] < JOBS"),
            Stop::Line(number) => write!(f, "line {number} is no job"),
            Stop::NoJobs => f.write_str("the input has no job"),
            Stop::NoTenant => f.write_str("what was drawn is no tenant"),
            Stop::Memory => f.write_str("out of memory"),
            Stop::Io => f.write_str("standard input or output failed"),
        }
    }
}
