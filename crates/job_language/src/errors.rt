// What a request may be refused with, and what may end a job.
ghost use Rattle.std.specs.Prelude.{◌≡◌};
ghost use Rattle.job_language.specs.ErrorCodes.{code_of, name_of, fault_code_of};
ghost use Rattle.job_language.specs.Recorded.{is_recorded_error};
ghost use Rattle.job_language.specs.declared.errors.Error.TheVariants.{NoMemory};

use std::alloc::{AllocError, AllocFailed};

/// Why a request was refused. A code and its name always go together.
#[derive(Clone, Copy, Debug, PartialEq, Eq)]
pub enum Error {
    /// The line is longer than the limit of its reader.
    LineTooLong,
    /// The line is no JSON.
    BadJson,
    /// The line is JSON and no request, or a second hello.
    BadRequest,
    /// The job is not valid.
    BadProgram,
    /// No tenant has that name.
    UnknownTenant,
    /// The number names no job, or one that is retired or released.
    UnknownJob,
    /// There are 256 jobs that are neither retired nor released.
    JobLimit,
    /// The tenant's history is at its limit.
    HistoryFull,
    /// An allocation failed.
    NoMemory,
    /// No open row is left for a root.
    TaskLimit,
    /// The connection has not said hello.
    NoTenant,
    /// A job still runs, so nothing can be retired, or that job can't be released.
    Busy,
    /// The tenant has as many connections as it may.
    ConnectionLimit,
}

impl Error {
    /// Its number in a reply, from 1 to 13.
    pub fn code(self) -> u8
        ensures { result ≡ code_of self }
    {
        match self {
            Error::LineTooLong => 1,
            Error::BadJson => 2,
            Error::BadRequest => 3,
            Error::BadProgram => 4,
            Error::UnknownTenant => 5,
            Error::UnknownJob => 6,
            Error::JobLimit => 7,
            Error::HistoryFull => 8,
            Error::NoMemory => 9,
            Error::TaskLimit => 10,
            Error::NoTenant => 11,
            Error::Busy => 12,
            Error::ConnectionLimit => 13,
        }
    }

    /// Whether an ask that the arena refused so is recorded in the tenant's history.
    pub fn is_recorded(self) -> bool
        ensures { result ≡ is_recorded_error self }
    {
        matches!(
            self,
            Error::UnknownJob | Error::JobLimit | Error::TaskLimit | Error::Busy
        )
    }

    /// Its name in a reply.
    pub fn name(self) -> &'static str
        ensures { result.now ≡ name_of self }
    {
        match self {
            Error::LineTooLong => "line_too_long",
            Error::BadJson => "bad_json",
            Error::BadRequest => "bad_request",
            Error::BadProgram => "bad_program",
            Error::UnknownTenant => "unknown_tenant",
            Error::UnknownJob => "unknown_job",
            Error::JobLimit => "job_limit",
            Error::HistoryFull => "history_full",
            Error::NoMemory => "no_memory",
            Error::TaskLimit => "task_limit",
            Error::NoTenant => "no_tenant",
            Error::Busy => "busy",
            Error::ConnectionLimit => "connection_limit",
        }
    }
}

impl From<AllocError> for Error {
    ghost from_gives = { λ _ e. e ≡ NoMemory };

    fn from(_error: AllocError) -> Error {
        Error::NoMemory
    }
}

impl<T: Drop> From<AllocFailed<T>> for Error {
    ghost from_gives = { λ _ e. e ≡ NoMemory };

    fn from(_error: AllocFailed<T>) -> Error {
        Error::NoMemory
    }
}

/// What ended a job before its root did.
#[derive(Clone, Copy, Debug, PartialEq, Eq)]
pub enum JobFault {
    /// A division by zero.
    Division,
    /// The job's fuel did not pay for what was executed.
    Fuel,
    /// A slot's stack was at height 128.
    TooDeep,
    /// The tenant's open rows were at their limit.
    TaskLimit,
    /// A frame ended with a group that has members.
    MissingWait,
}

impl JobFault {
    /// Its number in a reply, from 1 to 5.
    pub fn code(self) -> u8
        ensures { result ≡ fault_code_of self }
    {
        match self {
            JobFault::Division => 1,
            JobFault::Fuel => 2,
            JobFault::TooDeep => 3,
            JobFault::TaskLimit => 4,
            JobFault::MissingWait => 5,
        }
    }
}
