// A host's status, as its file has it.
ghost use Rattle.std.specs.Prelude.{IfOk, string_bytes};
ghost use Rattle.host_status.specs.Lines.{IsCompact};

use serde::Serialize;
use std::alloc::Global;
use term_life::{Stage, Why};

/// Where a worker was last: a tenant and one of its slots. Both are missing while it waits for a call.
#[derive(Drop, Serialize)]
pub struct Worker {
    /// The worker's number, from 0 on.
    pub worker: usize,
    /// The tenant's name.
    pub tenant: Option<String>,
    /// The slot's number.
    pub slot: Option<u8>,
}

/// How many jobs of a term are how far, of those that are neither retired nor released.
#[derive(Clone, Copy, Debug, PartialEq, Eq, Serialize)]
pub struct Jobs {
    pub running: u64,
    pub complete: u64,
    pub canceled: u64,
    pub fault: u64,
}

/// How many rows of a term are open, and how many of these wait to be started.
#[derive(Clone, Copy, Debug, PartialEq, Eq, Serialize)]
pub struct Rows {
    pub open: usize,
    pub waiting: usize,
}

/// How many connections the host has ended so far, by what they had not done in time.
#[derive(Clone, Copy, Debug, PartialEq, Eq, Serialize)]
pub struct CutSoFar {
    /// They had said no hello.
    pub hello: u64,
    /// They had asked nothing.
    pub idle: u64,
}

/// What a tenant has of the host's connections.
#[derive(Drop, Serialize)]
pub struct TenantStatus {
    /// The tenant's name.
    pub tenant: String,
    /// How many connections are bound to it.
    pub connected: u64,
    /// How many hellos of its clients were refused so far, since it had as many connections as it may.
    pub refused: u64,
}

/// A term that is not closed. Times are in seconds since 1970.
#[derive(Drop, Serialize)]
pub struct TermStatus {
    /// The tenant's name.
    pub tenant: String,
    /// The term's number.
    pub term: u64,
    pub state: Stage,
    /// When it was opened.
    pub began: u64,
    /// Why it is left, if it is.
    pub why: Option<Why>,
    /// The number of a job after which its jobs are numbered.
    pub base: u64,
    /// How many entries the history may have.
    pub steps: usize,
    /// How many it has.
    pub entries: usize,
    /// How many of the entries are requests.
    pub asks: usize,
    /// How many jobs were made.
    pub jobs: u64,
    /// How far those are that are neither retired nor released.
    pub jobs_now: Jobs,
    /// Its rows at this moment.
    pub rows: Rows,
}

/// A term that is closed. Times are in seconds since 1970.
#[derive(Drop, Serialize)]
pub struct ClosedTerm {
    /// The tenant's name.
    pub tenant: String,
    /// The term's number.
    pub term: u64,
    /// When it was opened.
    pub began: u64,
    /// When its files were written.
    pub ended: u64,
    /// Why it was left.
    pub why: Why,
    /// The number of a job after which its jobs were numbered.
    pub base: u64,
    /// How many entries its history had; 0 after a close fault.
    pub entries: usize,
    /// How many of its jobs had no outcome, and get none.
    pub lost: usize,
    /// How many get theirs at the next start.
    pub left: usize,
    /// The number of the close fault, if there was one.
    pub fault: Option<u8>,
    /// Whether its history was written.
    pub dumped: bool,
    /// How many milliseconds closing and writing took.
    pub ms: u64,
}

/// What a host does. Times are in seconds since 1970.
#[derive(Drop, Serialize)]
pub struct HostStatus<'s> {
    /// The version of the program.
    pub version: &'s str,
    /// When it was made.
    pub time: u64,
    /// When the host began.
    pub began: u64,
    /// How many connections are served at a time.
    pub connections: u32,
    /// How many are served now.
    pub connected: usize,
    /// How many there were so far.
    pub served: u64,
    /// How many were ended for doing nothing.
    pub cut: CutSoFar,
    /// How many connections may be bound to one tenant.
    pub tenant_connections: u32,
    /// How many seconds a connection has until its hello is answered; 0 for any time.
    pub hello_seconds: u32,
    /// How many seconds it may ask nothing after that; 0 for any time.
    pub idle_seconds: u32,
    /// At how many per cent of its steps a history ends a term.
    pub rotate_at: u32,
    /// How many dumps of each tenant are kept.
    pub keep: u32,
    /// How many seconds jobs have to end once the host is to stop.
    pub finish: u32,
    /// How far what a client was told outlives the host: `off`, `write`, `second` or `reply`.
    pub durable: &'s str,
    /// The resident bytes of the process, if the system says.
    pub memory: Option<u64>,
    /// By their numbers.
    pub workers: &'s [Worker],
    /// In the order in which they came to the host.
    pub tenants: &'s [TenantStatus],
    /// Those of one tenant together, the oldest first.
    pub terms: &'s [TermStatus],
    /// The newest last.
    pub closed: &'s [ClosedTerm],
}

/// The line that a status is, without its newline. An error if an allocation fails.
pub fn status_line(alloc: Global, status: &HostStatus<'_>) -> Result<String, serde_json::Error>
    ensures { IfOk result (λ line. IsCompact (string_bytes line)) }
{
    serde_json::to_string(alloc, status)
}
