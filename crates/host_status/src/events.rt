// What a host reports as it happens.
ghost use Rattle.std.specs.Prelude.{IfOk, string_bytes};
ghost use Rattle.host_status.specs.Lines.{IsCompact};

use serde::Serialize;
use std::alloc::Global;
use std::time::Duration;
use term_life::Why;

/// What went wrong.
#[derive(Clone, Copy, Debug, PartialEq, Eq, Serialize)]
#[serde(rename_all = "lowercase")]
pub enum Fault {
    /// The configuration can't be read.
    Config,
    /// An allocation failed.
    Memory,
    /// A file, a thread or the terminal failed.
    Device,
    /// A connection was not accepted.
    Accept,
    /// A history was not written.
    Dump,
    /// The outcomes of a term's jobs were not written.
    Results,
    /// A journal could not be written, or has something that its tenant has not done.
    Journal,
    /// A tenant's history and what its threads noted of it differ.
    Close,
    /// A tenant has had as many jobs as numbers are for.
    Numbers,
}

/// Why a hello was refused.
#[derive(Clone, Copy, Debug, PartialEq, Eq, Serialize)]
#[serde(rename_all = "lowercase")]
pub enum Refusal {
    /// The tenant has as many connections as it may.
    Connections,
}

/// Something that happened in a host. `term` is the number of the term of a tenant that it happened to.
#[derive(Clone, Copy, Debug, PartialEq, Eq, Serialize)]
#[serde(tag = "event", rename_all = "lowercase")]
pub enum Event<'e> {
    /// The host began.
    Start,
    /// A term of a tenant serves, whose jobs are numbered after `base`. It took `ms` milliseconds to open.
    Opened {
        tenant: &'e str,
        term: u64,
        base: u64,
        ms: u64,
    },
    /// A term is to be left, for that reason.
    Rotation {
        tenant: &'e str,
        term: u64,
        why: Why,
    },
    /// A term is to be left for that reason, and serves until then: as many terms of the tenant are there as may be.
    Waiting {
        tenant: &'e str,
        term: u64,
        why: Why,
    },
    /// A term that was left for that reason is closed, which took `ms` milliseconds with its files. `lost` of its jobs
    /// had no outcome, and `left` more are to get theirs at the next start.
    Closed {
        tenant: &'e str,
        term: u64,
        why: Why,
        lost: usize,
        left: usize,
        ms: u64,
    },
    /// A term whose journal was found at the start is finished and written, which took `ms` milliseconds. It has `jobs`
    /// jobs that are neither retired nor released, `lost` of which have no outcome.
    Recovered {
        tenant: &'e str,
        term: u64,
        jobs: usize,
        lost: usize,
        ms: u64,
    },
    /// Something failed. There is no tenant if it is none's, and no term if none could be opened.
    Fault {
        what: Fault,
        #[serde(skip_serializing_if = "Option::is_none")]
        tenant: Option<&'e str>,
        #[serde(skip_serializing_if = "Option::is_none")]
        term: Option<u64>,
    },
    /// The host has ended that many connections for doing nothing: `hello` had said no hello in time, and `idle` had
    /// asked nothing.
    Cut {
        hello: u64,
        idle: u64,
    },
    /// That many hellos of clients of a tenant were refused since this was said of it last, for that reason.
    Refused {
        tenant: &'e str,
        why: Refusal,
        hellos: u64,
    },
    /// The host is to stop.
    Stop,
    /// That many lines before this one were not written, since nobody read what the host wrote.
    Unwritten {
        lines: u64,
    },
}

/// An event with its time, in seconds since 1970.
#[derive(Drop, Serialize)]
struct Timed<'e> {
    time: f64,
    #[serde(flatten)]
    event: Event<'e>,
}

impl<'e> Event<'e> {
    /// The line that reports it, without its newline: its `time` is in seconds since 1970. An error if an allocation
    /// fails.
    pub fn line(self, alloc: Global, since_1970: Duration) -> Result<String, serde_json::Error>
        ensures { IfOk result (λ line. IsCompact (string_bytes line)) }
    {
        let timed = Timed {
            time: since_1970.as_secs_f64(),
            event: self,
        };
        serde_json::to_string(alloc, &timed)
    }
}
