// What the threads of a host share.

use host_filing::Office;
use host_status::{Event, Fault};
use host_terms::{Desk, Host, Place};
use std::alloc::Global;
use std::sync::Wait;
use std::sync::atomic::{AtomicBool, AtomicU64};
use std::time::Clock;
use tenant_book::Naming;

/// How far the host is with its end, for the thread that accepts connections.
#[derive(Drop)]
pub struct Progress {
    /// Whether no more connections are accepted.
    pub is_stopping: AtomicBool,
    /// Whether nobody accepts any more.
    pub is_over: AtomicBool,
    /// How many connections there were.
    pub served: AtomicU64,
    /// How many of them were ended since they said no hello in time, and since they asked nothing.
    pub cut_hello: AtomicU64,
    pub cut_idle: AtomicU64,
}

impl Progress {
    /// The host begins: nobody was served.
    pub fn new() -> Progress {
        Progress {
            is_stopping: AtomicBool::new(false),
            is_over: AtomicBool::new(false),
            served: AtomicU64::new(0),
            cut_hello: AtomicU64::new(0),
            cut_idle: AtomicU64::new(0),
        }
    }
}

/// What the threads of a host share.
#[derive_where(Clone, Copy)]
pub struct HostContext<'h, J: Naming> {
    pub host: &'h Host<J>,
    pub desks: &'h [Desk<J>],
    pub places: &'h [Place],
    pub office: Office<'h>,
    pub progress: &'h Progress,
    /// When the host began, in seconds since 1970.
    pub began: u64,
    /// How many connections are served at a time.
    pub connections: u8,
}

impl<'h, J: Naming> HostContext<'h, J> {
    /// Reports an event.
    pub fn say<R: Wait + Clock>(&self, rt: &R, alloc: Global, event: Event<'_>) {
        self.office.say(rt, alloc, event);
    }

    /// Reports a fault in a term of a tenant, or at a tenant that has none.
    pub fn say_fault<R: Wait + Clock>(
        &self,
        rt: &R,
        alloc: Global,
        what: Fault,
        tenant: Option<&str>,
        term: Option<u64>,
    ) {
        self.office.say_fault(rt, alloc, what, tenant, term);
    }

    /// How many connections are served now.
    pub fn connected<R: Wait>(&self, rt: &R) -> usize {
        self.desks.iter().filter(|desk| !desk.is_free(rt)).count()
    }
}
