// Where a host's files are made, and where it reports what becomes of them.

use host_folder::Folder;
use host_records::Outlet;
use host_status::{Event, Fault};
use program_words::HostWords;
use std::alloc::Global;
use std::sync::Wait;
use std::time::Clock;

/// A host's folder, where it prints and reports, and the words that it was called with.
#[derive(Clone, Copy)]
pub struct Office<'h> {
    pub outlet: &'h Outlet,
    pub folder: &'h Folder,
    pub words: HostWords<'h>,
}

impl<'h> Office<'h> {
    /// Reports an event.
    pub fn say<R: Wait + Clock>(&self, rt: &R, alloc: Global, event: Event<'_>) {
        self.outlet.say(rt, alloc, event);
    }

    /// Reports a fault in a term of a tenant, or at a tenant that has none.
    pub fn say_fault<R: Wait + Clock>(
        &self,
        rt: &R,
        alloc: Global,
        what: Fault,
        tenant: Option<&str>,
        term: Option<u64>,
    ) {
        self.say(rt, alloc, Event::Fault { what, tenant, term });
    }
}
