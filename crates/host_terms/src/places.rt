// Where the workers of a host are.

use std::sync::atomic::{AtomicU64, Ordering};
use worker_main::Gate;

/// What a place holds while its worker waits for a call.
const NOWHERE: u64 = u64::MAX;

/// Where a worker is, for whoever looks: the tenant and the slot of its last private run.
#[derive(Drop)]
pub struct Place {
    /// The tenant's number above the lowest 8 bits, and the slot in those.
    at: AtomicU64,
}

impl Place {
    /// The place of a worker that waits for a call.
    pub fn new() -> Place {
        Place {
            at: AtomicU64::new(NOWHERE),
        }
    }

    /// The number of the tenant, and the slot. None while the worker waits for a call.
    pub fn seen(&self) -> Option<(u64, u8)> {
        match self.at.load(Ordering::SeqCst) {
            NOWHERE => None,
            at => Some((at >> 8, (at & 0xff) as u8)),
        }
    }

    /// The worker waits for a call.
    pub(crate) fn leave(&self) {
        self.at.store(NOWHERE, Ordering::SeqCst);
    }
}

/// What notes the place of a worker at a tenant's slots. In its term the tenant is the only one.
#[derive(Clone, Copy)]
pub(crate) struct TermGate<'p> {
    pub(crate) place: &'p Place,
    /// The tenant's number at the host.
    pub(crate) tenant: usize,
}

impl<'p> Gate for TermGate<'p> {
    fn inside(&self, _tenant: usize, slot: u8) {
        let at = (self.tenant as u64) << 8 | u64::from(slot);
        self.place.at.store(at, Ordering::SeqCst);
    }
}
