// The connections that a tenant has.
ghost use Rattle.std.specs.Prelude.{◌≡◌, ◌≤◌, ◌<◌, ◌+◌, IfSome, MatchOption};
ghost use Rattle.std.specs.Arc.{arc_value};

use crate::tenancies::Tenancy;
use std::sync::Arc;
use std::sync::atomic::{AtomicU64, Ordering};
use tenant_book::Naming;

/// How many connections are bound to a tenant, and how many hellos were refused since it had as many as it may.
#[derive(Drop)]
pub(crate) struct Admissions {
    connected: AtomicU64,
    refused: AtomicU64,
    /// How many of the refused ones are not reported yet.
    unreported: AtomicU64,
}

impl Admissions {
    /// Those of a tenant to which nobody is bound.
    pub(crate) fn new() -> Admissions {
        Admissions {
            connected: AtomicU64::new(0),
            refused: AtomicU64::new(0),
            unreported: AtomicU64::new(0),
        }
    }

    /// How many connections are bound to the tenant.
    pub(crate) fn connected(&self) -> u64 {
        self.connected.load(Ordering::SeqCst)
    }

    /// How many hellos were refused so far.
    pub(crate) fn refused(&self) -> u64 {
        self.refused.load(Ordering::SeqCst)
    }

    /// How many hellos were refused since this was asked last.
    pub(crate) fn take_unreported(&self) -> u64 {
        self.unreported.swap(0, Ordering::SeqCst)
    }

    /// Counts one more connection, unless there are `most`. It says whether it did.
    fn admit(&self, most: u64) -> bool {
        let is_admitted = self
            .connected
            .fetch_update(Ordering::SeqCst, Ordering::SeqCst, |connected| {
                with_one_more(connected, most)
            })
            .is_ok();
        if !is_admitted {
            self.refused.fetch_add(1, Ordering::SeqCst);
            self.unreported.fetch_add(1, Ordering::SeqCst);
        }
        is_admitted
    }

    /// One of the connections has ended.
    fn leave(&self) {
        self.connected.fetch_sub(1, Ordering::SeqCst);
    }
}

/// How many connections a tenant has with one more. None if it may have `most`, and has them.
fn with_one_more(connected: u64, most: u64) -> Option<u64>
    ensures { MatchOption result (most ≤ connected)
        (λ more. (connected < most) × (more ≡ connected + 1)) }
{
    if connected < most {
        Some(connected + 1)
    } else {
        None
    }
}

/// A connection's place at a tenant, which goes back when this is dropped, however the connection ended.
pub struct Admission<J: Naming> {
    tenancy: Arc<Tenancy<J>>,
}

impl<J: Naming> Admission<J> {
    /// A place at a tenant. None if it has `most` connections.
    pub(crate) fn of(tenancy: Arc<Tenancy<J>>, most: u64) -> Option<Admission<J>>
        ensures { IfSome result (λ a. arc_value a.tenancy ≡ arc_value tenancy) }
    {
        if tenancy.admissions().admit(most) {
            Some(Admission { tenancy })
        } else {
            None
        }
    }

    /// The tenant.
    pub fn tenancy(&self) -> &Tenancy<J>
        ensures { result.now ≡ arc_value self.now.tenancy }
    {
        &self.tenancy
    }
}

impl<J: Naming> Drop for Admission<J> {
    fn drop(self) {
        self.tenancy.admissions().leave();
        let Admission { tenancy: _tenancy } = self;
    }
}
