// When the status of a host is written.

use crate::context::HostContext;
use crate::keeping::Keeper;
use crate::showing::show;
use host_filing::millis;
use std::alloc::Global;
use std::fs::{File, Files};
use std::sync::Wait;
use std::time::Clock;
use tenant_book::Naming;
use term_life::Beat;

/// How often the status is written, in milliseconds.
const SECOND: u64 = 1000;

/// When the status was written.
#[derive(Clone, Copy)]
pub struct Shower {
    shown: Beat,
}

impl Shower {
    /// The status was not written yet.
    pub fn new() -> Shower {
        Shower {
            shown: Beat {
                every: SECOND,
                last: 0,
            },
        }
    }

    /// Writes the status, once a second.
    pub fn show<J: Naming, R: Files<File = File> + Wait + Clock + AllocGlobal>(
        &mut self,
        rt: &R,
        alloc: Global,
        context: HostContext<'_, J>,
        keeper: &Keeper<J>,
    ) {
        if self.shown.is_due(millis(rt)) {
            self.show_now(rt, alloc, context, keeper);
        }
    }

    /// Writes the status. If that fails, the older one stays.
    pub fn show_now<J: Naming, R: Files<File = File> + Wait + Clock + AllocGlobal>(
        &mut self,
        rt: &R,
        alloc: Global,
        context: HostContext<'_, J>,
        keeper: &Keeper<J>,
    ) {
        self.shown.last = millis(rt);
        // The next one is written within a second.
        let _ = show(rt, alloc, context, keeper.filing().closed());
    }
}
