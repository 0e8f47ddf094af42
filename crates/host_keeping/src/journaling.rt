// The thread that writes to the journals what no reply waits for.

use crate::context::HostContext;
use host_filing::millis;
use program_words::Durable;
use std::alloc::Global;
use std::sync::Wait;
use std::sync::atomic::Ordering;
use std::thread;
use std::time::{Clock, Duration};
use tenant_book::Naming;
use term_life::Beat;

/// How often histories are brought to their journals, in milliseconds.
const SECOND: u64 = 1000;

/// How long the thread waits between two looks, in milliseconds.
const TICK: u64 = 50;

/// Brings all histories to their journals each second, and these to the disk if that is wanted, until the host is over.
pub fn keep_journals<J: Naming, R: Wait + Clock>(
    rt: &R,
    alloc: Global,
    context: HostContext<'_, J>,
) {
    let durable = context.office.words.durable;
    if durable == Durable::Off {
        return;
    }
    let mut beat = Beat {
        every: SECOND,
        last: millis(rt),
    };
    for _turn in rt.forever() {
        if context.progress.is_over.load(Ordering::SeqCst) {
            return;
        }
        if beat.is_due(millis(rt)) {
            context.host.catch_up(rt, alloc, durable != Durable::Write);
        }
        thread::sleep(rt, Duration::from_millis(TICK));
    }
}
