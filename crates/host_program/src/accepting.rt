// The thread that accepts connections.

use host_filing::millis;
use host_keeping::HostContext;
use host_status::{Event, Fault, Refusal};
use host_terms::{Cuts, Reception, Tenancy};
use server_io::Endpoint;
use std::alloc::Global;
use std::sync::Wait;
use std::sync::atomic::Ordering;
use std::thread;
use std::time::{Clock, Duration};
use tenant_book::Naming;
use term_life::{Beat, Patience};

/// How long to wait if the system can't be asked what happens, in milliseconds.
const PAUSE: u64 = 20;

/// How long between two reports that a connection was not accepted, in milliseconds.
const BETWEEN_REPORTS: u64 = 1000;

/// How often connections are looked for that do nothing, in milliseconds.
const BETWEEN_LOOKS: u64 = 100;

/// How long between two reports that hellos were refused, in milliseconds.
const BETWEEN_REFUSALS: u64 = 10_000;

/// Accepts connections until the host stops, and lets sessions stop waiting whose clients have gone, until nobody is
/// left.
pub(crate) fn accept_all<J: Naming, R: Wait + Clock>(
    rt: &R,
    alloc: Global,
    context: HostContext<'_, J>,
    endpoint: &Endpoint<'_>,
    reception: Reception<'_, J>,
) {
    let mut reception = reception;
    let mut has_left = false;
    let mut done = Done {
        reported: Beat {
            every: BETWEEN_REPORTS,
            last: 0,
        },
        looked: Beat {
            every: BETWEEN_LOOKS,
            last: 0,
        },
        refused: None,
    };
    for _turn in rt.forever() {
        attend(rt, context, &mut reception);
        if context.progress.is_over.load(Ordering::SeqCst) {
            return;
        }
        if context.progress.is_stopping.load(Ordering::SeqCst) {
            if !has_left {
                has_left = true;
                reception.leave(endpoint);
            }
            continue;
        }
        let now = millis(rt);
        done.look(rt, alloc, context, &reception, now);
        match reception.admit(rt, alloc, endpoint, now) {
            Ok(admitted) => {
                context
                    .progress
                    .served
                    .fetch_add(admitted, Ordering::SeqCst);
            }
            Err(_) => done.report(rt, alloc, context, now),
        }
    }
}

/// Waits until something happens. Sessions whose clients have gone stop waiting.
fn attend<J: Naming, R: Wait + Clock>(
    rt: &R,
    context: HostContext<'_, J>,
    reception: &mut Reception<'_, J>,
) {
    match reception.attend(rt) {
        Ok(has_gone) => {
            if has_gone {
                context.host.wake(rt);
            }
        }
        Err(_) => thread::sleep(rt, Duration::from_millis(PAUSE)),
    }
}

/// When the thread does what it does from time to time.
#[derive(Clone, Copy)]
struct Done {
    /// Reports that a connection was not accepted.
    reported: Beat,
    /// Looks for connections that do nothing.
    looked: Beat,
    /// When it reported that hellos were refused, if it has, in milliseconds of the monotonic clock.
    refused: Option<u64>,
}

impl Done {
    /// Looks for connections that do nothing, and for hellos that were refused, ten times a second at most.
    fn look<J: Naming, R: Wait + Clock>(
        &mut self,
        rt: &R,
        alloc: Global,
        context: HostContext<'_, J>,
        reception: &Reception<'_, J>,
        now: u64,
    ) {
        if self.looked.is_due(now) {
            cut(rt, alloc, context, reception, now);
            self.tell_refused(rt, alloc, context, now);
        }
    }

    /// Reports that a connection was not accepted, once a second at most.
    fn report<J: Naming, R: Wait + Clock>(
        &mut self,
        rt: &R,
        alloc: Global,
        context: HostContext<'_, J>,
        now: u64,
    ) {
        if self.reported.is_due(now) {
            context.say_fault(rt, alloc, Fault::Accept, None, None);
        }
    }

    /// Reports for which tenants hellos were refused since then, once in ten seconds at most.
    fn tell_refused<J: Naming, R: Wait + Clock>(
        &mut self,
        rt: &R,
        alloc: Global,
        context: HostContext<'_, J>,
        now: u64,
    ) {
        if let Some(refused) = self.refused
            && now.saturating_sub(refused) < BETWEEN_REFUSALS
        {
            return;
        }
        if report_refused(rt, alloc, context) {
            self.refused = Some(now);
        }
    }
}

/// Reports for which tenants hellos were refused since that was done last. It says whether there are some.
fn report_refused<J: Naming, R: Wait + Clock>(
    rt: &R,
    alloc: Global,
    context: HostContext<'_, J>,
) -> bool {
    let mut is_reported = false;
    for tenant in 0..context.host.count(rt) {
        if let Some(tenancy) = context.host.tenancy(rt, tenant) {
            is_reported |= report_refused_of(rt, alloc, context, &tenancy);
        }
    }
    is_reported
}

/// The same for one tenant.
fn report_refused_of<J: Naming, R: Wait + Clock>(
    rt: &R,
    alloc: Global,
    context: HostContext<'_, J>,
    tenancy: &Tenancy<J>,
) -> bool {
    let hellos = tenancy.take_unreported();
    if hellos == 0 {
        return false;
    }
    let name = tenancy.name();
    let refused = Event::Refused {
        tenant: name.as_str(),
        why: Refusal::Connections,
        hellos,
    };
    context.say(rt, alloc, refused);
    true
}

/// Ends the connections that have done nothing for too long by that time, and reports how many.
fn cut<J: Naming, R: Wait + Clock>(
    rt: &R,
    alloc: Global,
    context: HostContext<'_, J>,
    reception: &Reception<'_, J>,
    now: u64,
) {
    let words = context.office.words;
    let patience = Patience {
        hello: u64::from(words.hello_seconds).saturating_mul(1000),
        idle: u64::from(words.idle_seconds).saturating_mul(1000),
    };
    let Cuts { hello, idle } = reception.cut(rt, now, patience);
    if hello > 0 || idle > 0 {
        context
            .progress
            .cut_hello
            .fetch_add(hello, Ordering::SeqCst);
        context.progress.cut_idle.fetch_add(idle, Ordering::SeqCst);
        context.say(rt, alloc, Event::Cut { hello, idle });
    }
}
