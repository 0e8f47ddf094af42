// The thread that looks after terms: it opens them, lets them be left, and closes them.

mod adopting;
mod closing;
mod opening;
mod orders;

use crate::context::HostContext;
use host_filing::{Filing, System, Writer, millis};
use host_status::{Event, Fault};
use host_terms::{Ending, Tenancy};
use std::alloc::Global;
use std::sync::Wait;
use std::time::Clock;
use tenant_book::Naming;
use term_life::{Beat, Order, Step, Tending, Why};

/// How often orders by files are looked for, in milliseconds.
const BETWEEN_LOOKS: u64 = 50;

/// What the thread keeps of a tenant.
#[derive(Clone, Copy)]
struct Tended {
    tending: Tending,
    /// The file that asks for its next term.
    order: Order,
}

/// A term that is to be closed once no worker is there.
#[derive(Drop)]
struct Parting<J: Naming> {
    tenant: usize,
    ending: Ending<J>,
    /// When its end began, in milliseconds of the monotonic clock.
    since: u64,
}

/// What the thread keeps.
pub struct Keeper<J: Naming> {
    /// How many workers the host has.
    workers: usize,
    /// By the numbers of the tenants.
    tended: Vec<Tended>,
    parting: Vec<Parting<J>>,
    filing: Filing,
    /// The file that asks for the next term of all tenants.
    order: Order,
    /// When orders are looked for.
    looks: Beat,
}

impl<J: Naming> Drop for Keeper<J> {
    // An owner drops it in one call, not part by part at each of its ways out.
    fn drop(self) {
        let Keeper {
            workers: _workers,
            tended: _tended,
            parting: _parting,
            filing: _filing,
            order: _order,
            looks: _looks,
        } = self;
    }
}

impl<J: Naming> Keeper<J> {
    /// Of a host with so many workers, without a tenant.
    pub fn new(alloc: Global, workers: usize, filing: Filing) -> Keeper<J> {
        Keeper {
            workers,
            tended: Vec::new(alloc),
            parting: Vec::new(alloc),
            filing,
            order: Order::new(),
            looks: Beat {
                every: BETWEEN_LOOKS,
                last: 0,
            },
        }
    }

    /// The files of terms that are closed.
    pub fn filing(&self) -> &Filing {
        &self.filing
    }

    /// Looks after each tenant once: terms that are used are left, terms that are wished for are opened, and those that
    /// are done are closed.
    pub fn tend_all<R: System>(
        &mut self,
        rt: &R,
        alloc: Global,
        context: HostContext<'_, J>,
        writer: &Writer,
    ) {
        for tenant in 0..self.tended.len() {
            if let Some(tenancy) = context.host.tenancy(rt, tenant) {
                self.tend(rt, alloc, context, tenant, &tenancy);
            }
        }
        self.close_terms(rt, alloc, context, writer, false);
    }

    fn tend<R: System>(
        &mut self,
        rt: &R,
        alloc: Global,
        context: HostContext<'_, J>,
        tenant: usize,
        tenancy: &Tenancy<J>,
    ) {
        wish_if_used(rt, context, tenancy);
        if tenancy.take_note_failure(rt) {
            let named = tenancy.name();
            context.say_fault(rt, alloc, Fault::Results, Some(named.as_str()), None);
        }
        let Some(why) = tenancy.wished(rt) else {
            return;
        };
        let Some(tended) = self.tended.get_mut(tenant) else {
            return;
        };
        match tended.tending.step(millis(rt), tenancy.count(rt)) {
            Step::Refuse => tenancy.refuse(rt),
            Step::Rest => tenancy.refuse_waits(rt),
            Step::Hold { is_new } => {
                // Who waits for it waits for a term to be closed.
                tenancy.hold(rt);
                if is_new {
                    say_waiting(rt, alloc, context, tenancy, why);
                }
            }
            Step::Open => self.rotate(rt, alloc, context, tenant, tenancy, why),
        }
    }

    /// Lets all terms take no new jobs, since the host stops.
    pub fn leave_all<R: Wait>(&mut self, rt: &R, context: HostContext<'_, J>) {
        for (tenant, tended) in self.tended.iter_mut().enumerate() {
            tended.tending.configure(false);
            if let Some(tenancy) = context.host.tenancy(rt, tenant) {
                tenancy.leave(rt, Why::Stop);
                tenancy.refuse(rt);
            }
        }
    }

    /// Whether each term is closed and its files are written.
    pub fn is_over<R: Wait>(&self, rt: &R, context: HostContext<'_, J>, writer: &Writer) -> bool {
        for tenant in 0..self.tended.len() {
            if let Some(tenancy) = context.host.tenancy(rt, tenant) {
                if tenancy.count(rt) > 0 {
                    return false;
                }
            }
        }
        self.parting.is_empty() && self.filing.is_empty(rt, writer)
    }
}

/// Wishes for the next term of a tenant if the journal of the one that serves is broken, or its history is used that
/// far.
fn wish_if_used<J: Naming, R: Wait>(rt: &R, context: HostContext<'_, J>, tenancy: &Tenancy<J>) {
    if let Some(term) = &tenancy.serving(rt) {
        if term.is_broken() {
            tenancy.wish(rt, Why::Journal);
        }
        if term.is_used(rt, context.office.words.rotate_at) {
            tenancy.wish(rt, Why::History);
        }
    }
}

/// Says that the next term of a tenant has to wait.
fn say_waiting<J: Naming, R: Wait + Clock>(
    rt: &R,
    alloc: Global,
    context: HostContext<'_, J>,
    tenancy: &Tenancy<J>,
    why: Why,
) {
    if let Some(term) = tenancy.serving(rt) {
        context.say(
            rt,
            alloc,
            Event::Waiting {
                tenant: tenancy.name().as_str(),
                term: term.span().number,
                why,
            },
        );
    }
}
