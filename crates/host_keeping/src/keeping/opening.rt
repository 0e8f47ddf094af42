// The thread that looks after terms opens the next one of a tenant.
ghost use Rattle.std.specs.Prelude.{◌≡◌, IfSome};

use super::Keeper;
use crate::context::HostContext;
use host_filing::{System, begin_journal, begin_notes, event_fault, millis, read_config, seconds};
use host_status::{Event, Fault};
use host_terms::{HostTerm, Tenancy};
use job_language::{Config, TenantConfig};
use server_io::ServerFault;
use std::alloc::Global;
use std::fs::{File, Files};
use std::sync::Wait;
use std::time::Clock;
use tenant_book::Naming;
use term_life::{Span, Why};

/// How long a tenant rests whose term could not be opened, in milliseconds.
const REST: u64 = 1000;

impl<J: Naming> Keeper<J> {
    /// Opens the first term of each tenant. An error if one can't be opened.
    pub fn open_all<R: Files<File = File> + Wait + Clock + AllocGlobal>(
        &mut self,
        rt: &R,
        alloc: Global,
        context: HostContext<'_, J>,
    ) -> Result<(), ServerFault> {
        for tenant in 0..self.tended.len() {
            self.open(rt, alloc, context, tenant, Why::Config)?;
        }
        Ok(())
    }

    /// Opens the next term of a tenant, for which the one that serves is left.
    pub(super) fn rotate<R: System>(
        &mut self,
        rt: &R,
        alloc: Global,
        context: HostContext<'_, J>,
        tenant: usize,
        tenancy: &Tenancy<J>,
        why: Why,
    ) {
        let named = tenancy.name();
        if let Some(term) = tenancy.serving(rt) {
            say_rotation(rt, alloc, context, named.as_str(), term.span().number, why);
        }
        let opened = match read_config(rt, alloc, context.office.words.config) {
            Ok(config) => self.adopt_and_open(rt, alloc, context, tenant, &config, why),
            Err(fault) => Err(fault),
        };
        if let Err(fault) = opened {
            let what = event_fault(fault);
            context.say_fault(rt, alloc, what, Some(named.as_str()), None);
            if let Some(tended) = self.tended.get_mut(tenant) {
                tended.tending.rest(millis(rt), REST);
            }
            if why == Why::History || why == Why::Journal {
                tenancy.refuse_waits(rt);
            } else {
                tenancy.refuse(rt);
            }
        }
    }

    fn adopt_and_open<R: System>(
        &mut self,
        rt: &R,
        alloc: Global,
        context: HostContext<'_, J>,
        tenant: usize,
        config: &Config,
        why: Why,
    ) -> Result<(), ServerFault> {
        self.adopt(rt, alloc, context, config)?;
        self.open_by(rt, alloc, context, tenant, config, why)
    }

    /// Opens the next term of a tenant, by the configuration that the file has.
    fn open<R: Files<File = File> + Wait + Clock + AllocGlobal>(
        &self,
        rt: &R,
        alloc: Global,
        context: HostContext<'_, J>,
        tenant: usize,
        why: Why,
    ) -> Result<(), ServerFault> {
        let config = read_config(rt, alloc, context.office.words.config)?;
        self.open_by(rt, alloc, context, tenant, &config, why)
    }

    /// Opens the next term of a tenant, by a configuration. Its numbers are on the disk before it serves.
    fn open_by<R: Files<File = File> + Wait + Clock>(
        &self,
        rt: &R,
        alloc: Global,
        context: HostContext<'_, J>,
        tenant: usize,
        config: &Config,
        why: Why,
    ) -> Result<(), ServerFault> {
        let asked = millis(rt);
        let Some(tenancy) = context.host.tenancy(rt, tenant) else {
            return Err(ServerFault::Device);
        };
        let named = tenancy.name();
        let Some(given) = config_named(config, named.as_str()) else {
            // The configuration has it no more.
            return Ok(());
        };
        let (number, base) = tenancy.next(rt);
        let Some(span) = Span::next(number, base, given.tenant().steps) else {
            context.say_fault(rt, alloc, Fault::Numbers, Some(named.as_str()), None);
            return Err(ServerFault::Device);
        };
        context
            .office
            .folder
            .put_span(rt, alloc, named.as_str(), span)?;
        let term = self.new_term(rt, alloc, context, span, given)?;
        let notes = begin_notes(rt, alloc, context.office, named.as_str(), span.number)?;
        context.host.begin(rt, alloc, tenant, term, why)?;
        tenancy.note_in(rt, notes);
        let ms = millis(rt).saturating_sub(asked);
        say_opened(rt, alloc, context, named.as_str(), span, ms);
        Ok(())
    }

    /// A term that has done nothing yet, with its journal if it is to have one.
    fn new_term<R: Files<File = File> + Wait + Clock>(
        &self,
        rt: &R,
        alloc: Global,
        context: HostContext<'_, J>,
        span: Span,
        given: TenantConfig,
    ) -> Result<HostTerm<J>, ServerFault> {
        // A host has a place for one connection at least.
        if context.connections == 0 {
            return Err(ServerFault::Words);
        }
        let journal = begin_journal(rt, alloc, context.office, span, &given)?;
        HostTerm::open(
            rt,
            alloc,
            context.host.registry(),
            span,
            given,
            seconds(rt),
            self.workers,
            context.connections,
            journal,
        )
    }
}

/// Says that the term of that number, which serves a tenant, is left for the next one.
fn say_rotation<J: Naming, R: Wait + Clock>(
    rt: &R,
    alloc: Global,
    context: HostContext<'_, J>,
    tenant: &str,
    term: u64,
    why: Why,
) {
    if why == Why::Journal {
        context.say_fault(rt, alloc, Fault::Journal, Some(tenant), Some(term));
    }
    context.say(rt, alloc, Event::Rotation { tenant, term, why });
}

/// Says that a term of a tenant was opened, which took so many milliseconds.
fn say_opened<J: Naming, R: Wait + Clock>(
    rt: &R,
    alloc: Global,
    context: HostContext<'_, J>,
    tenant: &str,
    span: Span,
    ms: u64,
) {
    context.say(
        rt,
        alloc,
        Event::Opened {
            tenant,
            term: span.number,
            base: span.base,
            ms,
        },
    );
}

/// What the tenant of a name is given by a configuration.
fn config_named(config: &Config, name: &str) -> Option<TenantConfig>
    ensures { IfSome result (λ given. given.name ≡ name.now) }
{
    config
        .tenants()
        .iter()
        .copied()
        .find(|tenant| tenant.tenant().name.as_str() == name)
}
