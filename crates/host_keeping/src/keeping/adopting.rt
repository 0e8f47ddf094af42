// The thread that looks after terms takes up the tenants of a configuration.

use super::{Keeper, Tended};
use crate::context::HostContext;
use host_filing::{System, begin_notes};
use host_folder::{Begin, read_notes};
use host_terms::Tenancy;
use job_language::{Config, TenantConfig};
use server_io::ServerFault;
use std::alloc::{AllocError, Global};
use std::sync::{Arc, Wait};
use tenant_book::Naming;
use term_life::{MOST_JOBS, Order, Outcome, Span, Tending, Why};

impl<J: Naming> Keeper<J> {
    /// Takes the tenants of a configuration: those that are new are known from now on, and those whose term serves by
    /// another one, or that have none any more, are to leave it.
    pub fn adopt<R: System>(
        &mut self,
        rt: &R,
        alloc: Global,
        context: HostContext<'_, J>,
        config: &Config,
    ) -> Result<(), ServerFault> {
        for tended in self.tended.iter_mut() {
            tended.tending.configure(false);
        }
        for tenant in config.tenants() {
            self.adopt_tenant(rt, alloc, context, tenant)?;
        }
        for tenant in 0..self.tended.len() {
            if !self.tended[tenant].tending.is_configured() {
                if let Some(tenancy) = context.host.tenancy(rt, tenant) {
                    tenancy.leave(rt, Why::Config);
                }
            }
        }
        Ok(())
    }

    fn adopt_tenant<R: System>(
        &mut self,
        rt: &R,
        alloc: Global,
        context: HostContext<'_, J>,
        tenant: &TenantConfig,
    ) -> Result<(), ServerFault> {
        let name = tenant.tenant().name;
        let Some(number) = context.host.find(rt, name) else {
            return self.add_tenant(rt, alloc, context, tenant);
        };
        if let Some(tended) = self.tended.get_mut(number) {
            tended.tending.configure(true);
        }
        let Some(tenancy) = context.host.tenancy(rt, number) else {
            return Ok(());
        };
        match tenancy.serving(rt) {
            Some(term) if term.tenant().tenant() != tenant.tenant() => {
                tenancy.wish(rt, Why::Config);
            }
            Some(_) => {}
            None => tenancy.wish(rt, Why::Config),
        }
        Ok(())
    }

    /// Makes a tenant known whose first term is to be opened.
    fn add_tenant<R: System>(
        &mut self,
        rt: &R,
        alloc: Global,
        context: HostContext<'_, J>,
        tenant: &TenantConfig,
    ) -> Result<(), ServerFault> {
        let named = tenant.tenant().name;
        let name = named.as_str();
        let shelves = self.filing.shelves();
        let Begin { number, base } = context.office.folder.begin(rt, alloc, name, shelves)?;
        let keep = context.office.words.keep as usize;
        let tenancy = Tenancy::new(alloc, named, number, base.min(MOST_JOBS), keep);
        let tenancy = shared(alloc, tenancy)?;
        let forgotten = read_notes(rt, alloc, context.office.folder, name)?;
        for term in shelves.numbers(name) {
            if !forgotten.has_retired(*term) {
                let mut outcomes = context.office.folder.outcomes(rt, alloc, name, *term)?;
                forgotten.leave_out_of(&mut outcomes);
                keep_outcomes(rt, &tenancy, *term, outcomes)?;
            }
        }
        tenancy.note_in(rt, begin_notes(rt, alloc, context.office, name, number)?);
        tenancy.wish(rt, Why::Config);
        self.tended.reserve(1)?;
        context.host.add(rt, alloc, tenancy)?;
        self.tended.push_reserved(Tended {
            tending: Tending::new(),
            order: Order::new(),
        });
        Ok(())
    }
}

fn shared<J: Naming>(alloc: Global, tenancy: Tenancy<J>) -> Result<Arc<Tenancy<J>>, AllocError> {
    Ok(Arc::new(alloc, tenancy)?)
}

/// Keeps the outcomes of a term that was closed before the host began, by the numbers that they have.
fn keep_outcomes<J: Naming, R: Wait>(
    rt: &R,
    tenancy: &Tenancy<J>,
    term: u64,
    outcomes: Vec<Outcome>,
) -> Result<(), AllocError> {
    let (Some(first), Some(last)) = (outcomes.first(), outcomes.last()) else {
        return Ok(());
    };
    let base = first.job.saturating_sub(1);
    let span = Span {
        number: term,
        base,
        room: last.job.saturating_sub(base),
    };
    tenancy.keep_outcomes(rt, span, outcomes)
}
