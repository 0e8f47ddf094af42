// The thread that looks after terms obeys files that ask for next terms.

use super::Keeper;
use crate::context::HostContext;
use host_filing::{System, event_fault, millis, read_config};
use std::alloc::{AllocError, Global};
use std::fs;
use std::fs::{File, Files};
use std::sync::Wait;
use tenant_book::Naming;
use term_life::{Order, Why};

impl<J: Naming> Keeper<J> {
    /// Looks whether files ask for next terms: `rotate` for one of each tenant, and `rotate.NAME` for one of that
    /// tenant.
    pub fn look_for_orders<R: System>(
        &mut self,
        rt: &R,
        alloc: Global,
        context: HostContext<'_, J>,
    ) {
        if !self.looks.is_due(millis(rt)) {
            return;
        }
        let path = context.office.folder.rotate.as_str();
        if is_ordered(rt, path, &mut self.order) {
            self.rotate_all(rt, alloc, context);
        }
        for tenant in 0..self.tended.len() {
            // Without memory for a path it is looked for again.
            let _ = self.look_for_order(rt, alloc, context, tenant);
        }
    }

    /// Asks for the next term of each tenant, with the tenants that the configuration has now.
    fn rotate_all<R: System>(&mut self, rt: &R, alloc: Global, context: HostContext<'_, J>) {
        let adopted = match read_config(rt, alloc, context.office.words.config) {
            Ok(config) => self.adopt(rt, alloc, context, &config),
            Err(fault) => Err(fault),
        };
        if let Err(fault) = adopted {
            return context.say_fault(rt, alloc, event_fault(fault), None, None);
        }
        for tenant in 0..self.tended.len() {
            if let Some(tenancy) = context.host.tenancy(rt, tenant) {
                tenancy.wish(rt, Why::File);
            }
        }
    }

    fn look_for_order<R: Files<File = File> + Wait>(
        &mut self,
        rt: &R,
        alloc: Global,
        context: HostContext<'_, J>,
        tenant: usize,
    ) -> Result<(), AllocError> {
        let Some(tenancy) = context.host.tenancy(rt, tenant) else {
            return Ok(());
        };
        let named = tenancy.name();
        let path = context.office.folder.order(alloc, named.as_str())?;
        let Some(tended) = self.tended.get_mut(tenant) else {
            return Ok(());
        };
        if is_ordered(rt, path.as_str(), &mut tended.order) {
            tenancy.wish(rt, Why::File);
        }
        Ok(())
    }
}

/// Whether what the file at a path asks for is to be begun now. The file is removed then, if it can be.
fn is_ordered<R: Files<File = File>>(rt: &R, path: &str, order: &mut Order) -> bool {
    let is_new = order.look(fs::symlink_metadata(rt, path).is_ok());
    if is_new && fs::remove_file(rt, path).is_ok() {
        order.forget();
    }
    is_new
}
