// The thread that looks after terms closes those that are done.

use super::{Keeper, Parting};
use crate::context::HostContext;
use host_filing::{Filed, UnfiledTerm, Writer, millis};
use host_records::TermEnd;
use std::alloc::{AllocError, Global};
use std::fs::{File, Files};
use std::sync::Wait;
use std::time::Clock;
use tenant_book::Naming;
use term_life::Trial;

impl<J: Naming> Keeper<J> {
    /// Takes out the terms that are done, closes those where nobody is any more, and goes on with their files. If it is
    /// forced, each term that was left is done.
    pub fn close_terms<R: Files<File = File> + Wait + Clock>(
        &mut self,
        rt: &R,
        alloc: Global,
        context: HostContext<'_, J>,
        writer: &Writer,
        is_forced: bool,
    ) {
        for tenant in 0..self.tended.len() {
            // Without memory it is tried again.
            let _ = self.part(rt, alloc, context, tenant, is_forced);
        }
        self.close_parted(rt, alloc, context);
        self.go_on_with_files(rt, alloc, context, writer);
    }

    /// Takes out a term of a tenant that is done.
    fn part<R: Wait + Clock>(
        &mut self,
        rt: &R,
        alloc: Global,
        context: HostContext<'_, J>,
        tenant: usize,
        is_forced: bool,
    ) -> Result<(), AllocError> {
        self.parting.reserve(1)?;
        let ending = context
            .host
            .next_ending(rt, alloc, tenant, context.desks, is_forced)?;
        if let Some(ending) = ending {
            self.parting.push_reserved(Parting {
                tenant,
                ending,
                since: millis(rt),
            });
        }
        Ok(())
    }

    /// Closes each of the terms that were taken out, if no worker is there any more and there is memory for it; else it
    /// becomes the last.
    fn close_parted<R: Wait + Clock>(
        &mut self,
        rt: &R,
        alloc: Global,
        context: HostContext<'_, J>,
    ) {
        for _parting in 0..self.parting.len() {
            // Without memory for it among the terms whose files are to be written, it is closed later.
            if self.parting.is_empty() || self.filing.make_room().is_err() {
                return;
            }
            let Parting {
                tenant,
                ending,
                since,
            } = self.parting.remove(0);
            match ending.close(rt, alloc, context.host) {
                Ok(end) => self.file(rt, alloc, context, tenant, end, since),
                Err(ending) => {
                    // There is room for it: it was there before.
                    let _kept = self.parting.push(Parting {
                        tenant,
                        ending,
                        since,
                    });
                }
            }
        }
    }

    /// Has the files of a term that is closed written. Its end began at that time, in milliseconds.
    fn file<R: Wait + Clock>(
        &mut self,
        rt: &R,
        alloc: Global,
        context: HostContext<'_, J>,
        tenant: usize,
        end: TermEnd,
        since: u64,
    ) {
        let unfiled = UnfiledTerm {
            tenant,
            end,
            since,
            trial: Trial::new(),
            is_told: false,
        };
        let filed = self.filing.add(rt, alloc, context.office, unfiled);
        end_filed(rt, context, filed);
    }

    /// Goes on with the files of terms that are closed, without waiting.
    fn go_on_with_files<R: Files<File = File> + Wait + Clock>(
        &mut self,
        rt: &R,
        alloc: Global,
        context: HostContext<'_, J>,
        writer: &Writer,
    ) {
        let written = self.filing.take_written(rt, alloc, context.office, writer);
        end_filed(rt, context, written);
        let begun = self.filing.begin_next(rt, alloc, context.office, writer);
        end_filed(rt, context, begun);
    }
}

/// A term that is done with, if there is one, holds up no other one of its tenant any more.
fn end_filed<J: Naming, R: Wait>(rt: &R, context: HostContext<'_, J>, filed: Option<Filed>) {
    if let Some(Filed { tenant, term }) = filed
        && let Some(tenancy) = context.host.tenancy(rt, tenant)
    {
        tenancy.end(rt, term);
    }
}
