// The state of a tenant as the evaluator holds it, and how a step ends.
ghost use Rattle.std.specs.Prelude.{◌≡◌, ◌<◌, unwrap_or, pos};
ghost use Rattle.job_language.specs.declared.tenants.TheConstants.{MAX_SLOTS};
ghost use Rattle.solo_eval.specs.Present.{IsNumberIn, HasRoom};

mod jobs;
mod rows;

use crate::stacks::{height, task_height};
use job_language::{JobFault, Key, Moved, Tenant, TenantConfig};
use std::alloc::Global;
use std::marker::Model;
use tenant_model::{Row, Work};
use thread_cells::Cells;

/// All rows that a tenant ever made, its jobs, and its cells by key and by slot.
pub(crate) struct TenantState {
    config: TenantConfig,
    rows: Vec<Row>,
    jobs: Vec<Work>,
    cells: Cells,
    entries: usize,
    epoch: u64,
}

impl Drop for TenantState {
    // An owner drops it in one call, not part by part at each of its ways out.
    fn drop(self) {
        let TenantState {
            config: _config,
            rows: _rows,
            jobs: _jobs,
            cells: _cells,
            entries: _entries,
            epoch: _epoch,
        } = self;
    }
}

impl Model for TenantState {
    ghost use Rattle.tenant_model.specs.State.{State};

    ghost Value = { State };

    ghost use Rattle.tenant_model.specs.Linked.{IsLinked};
    ghost use Rattle.solo_eval.specs.TenantState.{shown};

    ghost view = { shown };

    ghost invariant = { λ s. IsLinked (shown s) };
}

impl TenantState {
    ghost use Rattle.tenant_model.specs.State.{empty};
    ghost use Rattle.thread_cells.specs.Cells.{cell, with_cell};
    ghost use Rattle.job_language.specs.Tenant.{IsValidTenant};
    ghost use Rattle.tenant_model.specs.Changes.{finish_step, faults, with_cells, entry, is_full};

    /// A tenant that has done nothing yet.
    pub(crate) fn new(alloc: Global, config: TenantConfig) -> TenantState
        ensures { result ≡ empty config }
    {
        TenantState {
            config,
            rows: Vec::new(alloc),
            jobs: Vec::new(alloc),
            cells: Cells::new(),
            entries: 0,
            epoch: 0,
        }
    }

    /// The limits that the tenant was given.
    pub(crate) fn config(&self) -> &Tenant
        ensures value { result.now ≡ self.now.config }
        ensures valid { IsValidTenant self.now.config }
    {
        self.config.tenant()
    }

    /// Counts an entry, and settles.
    pub(crate) fn enter(&mut self)
        requires { HasRoom self.old }
        ensures { self.new ≡ entry self.old }
    {
        self.entries += 1;
        self.settle();
    }

    /// Counts an entry after a step that ran. A reserved slot is freed if nothing is left on it.
    pub(crate) fn finish_step(&mut self, slot: u8) -> Moved
        requires { HasRoom self.old }
        ensures { finish_step slot self.old ≡ (result, self.new) }
    {
        let freed = slot < self.config().reserved && height(self.rows(), slot) == 0;
        self.enter();
        if freed { Moved::Freed } else { Moved::Ran }
    }

    /// Ends the topmost row of a slot and those below it, down to and including the first that is not
    /// a region, for a fault of a job.
    pub(crate) fn fault(&mut self, slot: u8, job: u64, fault: JobFault) -> Moved
        requires room { HasRoom self.old }
        requires job { IsNumberIn self.old.jobs job }
        ensures { faults slot job fault self.old ≡ (result, self.new) }
    {
        let from = task_height(self.rows(), slot);
        self.fault_rows(slot, from);
        self.set_fault(job, fault);
        self.finish_step(slot)
    }

    /// The cells, by key and by slot.
    pub(crate) fn cells(&self) -> &Cells
        ensures { result.now ≡ self.now.cells }
    {
        &self.cells
    }

    /// The value of the cell of a key on a slot; the cell is made with 0 if there is none.
    pub(crate) fn local_cell(&mut self, key: Key, slot: u8) -> i64
        requires { slot < MAX_SLOTS }
        ensures value { result ≡ unwrap_or (cell self.old.cells key slot) (pos 0) }
        ensures made { self.new ≡ with_cells self.old (with_cell self.old.cells key slot result) }
    {
        self.cells.local(key.index(), usize::from(slot))
    }

    /// Sets the cell of a key on a slot, and makes it if there is none.
    pub(crate) fn store_cell(&mut self, key: Key, slot: u8, value: i64)
        requires { slot < MAX_SLOTS }
        ensures { self.new ≡ with_cells self.old (with_cell self.old.cells key slot value) }
    {
        self.cells.store(key.index(), usize::from(slot), value);
    }

    /// Whether the history has no room for another entry.
    pub(crate) fn is_full(&self) -> bool
        ensures { result ≡ is_full self.now }
    {
        self.config.tenant().steps <= self.entries
    }
}
