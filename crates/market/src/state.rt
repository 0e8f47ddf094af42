// The market as lists.
ghost use Rattle.std.specs.Prelude.{◌≡◌, true, length, IfOk};
ghost use Rattle.world_model.specs.Market.{slot_at, worker_at, is_due, is_free, home_slot, wake, push, pop, came, left};
ghost use Rattle.market.specs.First.{first_market};

use crate::slots::SlotStates;
use crate::waiting::WaitingCalls;
use job_language::Level;
use market_config::{Call, MarketConfig};
use std::alloc::{AllocError, Global};
use std::marker::Model;
use world_model::{SlotState, WorkerState};

/// Where the slots and the workers are, and which calls wait. Tenants, slots and workers are
/// numbered from 0.
pub struct MarketState {
    levels: Vec<Level>,
    slots: Vec<SlotStates>,
    waiting: WaitingCalls,
    workers: Vec<WorkerState>,
}

impl Drop for MarketState {
    // An owner drops it in one call, not part by part at each of its ways out.
    fn drop(self) {
        let MarketState {
            levels: _levels,
            slots: _slots,
            waiting: _waiting,
            workers: _workers,
        } = self;
    }
}

impl Model for MarketState {
    ghost use Rattle.world_model.specs.Market.{Market};
    ghost use Rattle.market.specs.Waiting.{market_of, IsKept};

    ghost Value = { Market };

    ghost view = { λ m. market_of m.levels.items m.slots.items m.waiting m.workers.items };

    ghost invariant = { λ m. IsKept
        (market_of m.levels.items m.slots.items m.waiting m.workers.items) m.waiting };
}

impl MarketState {
    /// The market in which nothing was done yet, with that number of workers.
    pub fn new(
        alloc: Global,
        config: &MarketConfig,
        workers: usize,
    ) -> Result<MarketState, AllocError>
        ensures { IfOk result (λ m. m ≡ first_market config.now workers) }
    {
        let tenants = config.tenants();
        let mut levels = Vec::with_capacity(alloc, tenants.len())?;
        let mut slots = Vec::with_capacity(alloc, tenants.len())?;
        for tenant in tenants {
            levels.push(tenant.level)?;
            slots.push(SlotStates::new(alloc, *tenant)?)?;
        }
        Ok(MarketState {
            levels,
            slots,
            waiting: WaitingCalls::new(alloc, config)?,
            workers: vec![in alloc; WorkerState::Free; workers]?,
        })
    }

    /// Where a slot is; one that is not there is for nobody.
    pub fn slot(&self, call: Call) -> SlotState
        ensures { result ≡ slot_at self.now call.tenant call.slot }
    {
        match self.slots.get(call.tenant) {
            Some(slots) => slots.state(call.slot),
            None => SlotState::Reserved,
        }
    }

    /// What a worker does, if there is one of that number.
    pub fn worker(&self, worker: usize) -> Option<WorkerState>
        ensures { result ≡ worker_at self.now worker }
    {
        self.workers.get(worker).copied()
    }

    /// The lowest slot at home of a tenant, if there is one, becomes due. It gives that slot.
    pub fn wake(&mut self, tenant: usize) -> Option<u8>
        ensures slot { result ≡ home_slot self.old tenant }
        ensures state { self.new ≡ wake self.old tenant }
    {
        let slots = self.slots.get_mut(tenant)?;
        slots.wake()
    }

    /// The call of a slot that is due goes to the end of its tenant's level.
    pub fn push(&mut self, call: Call)
        requires { is_due (slot_at self.old call.tenant call.slot) ≡ true }
        ensures { self.new ≡ push self.old call.tenant call.slot }
    {
        let level = self.levels[call.tenant];
        self.slots[call.tenant].set(call.slot, SlotState::Queued);
        self.waiting.push(level, call);
    }

    /// A free worker is handed the first call of the highest level that has one.
    pub fn pop(&mut self, worker: usize) -> Option<Call>
        requires { is_free (worker_at self.old worker) ≡ true }
        ensures call { result ≡ (pop self.old worker).0 }
        ensures state { self.new ≡ (pop self.old worker).1 }
    {
        let call = self.waiting.pop()?;
        self.slots[call.tenant].set(call.slot, SlotState::Held(worker));
        self.workers[worker] = WorkerState::Holds(call);
        Some(call)
    }

    /// The worker is in the slot of the call that it held, or that slot goes home.
    pub fn came(&mut self, worker: usize, is_in: bool)
        ensures { self.new ≡ came self.old worker is_in }
    {
        let Some(WorkerState::Holds(call)) = self.worker(worker) else {
            return;
        };
        let (slot, state) = if is_in {
            (SlotState::In(worker), WorkerState::In(call))
        } else {
            (SlotState::Home, WorkerState::Free)
        };
        self.slots[call.tenant].set(call.slot, slot);
        self.workers[worker] = state;
    }

    /// The slot that the worker was in goes home.
    pub fn left(&mut self, worker: usize)
        ensures { self.new ≡ left self.old worker }
    {
        let Some(WorkerState::In(call)) = self.worker(worker) else {
            return;
        };
        self.slots[call.tenant].set(call.slot, SlotState::Home);
        self.workers[worker] = WorkerState::Free;
    }
}
