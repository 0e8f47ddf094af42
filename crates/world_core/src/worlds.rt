// The world.
ghost use Rattle.std.specs.Prelude.{◌≡◌, ℕ, List, map, All, IfOk, OnErr};
ghost use Rattle.world_model.specs.Raw as raw;
ghost use Rattle.job_language.specs.Configuration.{Configuration};
ghost use Rattle.job_language.specs.Tenant.{IsValidTenant};
ghost use Rattle.world_model.specs.Laws.{TenantsAreIsolated};
ghost use Rattle.world_model.specs.Refusals.{IsAnswer, AreAnswers, next, steps_taken};
ghost use Rattle.world_model.specs.World.{start, after};
ghost use Rattle.world_model.specs.World.{World as Known};
ghost use Rattle.world_core.specs.RawOf.{raw_of};
ghost use Rattle.world_core.specs.Represents.{Represents};
ghost use Rattle.world_core.specs.Steps.{Steps};

use crate::arenas::TenantArena;
use crate::raws::Raw;
use crate::starting::{first_arenas, first_market};
use crate::{lines, steps};
use job_language::{Answer, Config, Error, Reply};
use market::MarketState;
use market_config::Call;
use std::alloc::{AllocError, Global};
use std::marker::Model;
use world_model::{Outcome, SlotState, WorkerState};

/// Many tenants and the market between them.
pub struct World<A: TenantArena> {
    arenas: Vec<A>,
    market: MarketState,
}

impl<A: TenantArena> Drop for World<A> {
    // An owner drops it in one call, not part by part at each of its ways out.
    fn drop(self) {
        let World {
            arenas: _arenas,
            market: _market,
        } = self;
    }
}

impl<A: TenantArena> Model for World<A> {
    ghost use Rattle.world_core.specs.WorldData.{WorldData, IsAligned};

    ghost Value = { WorldData A };

    ghost view = { λ w. record { arenas = w.arenas.items; market = w.market } };

    ghost invariant = { λ w. IsAligned (record { arenas = w.arenas.items; market = w.market }) };
}

impl<A: TenantArena> World<A> {
    /// A world that has taken no step yet. It fails only if an allocation failed.
    #[tactic(auto, using(crate::proofs::Origin::start_held, crate::proofs::Origin::start_represented))]
    pub fn new(alloc: Global, config: Config) -> Result<World<A>, AllocError>
        ensures { IfOk result (λ world. Represents A.stands_for world (start config)) }
    {
        let arenas = first_arenas(alloc, &config)?;
        let market = first_market(alloc, &config)?;
        Ok(World { arenas, market })
    }

    /// Takes a step. Error 9, that an allocation failed, is answered only to a line, and then nothing
    /// has changed.
    pub fn apply(&mut self, alloc: Global, raw: &Raw) -> Outcome
        ensures answer { (w : Known) → Represents A.stands_for self.old w
            → IsAnswer w (raw_of raw.now) result }
        ensures world { (w : Known) → Represents A.stands_for self.old w
            → Represents A.stands_for self.new (next w (raw_of raw.now) result) }
    {
        match raw {
            Raw::Line(tenant, text) => self.line(alloc, *tenant, text.as_slice()),
            Raw::Master(tenant, slot) => self.master(*tenant, *slot),
            Raw::Push(tenant, slot) => self.push(Call {
                tenant: *tenant,
                slot: *slot,
            }),
            Raw::Pop(worker) => self.pop(*worker),
            Raw::Arrive(worker) => self.arrive(*worker),
            Raw::Advance(worker) => self.advance(*worker),
        }
    }

    /// Takes steps, one after another. It fails only if the memory for its answers was refused, and then
    /// it has taken no step. From the start, each tenant is as if it were alone: its state and its
    /// answers are those of the plain evaluator on its own steps, its regions protect its cells, its
    /// serial jobs that complete have their serial values, and no call of it is forgotten.
    pub fn run(&mut self, alloc: Global, raws: &[Raw]) -> Result<Vec<Outcome>, AllocError>
        ensures answers { (w : Known) → Represents A.stands_for self.old w
            → IfOk result (λ os. AreAnswers w (map raw_of raws.now) os.items) }
        ensures world { (w : Known) → Represents A.stands_for self.old w
            → IfOk result (λ os. Represents A.stands_for self.new
            (after w (steps_taken (map raw_of raws.now) os.items))) }
        ensures refused { OnErr result (self.new ≡ self.old) }
        ensures isolated { (c : Configuration) → All IsValidTenant c.tenants
            → Represents A.stands_for self.old (start c)
            → IfOk result (λ os. TenantsAreIsolated c (map raw_of raws.now) os.items) }
    {
        let mut outcomes = Vec::with_capacity(alloc, raws.len())?;
        for raw in raws {
            let outcome = self.apply(alloc, raw);
            outcomes.push_reserved(outcome);
        }
        Ok(outcomes)
    }

    fn line(&mut self, alloc: Global, tenant: usize, text: &[u8]) -> Outcome
        ensures { Steps A.stands_for self.old self.new (raw.line tenant text.now) result }
    {
        if tenant >= self.arenas.len() || lines::is_blank(text) {
            return Outcome::NotNow;
        }
        let request = match lines::request_of(alloc, text) {
            Ok(request) => request,
            Err(error) => return refused(error),
        };
        let arena = &mut self.arenas[tenant];
        match steps::ask(alloc, arena, &mut self.market, tenant, request) {
            Ok(answer) => Outcome::Own(answer),
            Err(_) => refused(Error::NoMemory),
        }
    }

    fn master(&mut self, tenant: usize, slot: u8) -> Outcome
        ensures { Steps A.stands_for self.old self.new (raw.master tenant slot) result }
    {
        if tenant >= self.arenas.len() {
            return Outcome::NotNow;
        }
        let arena = &mut self.arenas[tenant];
        if slot >= arena.reserved() {
            return Outcome::NotNow;
        }
        Outcome::Own(steps::master(arena, &mut self.market, tenant, slot))
    }

    fn push(&mut self, call: Call) -> Outcome
        ensures { Steps A.stands_for self.old self.new (raw.push call.tenant call.slot) result }
    {
        let SlotState::Due = self.market.slot(call) else {
            return Outcome::NotNow;
        };
        self.market.push(call);
        Outcome::Queued
    }

    fn pop(&mut self, worker: usize) -> Outcome
        ensures { Steps A.stands_for self.old self.new (raw.pop worker) result }
    {
        let Some(WorkerState::Free) = self.market.worker(worker) else {
            return Outcome::NotNow;
        };
        match self.market.pop(worker) {
            Some(call) => Outcome::Held(call),
            None => Outcome::NoCall,
        }
    }

    fn arrive(&mut self, worker: usize) -> Outcome
        ensures { Steps A.stands_for self.old self.new (raw.arrive worker) result }
    {
        let Some(WorkerState::Holds(call)) = self.market.worker(worker) else {
            return Outcome::NotNow;
        };
        let arena = &mut self.arenas[call.tenant];
        Outcome::Own(steps::arrive(arena, &mut self.market, worker, call))
    }

    fn advance(&mut self, worker: usize) -> Outcome
        ensures { Steps A.stands_for self.old self.new (raw.advance worker) result }
    {
        let Some(WorkerState::In(call)) = self.market.worker(worker) else {
            return Outcome::NotNow;
        };
        let arena = &mut self.arenas[call.tenant];
        Outcome::Own(steps::advance(arena, &mut self.market, worker, call))
    }
}

fn refused(error: Error) -> Outcome
    ensures { result ≡ Outcome.Own (Answer.Replied (Reply.Refused error)) }
{
    Outcome::Own(Answer::Replied(Reply::Refused(error)))
}
