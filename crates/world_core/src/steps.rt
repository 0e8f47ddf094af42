// The steps of one tenant, with what the market does at each.
ghost use Rattle.std.specs.Prelude.{◌≡◌, ℕ, List, IfOk, IsSome, OnErr};
ghost use Rattle.job_language.specs.Brought.{job_of};
ghost use Rattle.job_language.specs.declared.steps.Step.TheVariants as step;
ghost use Rattle.tenant_model.specs.State.{State};
ghost use Rattle.world_model.specs.Raw as raw;
ghost use Rattle.world_model.specs.World.{wake_after};
ghost use Rattle.world_core.specs.WorldData.{KeepsOrder};
ghost use Rattle.world_core.specs.Steps.{IsTaken};

use crate::arenas::TenantArena;
use job_language::{Answer, Came, Moved, Request};
use market::MarketState;
use market_config::Call;
use std::alloc::{AllocError, Global};

/// After an entry, a slot of the tenant wakes if a row of it is unstarted.
fn wake_after<A: TenantArena>(market: &mut MarketState, arena: &A, tenant: usize, answer: &Answer)
    ensures woken { (s : State) → A.stands_for arena.now s
        → market.new ≡ wake_after market.old tenant answer.now s }
    ensures keeps { KeepsOrder market.old market.new }
{
    if answer.is_entry() && arena.has_unstarted() {
        market.wake(tenant);
    }
}

/// The tenant answers the request of a line. It fails only if an allocation failed, and then nothing
/// has changed.
pub(crate) fn ask<A: TenantArena>(
    alloc: Global,
    arena: &mut A,
    market: &mut MarketState,
    tenant: usize,
    request: Request,
) -> Result<Answer, AllocError>
    ensures taken { (s : State) (text : List ℕ) → A.stands_for arena.old s
        → IfOk result (λ answer. IsTaken A.stands_for s (raw.line tenant text) tenant
        (step.Ask request) market.old answer arena.new market.new) }
    ensures refused { (s : State) → A.stands_for arena.old s
        → OnErr result (A.stands_for arena.new s) }
    ensures brings { OnErr result (IsSome (job_of request)) }
    ensures unchanged { OnErr result (market.new ≡ market.old) }
    ensures keeps { KeepsOrder market.old market.new }
{
    let reply = arena.ask(alloc, request)?;
    let answer = Answer::Replied(reply);
    wake_after(market, arena, tenant, &answer);
    Ok(answer)
}

/// A master advances a slot of the tenant.
pub(crate) fn master<A: TenantArena>(
    arena: &mut A,
    market: &mut MarketState,
    tenant: usize,
    slot: u8,
) -> Answer
    ensures taken { (s : State) → A.stands_for arena.old s
        → IsTaken A.stands_for s (raw.master tenant slot) tenant
        (step.Advance slot) market.old result arena.new market.new }
    ensures keeps { KeepsOrder market.old market.new }
{
    let answer = Answer::Moved(arena.advance(slot));
    wake_after(market, arena, tenant, &answer);
    answer
}

/// A worker arrives at the slot of the call that it holds.
pub(crate) fn arrive<A: TenantArena>(
    arena: &mut A,
    market: &mut MarketState,
    worker: usize,
    call: Call,
) -> Answer
    ensures taken { (s : State) → A.stands_for arena.old s
        → IsTaken A.stands_for s (raw.arrive worker) call.tenant
        (step.Arrive call.slot) market.old result arena.new market.new }
    ensures keeps { KeepsOrder market.old market.new }
{
    let came = arena.arrive(call.slot);
    market.came(worker, matches!(came, Came::At(_)));
    let answer = Answer::Came(came);
    wake_after(market, arena, call.tenant, &answer);
    answer
}

/// A worker advances the slot of the call that it is in.
pub(crate) fn advance<A: TenantArena>(
    arena: &mut A,
    market: &mut MarketState,
    worker: usize,
    call: Call,
) -> Answer
    ensures taken { (s : State) → A.stands_for arena.old s
        → IsTaken A.stands_for s (raw.advance worker) call.tenant
        (step.Advance call.slot) market.old result arena.new market.new }
    ensures keeps { KeepsOrder market.old market.new }
{
    let moved = arena.advance(call.slot);
    if matches!(moved, Moved::Left) {
        market.left(worker);
    }
    let answer = Answer::Moved(moved);
    wake_after(market, arena, call.tenant, &answer);
    answer
}
