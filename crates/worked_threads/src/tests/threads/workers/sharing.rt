// Two tenants and one worker: in which order their rows are run.
ghost use Rattle.std.specs.Prelude.{◌≡◌, ◌<◌, if◌then◌else◌, IfOk, length};

use crate::tests::assert_same;
use crate::tests::threads::queues::push;
use call_queues::{CallQueues, QueuePass};
use job_language::{Came, Level, Moved};
use job_step::{Segment, View};
use market_config::{Call, MarketConfig, MarketTenant};
use std::alloc::{AllocError, Global};
use std::sync::Wait;
use std::test::*;
use worker_main::{Bell, NoGate, SlotAccess, Visiting, WorkerAccess, worker};

/// One of the two tenants.
#[derive(Clone, Copy, Debug, PartialEq, Eq)]
struct Side {
    /// Whether it is the second one, with one row. The first has three.
    is_quiet: bool,
}

const NOISY: Side = Side { is_quiet: false };

const QUIET: Side = Side { is_quiet: true };

impl Side {
    fn number(self) -> usize
        ensures { result ≡ (if self.is_quiet then 1 else 0) }
    {
        if self.is_quiet { 1 } else { 0 }
    }

    fn of(tenant: usize) -> Option<Side> {
        match tenant {
            0 => Some(NOISY),
            1 => Some(QUIET),
            _ => None,
        }
    }

    /// The call of its only slot.
    fn call(self) -> Call
        ensures { result.tenant < 2 }
    {
        Call {
            tenant: self.number(),
            slot: 0,
        }
    }
}

/// Whose rows were run, in order.
type Order = [Option<Side>; 4];

/// Doors in memory to both tenants. A turn ends a row, and the last one makes the bell tell to stop.
#[derive(Drop)]
struct Pair<'t, R> {
    rt: &'t R,
    bell: &'t Bell,
    /// How many rows of each wait.
    waiting: [u8; 2],
    at: Option<Side>,
    has_row: bool,
    order: Order,
    ended: usize,
}

impl<'t, R: Wait> Pair<'t, R> {
    fn new(rt: &'t R, bell: &'t Bell) -> Self {
        Pair {
            rt,
            bell,
            waiting: [3, 1],
            at: None,
            has_row: false,
            order: [None; 4],
            ended: 0,
        }
    }

    /// Starts a row of a tenant at its slot, if one waits.
    fn start(&mut self, side: Side) -> bool {
        let waiting = &mut self.waiting[side.number()];
        if *waiting == 0 {
            return false;
        }
        *waiting -= 1;
        self.at = Some(side);
        self.has_row = true;
        true
    }

    /// Ends the row at the slot of a tenant.
    fn end(&mut self, side: Side) {
        self.has_row = false;
        if let Some(place) = self.order.get_mut(self.ended) {
            *place = Some(side);
        }
        self.ended = self.ended.saturating_add(1);
        if self.waiting == [0; 2] {
            self.bell.stop(self.rt);
        }
    }
}

impl<R: Wait> SlotAccess for Pair<'_, R> {
    ghost use Rattle.std.specs.Prelude.{option_map, if◌then◌else◌};

    ghost tenants = { λ _. 2 };

    ghost at_tenant = { λ s. option_map (λ side. if side.is_quiet then 1 else 0) s.at };

    ghost views = { λ _ _. Unit {0} };

    ghost commits = { λ _ _ _ _ _. Unit {0} };

    ghost advances = { λ _ _ _ _. Unit {0} };

    ghost heights = { λ _ _. Unit {0} };

    ghost pauses = { λ _ _ _. Unit {0} };

    ghost homes = { λ _ _. Unit {0} };

    ghost hands = { λ _ _ _. Unit {0} };

    fn tenant(&self) -> Option<usize> {
        match self.at {
            Some(side) => Some(side.number()),
            None => None,
        }
    }

    fn view(&self) -> View {
        View::Unshared
    }

    fn commit(&mut self, _segment: Segment) -> (Moved, Option<Call>) {
        (Moved::Stale, None)
    }

    fn advance(&mut self) -> (Moved, Option<Call>) {
        let Some(side) = self.at else {
            return (Moved::Idle, None);
        };
        if self.has_row {
            self.end(side);
            return (Moved::Ran, None);
        }
        if self.start(side) {
            return (Moved::Nested(1), None);
        }
        self.at = None;
        (Moved::Left, None)
    }

    fn height(&self) -> usize {
        usize::from(self.has_row)
    }

    fn pause(&mut self) -> bool {
        true
    }

    fn give_home(&mut self) {
        self.at = None;
    }

    fn hand_over(&mut self) -> Option<Call> {
        let side = self.at.take()?;
        if self.waiting[side.number()] == 0 {
            return None;
        }
        Some(side.call())
    }
}

impl<R: Wait> WorkerAccess for Pair<'_, R> {
    ghost arrives = { λ _ _ _ _ _. Unit {0} };

    fn arrive(&mut self, call: Call) -> (Came, Option<Call>) {
        match Side::of(call.tenant) {
            Some(side) if self.start(side) => (Came::At(1), None),
            _ => (Came::Nothing, None),
        }
    }
}

/// A noisy tenant at the normal level, and a quiet one.
fn two_tenants(alloc: Global, quiet: Level) -> Result<MarketConfig, AllocError>
    ensures { IfOk result (λ c. length c ≡ 2) }
{
    let noisy = MarketTenant {
        level: Level::Normal,
        slots: 1,
        reserved: 0,
    };
    let quiet = MarketTenant {
        level: quiet,
        slots: 1,
        reserved: 0,
    };
    Ok(MarketConfig::new(vec![in alloc; noisy, quiet]?))
}

/// One worker serves both tenants, the noisy one called first.
fn order_of<R: Wait>(
    rt: &R,
    alloc: Global,
    visiting: Visiting,
    quiet: Level,
) -> Result<Order, Fail> {
    let (queues, mut passes) = CallQueues::new(alloc, two_tenants(alloc, quiet)?, 1)?;
    Ok(served(rt, &queues, passes.remove(0), visiting))
}

fn served<R: Wait>(rt: &R, queues: &CallQueues, mut pass: QueuePass, visiting: Visiting) -> Order
    requires pass { pass.queues ≡ queues.now.queues }
    requires tenants { length queues.now.config ≡ 2 }
{
    let _ = push(rt, queues, &mut pass, NOISY.call());
    let _ = push(rt, queues, &mut pass, QUIET.call());
    let bell = Bell::new();
    let pair = Pair::new(rt, &bell);
    let (_pass, pair) = worker(rt, queues, pass, pair, &bell, &NoGate, visiting);
    pair.order
}

const QUIET_SECOND: Order = [Some(NOISY), Some(QUIET), Some(NOISY), Some(NOISY)];

const QUIET_LAST: Order = [Some(NOISY), Some(NOISY), Some(NOISY), Some(QUIET)];

#[test]
fn a_worker_that_shares_leaves_after_one_row(rt: HostRuntime) -> Result<(), Fail> {
    let order = order_of(&rt, rt.alloc(), Visiting::Sharing, Level::Normal)?;
    assert_same(&rt, &order, &QUIET_SECOND);
    Ok(())
}

#[test]
fn a_worker_that_stays_leaves_after_all_rows(rt: HostRuntime) -> Result<(), Fail> {
    let order = order_of(&rt, rt.alloc(), Visiting::Staying, Level::Normal)?;
    assert_same(&rt, &order, &QUIET_LAST);
    Ok(())
}

#[test]
fn a_worker_that_shares_does_not_leave_for_a_lower_level(rt: HostRuntime) -> Result<(), Fail> {
    let order = order_of(&rt, rt.alloc(), Visiting::Sharing, Level::Low)?;
    assert_same(&rt, &order, &QUIET_LAST);
    Ok(())
}
