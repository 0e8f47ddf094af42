// Four threads that push and pop a million calls of all levels, beside each other.
ghost use Rattle.std.specs.Prelude.{◌≡◌, ◌<◌, ℕ, length, slice_index_or, IfOk};
ghost use Rattle.call_queues.specs.Queues.{PassSeen, fresh};

use super::push;
use crate::tests::assert_same;
use call_queues::{CallQueues, QueuePass};
use job_language::Level;
use market_config::{Call, MarketConfig, MarketTenant};
use std::alloc::{AllocError, Global};
use std::marker::Model;
use std::sync::Wait;
use std::test::*;
use std::thread;
use std::thread::Threads;

/// How many calls each thread pushes.
const ROUNDS: u32 = 250_000;

/// How often a pop is made again while it finds nothing. Each thread pops only while a call of its own, or another
/// one in its place, is there.
const TRIES: u32 = 10_000_000;

// A tenant at each level.
fn three_levels(alloc: Global) -> Result<MarketConfig, AllocError>
    ensures { IfOk result (λ c. length c ≡ 3) }
{
    let high = MarketTenant {
        level: Level::High,
        slots: 8,
        reserved: 0,
    };
    let normal = MarketTenant {
        level: Level::Normal,
        ..high
    };
    let low = MarketTenant {
        level: Level::Low,
        ..high
    };
    Ok(MarketConfig::new(vec![in alloc; high, normal, low]?))
}

/// How many calls of each tenant were pushed, and how many popped.
#[derive(Clone, Copy, Debug, PartialEq, Eq)]
struct Counts {
    pushed: [u32; 3],
    popped: [u32; 3],
}

const NONE_YET: Counts = Counts {
    pushed: [0; 3],
    popped: [0; 3],
};

/// One of the threads.
#[derive(Drop)]
struct Visitor<'q> {
    queues: &'q CallQueues,
    pass: QueuePass,
    counts: Counts,
    /// How often a pop found nothing.
    missed: u32,
}

impl<'q> Model for Visitor<'q> {
    ghost use Rattle.std.specs.Prelude.{◌≡◌, length};
    ghost use Rattle.call_queues.specs.Queues.{PassSeen, QueuesSeen};

    ghost Value = { QueuesSeen × PassSeen };

    ghost view = { λ v. (v.queues.now, v.pass) };

    ghost invariant = { λ v. (v.pass.queues ≡ v.queues.now.queues)
        × (length v.queues.now.config ≡ 3) };
}

/// A visitor that has counted nothing yet.
fn visitor_at<'q>(queues: &'q CallQueues, pass: QueuePass) -> Visitor<'q>
    requires queues { pass.queues ≡ queues.now.queues }
    requires tenants { length queues.now.config ≡ 3 }
{
    Visitor {
        queues,
        pass,
        counts: NONE_YET,
        missed: 0,
    }
}

impl Visitor<'_> {
    /// Pushes a call of each tenant in turn, and pops one after each push.
    fn visit<R: Wait>(&mut self, rt: &R) -> Counts {
        for round in 0..ROUNDS {
            self.push_one(rt, (round % 3) as usize);
            self.pop_one(rt);
        }
        self.counts
    }

    fn push_one<R: Wait>(&mut self, rt: &R, tenant: usize)
        requires { tenant < 3 }
    {
        if push(rt, self.queues, &mut self.pass, Call { tenant, slot: 0 }).is_ok() {
            count(&mut self.counts.pushed, tenant);
        }
    }

    fn pop_one<R: Wait>(&mut self, rt: &R) {
        for _try in 0..TRIES {
            if self.pops(rt) {
                return;
            }
            self.missed = self.missed.saturating_add(1);
        }
    }

    /// Whether a pop finds a call.
    fn pops<R: Wait>(&mut self, rt: &R) -> bool {
        let Some(call) = self.queues.pop_call(rt, &mut self.pass) else {
            return false;
        };
        count(&mut self.counts.popped, call.tenant);
        true
    }
}

/// Counts one more, if it is one of those that are counted.
fn count(counts: &mut [u32; 3], tenant: usize) {
    if let Some(count) = counts.get_mut(tenant) {
        *count = count.saturating_add(1);
    }
}

/// The sums of what four threads have counted.
fn sum(counts: [Counts; 4]) -> Counts {
    let mut all = NONE_YET;
    for one in counts {
        for tenant in 0..3 {
            all.pushed[tenant] = all.pushed[tenant].saturating_add(one.pushed[tenant]);
            all.popped[tenant] = all.popped[tenant].saturating_add(one.popped[tenant]);
        }
    }
    all
}

/// Lets four threads visit.
fn visit_all<R: Threads + Wait + Sync>(
    rt: &R,
    queues: &CallQueues,
    mut passes: Vec<QueuePass>,
) -> Counts
    requires long { length passes.items ≡ 4 }
    requires fresh { (k : ℕ) (d : PassSeen) → k < 4
        → slice_index_or passes.items k d ≡ fresh queues.now.queues k }
    requires tenants { length queues.now.config ≡ 3 }
{
    let mut a = visitor_at(queues, passes.remove(3));
    let mut b = visitor_at(queues, passes.remove(2));
    let mut c = visitor_at(queues, passes.remove(1));
    let mut d = visitor_at(queues, passes.remove(0));
    let ((one, two), (three, four)) = thread::join(
        rt,
        move || thread::join(rt, move || a.visit(rt), move || b.visit(rt)),
        move || thread::join(rt, move || c.visit(rt), move || d.visit(rt)),
    );
    sum([one, two, three, four])
}

fn crowd<R: Threads + Wait + Sync>(rt: &R, alloc: Global) -> Result<Counts, AllocError> {
    let (queues, passes) = CallQueues::new(alloc, three_levels(alloc)?, 4)?;
    Ok(visit_all(rt, &queues, passes))
}

#[test]
fn a_crowd_pops_what_it_pushes(rt: HostRuntime) -> Result<(), Fail> {
    let seen = crowd(&rt, rt.alloc())?;
    // Each thread begins with the high level, and 250,000 is one more than a multiple of three.
    let each = [333_336, 333_332, 333_332];
    let wanted = Counts {
        pushed: each,
        popped: each,
    };
    assert_same(&rt, &seen, &wanted);
    Ok(())
}

/// One thread visits alone: what it counted, and how often a pop found nothing.
fn alone<R: Wait>(rt: &R, alloc: Global) -> Result<(Counts, u32), AllocError> {
    let (queues, mut passes) = CallQueues::new(alloc, three_levels(alloc)?, 1)?;
    Ok(visit_alone(rt, &queues, passes.remove(0)))
}

fn visit_alone<R: Wait>(rt: &R, queues: &CallQueues, pass: QueuePass) -> (Counts, u32)
    requires queues { pass.queues ≡ queues.now.queues }
    requires tenants { length queues.now.config ≡ 3 }
{
    let mut visitor = visitor_at(queues, pass);
    let counts = visitor.visit(rt);
    (counts, visitor.missed)
}

#[test]
fn a_thread_alone_pops_each_call_at_once(rt: HostRuntime) -> Result<(), Fail> {
    let seen = alone(&rt, rt.alloc())?;
    let each = [83_334, 83_333, 83_333];
    let counts = Counts {
        pushed: each,
        popped: each,
    };
    assert_same(&rt, &seen, &(counts, 0));
    Ok(())
}
