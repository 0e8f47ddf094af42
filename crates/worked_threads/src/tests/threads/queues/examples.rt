// Worked examples.
ghost use Rattle.std.specs.Prelude.{◌≡◌, ◌<◌, ℕ, length, slice_index_or, IfOk};
ghost use Rattle.call_queues.specs.Queues.{PassSeen, fresh};

use super::push;
use crate::tests::assert_same;
use call_queues::{CallQueues, QueuePass};
use job_language::Level;
use market_config::{Call, MarketConfig, MarketTenant};
use std::alloc::{AllocError, Global};
use std::sync::Wait;
use std::test::*;

const ACME: Call = Call { tenant: 0, slot: 1 };

const BETA: Call = Call { tenant: 1, slot: 0 };

// Acme has a reserved slot and one for workers, beta one for workers and a higher priority.
fn acme_and_beta(alloc: Global) -> Result<MarketConfig, AllocError>
    ensures { IfOk result (λ c. length c ≡ 2) }
{
    let acme = MarketTenant {
        level: Level::Normal,
        slots: 2,
        reserved: 1,
    };
    let beta = MarketTenant {
        level: Level::High,
        slots: 1,
        reserved: 0,
    };
    Ok(MarketConfig::new(vec![in alloc; acme, beta]?))
}

/// A call that comes back was not pushed.
type Pushed = Result<(), Call>;

/// Pushes a call of acme and one of beta, and pops three times. The number of the pass, and the answers.
fn push_and_pop<R: Wait>(
    rt: &R,
    queues: &CallQueues,
    pass: &mut QueuePass,
) -> (usize, [Pushed; 2], [Option<Call>; 3])
    requires pass { pass.old.queues ≡ queues.now.queues }
    requires tenants { length queues.now.config ≡ 2 }
{
    let number = pass.number();
    let pushed = [push(rt, queues, pass, ACME), push(rt, queues, pass, BETA)];
    let popped = [
        queues.pop_call(rt, pass),
        queues.pop_call(rt, pass),
        queues.pop_call(rt, pass),
    ];
    (number, pushed, popped)
}

#[test]
fn the_higher_level_comes_first(rt: HostRuntime) -> Result<(), Fail> {
    let (queues, mut passes) = CallQueues::new(rt.alloc(), acme_and_beta(rt.alloc())?, 1)?;
    let seen = push_and_pop(&rt, &queues, &mut passes[0]);
    let popped = [Some(BETA), Some(ACME), None];
    assert_same(&rt, &seen, &(0, [Ok(()), Ok(())], popped));
    Ok(())
}

/// Pushes two calls of acme, whose level has room for one.
fn push_twice<R: Wait>(rt: &R, queues: &CallQueues, pass: &mut QueuePass) -> [Pushed; 2]
    requires pass { pass.old.queues ≡ queues.now.queues }
    requires tenants { length queues.now.config ≡ 2 }
    ensures { (pass.new.number ≡ pass.old.number) × (pass.new.queues ≡ pass.old.queues) }
{
    [push(rt, queues, pass, ACME), push(rt, queues, pass, ACME)]
}

#[test]
fn a_full_level_gives_the_call_back(rt: HostRuntime) -> Result<(), Fail> {
    let (queues, mut passes) = CallQueues::new(rt.alloc(), acme_and_beta(rt.alloc())?, 1)?;
    let pushed = push_twice(&rt, &queues, &mut passes[0]);
    let left = queues.drain(&rt, passes);
    let seen = (pushed, left.as_slice());
    assert_same(&rt, &seen, &([Ok(()), Err(ACME)], [ACME].as_slice()));
    Ok(())
}

const FIRST: Call = Call { tenant: 0, slot: 2 };

const SECOND: Call = Call { tenant: 0, slot: 1 };

/// Pushes the first call by the second pass and the second call by the first pass, and pops twice by the
/// first pass.
fn push_by_both<R: Wait>(
    rt: &R,
    queues: &CallQueues,
    passes: &mut [QueuePass],
) -> ([Pushed; 2], [Option<Call>; 2])
    requires long { length passes.old ≡ 2 }
    requires fresh { (k : ℕ) (d : PassSeen) → k < 2
        → slice_index_or passes.old k d ≡ fresh queues.now.queues k }
    requires tenant { length queues.now.config ≡ 1 }
{
    let pushed = [
        push(rt, queues, &mut passes[1], FIRST),
        push(rt, queues, &mut passes[0], SECOND),
    ];
    let popped = [
        queues.pop_call(rt, &mut passes[0]),
        queues.pop_call(rt, &mut passes[0]),
    ];
    (pushed, popped)
}

#[test]
fn two_passes_keep_one_order(rt: HostRuntime) -> Result<(), Fail> {
    let acme = MarketTenant {
        level: Level::Normal,
        slots: 3,
        reserved: 1,
    };
    let config = MarketConfig::new(vec![in rt.alloc(); acme]?);
    let (queues, mut passes) = CallQueues::new(rt.alloc(), config, 2)?;
    let seen = push_by_both(&rt, &queues, passes.as_mut_slice());
    let popped = [Some(FIRST), Some(SECOND)];
    assert_same(&rt, &seen, &([Ok(()), Ok(())], popped));
    Ok(())
}
