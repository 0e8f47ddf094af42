// A pass goes to a thread of its own, and comes back with what is known of it.
ghost use Rattle.std.specs.Prelude.{◌≡◌, ◌<◌, length, IfOk};
ghost use Rattle.std.specs.Arc.{arc_value};

use super::push;
use crate::tests::assert_same;
use call_queues::{CallQueues, QueuePass};
use job_language::Level;
use market_config::{Call, MarketConfig, MarketTenant};
use std::alloc::{AllocError, Global};
use std::snapshot::Snapshot;
use std::sync::{Arc, Wait};
use std::test::*;
use std::thread;
use std::thread::{Promise, Threads};

const FIRST: Call = Call { tenant: 0, slot: 1 };

// The pass that comes back is of the same queues, with the same number.
#[derive(Drop)]
struct SamePass(Snapshot<QueuePass>);

impl Promise<QueuePass> for SamePass {
    ghost kept_by = { λ p r. (r.queues ≡ p.0.value.queues) × (r.number ≡ p.0.value.number) };
}

fn push_there<R: Wait>(rt: &R, queues: &CallQueues, mut pass: QueuePass) -> QueuePass
    requires pass { pass.queues ≡ queues.now.queues }
    requires tenant { 0 < length queues.now.config }
    ensures { (result.queues ≡ pass.queues) × (result.number ≡ pass.number) }
{
    let _ = push(rt, queues, &mut pass, FIRST);
    pass
}

fn in_own_thread<R>(
    rt: R,
    queues: &Arc<CallQueues>,
    pass: QueuePass,
) -> Result<QueuePass, AllocError>
where
    R: Threads + Wait + Copy + Send + 'static,
    requires pass { pass.queues ≡ (arc_value queues.now).queues }
    requires tenant { 0 < length (arc_value queues.now).config }
    ensures { IfOk result (λ p. (p.queues ≡ pass.queues) × (p.number ≡ pass.number)) }
{
    let theirs = Arc::try_clone(queues)?;
    let promise = SamePass(Snapshot::of(&pass));
    let child = thread::spawn_with(
        &rt,
        promise,
        move ||
            requires { (pass.queues ≡ (arc_value theirs).queues) × (0 < length (arc_value theirs).config) }
            ensures { (result.queues ≡ pass.queues) × (result.number ≡ pass.number) }
        { push_there(&rt, &theirs, pass) },
    )?;
    Ok(child.join(&rt))
}

// The number of the pass that comes back, and the call that it pops.
fn number_and_call<R>(
    rt: R,
    queues: &Arc<CallQueues>,
    pass: QueuePass,
) -> Result<(usize, Option<Call>), AllocError>
where
    R: Threads + Wait + Copy + Send + 'static,
    requires pass { pass.queues ≡ (arc_value queues.now).queues }
    requires tenant { 0 < length (arc_value queues.now).config }
{
    let mut pass = in_own_thread(rt, queues, pass)?;
    Ok((pass.number(), queues.pop_call(&rt, &mut pass)))
}

fn one_tenant(alloc: Global) -> Result<MarketConfig, AllocError>
    ensures { IfOk result (λ c. length c ≡ 1) }
{
    let tenant = MarketTenant {
        level: Level::Normal,
        slots: 2,
        reserved: 1,
    };
    Ok(MarketConfig::new(vec![in alloc; tenant]?))
}

#[test]
fn a_pass_comes_back_from_its_thread(rt: HostRuntime) -> Result<(), Fail> {
    let (queues, mut passes) = CallQueues::new(rt.alloc(), one_tenant(rt.alloc())?, 2)?;
    let queues = Arc::new(rt.alloc(), queues)?;
    let seen = number_and_call(rt, &queues, passes.remove(1))?;
    assert_same(&rt, &seen, &(1, Some(FIRST)));
    Ok(())
}
