// A world that takes many steps by one call.
use crate::tests::assert_same;
use arena_core::Arena;
use job_language::Config;
use std::alloc::Global;
use std::test::Fail;
use worked_jobs::tenant;
use world_core::{Raw, World};
use world_model::Outcome;

/// How many steps one call takes.
const STEPS: usize = 10_000;

/// A world of one tenant and one worker.
fn one_tenant(alloc: Global) -> Result<World<Arena>, Fail> {
    let tenant = tenant("acme", 1, 0, 100).ok_or("each number is in its range")?;
    let config = Config::new(vec![in alloc; tenant]?, 1).ok_or("one tenant")?;
    Ok(World::new(alloc, config)?)
}

/// The worker asks for a call at each step.
fn pops(alloc: Global) -> Result<Vec<Raw>, Fail> {
    let mut raws = Vec::with_capacity(alloc, STEPS)?;
    for _step in 0..STEPS {
        raws.push(Raw::Pop(0))?;
    }
    Ok(raws)
}

/// How many steps find no call.
fn without_call(alloc: Global, world: &mut World<Arena>) -> Result<usize, Fail> {
    let outcomes = world.run(alloc, pops(alloc)?.as_slice())?;
    let none = outcomes.iter().filter(|o| **o == Outcome::NoCall);
    Ok(none.count())
}

#[test]
fn ten_thousand_steps_are_taken(rt: HostRuntime) -> Result<(), Fail> {
    let mut world = one_tenant(rt.alloc())?;
    let count = without_call(rt.alloc(), &mut world)?;
    assert_same(&rt, &count, &STEPS);
    Ok(())
}
