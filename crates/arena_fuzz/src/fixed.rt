// The fixed script: all jobs of the input, on a tenant with the largest limits.
use crate::pairs::Pair;
use crate::rounds::{Round, STREAM};
use crate::stops::Stop;
use crate::tallies::Tally;
use job_language::{
    Isolation, Job, Level, MAX_ROWS, MAX_STEPS, Request, Tenant, TenantConfig, TenantName,
};
use rand_pcg::Pcg32;
use std::alloc::Global;

/// How many steps the fixed script takes.
pub(crate) const FIXED_STEPS: u64 = 20_000;

/// How many steps make a turn, after which all jobs are retired.
const TURN: u64 = 1_000;

/// The seed of its draws.
const SEED: u64 = 42;

/// Four slots, one of them reserved, with room for as many rows and entries as a tenant may have.
fn four_slots() -> Option<TenantConfig> {
    let tenant = Tenant {
        name: TenantName::new("acme")?,
        priority: Level::Normal,
        isolation: Isolation::Exact,
        slots: 4,
        reserved: 1,
        rows: MAX_ROWS,
        steps: MAX_STEPS,
    };
    TenantConfig::new(tenant)
}

/// Takes the fixed script.
pub(crate) fn run_fixed(alloc: Global, jobs: &[Job], tally: &mut Tally) -> Result<(), Stop> {
    let Some(config) = four_slots() else {
        return Err(Stop::NoTenant);
    };
    let draws = Pcg32::new(SEED, STREAM);
    let mut round = Round::new(alloc, SEED, draws, jobs, Pair::new(alloc, config)?);
    take_all(&mut round, tally)
}

/// Takes `FIXED_STEPS` steps.
fn take_all(round: &mut Round<'_>, tally: &mut Tally) -> Result<(), Stop> {
    let before = tally.steps();
    for _ in 0..u64::MAX {
        let taken = tally.steps().wrapping_sub(before);
        if taken >= FIXED_STEPS {
            break;
        }
        take_one(round, taken % TURN, tally)?;
    }
    Ok(())
}

/// Takes a step, by its place in a turn.
fn take_one(round: &mut Round<'_>, place: u64, tally: &mut Tally) -> Result<(), Stop> {
    match place {
        0..=299 => round.take_any(tally),
        300..=979 => round.move_any(tally),
        980..=998 => round.collect_one(place - 980, tally),
        _ => round.ask(Request::Retire, tally),
    }
}
