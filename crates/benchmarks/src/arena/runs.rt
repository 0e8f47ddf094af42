// Jobs that run on one slot of an arena.
use crate::arena::jobs::posts;
use crate::stops::Stop;
use crate::tenants::{Size, job_of, tenant, value_of};
use arena_core::Arena;
use job_language::{Job, MAX_ROWS, MAX_STEPS, Moved, Reply, Request, TenantConfig};
use std::alloc::Global;
use std::fmt;

/// What ran.
#[derive(Clone, Copy, Default)]
pub(crate) struct Ran {
    pub(crate) jobs: u64,
    /// The rows that were started.
    pub(crate) tasks: u64,
    /// The advances.
    pub(crate) steps: u64,
    /// The value of the last job.
    pub(crate) value: i64,
}

impl Ran {
    /// A job whose root has just been started.
    pub(crate) fn of_root() -> Ran {
        Ran {
            jobs: 1,
            tasks: 1,
            ..Ran::default()
        }
    }

    /// Counts an advance of the job's slot, and says whether the slot is free after it. The run stops if the
    /// slot could not go on.
    pub(crate) fn count(&mut self, moved: Moved) -> Result<bool, Stop> {
        self.steps = self.steps.wrapping_add(1);
        match moved {
            Moved::Ran => Ok(false),
            Moved::Nested(_) => {
                self.tasks = self.tasks.wrapping_add(1);
                Ok(false)
            }
            Moved::Freed => Ok(true),
            _ => Err(Stop::Outcome),
        }
    }

    /// This and one more.
    pub(crate) fn and(self, more: Ran) -> Ran {
        Ran {
            jobs: self.jobs.wrapping_add(more.jobs),
            tasks: self.tasks.wrapping_add(more.tasks),
            steps: self.steps.wrapping_add(more.steps),
            value: more.value,
        }
    }
}

impl fmt::Display for Ran {
    fn fmt<W: fmt::Write>(&self, f: &mut fmt::Formatter<W>) -> fmt::Result {
        write!(
            f,
            "{} jobs, {} tasks, {} steps, value {}",
            self.jobs, self.tasks, self.steps, self.value
        )
    }
}

/// A tenant of that many rows with a reserved slot, and one for workers to which none comes.
pub(crate) fn two_slots(name: &str, rows: usize) -> Result<TenantConfig, Stop> {
    let size = Size {
        slots: 2,
        reserved: 1,
        rows,
        steps: MAX_STEPS,
    };
    tenant(name, size)
}

/// Runs a job `jobs` times, each on an arena of its own on which `waiting` rows wait.
pub(crate) fn run_jobs(
    alloc: Global,
    text: &str,
    jobs: usize,
    waiting: usize,
) -> Result<Ran, Stop> {
    let before = posts(alloc, waiting)?;
    let before = job_of(alloc, before.as_str())?;
    let job = job_of(alloc, text)?;
    let mut sum = Ran::default();
    for _ in 0..jobs {
        sum = sum.and(run_alone(alloc, &job, &before)?);
    }
    Ok(sum)
}

/// Runs a job on a new arena, after another one that makes the rows that wait.
fn run_alone(alloc: Global, job: &Job, before: &Job) -> Result<Ran, Stop> {
    let config = two_slots("acme", MAX_ROWS)?;
    let (before, job) = (before.try_clone()?, job.try_clone()?);
    let mut arena = Arena::new(alloc, config)?;
    run_both(&mut arena, before, job)
}

/// Runs a job after another, and collects its value.
fn run_both(arena: &mut Arena, before: Job, job: Job) -> Result<Ran, Stop> {
    let _before = run(arena, before)?;
    let (number, ran) = run(arena, job)?;
    let value = value_of(arena.ask(Request::Collect(number)))?;
    Ok(Ran { value, ..ran })
}

/// Runs a job on the reserved slot until the slot is free, and gives its number. Other rows of the job may
/// still wait then.
fn run(arena: &mut Arena, job: Job) -> Result<(u64, Ran), Stop> {
    let Reply::Placed(number, slot) = arena.ask(Request::Execute(job)) else {
        return Err(Stop::Outcome);
    };
    let mut ran = Ran::of_root();
    for _ in 0..MAX_STEPS {
        if ran.count(arena.advance(slot))? {
            return Ok((number, ran));
        }
    }
    Err(Stop::Outcome)
}
