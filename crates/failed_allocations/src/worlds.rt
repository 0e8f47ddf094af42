// The calls of a world, each made again if an allocation failed.
use crate::jobs::{FIBONACCI, MOVES, status_of, tenant};
use crate::retries::again;
use arena_core::Arena;
use job_language::{Answer, Config, Error, Reply, Status};
use std::alloc::{AllocError, Global};
use world_core::{Raw, World};
use world_model::Outcome;

const COLLECT: &str = r#"{"job":1,"op":"collect"}"#;

/// The outcome of the job, if a line submits it and a worker moves it, by calls of `run`.
pub(crate) fn run_whole(alloc: Global) -> Option<Status> {
    let mut world = again(|| new_world(alloc))?;
    run_job(alloc, &mut world)
}

fn run_job(alloc: Global, world: &mut World<Arena>) -> Option<Status> {
    let line = again(|| job_line(alloc).ok())?;
    let Reply::Made(1) = run_line(alloc, world, line)? else {
        return None;
    };
    let moves = again(|| worker_moves(alloc).ok())?;
    run(alloc, world, moves.as_slice())?;
    let collect = again(|| plain_line(alloc, COLLECT).ok())?;
    status_of(&run_line(alloc, world, collect)?)
}

/// A world of the tenant and one worker.
fn new_world(alloc: Global) -> Option<World<Arena>> {
    let config = again(|| config(alloc))?;
    World::new(alloc, config).ok()
}

fn config(alloc: Global) -> Option<Config> {
    let mut tenants = Vec::new(alloc);
    tenants.push(tenant(alloc)?).ok()?;
    Config::new(tenants, 1)
}

/// The line that brings the job.
fn job_line(alloc: Global) -> Result<Raw, AllocError> {
    let text = format!(in alloc; "{{\"job\":{FIBONACCI},\"op\":\"submit\"}}")?;
    plain_line(alloc, text.as_str())
}

fn plain_line(alloc: Global, text: &str) -> Result<Raw, AllocError> {
    Ok(Raw::Line(0, text.as_bytes().to_vec(alloc)?))
}

/// A worker is called to the second slot, and advances it.
fn worker_moves(alloc: Global) -> Result<Vec<Raw>, AllocError> {
    let mut moves = vec![in alloc; Raw::Push(0, 1), Raw::Pop(0), Raw::Arrive(0)]?;
    for _ in 0..MOVES {
        moves.push(Raw::Advance(0))?;
    }
    Ok(moves)
}

/// The outcomes of steps, which are run again if the memory for their outcomes was refused.
fn run(alloc: Global, world: &mut World<Arena>, raws: &[Raw]) -> Option<Vec<Outcome>> {
    match world.run(alloc, raws) {
        Ok(outcomes) => Some(outcomes),
        Err(_) => world.run(alloc, raws).ok(),
    }
}

/// The reply to a line that is run, again if it was refused for lack of memory.
fn run_line(alloc: Global, world: &mut World<Arena>, line: Raw) -> Option<Reply> {
    let lines = [line];
    let outcomes = run(alloc, world, &lines)?;
    match reply_in(outcomes.first()?)? {
        Reply::Refused(Error::NoMemory) => reply_in(run(alloc, world, &lines)?.first()?),
        reply => Some(reply),
    }
}

fn reply_in(outcome: &Outcome) -> Option<Reply> {
    match outcome {
        Outcome::Own(Answer::Replied(reply)) => Some(*reply),
        _ => None,
    }
}
