// The calls of an arena, each made again if an allocation failed.
use crate::jobs::{MOVES, fibonacci, status_of, tenant};
use crate::retries::again;
use arena_core::Arena;
use job_language::{Came, Moved, Reply, Request, Status};
use job_step::{Segment, View, segment_of};
use std::alloc::Global;

/// The outcome of the job, if it is submitted to a new arena and a worker moves it.
pub(crate) fn submitted(alloc: Global) -> Option<Status> {
    let mut arena = again(|| new_arena(alloc))?;
    submit(alloc, &mut arena)
}

fn submit(alloc: Global, arena: &mut Arena) -> Option<Status> {
    let Reply::Made(job) = arena.ask(Request::Submit(fibonacci(alloc)?)) else {
        return None;
    };
    work(arena)?;
    status_of(&arena.ask(Request::Collect(job)))
}

/// The outcome of the job, if a new arena executes it by private runs that are committed.
pub(crate) fn executed(alloc: Global) -> Option<Status> {
    let mut arena = again(|| new_arena(alloc))?;
    execute(alloc, &mut arena)
}

fn execute(alloc: Global, arena: &mut Arena) -> Option<Status> {
    let Reply::Placed(job, slot) = arena.ask(Request::Execute(fibonacci(alloc)?)) else {
        return None;
    };
    commit_all(arena, slot)?;
    work(arena)?;
    status_of(&arena.ask(Request::Collect(job)))
}

fn new_arena(alloc: Global) -> Option<Arena> {
    Arena::new(alloc, tenant(alloc)?).ok()
}

/// A worker arrives at the second slot, and advances it until no row is there for it.
fn work(arena: &mut Arena) -> Option<()> {
    let Came::At(_) = arena.arrive(1) else {
        return None;
    };
    for _ in 0..MOVES {
        if let Moved::Left = arena.advance(1) {
            return Some(());
        }
    }
    None
}

/// Commits the private run of a slot's topmost frame until the slot is free.
fn commit_all(arena: &mut Arena, slot: u8) -> Option<()> {
    for _ in 0..MOVES {
        let segment = again(|| segment(arena, slot))?;
        if let Moved::Freed = arena.commit(slot, &segment) {
            return Some(());
        }
    }
    None
}

/// The private run of a slot's topmost frame.
fn segment(arena: &Arena, slot: u8) -> Option<Segment> {
    match arena.view(slot) {
        View::Top(top) => Some(segment_of(top)),
        View::Bare | View::Unshared => None,
    }
}
