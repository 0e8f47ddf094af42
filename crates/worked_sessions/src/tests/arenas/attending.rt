// A job that is executed, and attended until its slot is free.
ghost use Rattle.std.specs.Prelude.{◌≤◌};

use crate::tests::assert_same;
use arena_core::Arena;
use job_language::{Came, Error, JobFault, Moved, Reply, Request, Status};
use job_step::{View, segment_of};
use nested_wait::Attended;
use session_law::attend_slot;
use std::alloc::Global;
use std::test::Fail;
use worked_jobs::{FIB_OF_SIX, job_of, tenant};

/// Waits inside a region for a task.
const ISOLATED: &str =
    r#"{"args":[0,0],"fuel":1000,"procs":[[["set",2,5],["store",0,2],["isolate",3,1,0,1],["load",5,0],["ret",5]],[["spawn",0,2,0,1],["wait",2,3,0],["ret",2]],[["ret",0]]]}"#;

/// As many procedures as a program may have.
const LONG: &str =
    r#"{"args":[7,0],"fuel":10,"procs":[[["ret",0]],[["ret",0]],[["ret",0]],[["ret",0]],[["ret",0]],[["ret",0]],[["ret",0]],[["ret",0]],[["ret",0]],[["ret",0]],[["ret",0]],[["ret",0]],[["ret",0]],[["ret",0]],[["ret",0]],[["ret",0]]]}"#;

/// As many tasks as its first argument, each below the one before.
const CHAIN: &str =
    r#"{"args":[128,7],"fuel":1000,"procs":[[["jz",0,6],["set",2,1],["sub",3,0,2],["spawn",0,0,3,1],["wait",4,5,0],["ret",4],["ret",1]]]}"#;

/// Executes a job, which is placed on the first slot.
fn execute(alloc: Global, text: &str, arena: &mut Arena) -> Result<(), Fail> {
    let job = job_of(alloc, text)?;
    if arena.ask(Request::Execute(job)) == Reply::Placed(1, 0) {
        Ok(())
    } else {
        Err("the job is placed")?
    }
}

/// An arena with one reserved slot, on which the job is placed, and room for that many entries.
fn executed(alloc: Global, text: &str, slots: u8, steps: usize) -> Result<Arena, Fail> {
    let config = tenant("acme", slots, 1, steps).ok_or("each number is in its range")?;
    let mut arena = Arena::new(alloc, config)?;
    execute(alloc, text, &mut arena)?;
    Ok(arena)
}

/// How attending the slot of a job ends, how high the slot is then, and what is reported of the job.
fn attended(arena: &mut Arena) -> (Attended, usize, Reply) {
    let end = attend_slot(arena, 0, 1);
    (end, arena.height(0), arena.ask(Request::Collect(1)))
}

/// The same of the Fibonacci number on an arena with room for that many entries.
fn attended_within(alloc: Global, steps: usize) -> Result<(Attended, usize, Reply), Fail> {
    let mut arena = executed(alloc, FIB_OF_SIX, 1, steps)?;
    Ok(attended(&mut arena))
}

#[test]
fn fibonacci_is_below_after_85_advances(rt: HostRuntime) -> Result<(), Fail> {
    let ends = [
        attended_within(rt.alloc(), 87)?,
        attended_within(rt.alloc(), 86)?,
        attended_within(rt.alloc(), 85)?,
    ];
    let complete = Reply::Job(1, Status::Complete(8));
    let full = Reply::Refused(Error::HistoryFull);
    assert_same(
        &rt,
        &ends,
        &[
            (Attended::Below, 0, complete),
            (Attended::Below, 0, full),
            (Attended::Full, 1, full),
        ],
    );
    Ok(())
}

/// Starts the task that a waiter on the first slot waits for, on the second.
fn start_beside(arena: &mut Arena) -> bool {
    for _ in 0..3 {
        if arena.advance(0) != Moved::Ran {
            return false;
        }
    }
    arena.arrive(1) == Came::At(3)
}

/// How attending a slot ends, and how high the slot is then.
fn attended_slot(arena: &mut Arena, slot: u8, floor: usize) -> (Attended, usize)
    requires { 1 ≤ floor }
{
    (attend_slot(arena, slot, floor), arena.height(slot))
}

/// How the waiter is attended before and after its task is, with the task between, and then to its end.
fn attended_beside(arena: &mut Arena) -> ([(Attended, usize); 3], (Attended, usize, Reply)) {
    let ends = [
        attended_slot(arena, 0, 1),
        attended_slot(arena, 1, 1),
        attended_slot(arena, 0, 2),
    ];
    (ends, attended(arena))
}

#[test]
fn a_waiter_whose_task_is_elsewhere_is_stopped(rt: HostRuntime) -> Result<(), Fail> {
    let mut arena = executed(rt.alloc(), ISOLATED, 2, 100)?;
    let is_started = start_beside(&mut arena);
    assert_same(
        &rt,
        &(is_started, attended_beside(&mut arena)),
        &(
            true,
            (
                [
                    (Attended::Stopped, 2),
                    (Attended::Below, 0),
                    (Attended::Below, 1),
                ],
                (Attended::Below, 0, Reply::Job(1, Status::Complete(5))),
            ),
        ),
    );
    Ok(())
}

/// The answers to two commits of the topmost frame of the first slot.
fn committed_twice(arena: &mut Arena) -> Option<(Moved, Moved)> {
    let View::Top(top) = arena.view(0) else {
        return None;
    };
    let segment = segment_of(top);
    Some((arena.commit(0, &segment), arena.commit(0, &segment)))
}

#[test]
fn a_frame_that_is_seen_is_committed_once(rt: HostRuntime) -> Result<(), Fail> {
    let mut arena = executed(rt.alloc(), FIB_OF_SIX, 1, 100)?;
    assert_same(
        &rt,
        &committed_twice(&mut arena),
        &Some((Moved::Ran, Moved::Stale)),
    );
    Ok(())
}

/// The answer to a commit of the topmost frame of the first slot, with so much more in its first register.
fn committed_with(arena: &mut Arena, more: i64) -> Option<Moved> {
    let View::Top(top) = arena.view(0) else {
        return None;
    };
    let mut top = top;
    top.frame.registers[0] = top.frame.registers[0].wrapping_add(more);
    Some(arena.commit(0, &segment_of(top)))
}

#[test]
fn a_commit_of_another_frame_is_stale_before_it_is_full(rt: HostRuntime) -> Result<(), Fail> {
    let mut full = executed(rt.alloc(), FIB_OF_SIX, 1, 1)?;
    let answers = [committed_with(&mut full, 1), committed_with(&mut full, 0)];
    assert_same(&rt, &answers, &[Some(Moved::Stale), Some(Moved::Full)]);
    Ok(())
}

#[test]
fn a_frame_of_the_longest_program_is_seen(rt: HostRuntime) -> Result<(), Fail> {
    let arena = executed(rt.alloc(), LONG, 1, 100)?;
    let is_seen = matches!(arena.view(0), View::Top(_));
    assert_same(&rt, &is_seen, &true);
    Ok(())
}

/// An arena with one slot for workers, where one has arrived at the job, and room for that many entries.
fn arrived(alloc: Global, text: &str, steps: usize) -> Result<Arena, Fail> {
    let config = tenant("acme", 1, 0, steps).ok_or("each number is in its range")?;
    let mut arena = Arena::new(alloc, config)?;
    submit_and_arrive(alloc, text, &mut arena)?;
    Ok(arena)
}

fn submit_and_arrive(alloc: Global, text: &str, arena: &mut Arena) -> Result<(), Fail> {
    let job = job_of(alloc, text)?;
    if arena.ask(Request::Submit(job)) == Reply::Made(1) && arena.arrive(0) == Came::At(1) {
        Ok(())
    } else {
        Err("a worker arrives at the job")?
    }
}

#[test]
fn nothing_is_committed_to_a_full_history(rt: HostRuntime) -> Result<(), Fail> {
    let mut full = arrived(rt.alloc(), FIB_OF_SIX, 2)?;
    let answers = [committed_with(&mut full, 1), committed_with(&mut full, 0)];
    assert_same(&rt, &answers, &[Some(Moved::Stale), Some(Moved::Full)]);
    Ok(())
}

/// The answers to an advance of the first slot, and to a commit of the frame that was seen before it.
fn committed_late(arena: &mut Arena) -> Option<(Moved, Moved)> {
    let View::Top(top) = arena.view(0) else {
        return None;
    };
    let segment = segment_of(top);
    Some((arena.advance(0), arena.commit(0, &segment)))
}

#[test]
fn a_frame_that_has_moved_is_not_committed(rt: HostRuntime) -> Result<(), Fail> {
    let mut arena = arrived(rt.alloc(), FIB_OF_SIX, 100)?;
    assert_same(
        &rt,
        &committed_late(&mut arena),
        &Some((Moved::Ran, Moved::Stale)),
    );
    Ok(())
}

/// How high the first slot gets until it is left, and what is reported of its job then.
fn greatest_height(arena: &mut Arena) -> (usize, Reply) {
    let mut greatest = 0;
    for _advance in 0..600u32 {
        greatest = greatest.max(arena.height(0));
        if arena.advance(0) == Moved::Left {
            break;
        }
    }
    (greatest, arena.ask(Request::Poll(1)))
}

#[test]
fn a_chain_of_128_tasks_is_too_deep(rt: HostRuntime) -> Result<(), Fail> {
    let mut arena = arrived(rt.alloc(), CHAIN, 10_000)?;
    let too_deep = Reply::Job(1, Status::Fault(JobFault::TooDeep));
    assert_same(&rt, &greatest_height(&mut arena), &(128, too_deep));
    Ok(())
}
