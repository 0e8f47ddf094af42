//! Makes the calls that take memory: of the readers and writers of texts, the evaluator, an arena, a world, a
//! session, the queues of calls and a tenant's door. Each is made again if an allocation failed.
//! It prints the answers, which are the same whichever allocation was refused.
#![tactic(auto)]

mod arenas;
mod doors;
mod evaluators;
mod jobs;
mod retries;
mod sessions;
mod texts;
mod worlds;

use evaluators::{checked, run_whole, stepped};
use job_language::Status;
use solo_eval::Verdict;
use std::alloc::Global;
use std::io;
use std::sync::Wait;

fn main(rt: HostRuntime) -> io::Result<()> {
    let alloc = rt.alloc();
    print_texts(&rt, alloc)?;
    print_evaluator(&rt, alloc)?;
    print_eight(&rt, "arena, submit", arenas::submitted(alloc))?;
    print_eight(&rt, "arena, execute", arenas::executed(alloc))?;
    print_eight(&rt, "world", worlds::run_whole(alloc))?;
    print_session(&rt, alloc)?;
    print_doors(&rt, alloc)
}

fn print_texts<R: Print>(rt: &R, alloc: Global) -> io::Result<()> {
    if texts::is_job_written_back(alloc) == Some(true) {
        rt.println("job: written as it was read")?;
    }
    if let Some(rows) = texts::rows_of_tenant(alloc) {
        println!(rt; "tenant: {rows} rows")?;
    }
    if let Some(argument) = texts::argument_of_request(alloc) {
        println!(rt; "request: a job with argument {argument}")?;
    }
    Ok(())
}

fn print_evaluator<R: Print>(rt: &R, alloc: Global) -> io::Result<()> {
    print_eight(rt, "step", stepped(alloc))?;
    print_eight(rt, "run", run_whole(alloc))?;
    if checked(alloc) == Some(Verdict::Yes) {
        rt.println("check: yes")?;
    }
    Ok(())
}

fn print_session<R: Print>(rt: &R, alloc: Global) -> io::Result<()> {
    if sessions::is_served(alloc) == Some(true) {
        rt.println("session: served")?;
    }
    if let Some(passes) = sessions::passes(alloc) {
        println!(rt; "queues: {passes} passes")?;
    }
    Ok(())
}

fn print_doors<R: Print + Wait>(rt: &R, alloc: Global) -> io::Result<()> {
    print_eight(rt, "door, submit", doors::submitted(rt, alloc))?;
    print_eight(rt, "door, execute", doors::executed(rt, alloc))
}

/// Prints the value of a job that completed with 8.
fn print_eight<R: Print>(rt: &R, name: &str, status: Option<Status>) -> io::Result<()> {
    if status == Some(Status::Complete(8)) {
        println!(rt; "{name}: 8")?;
    }
    Ok(())
}
