// Threads at the locked doors of tenants.
mod asks;
mod closing;
mod fib;
mod jobs;
mod lines;
mod load;
mod meeting;
mod served;
mod steps;

use crate::stops::Stop;
use crate::words::number_in;
use load::Load;
use std::sync::Wait;
use std::thread::Threads;

/// How many events each thread makes if no word says it.
const FEW: usize = 1_000;

/// `steps EVENTS THREADS TENANTS` lets THREADS threads make EVENTS events each, over TENANTS tenants, and
/// prints how many entries the closed histories have. Without words it executes a job by a session beside two
/// workers, lets two private runs meet, and makes a few events.
pub(crate) fn run<R>(rt: &R, words: &[&str]) -> Result<(), Stop>
where
    R: Threads + Wait + Sync + Print + AllocGlobal,
{
    match words {
        [] => print_few(rt),
        ["steps", events, threads, tenants] => {
            print_steps(
                rt,
                number_in(events)?,
                number_in(threads)?,
                number_in(tenants)?,
            )
        }
        _ => Err(Stop::Words),
    }
}

/// A little of each.
fn print_few<R: Threads + Wait + Sync + Print + AllocGlobal>(rt: &R) -> Result<(), Stop> {
    print_fib(rt)?;
    print_meeting(rt)?;
    print_steps(rt, FEW, 1, 1)?;
    print_steps(rt, FEW, 4, 1)?;
    print_steps(rt, FEW, 4, 4)
}

fn print_fib<R: Threads + Wait + Sync + Print + AllocGlobal>(rt: &R) -> Result<(), Stop> {
    let value = fib::execute(rt, rt.alloc())?;
    println!(rt; "fib: {value}, closed, checked")?;
    Ok(())
}

fn print_meeting<R: Threads + Wait + Sync + Print + AllocGlobal>(rt: &R) -> Result<(), Stop> {
    let met = meeting::meet(rt, rt.alloc())?;
    println!(rt; "gate: {} saw two, {} entries", met.saw_two, met.entries)?;
    Ok(())
}

fn print_steps<R: Threads + Wait + Sync + Print + AllocGlobal>(
    rt: &R,
    events: usize,
    threads: usize,
    tenants: usize,
) -> Result<(), Stop> {
    let load = Load::new(events, threads, tenants).ok_or(Stop::Words)?;
    let made = steps::run(rt, rt.alloc(), load)?;
    println!(rt; "steps, threads {threads}, tenants {tenants}: {made} events")?;
    Ok(())
}
