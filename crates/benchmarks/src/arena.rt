// Jobs on one slot of an arena or of a tenant's cell.
mod jobs;
mod recorded;
mod runs;

use crate::stops::Stop;
use crate::words::number_in;
use jobs::{cancels, fibonacci};
use recorded::run_recorded;
use runs::{Ran, run_jobs};

/// Runs jobs, and prints how many tasks ran, how many steps that took and the value of the last job.
/// `fib N JOBS WAITING` runs jobs of the Nth Fibonacci number beside WAITING rows that wait; `recorded N JOBS`
/// runs them on a cell, which records each step; `cancels JOBS` runs jobs that cancel 16 groups. Without words it does
/// a little of each.
pub(crate) fn run<R: Print + AllocGlobal>(rt: &R, words: &[&str]) -> Result<(), Stop> {
    match words {
        [] => print_few(rt),
        ["fib", number, jobs, waiting] => {
            print_fib(
                rt,
                number_in(number)?,
                number_in(jobs)?,
                number_in(waiting)?,
            )
        }
        ["recorded", number, jobs] => print_recorded(rt, number_in(number)?, number_in(jobs)?),
        ["cancels", jobs] => print_cancels(rt, number_in(jobs)?),
        _ => Err(Stop::Words),
    }
}

/// A little of each.
fn print_few<R: Print + AllocGlobal>(rt: &R) -> Result<(), Stop> {
    print_fib(rt, 12, 1, 0)?;
    print_fib(rt, 12, 2, 64)?;
    print_fib(rt, 12, 1, 4_000)?;
    print_recorded(rt, 12, 1)?;
    print_cancels(rt, 2)
}

fn print_fib<R: Print + AllocGlobal>(
    rt: &R,
    number: usize,
    jobs: usize,
    waiting: usize,
) -> Result<(), Stop> {
    let text = fibonacci(rt.alloc(), number)?;
    let ran = run_jobs(rt.alloc(), text.as_str(), jobs, waiting)?;
    println!(rt; "fib {number} beside {waiting} rows: {ran}")?;
    Ok(())
}

fn print_recorded<R: Print + AllocGlobal>(rt: &R, number: usize, jobs: usize) -> Result<(), Stop> {
    let text = fibonacci(rt.alloc(), number)?;
    let ran = run_recorded(rt.alloc(), text.as_str(), jobs)?;
    println!(rt; "fib {number}, recorded: {ran}")?;
    Ok(())
}

fn print_cancels<R: Print + AllocGlobal>(rt: &R, jobs: usize) -> Result<(), Stop> {
    let text = cancels(rt.alloc())?;
    let ran = run_jobs(rt.alloc(), text.as_str(), jobs, 0)?;
    println!(rt; "cancels: {ran}")?;
    Ok(())
}
