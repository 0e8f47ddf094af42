//! Takes drawn steps on a tenant's arena and on its plain evaluator side by side, and compares all that
//! can be seen of both. Standard input has the jobs, one a line. The words are the seed of the first round
//! and how many rounds there are. Without words it takes a few rounds and the fixed script.
#![tactic(auto)]

mod acts;
mod differences;
mod fixed;
mod jobs;
mod kinds;
mod pairs;
mod rounds;
mod stops;
mod tallies;
mod tenants;

use fixed::{FIXED_STEPS, run_fixed};
use job_language::Job;
use jobs::read_jobs;
use rounds::{Rounds, run_rounds};
use std::env::Env;
use std::process::ExitCode;
use std::{env, io};
use stops::Stop;
use tallies::Tally;

/// The rounds that are taken if no word says it.
const FEW: Rounds = Rounds { seed: 1, count: 20 };

fn main(rt: HostRuntime) -> ExitCode {
    match run(&rt) {
        Ok(()) => ExitCode::from(0),
        Err(stop) => {
            // The status tells of it even if standard error takes nothing.
            let _ = eprintln!(&rt; "{stop}");
            ExitCode::from(stop.status())
        }
    }
}

/// Does what the words ask for, with the jobs of the input.
fn run<R: Env + Input + Print + AllocGlobal>(rt: &R) -> Result<(), Stop> {
    let asked = rounds_asked(rt)?;
    let jobs = jobs_given(rt)?;
    match asked {
        Some(rounds) => take(rt, rounds, jobs.as_slice()),
        None => take_few(rt, jobs.as_slice()),
    }
}

/// The rounds that the words ask for, if there are words.
fn rounds_asked<R: Env + AllocGlobal>(rt: &R) -> Result<Option<Rounds>, Stop> {
    let mut words = env::args(rt)?.skip(1);
    match (words.next(), words.next()) {
        (None, _) => Ok(None),
        (Some(seed), Some(count)) => rounds_of(seed.as_str(), count.as_str()).map(Some),
        _ => Err(Stop::Words),
    }
}

fn rounds_of(seed: &str, count: &str) -> Result<Rounds, Stop> {
    match (seed.parse(), count.parse()) {
        (Ok(seed), Ok(count)) => Ok(Rounds { seed, count }),
        _ => Err(Stop::Words),
    }
}

/// The jobs of the input.
fn jobs_given<R: Input + AllocGlobal>(rt: &R) -> Result<Vec<Job>, Stop> {
    let text = io::read_to_string(rt.alloc(), rt.reader())?;
    read_jobs(rt.alloc(), text.as_str())
}

/// Takes a few rounds and the fixed script. It prints no count.
fn take_few<R: Print + AllocGlobal>(rt: &R, jobs: &[Job]) -> Result<(), Stop> {
    let mut tally = Tally::new(rt.alloc());
    let Rounds { seed, count } = FEW;
    run_rounds(rt.alloc(), FEW, jobs, &mut tally)?;
    println!(rt; "{count} rounds from seed {seed}: no difference")?;
    run_fixed(rt.alloc(), jobs, &mut tally)?;
    println!(rt; "the fixed script of {FIXED_STEPS} steps: no difference")?;
    Ok(())
}

/// Takes rounds, and prints what came up.
fn take<R: Print + AllocGlobal>(rt: &R, rounds: Rounds, jobs: &[Job]) -> Result<(), Stop> {
    let mut tally = Tally::new(rt.alloc());
    run_rounds(rt.alloc(), rounds, jobs, &mut tally)?;
    Ok(print_tally(rt, rounds, &tally)?)
}

/// How many rounds and steps were taken, and how often each kind of answer was given.
fn print_tally<R: Print>(rt: &R, rounds: Rounds, tally: &Tally) -> io::Result<()> {
    let (Rounds { seed, count }, steps) = (rounds, tally.steps());
    println!(rt; "{count} rounds from seed {seed}: no difference\n{steps} steps")?;
    for (kind, count) in tally.counts() {
        println!(rt; "{kind}: {count}")?;
    }
    Ok(())
}
