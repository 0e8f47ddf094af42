//! Runs parts of the arena and of its server, to measure them: `benchmarks WHAT ..`. It prints how much was
//! done and what came of it, which is the same in each run; most of it is timed from outside. Without words it
//! does a little of everything.
#![tactic(auto)]

mod arena;
mod leaves;
mod locks;
mod private_run;
mod reading;
mod stops;
mod tenants;
mod words;

use std::env::Env;
use std::process::ExitCode;
use std::sync::Wait;
use std::thread::Threads;
use std::time::CpuClock;
use std::{env, io};
use stops::Stop;
use words::{ALL, What};

fn main(rt: HostRuntime) -> ExitCode {
    match run_words(&rt) {
        Ok(()) => ExitCode::SUCCESS,
        Err(stop) => {
            // The status tells of the stop even if standard error takes nothing.
            let _ = rt.eprintln(stop);
            ExitCode::from(stop.status())
        }
    }
}

/// Does what the words of the program ask for.
fn run_words<R>(rt: &R) -> Result<(), Stop>
where
    R: Env + CpuClock + Threads + Wait + Sync + Input + Print + AllocGlobal,
{
    let words = words_of(rt)?;
    let mut texts = Vec::new(rt.alloc());
    for word in &words {
        texts.push(word.as_str())?;
    }
    run(rt, texts.as_slice())
}

/// The words that the program was called with, after its name.
fn words_of<R: Env + AllocGlobal>(rt: &R) -> io::Result<Vec<String>> {
    let mut words = Vec::new(rt.alloc());
    for word in env::args(rt)?.skip(1) {
        words.push(word)?;
    }
    Ok(words)
}

fn run<R>(rt: &R, words: &[&str]) -> Result<(), Stop>
where
    R: CpuClock + Threads + Wait + Sync + Input + Print + AllocGlobal,
{
    match words {
        [] => run_all(rt),
        [what, words @ ..] => run_one(rt, What::named(what)?, words),
    }
}

/// A little of everything.
fn run_all<R>(rt: &R) -> Result<(), Stop>
where
    R: CpuClock + Threads + Wait + Sync + Input + Print + AllocGlobal,
{
    for what in ALL {
        run_one(rt, what, &[])?;
    }
    Ok(())
}

/// Measures that, by the words after its own.
fn run_one<R>(rt: &R, what: What, words: &[&str]) -> Result<(), Stop>
where
    R: CpuClock + Threads + Wait + Sync + Input + Print + AllocGlobal,
{
    match what {
        What::Arena => arena::run(rt, words),
        What::Leaves => leaves::run(rt, words),
        What::Locks => locks::run(rt, words),
        What::PrivateRun => private_run::run(rt, words),
        What::Reading => reading::run(rt, words),
    }
}
