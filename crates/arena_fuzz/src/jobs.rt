// Jobs that are read, one a line, and drawn from those.
use crate::stops::Stop;
use job_json::{Refused, read_job};
use job_language::Job;
use rand::RngExt;
use rand_pcg::Pcg32;
use serde_json::Value;
use std::alloc::Global;

/// How many jobs a round has.
const JOBS: usize = 4;

/// The jobs of a text, one a line.
pub(crate) fn read_jobs(alloc: Global, text: &str) -> Result<Vec<Job>, Stop> {
    let mut jobs = Vec::new(alloc);
    for line in text.lines() {
        let number = jobs.len().saturating_add(1);
        jobs.push(job_of(alloc, line, number)?)?;
    }
    Ok(jobs)
}

/// The job of the line of that number.
fn job_of(alloc: Global, line: &str, number: usize) -> Result<Job, Stop> {
    let Ok(value) = Value::from_str(alloc, line) else {
        return Err(Stop::Line(number));
    };
    match read_job(alloc, &value) {
        Ok(job) => Ok(job),
        Err(Refused::Memory(_)) => Err(Stop::Memory),
        Err(Refused::Bad { .. }) => Err(Stop::Line(number)),
    }
}

/// Draws the jobs of a round, which stand side by side in those given.
pub(crate) fn draw_jobs<'a>(draws: &mut Pcg32, given: &'a [Job]) -> &'a [Job] {
    let start = draws.random_range(0..=given.len().saturating_sub(JOBS));
    let end = start.saturating_add(JOBS).min(given.len());
    &given[start..end]
}
