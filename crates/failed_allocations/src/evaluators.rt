// The calls of the evaluator, each made again if an allocation failed.
use crate::jobs::{status_of, steps, tenant};
use job_language::{Answer, Entry, Status, Step};
use solo_eval::{Solo, Verdict, check};
use std::alloc::{AllocError, Global};

/// The outcome that the last step reports, if each step that fails is taken again on the same evaluator.
pub(crate) fn stepped(alloc: Global) -> Option<Status> {
    let mut solo = Solo::new(alloc, tenant(alloc)?);
    let mut last = None;
    for step in &steps(alloc)? {
        let answer = match solo.step(step) {
            Ok(answer) => answer,
            Err(_) => solo.step(step).ok()?,
        };
        last = match answer {
            Answer::Replied(reply) => status_of(&reply),
            Answer::Came(_) | Answer::Moved(_) => None,
        };
    }
    last
}

/// The outcome that the last step reports, if all are run at once.
pub(crate) fn run_whole(alloc: Global) -> Option<Status> {
    match answers(alloc, &steps(alloc)?)?.last()? {
        Answer::Replied(reply) => status_of(reply),
        Answer::Came(_) | Answer::Moved(_) => None,
    }
}

/// The answers of a new evaluator to the steps.
fn answers(alloc: Global, steps: &[Step]) -> Option<Vec<Answer>> {
    let config = tenant(alloc)?;
    match Solo::new(alloc, config).run(alloc, steps) {
        Ok(answers) => Some(answers),
        Err(_) => Solo::new(alloc, config).run(alloc, steps).ok(),
    }
}

/// The verdict on what `run` answered.
pub(crate) fn checked(alloc: Global) -> Option<Verdict> {
    let config = tenant(alloc)?;
    let steps = steps(alloc)?;
    let entries = match entries(alloc, &steps) {
        Ok(entries) => entries?,
        Err(_) => entries(alloc, &steps).ok()??,
    };
    match check(alloc, config, &entries) {
        Ok(verdict) => Some(verdict),
        Err(_) => check(alloc, config, &entries).ok(),
    }
}

/// The history of an evaluator that took the steps.
fn entries(alloc: Global, steps: &[Step]) -> Result<Option<Vec<Entry>>, AllocError> {
    let Some(answers) = answers(alloc, steps) else {
        return Ok(None);
    };
    let mut entries = Vec::new(alloc);
    for (step, answer) in steps.iter().zip(answers) {
        entries.push(Entry {
            step: step.try_clone()?,
            answer,
        })?;
    }
    Ok(Some(entries))
}
