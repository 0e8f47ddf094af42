// The outcomes of a term's jobs, as its file has them: a line for each, with the bytes of the reply to a poll.
ghost use Rattle.std.specs.Prelude.{◌≡◌, ◌↔◌, ◌<◌, ◌^◌, ℕ, ℤ, true, FitsSigned, IfOk, Some};
ghost use Rattle.job_language.specs.ErrorCodes.{fault_code_of};
ghost use Rattle.job_language.specs.declared.answers.Status.{Status};
ghost use Rattle.job_language.specs.declared.answers.Status.TheVariants.{Complete, Fault};
ghost use Rattle.job_language.specs.declared.errors.JobFault.{JobFault};
ghost use Rattle.host_folder.specs.Reading.{lines_in};
ghost use Rattle.host_folder.specs.Results.{fault_part, outcome_line, outcome_lines, status_part};
ghost use Rattle.host_folder.specs.Results.{AreOutcomesOf, AreReadAgain, FindsOutcome, HasNoFault, HasValueInRange, IsOutcomeOf};
ghost use mir.Syntax.{w64};

use crate::words::{after, number_before};
use job_language::{JobFault, Reply, Status};
use reply_writer::reply_line;
use std::alloc::{AllocError, Global};
use std::str;
use term_life::Outcome;

/// The text of the outcomes.
pub(crate) fn outcomes_text(alloc: Global, outcomes: &[Outcome]) -> Result<Vec<u8>, AllocError>
    ensures { IfOk result (λ text. text.items ≡ outcome_lines outcomes.now) }
{
    let mut text = Vec::new(alloc);
    for outcome in outcomes {
        text.extend_from_slice(reply_line(&Reply::Job(outcome.job, outcome.status)).line())?;
    }
    Ok(text)
}

/// The outcomes that a text has, by its lines. One that says none is passed over.
pub(crate) fn outcomes_in(alloc: Global, text: &[u8]) -> Result<Vec<Outcome>, AllocError>
    ensures lines { IfOk result (λ outcomes. AreOutcomesOf (lines_in text.now) outcomes.items) }
    ensures again { IfOk result (λ outcomes. AreReadAgain text.now outcomes.items) }
{
    let mut outcomes = Vec::new(alloc);
    for line in text.split(|byte| *byte == b'\n') {
        if let Some(outcome) = outcome_in(line) {
            outcomes.push(outcome)?;
        }
    }
    Ok(outcomes)
}

/// The outcome that a line says: the one whose line it is, byte for byte. None if it is the line of none.
fn outcome_in(line: &[u8]) -> Option<Outcome>
    ensures { IsOutcomeOf line.now result }
{
    let outcome = guess_in(str::from_utf8(line).ok()?)?;
    if says(outcome, line) {
        Some(outcome)
    } else {
        None
    }
}

/// Whether that is the line of the outcome.
fn says(outcome: Outcome, line: &[u8]) -> bool
    ensures { (result ≡ true) ↔ (outcome_line outcome ≡ line.now) }
{
    reply_line(&Reply::Job(outcome.job, outcome.status)).text() == line
}

/// The only outcome whose line it may be.
fn guess_in(line: &str) -> Option<Outcome>
    ensures { FindsOutcome line.now result }
{
    if let Some(rest) = after(line, "{\"fault\":") {
        return fault_in(rest);
    }
    let (job, rest) = number_before(after(line, "{\"job\":")?, ',')?;
    let status = status_in(rest)?;
    Some(Outcome { job, status })
}

/// How far a job is that has no fault, by what a line says behind its number.
fn status_in(rest: &str) -> Option<Status>
    ensures { (s : Status) → HasNoFault s → HasValueInRange s → rest.now ≡ status_part s → result ≡ Some s }
{
    match rest {
        "\"status\":\"running\"}" => Some(Status::Running),
        "\"status\":\"canceled\"}" => Some(Status::Cancelled),
        _ => Some(Status::Complete(value_in(rest)?)),
    }
}

/// The value of a job that completed.
fn value_in(rest: &str) -> Option<i64>
    ensures { (v : ℤ) → FitsSigned w64 v → rest.now ≡ status_part (Complete v) → result ≡ Some v }
{
    let value = after(rest, "\"status\":\"complete\",\"value\":")?;
    value.strip_suffix('}')?.parse::<i64>().ok()
}

/// The outcome of a job that ended with a fault, by what a line says behind its first word.
fn fault_in(rest: &str) -> Option<Outcome>
    ensures { (f : JobFault) (n : ℕ) → n < 2 ^ 64 → rest.now ≡ fault_part f n
        → result ≡ Some (record { job = n; status = Fault f }) }
{
    let (code, rest) = number_before(rest, ',')?;
    let (job, _) = number_before(after(rest, "\"job\":")?, ',')?;
    let fault = fault_of(code)?;
    Some(Outcome {
        job,
        status: Status::Fault(fault),
    })
}

/// The fault of a code.
fn fault_of(code: u64) -> Option<JobFault>
    ensures { (f : JobFault) → code ≡ fault_code_of f → result ≡ Some f }
{
    match code {
        1 => Some(JobFault::Division),
        2 => Some(JobFault::Fuel),
        3 => Some(JobFault::TooDeep),
        4 => Some(JobFault::TaskLimit),
        5 => Some(JobFault::MissingWait),
        _ => None,
    }
}
