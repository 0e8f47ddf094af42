// How far each job is that a tenant holds, kept without its arena.
ghost use Rattle.std.specs.Prelude.{◌≡◌, IfOk, OnErr, OnOk, find, map, option_map};
ghost use Rattle.std.specs.Io.KnownBytes.{Appends};
ghost use Rattle.dump_lines.specs.Parts.{AppendsPart};
ghost use Rattle.job_outcomes.specs.Outcomes.{is_of, outcome_seen, outcome_text, outcomes_text, polled};
ghost use Rattle.tenant_model.specs.Solo.{job_table};
ghost use Rattle.tenant_model.specs.State.{State};
ghost use Rattle.tenant_record.specs.Replayed.{state_of, status_of};

use job_language::{Error, Reply, Status};
use reply_writer::{Sink, WriteFault, reply_line, write_all_of};
use std::alloc::{AllocError, Global};
use std::marker::Model;
use tenant_record::Replay;

/// How far a job is. It is `Running` only if its rows could not go on.
#[derive(Clone, Copy, Debug, PartialEq, Eq)]
pub struct JobOutcome {
    pub job: u64,
    pub status: Status,
}

/// How far each job is that was made and is neither retired nor released, in the order of their
/// numbers: 256 at most.
#[derive(Drop)]
pub struct JobOutcomes {
    held: Vec<JobOutcome>,
}

impl Model for JobOutcomes {
    ghost use Rattle.std.specs.Prelude.{ℕ, List, map};
    ghost use Rattle.job_language.specs.declared.answers.Status.{Status};
    ghost use Rattle.job_outcomes.specs.Outcomes.{outcome_seen};

    ghost Value = { List (ℕ × Status) };

    ghost view = { λ o. map outcome_seen o.held.items };
}

impl JobOutcomes {
    /// Those of a tenant, at the end of its history.
    pub fn of(alloc: Global, replay: &Replay) -> Result<JobOutcomes, AllocError>
        ensures { IfOk result (λ outcomes. outcomes ≡ job_table (state_of replay.now)) }
    {
        let mut held = Vec::new(alloc);
        let mut last = 0;
        'jobs: while let Some(job) = replay.next_job(last) {
            if let Some(status) = replay.status(job) {
                held.push(JobOutcome { job, status })?;
            }
            last = job;
        }
        Ok(JobOutcomes { held })
    }

    /// The jobs, from the lowest number up.
    pub fn as_slice(&self) -> &[JobOutcome]
        ensures { map outcome_seen result.now ≡ self.now }
    {
        self.held.as_slice()
    }

    /// How far a job is, if the tenant holds it.
    pub fn status(&self, job: u64) -> Option<Status>
        ensures { (s : State) → self.now ≡ job_table s → result ≡ status_of s job }
    {
        found(self.as_slice(), job)
    }

    /// What a poll of a job is answered, as if the history had room for it.
    pub fn poll(&self, job: u64) -> Reply
        ensures { (s : State) → self.now ≡ job_table s → result ≡ polled s job }
    {
        match self.status(job) {
            Some(status) => Reply::Job(job, status),
            None => Reply::Refused(Error::UnknownJob),
        }
    }

    /// Writes a line for each job, which a poll of it would be answered.
    pub fn write<W: Sink>(&self, writer: &mut W) -> Result<(), WriteFault>
        ensures written { OnOk result (Appends (W.contents writer.old) (W.contents writer.new)
            (outcomes_text self.now)) }
        ensures part { AppendsPart (W.contents writer.old) (W.contents writer.new)
            (outcomes_text self.now) }
        ensures failed { OnErr result (W.failed writer.new) }
    {
        write_outcomes(self.as_slice(), writer)
    }
}

/// The status of the first of them that is of that job.
fn found(held: &[JobOutcome], job: u64) -> Option<Status>
    ensures { result ≡ option_map (λ o. o.status) (find (is_of job) held.now) }
{
    held.iter()
        .find(|outcome| outcome.job == job)
        .map(|outcome| outcome.status)
}

fn write_outcomes<W: Sink>(held: &[JobOutcome], writer: &mut W) -> Result<(), WriteFault>
    ensures written { OnOk result (Appends (W.contents writer.old) (W.contents writer.new)
        (outcomes_text (map outcome_seen held.now))) }
    ensures part { AppendsPart (W.contents writer.old) (W.contents writer.new)
        (outcomes_text (map outcome_seen held.now)) }
    ensures failed { OnErr result (W.failed writer.new) }
{
    for outcome in held {
        write_outcome(outcome, writer)?;
    }
    Ok(())
}

/// Writes the line of an outcome.
#[tactic(auto, using(dump_lines::proofs::Parts::part_all))]
fn write_outcome<W: Sink>(outcome: &JobOutcome, writer: &mut W) -> Result<(), WriteFault>
    ensures written { OnOk result (Appends (W.contents writer.old) (W.contents writer.new)
        (outcome_text (outcome_seen outcome.now))) }
    ensures part { AppendsPart (W.contents writer.old) (W.contents writer.new)
        (outcome_text (outcome_seen outcome.now)) }
    ensures failed { OnErr result (W.failed writer.new) }
{
    let line = reply_line(&Reply::Job(outcome.job, outcome.status));
    write_all_of(writer, line.line())
}
