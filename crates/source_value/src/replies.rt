// What a tenant replies of the job of a source.
ghost use Rattle.std.specs.Prelude.{◌≡◌, ℕ, [], ◌∷◌, map, replicate, IfOk, IfErr, OnOk};
ghost use Rattle.job_language.specs.declared.steps.Step.TheVariants.{Advance};
ghost use Rattle.tenant_model.specs.Asks.{ask};
ghost use Rattle.tenant_model.specs.Solo.{after};
ghost use Rattle.tenant_model.specs.State.{empty};
ghost use Rattle.source_tokens.specs.Givens.{view_given};
ghost use Rattle.source_value.specs.Refusals.{IsNotRun};
ghost use Rattle.source_value.specs.Replies.{IsReplyOf, IsReplyLineOf, GoesToItsEnd, steps_of};

use crate::errors::SourceError;
use crate::jobs::serial_job_of;
use crate::laws::texts_have_values;
use job_language::{Answer, Fuel, Job, MAX_STEPS, Reply, Request, TenantConfig};
use reply_writer::{ReplyBuf, answer_line};
use solo_eval::Solo;
use source_tokens::Given;
use std::alloc::{AllocError, Global};

/// What a new tenant replies of the job of a source when it has executed it: the plain evaluator of
/// one tenant executes the job, advances slot 0 until it can't move, and is polled for the job.
pub fn reply_of_source(
    alloc: Global,
    config: TenantConfig,
    first: i64,
    second: i64,
    fuel: Fuel,
    givens: &[Given],
    text: &[u8],
) -> Result<Reply, SourceError>
    ensures reply { IfOk result (IsReplyOf config (map view_given givens.now) text.now (first ∷ second ∷ []) fuel) }
    ensures refused { IfErr result (IsNotRun (map view_given givens.now) text.now) }
{
    texts_have_values();
    // Proof hint: the tenant's limits are valid.
    let _ = config.tenant();
    let job = serial_job_of(alloc, first, second, givens, text)?;
    let args = job.args;
    let program = job.program;
    match reply_to(
        alloc,
        config,
        Job {
            program,
            args,
            fuel,
        },
    ) {
        Ok(reply) => Ok(reply),
        Err(_) => Err(SourceError::Memory),
    }
}

/// The line of that reply, without its newline.
pub fn reply_line_of_source(
    alloc: Global,
    config: TenantConfig,
    first: i64,
    second: i64,
    fuel: Fuel,
    givens: &[Given],
    text: &[u8],
) -> Result<ReplyBuf, SourceError>
    ensures line { IfOk result (IsReplyLineOf config (map view_given givens.now) text.now (first ∷ second ∷ []) fuel) }
    ensures refused { IfErr result (IsNotRun (map view_given givens.now) text.now) }
{
    let reply = reply_of_source(alloc, config, first, second, fuel, givens, text)?;
    Ok(answer_line(&Answer::Replied(reply)))
}

/// What a new tenant replies of a job that it has executed on slot 0.
fn reply_to(alloc: Global, config: TenantConfig, job: Job) -> Result<Reply, AllocError>
    ensures { IfOk result (λ reply. (n : ℕ) × GoesToItsEnd (after (empty config) (steps_of job 0)) n
        × (reply ≡ (ask (after (empty config) (steps_of job n)) (Request.Poll 1)).0)) }
{
    let mut tenant = Solo::new(alloc, config);
    tenant.ask(Request::Execute(job))?;
    advance(&mut tenant)?;
    tenant.ask(Request::Poll(1))
}

/// Advances slot 0 until it can't move, or as often as a history has entries.
fn advance(tenant: &mut Solo) -> Result<(), AllocError>
    ensures { OnOk result ((n : ℕ) × GoesToItsEnd tenant.old n
        × (tenant.new ≡ after tenant.old (replicate n (Advance 0)))) }
{
    for _ in 0..MAX_STEPS {
        let moved = tenant.advance(0)?;
        if !Answer::Moved(moved).is_entry() {
            return Ok(());
        }
    }
    Ok(())
}
