// What a journal says is done again, and its jobs are finished.
ghost use Rattle.std.specs.Prelude.{◌≡◌, IfNone, IfOk, IfSome, take};
ghost use Rattle.tenant_finish.specs.Recovered.{IsFinishedTenant};
ghost use Rattle.tenant_record.specs.Replayed.{state_of};
ghost use Rattle.host_folder.specs.Finishing.{IsFinishedPart, IsWrongAfter, NamesNoTenant, outcomes_outside};

use job_language::{Entry, TenantConfig};
use job_outcomes::JobOutcomes;
use part_lines::{PartRead, read_part};
use std::alloc::{AllocError, Global};
use tenant_finish::{Recovered, finish_tenant, recover_tenant};
use tenant_record::Replay;
use term_life::Outcome;

/// What a term was finished to.
#[derive(Drop)]
pub(crate) struct Finished {
    pub(crate) config: TenantConfig,
    pub(crate) replay: Replay,
    /// Whether its journal had an entry that the tenant has not done.
    pub(crate) is_torn_wrong: bool,
}

/// The tenant that has done what the bytes of a journal or a dump say, up to the first entry that is wrong, and whose
/// jobs are finished. None if they name no tenant.
pub(crate) fn finish_part(alloc: Global, bytes: &[u8]) -> Result<Option<Finished>, AllocError>
    ensures none { IfOk result (λ finished. IfNone finished (NamesNoTenant bytes.now)) }
    ensures finished { IfOk result (λ finished. IfSome finished (IsFinishedPart bytes.now)) }
{
    let Some(PartRead { config, entries }) = read_part(alloc, bytes)? else {
        return Ok(None);
    };
    match recover_tenant(alloc, config, entries)? {
        Recovered::Tenant(replay) => Ok(Some(finish(config, replay, false))),
        Recovered::WrongAfter(right) => finish_right(alloc, bytes, right),
    }
}

/// The same by so many entries, which are right, with a wrong one behind them.
fn finish_right(alloc: Global, bytes: &[u8], right: usize) -> Result<Option<Finished>, AllocError>
    requires { IsWrongAfter bytes.now right }
    ensures none { IfOk result (λ finished. IfNone finished (NamesNoTenant bytes.now)) }
    ensures finished { IfOk result (λ finished. IfSome finished (IsFinishedPart bytes.now)) }
{
    let Some(PartRead { config, entries }) = read_part(alloc, bytes)? else {
        return Ok(None);
    };
    match recover_tenant(alloc, config, first_of(entries, right))? {
        Recovered::Tenant(replay) => Ok(Some(finish(config, replay, true))),
        Recovered::WrongAfter(_) => {
            // Proof hint: the tenant is valid, so what is right of its history begins with what is.
            let _ = config.tenant();
            Ok(None)
        }
    }
}

fn finish(config: TenantConfig, replay: Replay, is_torn_wrong: bool) -> Finished
    ensures config { result.config ≡ config }
    ensures torn { result.is_torn_wrong ≡ is_torn_wrong }
    ensures finished { IsFinishedTenant replay result.replay }
{
    let mut replay = replay;
    finish_tenant(&mut replay);
    Finished {
        config,
        replay,
        is_torn_wrong,
    }
}

/// The first of some entries.
fn first_of(entries: Vec<Entry>, count: usize) -> Vec<Entry>
    ensures { result.items ≡ take count entries.items }
{
    let mut entries = entries;
    entries.truncate(count);
    entries
}

/// The outcomes of a tenant's jobs, by their numbers outside, which follow `base`.
pub(crate) fn outcomes_of(
    alloc: Global,
    replay: &Replay,
    base: u64,
) -> Result<Vec<Outcome>, AllocError>
    ensures { IfOk result (λ outcomes. outcomes.items ≡ outcomes_outside base (state_of replay.now)) }
{
    let held = JobOutcomes::of(alloc, replay)?;
    let mut outcomes = Vec::new(alloc);
    for outcome in held.as_slice() {
        outcomes.push(Outcome {
            job: base.saturating_add(outcome.job),
            status: outcome.status,
        })?;
    }
    Ok(outcomes)
}
