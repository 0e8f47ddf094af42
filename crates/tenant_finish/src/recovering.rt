// A tenant taken from its history.
ghost use Rattle.std.specs.Prelude.{◌≡◌, ◌++◌, [], ◌∷◌, IfOk, OnOk, true, false};
ghost use Rattle.job_language.specs.declared.steps.Entry.{Entry};
ghost use Rattle.tenant_finish.specs.Recovered.{IsRightEntry};
ghost use Rattle.tenant_finish.specs.Recovering.{IsRecovered};
ghost use Rattle.tenant_model.specs.Solo.{step as taken};
ghost use Rattle.tenant_record.specs.History.{entries_of};
ghost use Rattle.tenant_record.specs.Replayed.{state_of};

use job_language::{Answer, Entry, Step, TenantConfig};
use same_values::is_same_answer;
use std::alloc::{AllocError, Global};
use tenant_record::Replay;

/// What recovering a tenant from a history gives.
#[derive(Drop)]
pub enum Recovered {
    /// The tenant that has done what the history says.
    Tenant(Replay),
    /// So many entries, from the first on, are right, and the next one is not: its step is answered
    /// otherwise, or is no entry.
    WrongAfter(usize),
}

/// The tenant that has done what a history says. Each answer is compared with what the tenant answers
/// now.
pub fn recover_tenant(
    alloc: Global,
    config: TenantConfig,
    entries: Vec<Entry>,
) -> Result<Recovered, AllocError>
    ensures { IfOk result (IsRecovered config entries.items) }
{
    let mut replay = Replay::new(alloc, config)?;
    for entry in entries {
        let right = replay.history().len();
        if !take_entry(&mut replay, entry)? {
            return Ok(Recovered::WrongAfter(right));
        }
    }
    Ok(Recovered::Tenant(replay))
}

/// Takes an entry's step, and says whether it is an entry that is answered so.
fn take_entry(replay: &mut Replay, entry: Entry) -> Result<bool, AllocError>
    ensures right { IfOk result (λ is_right. is_right ≡ true
        → replay.new ≡ record replay.old { history = replay.old.history ++ entry ∷ [] }) }
    ensures wrong { IfOk result (λ is_right. is_right ≡ false
        → IsRightEntry (state_of replay.old) entry → ⊥) }
{
    let Entry { step, answer } = entry;
    let given = take_step(replay, step)?;
    Ok(answer.is_entry() && is_same_answer(&given, &answer))
}

/// Takes a step, and gives the answer.
fn take_step(replay: &mut Replay, step: Step) -> Result<Answer, AllocError>
    ensures config { OnOk result (replay.new.config ≡ replay.old.config) }
    ensures answer { IfOk result (λ given. given ≡ (taken (state_of replay.old) step).0) }
    ensures history { IfOk result (λ given. replay.new.history
        ≡ replay.old.history ++ entries_of step given) }
{
    match step {
        Step::Ask(request) => {
            let copy = request.try_clone()?;
            Ok(Answer::Replied(replay.ask(request, copy, true)))
        }
        Step::Arrive(slot) => Ok(Answer::Came(replay.arrive(slot, true))),
        Step::Advance(slot) => Ok(Answer::Moved(replay.advance(slot, true))),
    }
}
