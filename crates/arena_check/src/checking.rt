// Checking a tenant's history by its arena.
ghost use Rattle.std.specs.Prelude.{◌≡◌, ◌≤◌, ◌<◌, ◌↔◌, ℕ, true, IfOk, IsTrue, IsSome, OnErr, Ok, length, map, slice_index_or};
ghost use Rattle.job_language.specs.Brought.{job_of, StepBrings};
ghost use Rattle.job_language.specs.declared.steps.Entry.{Entry};
ghost use Rattle.job_language.specs.Recorded.{is_entry};
ghost use Rattle.tenant_model.specs.Asks.{ask};
ghost use Rattle.tenant_model.specs.Solo.{answers, step};
ghost use Rattle.tenant_model.specs.State.{State, empty};
ghost use Rattle.arena_core.specs.Stands.{StandsFor, Takes};
ghost use Rattle.solo_eval.specs.Verdicts.{IsVerdict, IsVerdictFrom};

use arena_core::Arena;
use job_language::{Answer, Entry, Reply, Request, Step, TenantConfig};
use same_values::is_same_answer;
use solo_eval::Verdict;
use std::alloc::{AllocError, Global};

/// Takes the steps of a history again, from a tenant that has done nothing yet, and compares the
/// answers. An answer that changes nothing, such as that of an idle advance, is not an entry of a
/// history. It fails only if an allocation failed.
pub fn check(alloc: Global, config: TenantConfig, entries: &[Entry]) -> Result<Verdict, AllocError>
    ensures verdict { IfOk result (λ verdict. IsVerdict config entries.now verdict) }

    // The answers in a history that passes are those of its tenant to its steps.
    ensures yes { result ≡ Ok Verdict.Yes
        → answers (empty config) (map (λ e. e.step) entries.now) ≡ map (λ e. e.answer) entries.now }
    ensures no { (k : ℕ) → result ≡ Ok (Verdict.No k) → (1 ≤ k) × (k ≤ length entries.now) }
{
    let mut arena = Arena::new(alloc, config)?;
    check_all(&mut arena, entries)
}

/// Takes the steps of a history in an arena, and compares the answers.
fn check_all(arena: &mut Arena, entries: &[Entry]) -> Result<Verdict, AllocError>
    ensures verdict { (s : State) → StandsFor arena.old s
        → IfOk result (λ verdict. IsVerdictFrom s 1 entries.now verdict) }
    ensures yes { (s : State) → StandsFor arena.old s → result ≡ Ok Verdict.Yes
        → answers s (map (λ e. e.step) entries.now) ≡ map (λ e. e.answer) entries.now }
    ensures no { (k : ℕ) → result ≡ Ok (Verdict.No k) → (1 ≤ k) × (k ≤ length entries.now) }
    ensures brings { OnErr result ((k : ℕ) × (k < length entries.now)
        × ((d : Entry) → StepBrings (slice_index_or entries.now k d).step)) }
{
    for (index, entry) in entries.iter().enumerate() {
        let answer = take(arena, &entry.step)?;
        if !is_recorded(&answer, &entry.answer) {
            return Ok(Verdict::No(index as u64 + 1));
        }
    }
    Ok(Verdict::Yes)
}

/// Whether an answer is an entry, and the same as was given.
fn is_recorded(given: &Answer, recorded: &Answer) -> bool
    ensures { IsTrue result ↔ ((is_entry recorded.now ≡ true) × (given.now ≡ recorded.now)) }
{
    recorded.is_entry() && is_same_answer(given, recorded)
}

/// Takes a step. It fails only if another handle on a job's program was refused, and then nothing
/// has changed.
fn take(arena: &mut Arena, next: &Step) -> Result<Answer, AllocError>
    ensures ok { (s : State) → StandsFor arena.old s
        → IfOk result (λ answer. Takes arena.new answer (step s next.now)) }
    ensures err { OnErr result (arena.new ≡ arena.old) }
    ensures brings { OnErr result (StepBrings next.now) }
{
    match next {
        Step::Ask(request) => Ok(Answer::Replied(ask(arena, request)?)),
        Step::Arrive(slot) => Ok(Answer::Came(arena.arrive(*slot))),
        Step::Advance(slot) => Ok(Answer::Moved(arena.advance(*slot))),
    }
}

/// Answers an ask, with another handle on the program of its job.
fn ask(arena: &mut Arena, request: &Request) -> Result<Reply, AllocError>
    ensures ok { (s : State) → StandsFor arena.old s
        → IfOk result (λ reply. Takes arena.new reply (ask s request.now)) }
    ensures err { OnErr result (arena.new ≡ arena.old) }
    ensures brings { OnErr result (IsSome (job_of request.now)) }
{
    Ok(arena.ask(request.try_clone()?))
}
