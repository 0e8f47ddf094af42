// Checking a tenant's history against the evaluator.
ghost use Rattle.std.specs.Prelude.{◌≡◌, ◌≤◌, ℕ, IfOk, OnErr, Ok, length, map};
ghost use Rattle.tenant_model.specs.Solo.{answers};
ghost use Rattle.tenant_model.specs.State.{empty};
ghost use Rattle.solo_eval.specs.CheckMemory.{SomeTakesMemory};
ghost use Rattle.solo_eval.specs.Verdicts.{IsVerdict};

use crate::solo::Solo;
use job_language::{Entry, TenantConfig};
use same_values::is_same_answer;
use std::alloc::{AllocError, Global};

/// Whether a history is one of its tenant.
#[derive(Clone, Copy, Debug, PartialEq, Eq)]
pub enum Verdict {
    /// The tenant answers each entry as the history does.
    Yes,
    /// The first entry, numbered from 1, that it answers differently or that is not recorded.
    No(u64),
}

/// Takes the steps of a history again, from a tenant that has done nothing yet, and compares the
/// answers. An answer that changes nothing, such as that of an idle advance, is not an entry of a
/// history. It fails only if a step brings a job or makes a row and an allocation failed.
pub fn check(alloc: Global, config: TenantConfig, entries: &[Entry]) -> Result<Verdict, AllocError>
    ensures verdict { IfOk result (λ verdict. IsVerdict config entries.now verdict) }

    // The answers in a history that passes are those of its tenant to its steps.
    ensures yes { result ≡ Ok Verdict.Yes
        → answers (empty config) (map (λ e. e.step) entries.now) ≡ map (λ e. e.answer) entries.now }
    ensures takes { OnErr result (SomeTakesMemory (empty config) entries.now) }
    ensures no { (k : ℕ) → result ≡ Ok (Verdict.No k) → (1 ≤ k) × (k ≤ length entries.now) }
{
    let mut solo = Solo::new(alloc, config);
    for (index, entry) in entries.iter().enumerate() {
        let answer = solo.step(&entry.step)?;
        if !entry.answer.is_entry() || !is_same_answer(&answer, &entry.answer) {
            return Ok(Verdict::No(index as u64 + 1));
        }
    }
    Ok(Verdict::Yes)
}
