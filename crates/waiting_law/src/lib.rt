//! The law of waiting rows: they never wait for each other in a circle.
#![tactic(auto)]

ghost use Rattle.std.specs.Prelude.{◌≡◌, ◌≤◌, ℕ, List};
ghost use Rattle.job_language.specs.declared.steps.Step.{Step};
ghost use Rattle.job_language.specs.declared.tenants.Tenant.{Tenant};
ghost use Rattle.job_language.specs.declared.tenants.TheConstants.{MAX_SLOTS};
ghost use Rattle.tenant_model.specs.declared.rows.Phase.TheVariants.{Live};
ghost use Rattle.tenant_model.specs.Solo.{after};
ghost use Rattle.tenant_model.specs.State.{empty, row};
ghost use Rattle.waiting_law.specs.Waiting.{SomeMoves};

/// After any sequence of steps of a tenant, as long as a row is on a slot, some slot with rows on it
/// can move: no circle of rows waits for itself. It does nothing: its contract is the law.
#[tactic(auto, using(crate::proofs::Waiting::some_moves_after))]
pub fn no_circle_waits()
    ensures moves { (c : Tenant) (xs : List Step) → c.slots ≤ MAX_SLOTS → c.reserved ≤ c.slots
        → (n slot height : ℕ) → (row (after (empty c) xs).rows n).phase ≡ Live slot height
        → SomeMoves (after (empty c) xs) }
{}
