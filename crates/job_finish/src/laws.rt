// What a tenant at rest has done.
ghost use Rattle.std.specs.Prelude.{◌≡◌, ◌<◌, ◌≤◌, ℕ, true, List};
ghost use Rattle.job_finish.specs.Quiet.{AllClosed, IsQuiet};
ghost use Rattle.job_language.specs.declared.steps.Step.{Step};
ghost use Rattle.job_language.specs.declared.tenants.Tenant.{Tenant};
ghost use Rattle.job_language.specs.declared.tenants.TheConstants.{MAX_SLOTS};
ghost use Rattle.tenant_model.specs.Asks.{has_outcome};
ghost use Rattle.tenant_model.specs.Solo.{after};
ghost use Rattle.tenant_model.specs.State.{State, empty};
ghost use Rattle.waiting_law.specs.Waiting.{NoneLive};

use waiting_law::no_circle_waits;

/// After any steps, if no slot of a tenant can move, no row is on a slot. If the tenant has a slot
/// for workers, no row is open then, and each job has an outcome. It does nothing: its contract is
/// the law.
pub fn quiet_tenants_are_done()
    ensures none_live { (c : Tenant) (xs : List Step) → c.slots ≤ MAX_SLOTS
        → c.reserved ≤ c.slots → IsQuiet (after (empty c) xs) → NoneLive (after (empty c) xs) }
    ensures closed { (s : State) → s.config.reserved < s.config.slots → NoneLive s → IsQuiet s
        → AllClosed s }
    ensures outcomes { (s : State) → AllClosed s → (j : ℕ) → has_outcome s.rows j ≡ true }
{
    no_circle_waits();
}
