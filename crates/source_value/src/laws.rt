// A law over jobs of sources.
ghost use Rattle.std.specs.Prelude.{◌≡◌, ◌≤◌, ℕ, ℤ, List};
ghost use Rattle.job_language.specs.declared.steps.Step.{Step};
ghost use Rattle.job_language.specs.declared.tenants.Tenant.{Tenant};
ghost use Rattle.job_language.specs.declared.tenants.TheConstants.{MAX_SLOTS};
ghost use Rattle.tenant_model.specs.State.{empty};
ghost use Rattle.source_tokens.specs.Givens.{Givens};
ghost use Rattle.source_value.specs.TextValues.{HasValue, KeepsTextValues};

use source_serial::jobs_have_source_values;

/// For every sequence of steps of a tenant: if the reply to a poll, collect or take says that a serial
/// job is complete, and the job's program is compiled from a text, then its value is the text's. It
/// does nothing: its contract is the law.
pub fn texts_have_values()
    ensures { (c : Tenant) (xs : List Step) → c.slots ≤ MAX_SLOTS → KeepsTextValues (empty c) xs }
{
    jobs_have_source_values();
}

/// A text has at most one value with the same arguments. It does nothing: its contract is the law.
pub fn texts_have_one_value()
    ensures { (gs : Givens) (text : List ℕ) (args : List ℤ) (v w : ℤ) → HasValue gs text args v
        → HasValue gs text args w → v ≡ w }
{}
