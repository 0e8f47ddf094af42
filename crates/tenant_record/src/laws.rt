// What follows for a tenant whose slots are attended.
ghost use Rattle.std.specs.Prelude.{ℕ, ◌≡◌};
ghost use Rattle.job_language.specs.Tenant.{IsValidTenant};
ghost use Rattle.tenant_model.specs.declared.rows.Phase.TheVariants.{Live};
ghost use Rattle.tenant_model.specs.State.{row};
ghost use Rattle.tenant_record.specs.Cell.{CellData, IsAttended, IsRight, state_of};
ghost use Rattle.tenant_record.specs.Attended.{HasMover};

/// As long as a row is on a slot of a tenant whose slots with rows are out, somebody has the pass of a
/// slot that can move: the rows never wait for a slot that nobody moves, nor for each other. It does
/// nothing: its contract is the law.
#[tactic(auto, using(crate::proofs::Attending::has_mover))]
pub fn some_holder_can_move()
    ensures moves { (c : CellData) → IsRight c → IsValidTenant c.config → IsAttended c
        → (n slot height : ℕ) → (row (state_of c).rows n).phase ≡ Live slot height → HasMover c }
{}
