//! The law of serial values: a serial job that completes has its serial value, however it was scheduled.
#![tactic(auto)]

ghost use Rattle.std.specs.Prelude.{◌≤◌, List};
ghost use Rattle.job_language.specs.declared.steps.Step.{Step};
ghost use Rattle.job_language.specs.declared.tenants.Tenant.{Tenant};
ghost use Rattle.job_language.specs.declared.tenants.TheConstants.{MAX_SLOTS};
ghost use Rattle.tenant_model.specs.State.{empty};
ghost use Rattle.serial_law.specs.Worked.{FibIsValid, FibIsSerial, FibIsJob1, FibCompletesWith8};
ghost use Rattle.serial_law.specs.SerialValues.{KeepsSerialValues};

/// For every sequence of steps of a tenant, a serial job that is complete has its serial value. It
/// does nothing: its contract is the law.
pub fn serial_values()
    ensures keeps { (c : Tenant) (xs : List Step) → c.slots ≤ MAX_SLOTS
        → KeepsSerialValues (empty c) xs }
{}

/// The sixth Fibonacci number meets what the law asks for: its job is valid and serial, an ask of one
/// reserved slot brings it, and after 85 advances it is complete with 8. It does nothing: its contract
/// is the example.
#[tactic(auto, using(crate::proofs::Worked::fib_is_valid_holds, crate::proofs::Worked::fib_is_serial_computes, crate::proofs::Worked::fib_is_job_1_computes, crate::proofs::Worked::fib_completes_with_8_computes))]
pub fn worked_example()
    ensures valid { FibIsValid }
    ensures serial { FibIsSerial }
    ensures brought { FibIsJob1 }
    ensures complete { FibCompletesWith8 }
{}
