// A law over serial values.
ghost use Rattle.std.specs.Prelude.{◌≡◌, ℕ, ℤ, pos, List, Some, slice_index_or, FitsSigned};
ghost use Rattle.std.specs.Int.{w64};
ghost use Rattle.job_language.specs.declared.instructions.Instr.{Instr};
ghost use Rattle.source_language.specs.declared.syntax.Function.{Function};
ghost use Rattle.tenant_model.specs.Serial.{serial_value};
ghost use Rattle.source_serial.specs.SourceSerial.{source_value};
ghost use Rattle.job_compiler.specs.Programs.{IsCompiledProgram};
ghost use Rattle.source_serial.specs.Agree.{KeepsSourceValues};
ghost use Rattle.std.specs.Prelude.{◌≤◌};
ghost use Rattle.job_language.specs.declared.steps.Step.{Step};
ghost use Rattle.job_language.specs.declared.tenants.Tenant.{Tenant};
ghost use Rattle.job_language.specs.declared.tenants.TheConstants.{MAX_SLOTS};
ghost use Rattle.tenant_model.specs.State.{empty};

use serial_law::serial_values;

/// The serial value of a compiled program is that of its source: each has one exactly if the other
/// has it. It does nothing: its contract is the law.
pub fn source_values()
    ensures enough { (fs : List Function) (procs : List (List Instr)) (args : List ℤ)
        → IsCompiledProgram fs procs → ((k : ℕ) → FitsSigned w64 (slice_index_or args k (pos 0)))
        → (n : ℕ) (v : ℤ) → source_value fs args n ≡ Some v
        → (left : ℕ) × (serial_value procs args left ≡ Some v) }
    ensures only { (fs : List Function) (procs : List (List Instr)) (args : List ℤ)
        → IsCompiledProgram fs procs → ((k : ℕ) → FitsSigned w64 (slice_index_or args k (pos 0)))
        → (left : ℕ) (v : ℤ) → serial_value procs args left ≡ Some v
        → (n : ℕ) × (source_value fs args n ≡ Some v) }
{}

/// For every sequence of steps of a tenant, a serial job that is complete, and whose program is
/// compiled, has the value of its source.
pub fn jobs_have_source_values()
    ensures { (c : Tenant) (xs : List Step) → c.slots ≤ MAX_SLOTS → KeepsSourceValues (empty c) xs }
{
    serial_values();
}
