// The laws over functions that keep values.
ghost use Rattle.std.specs.Prelude.{◌≤◌, List};
ghost use Rattle.job_language.specs.declared.instructions.Instr.{Instr};
ghost use Rattle.source_language.specs.declared.syntax.Function.{Function};
ghost use Rattle.job_compiler.specs.Compiled.{IsFunction, IsCompiled};
ghost use Rattle.kept_values.specs.Given.{IsGiven};
ghost use Rattle.kept_values.specs.Kept.{KeepsValue};

/// What is compiled from a function that gives values to further variables is compiled from the function that does
/// not. It does nothing: its contract is the law.
pub fn given_is_compiled()
    ensures { (f f' : Function) (instrs : List Instr) → IsFunction f → f.variables ≤ f'.variables
        → IsGiven f.variables f.body f'.body → IsCompiled f' instrs → IsCompiled f instrs }
{}

/// What is compiled from a function that keeps a value is compiled from the function that does not. It does nothing
/// either.
pub fn kept_value_is_compiled()
    ensures { (f f' : Function) (instrs : List Instr) → IsFunction f → KeepsValue f f'
        → IsCompiled f' instrs → IsCompiled f instrs }
{}
