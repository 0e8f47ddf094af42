// The law over functions that compute a value again.
ghost use Rattle.std.specs.Prelude.{ℕ, List};
ghost use Rattle.job_language.specs.declared.instructions.Instr.{Instr};
ghost use Rattle.source_language.specs.declared.syntax.Function.{Function};
ghost use Rattle.job_compiler.specs.Compiled.{IsFunction, IsCompiled};
ghost use Rattle.values_again.specs.Again.{ReadsAgain};

/// What is compiled from a function that computes the value of a variable again is compiled from the function that does
/// not. It does nothing: its contract is the law.
pub fn again_is_compiled()
    ensures { (v : ℕ) (f f' : Function) (instrs : List Instr) → IsFunction f → ReadsAgain v f f'
        → IsCompiled f' instrs → IsCompiled f instrs }
{}
