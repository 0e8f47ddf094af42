// Laws over the code of functions.
ghost use Rattle.std.specs.Prelude.{ℕ, ◌≤◌, Bool, List};
ghost use Rattle.job_language.specs.Program.{IsValidProc};
ghost use Rattle.job_language.specs.declared.instructions.Instr.{Instr};
ghost use Rattle.job_step.specs.declared.frames.Frame.{Frame};
ghost use Rattle.job_step.specs.Run.{run_of};
ghost use Rattle.source_language.specs.declared.syntax.Function.{Function};
ghost use Rattle.source_language.specs.Meaning.{Point};
ghost use Rattle.job_compiler.specs.Code.{function_code};
ghost use Rattle.job_compiler.specs.Compiled.{IsFunction, IsCompiled};
ghost use Rattle.job_compiler.specs.Traces.{DoesTheSame};
ghost use Rattle.job_compiler.specs.Colours.{IsColoured, BeginsWith};
ghost use Rattle.job_compiler.specs.Runs.{RunFollows};
ghost use Rattle.job_compiler.specs.Worked.{SummedIsFunction, SummedIsValid, SummedGives10};

use job_step::runs_are_least;

/// The code of a function does the same as the function: the same shared operations, with the same
/// numbers, in the same order, with whatever answers. It does nothing: its contract is the law.
pub fn code_is_compiled()
    ensures { (f : Function) → IsFunction f → IsValidProc (function_code f)
        → IsCompiled f (function_code f) }
{}

/// A private run of a frame that does the same as a function ends at the function's next operation
/// or at its division by 0, or it yields after 1,000 instructions and the frame still does the same.
pub fn runs_follow()
    ensures { (procs : List (List Instr)) (slot width : ℕ) (p : Point) (f : Frame)
        → DoesTheSame procs slot width p f
        → RunFollows procs slot width p (run_of procs slot width f) }
{
    runs_are_least();
}

/// The same of code whose registers were chosen by others, and checked: the function may then have
/// any number of variables.
pub fn coloured_code_is_compiled()
    ensures { (f : Function) → IsFunction f
        → (instrs : List Instr) (size : ℕ) (c : ℕ → ℕ → ℕ) (live : ℕ → ℕ → Bool)
        → 2 ≤ size → IsColoured size (function_code f) instrs c live → BeginsWith c live
        → IsCompiled f instrs }
{}

/// The sum of the numbers below 5 is a function with valid code, and gives 10.
pub fn worked_example()
    ensures function { SummedIsFunction }
    ensures valid { SummedIsValid }
    ensures value { SummedGives10 }
{}
