// Values in registers of their own, as long as there are enough.
ghost use Rattle.std.specs.Prelude.{◌≡◌, ◌<◌, List, IfOk, IfErr};
ghost use Rattle.std.specs.List.{All};
ghost use Rattle.job_language.specs.declared.instructions.Instr.{Instr};
ghost use Rattle.job_language.specs.Program.{Calls, IsValidProc};
ghost use Rattle.job_compiler.specs.Compiled.{IsCompiled, IsFunction};
ghost use Rattle.register_choice.specs.Keeping.{IsBetter};

use crate::compile::{ChoiceError, compile_function};
use job_compiler::are_calls;
use job_language::Proc;
use kept_values::{keep_best, kept_value_is_compiled};
use source_language::Function;
use std::alloc::{AllocError, Global};

/// How many values of a function get registers of their own at most.
pub(crate) const MOST_KEPT: u8 = 8;

// The procedure of a function that keeps one value more, if there is one that saves instructions and registers are
// enough for it.
fn with_one_more(
    alloc: Global,
    procs: usize,
    function: &mut Function,
) -> Result<Option<Proc>, AllocError>
    requires { IsFunction function.old }
    ensures { IfOk result (IsBetter procs function.old function.new) }
{
    kept_value_is_compiled();
    if !keep_best(alloc, function)? {
        return Ok(None);
    }
    match compile_function(alloc, function) {
        Ok(proc) => {
            if are_calls(procs, proc.instrs()) {
                Ok(Some(proc))
            } else {
                Ok(None)
            }
        }
        Err(ChoiceError::NoMemory) => Err(AllocError),
        Err(ChoiceError::Refused(_)) => Ok(None),
    }
}

/// The procedure of a function that keeps as many of the values that it reads as there are registers for, those first
/// that save most, but no more than so many. The function is no longer what it was.
pub(crate) fn with_kept(
    alloc: Global,
    procs: usize,
    function: &mut Function,
    values: u8,
    plain: Proc,
) -> Result<Proc, AllocError>
    requires function { IsFunction function.old }
    requires compiled { IsCompiled function.old plain }
    requires valid { IsValidProc plain }
    requires calls { All (Calls procs) plain }
    ensures compiled { IfOk result (IsCompiled function.old) }
    ensures valid { IfOk result IsValidProc }
    ensures calls { IfOk result (All (Calls procs)) }
{
    if values == 0 {
        return Ok(plain);
    }
    match with_one_more(alloc, procs, function)? {
        Some(proc) => with_kept(alloc, procs, function, values - 1, proc),
        None => Ok(plain),
    }
}
