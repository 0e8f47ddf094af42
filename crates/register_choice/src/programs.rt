// The program of a list of functions whose registers are chosen.
ghost use Rattle.std.specs.Prelude.{◌≡◌, [], ◌∷◌, ◌++◌, length, IfOk, IfErr, OnOk};
ghost use Rattle.std.specs.List.{All, AllZip};
ghost use Rattle.job_language.specs.Program.{Calls, IsValidProc};
ghost use Rattle.job_compiler.specs.Compiled.{IsCompiled};
ghost use Rattle.job_compiler.specs.Programs.{IsCompiledProgram};
ghost use Rattle.register_choice.specs.Programs.{IsNoProgram, IsWrong};

use crate::again::with_values_again;
use crate::compile::{ChoiceError, ChoiceRefusal, compile_function};
use crate::keeping::{MOST_KEPT, with_kept};
use job_compiler::are_calls;
use job_language::{MAX_PROCS, Proc, Program};
use source_language::Function;
use std::alloc::Global;

/// Why functions make no program; a number is that of a function, from 0.
#[derive(Clone, Copy)]
pub enum ChoiceProgramError {
    /// An allocation failed.
    NoMemory,
    /// There is no function, or there are more than 16.
    Count,
    Refused(usize, ChoiceRefusal),
    /// It names a procedure that is not there.
    NoProcedure(usize),
}

/// The program of functions, numbered from 0: the root runs the first one. Each of its procedures
/// does the same as the function of its number, over registers that are chosen where it needs more
/// than there are. Values that it computes more than once, and numbers, have registers of their own where some are
/// left: the functions are changed for that, and are of no use afterwards.
pub fn compile_program(
    alloc: Global,
    functions: &mut [Function],
) -> Result<Program, ChoiceProgramError>
    ensures compiled { IfOk result (IsCompiledProgram functions.old) }
    ensures refused { IfErr result (IsNoProgram functions.old) }
{
    if functions.is_empty() || functions.len() > MAX_PROCS {
        return Err(ChoiceProgramError::Count);
    }
    let procs = compile_all(alloc, functions)?;
    match Program::new(alloc, procs) {
        Ok(program) => Ok(program),
        Err(_) => Err(ChoiceProgramError::NoMemory),
    }
}

// The procedures, one after another.
fn compile_all(alloc: Global, functions: &mut [Function]) -> Result<Vec<Proc>, ChoiceProgramError>
    ensures compiled { IfOk result (λ procs. AllZip IsCompiled functions.old procs.items) }
    ensures valid { IfOk result (λ procs. All IsValidProc procs.items) }
    ensures calls { IfOk result (λ procs. All (All (Calls (length functions.old))) procs.items) }
    ensures refused { IfErr result (IsNoProgram functions.old) }
{
    let count = functions.len();
    let mut procs = Vec::new(alloc);
    for (number, function) in functions.iter_mut().enumerate() {
        match compile_one(alloc, count, number, function) {
            Ok(proc) => add(&mut procs, proc)?,
            Err(error) => return Err(error),
        }
    }
    Ok(procs)
}

// One more procedure.
fn add(procs: &mut Vec<Proc>, proc: Proc) -> Result<(), ChoiceProgramError>
    ensures items { OnOk result (procs.new.items ≡ procs.old.items ++ proc ∷ []) }
    ensures memory { IfErr result (λ e. e ≡ ChoiceProgramError.NoMemory) }
{
    match procs.push(proc) {
        Ok(()) => Ok(()),
        Err(_) => Err(ChoiceProgramError::NoMemory),
    }
}

// The procedure of the function of that number, in a program of `procs`.
fn compile_one(
    alloc: Global,
    procs: usize,
    number: usize,
    function: &mut Function,
) -> Result<Proc, ChoiceProgramError>
    ensures compiled { IfOk result (IsCompiled function.old) }
    ensures valid { IfOk result IsValidProc }
    ensures calls { IfOk result (All (Calls procs)) }
    ensures wrong { IfErr result (IsWrong procs function.old number) }
{
    match compile_function(alloc, function) {
        Ok(proc) => {
            if are_calls(procs, proc.instrs()) {
                match with_kept(alloc, procs, function, MOST_KEPT, proc) {
                    Ok(best) => Ok(best),
                    Err(_) => Err(ChoiceProgramError::NoMemory),
                }
            } else {
                Err(ChoiceProgramError::NoProcedure(number))
            }
        }
        Err(ChoiceError::NoMemory) => Err(ChoiceProgramError::NoMemory),
        Err(ChoiceError::Refused(refusal)) => match with_values_again(
            alloc, procs, function, &refusal,
        ) {
            Ok(Some(proc)) => Ok(proc),
            Ok(None) => Err(ChoiceProgramError::Refused(number, refusal)),
            Err(_) => Err(ChoiceProgramError::NoMemory),
        },
    }
}
