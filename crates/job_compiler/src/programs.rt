// The program of a list of functions.
ghost use Rattle.std.specs.Prelude.{IsTrue, ◌≡◌, ◌≢◌, ◌↔◌, ◌<◌, ◌≤◌, Err, length, map, IfOk, IfErr, OnOk};
ghost use Rattle.std.specs.List.{All};
ghost use Rattle.job_language.specs.Program.{Calls};
ghost use Rattle.job_compiler.specs.Code.{function_code};
ghost use Rattle.job_compiler.specs.Programs.{FitsProgram, HasCount, IsCompiledProgram, IsRefusedProgram, IsWrong, MakeProgram};

use crate::compile::compile_in;
use crate::errors::ProgramError;
use crate::memory::{Memory, ProgramMemory};
use job_language::{Instr, MAX_PROCS, Proc, Program};
use source_language::Function;
use std::alloc::Global;

/// The program of functions, numbered from 0: the root runs the first one. Each of its procedures
/// does the same as the function of its number.
pub fn compile_program(alloc: Global, functions: &[Function]) -> Result<Program, ProgramError>
    ensures code { IfOk result (λ program. program ≡ map function_code functions.now) }
    ensures compiled { IfOk result (IsCompiledProgram functions.now) }
    ensures accepted { OnOk result (MakeProgram functions.now) }
    ensures refused { IfErr result (IsRefusedProgram functions.now) }
{
    let Ok(memory) = ProgramMemory::new(alloc, functions.len()) else {
        return Err(ProgramError::NoMemory);
    };
    match Program::new(alloc, compile_procs(memory, functions)?) {
        Ok(program) => Ok(program),
        Err(_) => Err(ProgramError::NoMemory),
    }
}

/// The procedures of a program, in memory that is there for them.
pub fn compile_procs(
    memory: ProgramMemory,
    functions: &[Function],
) -> Result<Vec<Proc>, ProgramError>
    requires { length functions.now ≤ memory }
    ensures code { IfOk result (λ procs. procs.items ≡ map function_code functions.now) }
    ensures accepted { OnOk result (MakeProgram functions.now) }
    ensures refused { IfErr result (IsRefusedProgram functions.now) }
    ensures memory { result ≢ Err ProgramError.NoMemory }
{
    if functions.is_empty() || functions.len() > MAX_PROCS {
        return Err(ProgramError::Count);
    }
    let (mut each, mut procs) = memory.parts();
    for (number, function) in functions.iter().enumerate() {
        let memory = each.pop().unwrap();
        match compile_one(memory, functions.len(), number, function) {
            Ok(proc) => procs.push(proc).unwrap(),
            Err(error) => return Err(error),
        }
    }
    Ok(procs)
}

// The procedure of the function of that number, in a program of `procs`.
fn compile_one(
    memory: Memory,
    procs: usize,
    number: usize,
    function: &Function,
) -> Result<Proc, ProgramError>
    ensures code { IfOk result (λ proc. proc ≡ function_code function.now) }
    ensures fits { OnOk result (FitsProgram procs function.now) }
    ensures wrong { IfErr result (IsWrong procs function.now number) }
{
    match compile_in(memory, function) {
        Ok(proc) => {
            if are_calls(procs, proc.instrs()) {
                Ok(proc)
            } else {
                Err(ProgramError::NoProcedure(number))
            }
        }
        Err(refusal) => Err(ProgramError::Refused(number, refusal)),
    }
}

/// Whether each procedure that is named is there, in a program of `procs`.
pub fn are_calls(procs: usize, instrs: &[Instr]) -> bool
    ensures { IsTrue result ↔ All (Calls procs) instrs.now }
{
    for instr in instrs {
        if !is_call(procs, instr) {
            return false;
        }
    }
    true
}

fn is_call(procs: usize, instr: &Instr) -> bool
    ensures { IsTrue result ↔ Calls procs instr.now }
{
    match *instr {
        Instr::Spawn(_, p, _, _) => usize::from(p) < procs,
        Instr::Post(p, _, _) => usize::from(p) < procs,
        Instr::Isolate(_, p, _, _) => usize::from(p) < procs,
        _ => true,
    }
}
