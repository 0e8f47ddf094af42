// The job of a source.
ghost use Rattle.std.specs.Prelude.{◌≡◌, List, IfOk, IfErr, map};
ghost use Rattle.source_language.specs.declared.syntax.Function.{Function};
ghost use Rattle.register_choice.specs.Programs.{IsNoProgram};
ghost use Rattle.source_tokens.specs.Givens.{Givens, view_given};
ghost use Rattle.source_reader.specs.Source.{Says};
ghost use Rattle.source_reader.specs.Trees.{function_tree_of};
ghost use Rattle.job_compiler.specs.Programs.{IsCompiledProgram};
ghost use Rattle.arena_compile.specs.Jobs.{IsJobOf, IsErrorOf};

use crate::errors::{CompileError, CompileFault, fault_of};
use job_language::{Fuel, Job, MAX_FUEL, Program};
use register_choice::{ChoiceProgramError, compile_program};
use source_language::Function;
use source_reader::{SourceError, function_place, read_source};
use source_tokens::Given;
use std::alloc::Global;

/// The job of a source with these arguments, and with all the fuel that a job may have. Its params have the numbers that
/// they are given.
pub fn job_of(
    alloc: Global,
    args: [i64; 2],
    givens: &[Given],
    text: &[u8],
) -> Result<Job, CompileError>
    ensures made { IfOk result (IsJobOf args (map view_given givens.now) text.now) }
    ensures refused { IfErr result (IsErrorOf (map view_given givens.now) text.now) }
{
    match read_source(alloc, givens, text) {
        Ok(mut functions) => job_with(alloc, args, givens, text, functions.as_mut_slice()),
        Err(SourceError::Memory) => Err(CompileError::Memory),
        Err(SourceError::Fault(fault)) => Err(CompileError::Fault(CompileFault::Source(fault))),
    }
}

/// The job of the functions that a text says.
fn job_with(
    alloc: Global,
    args: [i64; 2],
    givens: &[Given],
    text: &[u8],
    functions: &mut [Function],
) -> Result<Job, CompileError>
    requires { Says (map view_given givens.now) text.now (map function_tree_of functions.old) }
    ensures made { IfOk result (IsJobOf args (map view_given givens.now) text.now) }
    ensures refused { IfErr result (IsErrorOf (map view_given givens.now) text.now) }
{
    let program = program_of(alloc, functions, givens, text)?;
    let fuel = most_fuel();
    Ok(Job {
        program,
        args,
        fuel,
    })
}

/// All the fuel that a job may have.
fn most_fuel() -> Fuel
    ensures { result ≡ MAX_FUEL }
{
    Fuel::new(MAX_FUEL).unwrap()
}

/// The program of functions. A refusal has the place of its function.
fn program_of(
    alloc: Global,
    functions: &mut [Function],
    _givens: &[Given],
    text: &[u8],
) -> Result<Program, CompileError>
    requires { Says (map view_given _givens.now) text.now (map function_tree_of functions.old) }
    ensures compiled { IfOk result (IsCompiledProgram functions.old) }
    ensures refused { IfErr result (IsErrorOf (map view_given _givens.now) text.now) }
{
    match compile_program(alloc, functions) {
        Ok(program) => Ok(program),
        Err(error) => Err(error_of(alloc, error, text)),
    }
}

/// Why functions that a text says make no program, with the place of the one that is refused.
fn error_of(alloc: Global, error: ChoiceProgramError, text: &[u8]) -> CompileError
    ensures { (gs : Givens) (functions : List Function) → Says gs text.now (map function_tree_of functions)
        → IsNoProgram functions error → IsErrorOf gs text.now result }
{
    match error {
        ChoiceProgramError::NoMemory => CompileError::Memory,
        ChoiceProgramError::Count => match function_place(alloc, text, 0) {
            Ok(place) => CompileError::Fault(CompileFault::Count(place)),
            Err(_) => CompileError::Memory,
        },
        ChoiceProgramError::Refused(number, refusal) => {
            match function_place(alloc, text, number) {
                Ok(place) => CompileError::Fault(fault_of(number, refusal, place)),
                Err(_) => CompileError::Memory,
            }
        }
        ChoiceProgramError::NoProcedure(number) => match function_place(alloc, text, number) {
            Ok(place) => CompileError::Fault(CompileFault::NoProcedure(place)),
            Err(_) => CompileError::Memory,
        },
    }
}
