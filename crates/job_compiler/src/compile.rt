// The procedure of a function.
ghost use Rattle.std.specs.Prelude.{◌≡◌, ◌↔◌, ◌≤◌, Err, [], length, IfOk, IfErr, OnOk, IsOk, SomeIff, vec_capacity};
ghost use Rattle.job_language.specs.Program.{IsValidProc};
ghost use Rattle.job_compiler.specs.Code.{function_code};
ghost use Rattle.job_compiler.specs.Compiled.{IsCompiled};
ghost use Rattle.job_compiler.specs.Refusals.{HasCode, Compiles, IsRefused};
ghost use Rattle.job_compiler.specs.declared.errors.Refusal.{Refusal};

use crate::checks::{is_function, is_valid_proc};
use crate::emit::emit_function;
use crate::errors::{CompileError, Refusal};
use crate::memory::Memory;
use crate::narrow::narrow;
use crate::registers::stmt_low;
use crate::sizes::stmt_size;
use crate::virtuals::VirtualCode;
use job_language::{Instr, Proc};
use source_language::Function;
use std::alloc::Global;

/// The procedure of a function. Wherever it stands in a program, a new frame of it does the same as
/// the function: the same shared operations, with the same numbers, in the same order.
///
/// Memory is taken once, before anything else: `NoMemory` says that an allocation failed.
pub fn compile_function(alloc: Global, function: &Function) -> Result<Proc, CompileError>
    ensures code { IfOk result (λ proc. proc ≡ function_code function.now) }
    ensures compiled { IfOk result (IsCompiled function.now) }
    ensures accepted { OnOk result (Compiles function.now) }
    ensures refused { (e : Refusal) → result ≡ Err (CompileError.Refused e) → IsRefused function.now e }
{
    let Ok(memory) = Memory::new(alloc) else {
        return Err(CompileError::NoMemory);
    };
    match compile_in(memory, function) {
        Ok(proc) => Ok(proc),
        Err(refusal) => Err(CompileError::Refused(refusal)),
    }
}

/// The procedure of a function, in memory that is there for it. A function is refused by what it is,
/// and by the first reason that holds.
pub fn compile_in(memory: Memory, function: &Function) -> Result<Proc, Refusal>
    ensures code { IfOk result (λ proc. proc ≡ function_code function.now) }
    ensures compiled { IfOk result (IsCompiled function.now) }
    ensures accepted { IsOk result ↔ Compiles function.now }
    ensures refused { (e : Refusal) → (result ≡ Err e) ↔ IsRefused function.now e }
{
    let (code, instrs) = memory.parts();
    match code_in(code, function) {
        Ok(code) => match plain_proc(&code, instrs) {
            Some(proc) => Ok(proc),
            None => Err(Refusal::TooManyRegisters),
        },
        Err(refusal) => Err(refusal),
    }
}

/// The procedure with the same instructions, if they make one.
pub fn plain_proc(code: &VirtualCode, memory: Vec<Instr>) -> Option<Proc>
    requires empty { memory.items ≡ [] }
    requires room { length code.now ≤ vec_capacity memory }
    ensures { SomeIff result (IsValidProc code.now) code.now }
{
    match narrow(code, memory) {
        Some(instrs) => {
            if is_valid_proc(&instrs) {
                Some(Proc::new(instrs))
            } else {
                None
            }
        }
        None => None,
    }
}

/// The code of a function over virtual registers, in memory that is there for it.
pub fn code_in(memory: VirtualCode, function: &Function) -> Result<VirtualCode, Refusal>
    requires { memory ≡ [] }
    ensures code { IfOk result (λ code. code ≡ function_code function.now) }
    ensures accepted { OnOk result (HasCode function.now) }
    ensures refused { IfErr result (IsRefused function.now) }
{
    if !is_function(function) {
        return Err(Refusal::NoFunction);
    }
    if !stmt_low(&function.body, function.variables) {
        return Err(Refusal::TooManyValues);
    }
    match stmt_size(&function.body, function.variables) {
        Some(end) => {
            let mut code = memory;
            emit_function(&mut code, function, end);
            Ok(code)
        }
        None => Err(Refusal::TooLong),
    }
}
