// The procedure of a function whose registers are chosen.
ghost use Rattle.std.specs.Prelude.{◌≡◌, ◌+◌, ◌≤◌, Err, [], length, count_by, IfOk, IfErr, IfSome, IsOk, vec_capacity};
ghost use Rattle.source_language.specs.declared.syntax.Function.{Function};
ghost use Rattle.job_compiler.specs.Code.{function_code};
ghost use Rattle.job_compiler.specs.Compiled.{IsCompiled, IsFunction};
ghost use Rattle.job_compiler.specs.Refusals.{Compiles, HasCode};
ghost use Rattle.register_choice.specs.Names.{NamesTheSame};
ghost use Rattle.register_choice.specs.Refusals.{IsFirstCrowd, IsWithoutChoice};
ghost use Rattle.register_choice.specs.declared.compile.ChoiceRefusal.{ChoiceRefusal};

use crate::check::is_coloured;
use crate::choose::choose;
use crate::liveness::liveness;
use crate::memory::ChoiceMemory;
use crate::rename::rename;
use job_compiler::{
    Refusal, VirtualCode, code_in, code_is_compiled, coloured_code_is_compiled, is_valid_proc,
    plain_proc,
};
use job_language::{Instr, Proc, REGISTERS};
use source_language::Function;
use std::alloc::Global;

/// A place of the code over virtual registers, and which of these are read later from there on: more
/// than a frame has registers.
#[derive(Clone, Copy)]
pub struct Crowd {
    pub place: usize,
    pub live: [bool; 256],
}

/// Why a function has no procedure.
#[derive(Clone, Copy)]
pub enum ChoiceRefusal {
    Refused(Refusal),
    /// The first place where too many are alive at once.
    Crowded(Crowd),
    /// Nowhere too many are alive at once, and still no choice was found.
    NoChoice,
}

/// Why a function is not compiled.
#[derive(Clone, Copy)]
pub enum ChoiceError {
    /// An allocation failed.
    NoMemory,
    Refused(ChoiceRefusal),
}

/// The procedure of a function, of which several variables may be in the same register, one after
/// another. Memory is taken once, before anything else.
pub fn compile_function(alloc: Global, function: &Function) -> Result<Proc, ChoiceError>
    ensures compiled { IfOk result (IsCompiled function.now) }
    ensures calls { IfOk result (NamesTheSame function.now) }
    ensures refused { (e : ChoiceRefusal) → result ≡ Err (ChoiceError.Refused e)
        → IsWithoutChoice function.now e }
{
    let Ok(memory) = ChoiceMemory::new(alloc) else {
        return Err(ChoiceError::NoMemory);
    };
    match compile_in(memory, function) {
        Ok(proc) => Ok(proc),
        Err(refusal) => Err(ChoiceError::Refused(refusal)),
    }
}

/// The procedure of a function, in memory that is there for it. A function that compiles as it stands
/// is never refused.
pub fn compile_in(memory: ChoiceMemory, function: &Function) -> Result<Proc, ChoiceRefusal>
    ensures compiled { IfOk result (IsCompiled function.now) }
    ensures calls { IfOk result (NamesTheSame function.now) }
    ensures accepted { Compiles function.now → IsOk result }
    ensures refused { IfErr result (IsWithoutChoice function.now) }
{
    code_is_compiled();
    let ChoiceMemory {
        code,
        plain,
        instrs,
        rows,
        colours,
    } = memory;
    match code_in(code, function) {
        Ok(code) => {
            if let Some(proc) = plain_proc(&code, plain) {
                return Ok(proc);
            }
            let live = liveness(rows, code.instrs());
            match chosen(&code, &live, colours, instrs) {
                Some(proc) => Ok(proc),
                None => Err(without_choice(&live)),
            }
        }
        Err(refusal) => Err(ChoiceRefusal::Refused(refusal)),
    }
}

// The procedure over registers that are chosen, if the check confirms the choice.
fn chosen(
    code: &VirtualCode,
    live: &[[bool; 256]],
    colours: Vec<[u8; 256]>,
    memory: Vec<Instr>,
) -> Option<Proc>
    requires uncoloured { colours.items ≡ [] }
    requires colours { length code.now + 1 ≤ vec_capacity colours }
    requires empty { memory.items ≡ [] }
    requires room { length code.now ≤ vec_capacity memory }
    ensures compiled { IfSome result (λ proc. (f : Function) → IsFunction f
        → function_code f ≡ code.now → IsCompiled f proc) }
    ensures calls { IfSome result (λ proc. (f : Function) → function_code f ≡ code.now
        → HasCode f → NamesTheSame f proc) }
{
    coloured_code_is_compiled();
    let colours = choose(colours, code.instrs(), live);
    if !is_coloured(code, &colours, live) {
        return None;
    }
    let instrs = rename(code, &colours, memory)?;
    if is_valid_proc(&instrs) {
        Some(Proc::new(instrs))
    } else {
        None
    }
}

// The first place where too many are alive at once.
fn without_choice(live: &[[bool; 256]]) -> ChoiceRefusal
    ensures { IsFirstCrowd live.now result }
{
    for (place, row) in live.iter().enumerate() {
        if count(row) > REGISTERS {
            return ChoiceRefusal::Crowded(Crowd { place, live: *row });
        }
    }
    ChoiceRefusal::NoChoice
}

fn count(row: &[bool; 256]) -> usize
    ensures { result ≡ count_by (λ b. b) row.now }
{
    row.iter().filter(|live| **live).count()
}
