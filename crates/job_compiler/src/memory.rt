// Memory for compiling, which is taken before anything is looked at.
ghost use Rattle.std.specs.Prelude.{◌≡◌, ◌≤◌, [], length, vec_capacity, IfOk};
ghost use Rattle.job_language.specs.declared.programs.TheConstants.{MAX_INSTRS};

use crate::virtuals::VirtualCode;
use job_language::{Instr, MAX_INSTRS, Proc};
use std::alloc::{AllocError, Global};
use std::marker::Model;

/// Memory for the longest procedure, and for its code over virtual registers.
#[derive(Drop)]
pub struct Memory {
    code: VirtualCode,
    instrs: Vec<Instr>,
    ghost no_code: { code ≡ [] },
    ghost no_instrs: { instrs.items ≡ [] },
    ghost room: { MAX_INSTRS ≤ vec_capacity instrs },
}

impl Memory {
    /// Takes it.
    pub fn new(alloc: Global) -> Result<Memory, AllocError> {
        Ok(Memory {
            code: VirtualCode::new(alloc)?,
            instrs: Vec::with_capacity(alloc, MAX_INSTRS)?,
        })
    }

    /// What it consists of.
    pub(crate) fn parts(self) -> (VirtualCode, Vec<Instr>)
        ensures code { result.0 ≡ [] }
        ensures instrs { result.1.items ≡ [] }
        ensures room { MAX_INSTRS ≤ vec_capacity result.1 }
    {
        (self.code, self.instrs)
    }
}

/// Memory for the procedures of a program.
#[derive(Drop)]
pub struct ProgramMemory {
    each: Vec<Memory>,
    procs: Vec<Proc>,
}

impl Model for ProgramMemory {
    ghost use Rattle.std.specs.Prelude.{◌≡◌, ◌≤◌, ℕ, [], length, vec_capacity};

    /// How many there may be.
    ghost Value = { ℕ };

    ghost view = { λ p. length p.each.items };

    ghost invariant = { λ p. (p.procs.items ≡ []) × (length p.each.items ≤ vec_capacity p.procs) };
}

impl ProgramMemory {
    /// Takes it, for that many procedures.
    pub fn new(alloc: Global, count: usize) -> Result<ProgramMemory, AllocError>
        ensures { IfOk result (λ memory. memory ≡ count) }
    {
        let mut each = Vec::new(alloc);
        for _ in 0..count {
            match each.push(Memory::new(alloc)?) {
                Ok(()) => (),
                Err(_) => return Err(AllocError),
            }
        }
        let procs = Vec::with_capacity(alloc, count)?;
        Ok(ProgramMemory { each, procs })
    }

    /// What it consists of.
    pub(crate) fn parts(self) -> (Vec<Memory>, Vec<Proc>)
        ensures each { length result.0.items ≡ self }
        ensures procs { result.1.items ≡ [] }
        ensures room { length result.0.items ≤ vec_capacity result.1 }
    {
        (self.each, self.procs)
    }
}
