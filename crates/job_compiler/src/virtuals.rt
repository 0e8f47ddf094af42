// Code over virtual registers, of which there may be more than a frame has.
ghost use Rattle.std.specs.Prelude.{◌≡◌, ◌<◌, ◌≤◌, [], ◌∷◌, ◌++◌, length, map, IfOk};
ghost use Rattle.job_compiler.specs.Virtual.{instr_of};

use job_language::{Group, Key, MAX_INSTRS};
use source_language::Operator;
use std::alloc::{AllocError, Global};
use std::marker::Model;

/// An instruction over virtual registers, which are numbered from 0.
#[derive(Clone, Copy)]
pub enum VirtualInstr {
    Set(u8, i64),
    Two(Operator, u8, u8, u8),
    Slot(u8),
    Width(u8),
    Jz(u8, u8),
    Jmp(u8),
    Spawn(Group, u8, u8, u8),
    Post(u8, u8, u8),
    Isolate(u8, u8, u8, u8),
    Wait(u8, u8, Group),
    Cancel(Group),
    Ask(u8),
    Load(u8, Key),
    Sum(u8, Key),
    Count(u8, Key),
    Store(Key, u8),
    Ret(u8),
}

/// Instructions over virtual registers, with memory for as many as a procedure may have.
#[derive(Drop)]
pub struct VirtualCode {
    instrs: Vec<VirtualInstr>,
}

impl Model for VirtualCode {
    ghost use Rattle.std.specs.Prelude.{◌≤◌, List, map, vec_capacity};
    ghost use Rattle.job_language.specs.declared.instructions.Instr.{Instr};
    ghost use Rattle.job_language.specs.declared.programs.TheConstants.{MAX_INSTRS};
    ghost use Rattle.job_compiler.specs.Virtual.{instr_of};

    ghost Value = { List Instr };

    ghost view = { λ p. map instr_of p.instrs.items };

    ghost invariant = { λ p. MAX_INSTRS ≤ vec_capacity p.instrs };
}

impl VirtualCode {
    /// No instructions.
    pub fn new(alloc: Global) -> Result<VirtualCode, AllocError>
        ensures { IfOk result (λ code. code ≡ []) }
    {
        Ok(VirtualCode {
            instrs: Vec::with_capacity(alloc, MAX_INSTRS)?,
        })
    }

    /// They, in order.
    pub fn instrs(&self) -> &[VirtualInstr]
        ensures { map instr_of result.now ≡ self.now }
    {
        self.instrs.as_slice()
    }

    /// How many there are.
    pub(crate) fn len(&self) -> usize
        ensures { result ≡ length self.now }
    {
        self.instrs.len()
    }

    /// The place of the next one.
    pub(crate) fn next(&self) -> u8
        requires { length self.now < MAX_INSTRS }
        ensures { result ≡ length self.now }
    {
        self.len() as u8
    }

    /// One more instruction.
    pub(crate) fn put(&mut self, instr: VirtualInstr)
        requires { length self.old < MAX_INSTRS }
        ensures { self.new ≡ self.old ++ instr_of instr ∷ [] }
    {
        self.instrs.push(instr).unwrap();
    }
}
