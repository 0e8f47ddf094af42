// Procedures and programs, valid by their types.
ghost use Rattle.std.specs.Prelude.{◌≡◌, ◌<◌, ◌≤◌, length, slice_get, option_copied, IfSome, IfOk};
ghost use Rattle.job_language.specs.Program.{IsValidProc, IsValidProgram};

use crate::instructions::Instr;
use std::alloc::{AllocError, Global};
use std::marker::Model;
use std::sync::Arc;

/// How many procedures a program may have; it has at least one.
pub const MAX_PROCS: usize = 16;

/// How many instructions a procedure may have; it has at least one.
pub const MAX_INSTRS: usize = 256;

/// The instructions of a procedure, numbered from 0. The last one is a `ret` or a `jmp`, and each
/// jump leads to an instruction of the same procedure.
#[derive(Drop)]
pub struct Proc {
    instrs: Vec<Instr>,
}

impl Model for Proc {
    ghost use Rattle.std.specs.Prelude.{List};
    ghost use Rattle.job_language.specs.declared.instructions.Instr.{Instr};

    ghost Value = { List Instr };

    ghost use Rattle.job_language.specs.Program.{IsValidProc};

    ghost view = { λ p. p.instrs.items };

    ghost invariant = { λ p. IsValidProc p.instrs.items };
}

impl Proc {
    /// A procedure of these instructions.
    pub fn new(instrs: Vec<Instr>) -> Proc
        requires { IsValidProc instrs.items }
        ensures { result ≡ instrs.items }
    {
        Proc { instrs }
    }

    /// Its instructions, in order.
    pub fn instrs(&self) -> &[Instr]
        ensures value { result.now ≡ self.now }
        ensures valid { IsValidProc self.now }
    {
        self.instrs.as_slice()
    }
}

/// A shared handle on the procedures of a job, numbered from 0; procedure 0 is the root's. Each
/// procedure that an instruction names is there.
#[derive(Drop)]
pub struct Program {
    procs: Arc<Vec<Proc>>,
}

impl Model for Program {
    ghost use Rattle.std.specs.Prelude.{List};
    ghost use Rattle.std.specs.Arc.{arc_value};
    ghost use Rattle.job_language.specs.declared.instructions.Instr.{Instr};

    ghost Value = { List (List Instr) };

    ghost use Rattle.job_language.specs.Program.{IsValidProgram};

    ghost view = { λ p. (arc_value p.procs).items };

    ghost invariant = { λ p. IsValidProgram (arc_value p.procs).items };
}

impl Program {
    /// A program of these procedures.
    pub fn new(alloc: Global, procs: Vec<Proc>) -> Result<Program, AllocError>
        requires { IsValidProgram procs.items }
        ensures { IfOk result (λ p. p ≡ procs.items) }
    {
        Ok(Program {
            procs: Arc::new(alloc, procs)?,
        })
    }

    /// Its procedures, in order.
    pub fn procs(&self) -> &[Proc]
        ensures value { result.now ≡ self.now }
        ensures valid { IsValidProgram self.now }
    {
        self.procs.as_slice()
    }

    /// Another handle on the same program. It fails only if the handles can't be counted any more.
    pub fn try_clone(&self) -> Result<Program, AllocError>
        ensures { IfOk result (λ p. p ≡ self.now) }
    {
        Ok(Program {
            procs: Arc::try_clone(&self.procs)?,
        })
    }
}
