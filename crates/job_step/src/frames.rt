// Frames: how far a task has come in its program.
ghost use Rattle.std.specs.Prelude.{◌≡◌, ◌+◌, ◌<◌, false, IfSome};
ghost use Rattle.job_language.specs.Program.{is_last};
ghost use Rattle.job_step.specs.declared.frames.TheConstants.{LAST_PLACE};
ghost use Rattle.job_step.specs.Frame.{at_place, instr_at, new_frame, write_and_step};

use job_language::{Instr, MAX_INSTRS, Program, REGISTERS, Register};

/// The last place that an instruction can have in a procedure. Places count from 0.
pub const LAST_PLACE: u8 = 255;

const _: () = prove!(LAST_PLACE as usize + 1 == MAX_INSTRS);

/// The state of a row's task: a procedure of its job, the place of the next instruction there, and
/// the registers.
#[derive(Clone, Copy, Debug, PartialEq, Eq)]
pub struct Frame {
    // First, so that a copy of a frame has no gap before the registers.
    pub registers: [i64; REGISTERS],
    pub procedure: u8,
    pub place: u8,
}

impl Frame {
    /// A frame at the beginning of a procedure, with two arguments in its first two registers and 0
    /// in the others.
    pub fn new(procedure: u8, first: i64, second: i64) -> Frame
        ensures { result ≡ new_frame procedure first second }
    {
        Frame {
            procedure,
            place: 0,
            registers: [first, second, 0, 0, 0, 0, 0, 0],
        }
    }

    /// The frame at the next place of its procedure.
    pub fn next(&self) -> Frame
        requires { self.now.place < LAST_PLACE }
        ensures { result ≡ at_place self.now (self.now.place + 1) }
    {
        let mut next = *self;
        next.place += 1;
        next
    }

    /// The frame at the next place of its procedure, with one register changed.
    pub fn write_and_step(&self, register: Register, value: i64) -> Frame
        requires { self.now.place < LAST_PLACE }
        ensures { result ≡ write_and_step self.now register value }
    {
        let mut written = *self;
        written.registers[register.index()] = value;
        written.place += 1;
        written
    }

    /// The instruction of a program that comes next.
    pub fn instr_in(&self, program: &Program) -> Option<Instr>
        ensures value { result ≡ instr_at program.now self.now }
        // Only a `ret` or a `jmp` ends a procedure, so another instruction has one after it.
        ensures next { IfSome result (λ i. is_last i ≡ false → self.now.place < LAST_PLACE) }
    {
        let procs = program.procs();
        let procedure = usize::from(self.procedure);
        if procedure >= procs.len() {
            return None;
        }
        let instrs = procs[procedure].instrs();
        let place = usize::from(self.place);
        if place >= instrs.len() {
            return None;
        }
        Some(instrs[place])
    }
}
