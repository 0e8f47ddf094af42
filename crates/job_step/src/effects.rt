// What one instruction does to a frame by itself.
ghost use Rattle.std.specs.Prelude.{◌≡◌, ◌<◌, false};
ghost use Rattle.job_language.specs.Program.{is_last};
ghost use Rattle.job_step.specs.declared.frames.TheConstants.{LAST_PLACE};
ghost use Rattle.job_step.specs.Frame.{effect};

use crate::frames::Frame;
use crate::runs::{Next, execute};
use job_language::Instr;

/// What an instruction does to a frame by itself.
#[derive(Clone, Copy, Debug)]
pub enum Effect {
    /// The frame after the instruction.
    Moves(Frame),
    /// It divides by zero, which is a fault of the job.
    DividesByZero,
    /// The instruction is shared: it touches more than its frame.
    IsShared,
}

/// What an instruction does to a frame by itself, on a slot, in an arena of `width` slots.
pub fn effect_on(frame: &Frame, instr: &Instr, slot: u8, width: u8) -> Effect
    requires { is_last instr.now ≡ false → frame.now.place < LAST_PLACE }
    ensures { result ≡ effect instr.now slot width frame.now }
{
    let procedure = frame.procedure;
    let mut registers = frame.registers;
    match execute(
        instr,
        slot,
        width,
        procedure,
        usize::from(frame.place),
        &mut registers,
    ) {
        Next::Place(place) => Effect::Moves(Frame {
            procedure,
            place: place as u8,
            registers,
        }),
        Next::DividesByZero => Effect::DividesByZero,
        Next::IsShared => Effect::IsShared,
    }
}
