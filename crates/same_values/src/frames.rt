// Whether two frames are the same.
ghost use Rattle.std.specs.Prelude.{◌≡◌, ◌↔◌, IsTrue};

use job_language::REGISTERS;
use job_step::Frame;

fn are_same_registers(registers: &[i64; REGISTERS], others: &[i64; REGISTERS]) -> bool
    ensures { IsTrue result ↔ (registers.now ≡ others.now) }
{
    registers == others
}

/// Whether two frames are at the same instruction, with the same registers.
pub fn is_same_frame(frame: &Frame, other: &Frame) -> bool
    ensures { IsTrue result ↔ (frame.now ≡ other.now) }
{
    frame.procedure == other.procedure
        && frame.place == other.place
        && are_same_registers(&frame.registers, &other.registers)
}
