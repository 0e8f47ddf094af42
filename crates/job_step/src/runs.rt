// Private runs: what a frame executes before it meets a shared instruction.
ghost use Rattle.std.specs.Prelude.{◌≡◌, ◌+◌, ◌<◌, ◌≤◌, [], ℕ, pos, List, length, false, slice_index_or, slice_set};
ghost use Rattle.std.specs.Int.{int_shl, int_shr, w64};
ghost use Rattle.job_language.specs.declared.instructions.Instr.{Instr};
ghost use Rattle.job_language.specs.Program.{IsValidProc, IsInRange, is_last};
ghost use Rattle.job_language.specs.declared.programs.TheConstants.{MAX_INSTRS};
ghost use Rattle.job_step.specs.declared.frames.TheConstants.{LAST_PLACE};
ghost use Rattle.job_step.specs.Frame.{effect, shift_count};
ghost use Rattle.job_step.specs.Run.{run_of};
ghost use Rattle.job_step.specs.InsideRun.{frame_of, effect_of, GoesWithin};

use crate::frames::Frame;
use job_language::{Instr, Program, REGISTERS, Register};

/// How many instructions a run executes at most.
pub const RUN_LIMIT: u32 = 1_000;

/// Why a private run ended.
#[derive(Clone, Copy)]
pub enum Stop {
    /// The next instruction is shared.
    Shared(Instr),
    /// It executed 1,000 instructions.
    Yield,
    /// Its last instruction divided by zero.
    Fault,
}

/// What a frame does by itself: `count` instructions lead from `start` to `end`. At a fault, which
/// counts, `end` is the frame before it.
#[derive(Clone, Copy)]
pub struct Run {
    pub start: Frame,
    pub end: Frame,
    pub count: u32,
    pub stop: Stop,
}

/// What follows an instruction that a frame executes by itself.
#[derive(Clone, Copy)]
pub(crate) enum Next {
    Place(usize),
    DividesByZero,
    IsShared,
}

/// The private run of a frame on a slot, in an arena of `width` slots. A frame that names no
/// instruction of the program has the run of no instruction that ends in a yield.
#[inline(always)]
pub fn run_private(program: &Program, start: Frame, slot: u8, width: u8) -> Run
    ensures run { result ≡ run_of program.now slot width start }
    // Only a `ret` or a `jmp` ends a procedure, so another shared instruction has one after it.
    ensures next { (i : Instr) → result.stop ≡ Stop.Shared i → is_last i ≡ false
        → result.end.place < LAST_PLACE }
{
    let mut end = start;
    let (count, stop) = run_frame(program, &mut end, slot, width);
    Run {
        start,
        end,
        count,
        stop,
    }
}

/// Leads a frame to the end of its private run. Answers how many instructions that executes, and
/// why it ends.
#[inline(always)]
fn run_frame(program: &Program, frame: &mut Frame, slot: u8, width: u8) -> (u32, Stop)
    ensures run { record { start = frame.old; end = frame.new; count = result.0; stop = result.1 }
        ≡ run_of program.now slot width frame.old }
    ensures next { (i : Instr) → result.1 ≡ Stop.Shared i → is_last i ≡ false
        → frame.new.place < LAST_PLACE }
{
    let procs = program.procs();
    let procedure = usize::from(frame.procedure);
    if procedure >= procs.len() {
        return (0, Stop::Yield);
    }
    let instrs = procs[procedure].instrs();
    if usize::from(frame.place) >= instrs.len() {
        return (0, Stop::Yield);
    }
    run_in(instrs, frame, slot, width)
}

/// Leads a frame that is at one of its procedure's instructions to the end of its private run.
#[inline(always)]
fn run_in(instrs: &[Instr], frame: &mut Frame, slot: u8, width: u8) -> (u32, Stop)
    requires valid { IsValidProc instrs.now }
    requires place { frame.old.place < length instrs.now }
    ensures run { (procs : List (List Instr))
        → slice_index_or procs frame.old.procedure [] ≡ instrs.now
        → record { start = frame.old; end = frame.new; count = result.0; stop = result.1 }
        ≡ run_of procs slot width frame.old }
    ensures next { (i : Instr) → result.1 ≡ Stop.Shared i → is_last i ≡ false
        → frame.new.place < LAST_PLACE }
{
    let procedure = frame.procedure;
    let mut place = usize::from(frame.place);
    for count in 0..RUN_LIMIT {
        let instr = &instrs[place];
        match execute(instr, slot, width, procedure, place, &mut frame.registers) {
            Next::Place(next) => place = next,
            Next::DividesByZero => {
                frame.place = place as u8;
                return (count + 1, Stop::Fault);
            }
            Next::IsShared => {
                frame.place = place as u8;
                return (count, Stop::Shared(*instr));
            }
        }
    }
    frame.place = place as u8;
    (RUN_LIMIT, Stop::Yield)
}

#[inline(always)]
pub(crate) fn execute(
    instr: &Instr,
    slot: u8,
    width: u8,
    procedure: u8,
    place: usize,
    values: &mut [i64; REGISTERS],
) -> Next
    requires { is_last instr.now ≡ false → place + 1 < MAX_INSTRS }
    ensures effect { effect instr.now slot width (frame_of procedure place values.old)
        ≡ effect_of procedure result values.new }
    ensures shared { result ≡ Next.IsShared → values.new ≡ values.old }
    ensures divides { result ≡ Next.DividesByZero → values.new ≡ values.old }
    ensures fits { (k : ℕ) → result ≡ Next.Place k → k ≤ LAST_PLACE }
    ensures within { (instrs : ℕ) → IsInRange instrs instr.now
        → (is_last instr.now ≡ false → place + 1 < instrs)
        → GoesWithin instrs result }
{
    match *instr {
        Instr::Set(d, n) => write(d, n, place, values),
        Instr::Add(d, a, b) => write(d, at(values, a).wrapping_add(at(values, b)), place, values),
        Instr::Sub(d, a, b) => write(d, at(values, a).wrapping_sub(at(values, b)), place, values),
        Instr::Mul(d, a, b) => write(d, at(values, a).wrapping_mul(at(values, b)), place, values),
        Instr::Div(d, a, b) => {
            if at(values, b) == 0 {
                return Next::DividesByZero;
            }
            write(d, at(values, a).wrapping_div(at(values, b)), place, values)
        }
        Instr::Lt(d, a, b) => write(d, i64::from(at(values, a) < at(values, b)), place, values),
        Instr::Rem(d, a, b) => {
            if at(values, b) == 0 {
                return Next::DividesByZero;
            }
            write(d, at(values, a).wrapping_rem(at(values, b)), place, values)
        }
        Instr::And(d, a, b) => write(d, at(values, a) & at(values, b), place, values),
        Instr::Or(d, a, b) => write(d, at(values, a) | at(values, b), place, values),
        Instr::Xor(d, a, b) => write(d, at(values, a) ^ at(values, b), place, values),
        Instr::Shl(d, a, b) => write(d, shl(at(values, a), at(values, b)), place, values),
        Instr::Shr(d, a, b) => write(d, shr(at(values, a), at(values, b)), place, values),
        Instr::Eq(d, a, b) => write(d, i64::from(at(values, a) == at(values, b)), place, values),
        Instr::Le(d, a, b) => write(d, i64::from(at(values, a) <= at(values, b)), place, values),
        Instr::Jz(a, t) if at(values, a) == 0 => Next::Place(usize::from(t)),
        Instr::Jz(_, _) => Next::Place(place + 1),
        Instr::Jmp(t) => Next::Place(usize::from(t)),
        Instr::Slot(d) => write(d, i64::from(slot), place, values),
        Instr::Width(d) => write(d, i64::from(width), place, values),
        _ => Next::IsShared,
    }
}

/// The value of a register.
#[inline(always)]
fn at(values: &[i64; REGISTERS], register: Register) -> i64
    ensures { result ≡ slice_index_or values.now register (pos 0) }
{
    values[register.index()]
}

/// Gives a register a value, and goes on at the next place.
#[inline(always)]
fn write(register: Register, value: i64, place: usize, values: &mut [i64; REGISTERS]) -> Next
    requires { place + 1 < MAX_INSTRS }
    ensures next { result ≡ Next.Place (place + 1) }
    ensures written { values.new ≡ slice_set values.old register value }
{
    values[register.index()] = value;
    Next::Place(place + 1)
}

/// A number, shifted left by the lowest six bits of another.
#[inline(always)]
fn shl(number: i64, by: i64) -> i64
    ensures { result ≡ int_shl w64 number (shift_count by) }
{
    number.wrapping_shl(shift_count(by))
}

/// A number, shifted right by the lowest six bits of another; it keeps its sign.
#[inline(always)]
fn shr(number: i64, by: i64) -> i64
    ensures { result ≡ int_shr number (shift_count by) }
{
    number.wrapping_shr(shift_count(by))
}

/// By how many bits a number shifts another: its lowest six bits.
#[inline(always)]
fn shift_count(number: i64) -> u32
    ensures { result ≡ shift_count number }
{
    (number.cast_unsigned() % 64) as u32
}
