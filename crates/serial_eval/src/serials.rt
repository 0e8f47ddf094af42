// The serial value of a program: each task runs as soon as it is made, and to its end.
ghost use Rattle.std.specs.Prelude.{◌≡◌, ◌<◌, true, false, IfOk, OnErr};
ghost use Rattle.job_language.specs.Program.{is_last};
ghost use Rattle.job_language.specs.Serial.{is_serial};
ghost use Rattle.job_step.specs.declared.frames.TheConstants.{LAST_PLACE};
ghost use Rattle.job_step.specs.Frame.{effect, instr_at};
ghost use Rattle.tenant_model.specs.Serial.{new_task, is_owing, make_task, root_task, serial_value, sum_of, turn_at, turn_by, turn_of, after_wait, with_value_to};
ghost use Rattle.serial_eval.specs.InsideNest.{Turns};
ghost use Rattle.serial_eval.specs.Makes.{HasMaker, MakesTask};

use job_language::{GROUPS, Group, Instr, Program, Register};
use job_step::{Effect, Frame, effect_on};
use std::alloc::{AllocError, Global};
use tenant_model::{SerialMaker, SerialTask, SerialTurn, ValueTo};

/// The running task and its makers, outermost first: each waits for the next one, the last for the
/// running task.
#[derive(Drop)]
struct Nest {
    makers: Vec<SerialMaker>,
    task: SerialTask,
}

/// The outcome of a turn.
#[derive(Clone, Copy)]
enum Turned {
    GoesOn,
    /// The root returned a value, or some task ended without one.
    Ends(Option<i64>),
}

/// The serial value of a program with its two arguments: the result of its root if each task runs as
/// soon as it is made. It is `None` if that takes more than `n` instructions, at a divisor of 0, and
/// if a task ends that did not wait for one of its groups. It fails only if an instruction makes a task
/// and an allocation failed.
pub fn serial(
    alloc: Global,
    program: &Program,
    args: [i64; 2],
    n: u64,
) -> Result<Option<i64>, AllocError>
    requires { is_serial program.now ≡ true }
    ensures value { IfOk result (λ value. value ≡ serial_value program.now args n) }
    ensures makes { OnErr result ((0 < n) × HasMaker program.now) }
{
    let mut nest = Nest {
        makers: Vec::new(alloc),
        task: root_task(args),
    };
    for _executed in 0..n {
        if let Turned::Ends(value) = nest.turn(program)? {
            return Ok(value);
        }
    }
    Ok(None)
}

impl Nest {
    /// Executes the next instruction. If an allocation failed, the nest is unchanged.
    fn turn(&mut self, program: &Program) -> Result<Turned, AllocError>
        ensures turned { IfOk result (λ turned. Turns program.now self.old turned self.new) }
        ensures makes { OnErr result (MakesTask (instr_at program.now self.old.task.frame)) }
    {
        match turn_at(program, &self.task) {
            SerialTurn::Goes(task) => self.task = task,
            SerialTurn::Makes(task, maker) => {
                self.makers.push(maker)?;
                self.task = task;
            }
            SerialTurn::Gives(value) => match self.makers.pop() {
                Some(SerialMaker { task, to }) => self.task = with_value(task, to, value),
                None => return Ok(Turned::Ends(Some(value))),
            },
            SerialTurn::Fails => return Ok(Turned::Ends(None)),
        }
        Ok(Turned::GoesOn)
    }
}

/// The root of a program with its two arguments.
fn root_task(args: [i64; 2]) -> SerialTask
    ensures { result ≡ root_task args }
{
    new_task(Frame::new(0, args[0], args[1]))
}

/// A task that begins at a frame.
fn new_task(frame: Frame) -> SerialTask
    ensures { result ≡ new_task frame }
{
    SerialTask {
        frame,
        sums: [None; GROUPS],
    }
}

/// The turn of a task at its next instruction.
fn turn_at(program: &Program, task: &SerialTask) -> SerialTurn
    ensures { result ≡ turn_at (instr_at program.now task.now.frame) task.now }
{
    match task.frame.instr_in(program) {
        Some(instr) => turn_of(&instr, task),
        None => SerialTurn::Fails,
    }
}

fn turn_of(instr: &Instr, task: &SerialTask) -> SerialTurn
    requires { is_last instr.now ≡ false → task.now.frame.place < LAST_PLACE }
    ensures { result ≡ turn_of instr.now task.now }
{
    match *instr {
        Instr::Spawn(group, procedure, first, second) => {
            make_task(task, procedure, first, second, ValueTo::Group(group))
        }
        Instr::Isolate(to, procedure, first, second) => {
            make_task(task, procedure, first, second, ValueTo::Register(to))
        }
        Instr::Wait(total_to, status_to, group) => {
            SerialTurn::Goes(after_wait(task, total_to, status_to, group))
        }
        Instr::Ret(_) if is_owing(task) => SerialTurn::Fails,
        Instr::Ret(from) => SerialTurn::Gives(task.frame.registers[from.index()]),
        _ => turn_alone(instr, task),
    }
}

/// The turn of a task at a private instruction. No other is left in a serial program.
fn turn_alone(instr: &Instr, task: &SerialTask) -> SerialTurn
    requires { is_last instr.now ≡ false → task.now.frame.place < LAST_PLACE }
    ensures { result ≡ turn_by task.now (effect instr.now 0 0 task.now.frame) }
{
    match effect_on(&task.frame, instr, 0, 0) {
        Effect::Moves(frame) => {
            let sums = task.sums;
            SerialTurn::Goes(SerialTask { frame, sums })
        }
        Effect::DividesByZero | Effect::IsShared => SerialTurn::Fails,
    }
}

fn make_task(
    task: &SerialTask,
    procedure: u8,
    first: Register,
    second: Register,
    to: ValueTo,
) -> SerialTurn
    requires { task.now.frame.place < LAST_PLACE }
    ensures { result ≡ make_task task.now procedure first second to }
{
    let registers = &task.frame.registers;
    let frame = Frame::new(
        procedure,
        registers[first.index()],
        registers[second.index()],
    );
    let task = SerialTask {
        frame: task.frame.next(),
        sums: task.sums,
    };
    SerialTurn::Makes(new_task(frame), SerialMaker { task, to })
}

/// The task after a wait for a group.
fn after_wait(
    task: &SerialTask,
    total_to: Register,
    status_to: Register,
    group: Group,
) -> SerialTask
    requires { task.now.frame.place < LAST_PLACE }
    ensures { result ≡ after_wait task.now total_to status_to group }
{
    let mut after = *task;
    after.frame.registers[total_to.index()] = sum_of(task, group);
    after.frame = after.frame.write_and_step(status_to, 1);
    after.sums[group.index()] = None;
    after
}

/// The maker of a task, after that task returned a value.
fn with_value(maker: SerialTask, to: ValueTo, value: i64) -> SerialTask
    ensures { result ≡ with_value_to to maker value }
{
    let mut task = maker;
    match to {
        ValueTo::Group(group) => {
            let sum = sum_of(&task, group).wrapping_add(value);
            task.sums[group.index()] = Some(sum);
        }
        ValueTo::Register(to) => task.frame.registers[to.index()] = value,
    }
    task
}

/// The sum of a group so far.
fn sum_of(task: &SerialTask, group: Group) -> i64
    ensures { result ≡ sum_of task.now group }
{
    task.sums[group.index()].unwrap_or(0)
}

/// Whether a group was given a value since its last wait.
fn is_owing(task: &SerialTask) -> bool
    ensures { result ≡ is_owing task.now }
{
    task.sums.iter().any(|sum| sum.is_some())
}
