// Serial execution: each task runs as soon as it is made, to its end, inside its maker.
use job_language::{GROUPS, Group, Register};
use job_step::Frame;

/// A frame of work, with what its groups have been given.
#[derive(Clone, Copy, Debug)]
pub struct SerialTask {
    pub frame: Frame,
    /// By group, the wrapping sum of the values since its last wait; `None` if no task was spawned
    /// since.
    pub sums: [Option<i64>; GROUPS],
}

/// The place in its maker that receives a task's value.
#[derive(Clone, Copy, Debug)]
pub enum ValueTo {
    Group(Group),
    Register(Register),
}

/// A task that made another one, and continues at the next instruction with its value.
#[derive(Clone, Copy, Debug)]
pub struct SerialMaker {
    pub task: SerialTask,
    pub to: ValueTo,
}

/// What a task does by one instruction.
#[derive(Clone, Copy, Debug)]
pub enum SerialTurn {
    /// It continues in this state.
    Goes(SerialTask),
    /// It makes a task, and waits for its value.
    Makes(SerialTask, SerialMaker),
    /// It returns a value.
    Gives(i64),
    /// It ends without a value.
    Fails,
}
