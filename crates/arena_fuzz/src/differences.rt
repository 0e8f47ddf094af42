// Where an arena and an evaluator differ.
use job_language::Answer;

/// Where an arena and an evaluator differ after the same steps.
#[derive(Clone, Copy, Debug)]
pub(crate) enum Difference {
    /// What they answer to a step.
    Answers { arena: Answer, solo: Answer },
    /// How many rows are on a slot.
    Heights { slot: u8, arena: u64, solo: u64 },
    /// Whether a row waits to be started.
    Unstarted { arena: bool, solo: bool },
    /// A row is seen on that slot of the arena and the evaluator has none there, or the other way round.
    View { slot: u8 },
}
