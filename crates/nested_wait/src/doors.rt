// Doors: one activity's way to one slot.
ghost use Rattle.std.specs.Prelude.{ℕ, ◌≤◌, Bool};
ghost use Rattle.job_language.specs.declared.answers.Moved.{Moved};
ghost use Rattle.job_step.specs.declared.segments.Top.{Top};
ghost use Rattle.job_step.specs.declared.segments.View.{View};

use job_language::Moved;
use job_step::{Segment, View};

/// How many rows may be on a slot.
pub const MAX_HEIGHT: usize = 128;

const _: () = prove!(MAX_HEIGHT == 128);

/// One activity's way to one slot. Others may act on the slot's tenant between two calls, so what
/// each call may see and do is a relation that the implementation gives.
pub trait Door {
    /// What the slot may be seen as.
    ghost views: { Self → View → Type 0 };

    /// What committing the segment of a frame, with this answer, may lead to.
    ghost commits: { Self → Top → Moved → Self → Type 0 };

    /// What an advance with this answer may lead to.
    ghost advances: { Self → Moved → Self → Type 0 };

    /// How high the slot's stack may be.
    ghost heights: { Self → ℕ → Type 0 };

    /// What a pause with this answer may lead to.
    ghost pauses: { Self → Bool → Self → Type 0 };

    /// The topmost frame of the slot, with what its private run depends on.
    fn view(&self) -> View
        ensures { views self.now result };

    /// Puts a private run in the place of an advance. It is `Stale` if its frame is no longer the
    /// topmost one.
    fn commit(&mut self, segment: Segment) -> Moved
        ensures { commits self.old segment result self.new };

    /// Advances the slot, its private run included.
    fn advance(&mut self) -> Moved
        ensures { advances self.old result self.new };

    /// How many rows are on the slot.
    fn height(&self) -> usize
        ensures value { heights self.now result }
        ensures most { result ≤ MAX_HEIGHT };

    /// Waits until something may have changed, and says whether to stop.
    fn pause(&mut self) -> bool
        ensures { pauses self.old result self.new };
}
