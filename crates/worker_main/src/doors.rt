// Doors to the slots of tenants, whose calls report which slot they made due.
ghost use Rattle.std.specs.Prelude.{◌≡◌, ◌<◌, ◌≤◌, ℕ, Bool, Option, IfSome};
ghost use Rattle.job_language.specs.declared.answers.Moved.{Moved};
ghost use Rattle.job_language.specs.declared.answers.Came.{Came};
ghost use Rattle.job_step.specs.declared.segments.Top.{Top};
ghost use Rattle.job_step.specs.declared.segments.View.{View};
ghost use Rattle.market_config.specs.declared.calls.Call.{Call};

use job_language::{Came, Moved};
use job_step::{Segment, View};
use market_config::Call;
use nested_wait::MAX_HEIGHT;

/// One activity's way to the slots of tenants, which leads to at most one slot at a time. Others may
/// act on the tenants between two calls, so what each call may see and do is a relation that the
/// implementation gives. A call that makes a slot due gives the call for a worker that is to be
/// pushed. If it leads to no slot its height is 0, it sees a bare slot, its turns are idle, and a
/// pause says to stop.
pub trait SlotAccess {
    /// How many tenants there are.
    ghost tenants: { Self → ℕ };

    /// The tenant of the slot that it leads to.
    ghost at_tenant: { Self → Option ℕ };

    /// What the slot may be seen as.
    ghost views: { Self → View → Type 0 };

    /// What committing the segment of a frame, with this answer and due slot, may lead to.
    ghost commits: { Self → Top → Moved → Option Call → Self → Type 0 };

    /// What an advance with this answer and due slot may lead to.
    ghost advances: { Self → Moved → Option Call → Self → Type 0 };

    /// How high the slot's stack may be.
    ghost heights: { Self → ℕ → Type 0 };

    /// What a pause with this answer may lead to.
    ghost pauses: { Self → Bool → Self → Type 0 };

    /// What giving the slot home may lead to.
    ghost homes: { Self → Self → Type 0 };

    /// What handing the slot over, with this due slot, may lead to.
    ghost hands: { Self → Option Call → Self → Type 0 };

    /// The tenant of the slot that it leads to.
    fn tenant(&self) -> Option<usize>
        ensures is { result ≡ at_tenant self.now }
        ensures there { IfSome result (λ tenant. tenant < tenants self.now) };

    /// The topmost frame of the slot, with what its private run depends on.
    fn view(&self) -> View
        ensures { views self.now result };

    /// Puts a private run in the place of an advance. It is `Stale` if its frame is no longer the
    /// topmost one.
    fn commit(&mut self, segment: Segment) -> (Moved, Option<Call>)
        ensures committed { commits self.old segment result.0 result.1 self.new }
        ensures due { IfSome result.1 (λ call. call.tenant < tenants self.new) }
        ensures tenants { tenants self.new ≡ tenants self.old };

    /// Advances the slot, its private run included.
    fn advance(&mut self) -> (Moved, Option<Call>)
        ensures advanced { advances self.old result.0 result.1 self.new }
        ensures due { IfSome result.1 (λ call. call.tenant < tenants self.new) }
        ensures tenants { tenants self.new ≡ tenants self.old };

    /// How many rows are on the slot.
    fn height(&self) -> usize
        ensures value { heights self.now result }
        ensures most { result ≤ MAX_HEIGHT };

    /// Waits until something may have changed, and says whether to stop.
    fn pause(&mut self) -> bool
        ensures paused { pauses self.old result self.new }
        ensures tenants { tenants self.new ≡ tenants self.old };

    /// Gives the slot home, if it leads to one. It leads to none afterwards.
    fn give_home(&mut self)
        ensures home { homes self.old self.new }
        ensures tenants { tenants self.new ≡ tenants self.old };

    /// Gives the slot home, if it leads to one, and at the same moment makes a slot of its tenant due,
    /// if a row waits there. It leads to none afterwards.
    fn hand_over(&mut self) -> Option<Call>
        ensures handed { hands self.old result self.new }
        ensures due { IfSome result (λ call. call.tenant < tenants self.new) }
        ensures tenants { tenants self.new ≡ tenants self.old };
}

/// A worker's ways to the slots of all tenants.
pub trait WorkerAccess: SlotAccess {
    /// What arriving for a call, with this answer and due slot, may lead to.
    ghost arrives: { Self → Call → Came → Option Call → Self → Type 0 };

    /// Arrives at the slot of a call, and leads to that slot if a row was found. It leads to none if
    /// there is no such slot, if another has it, or if no row waits.
    fn arrive(&mut self, call: Call) -> (Came, Option<Call>)
        ensures arrived { arrives self.old call result.0 result.1 self.new }
        ensures due { IfSome result.1 (λ due. due.tenant < Self.tenants self.new) }
        ensures tenants { Self.tenants self.new ≡ Self.tenants self.old };
}
