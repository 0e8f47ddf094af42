// The rule of a level, and what each step of a pass does to what the pass knows.
use crate::marks::{Marked, QueueView};
use crossbeam_queue::protocol::{Join, Lesson, Outcome, Protocol, Split};
use crossbeam_queue::{Pass, RuledArrayQueue};

/// The protocol of a level: its calls stand in one order.
pub struct Ordered;

impl Protocol<Marked, QueueView> for Ordered {
    ghost use Rattle.std.specs.Prelude.{[], ◌∷◌};
    ghost use Rattle.call_queues.specs.declared.marks.QueueView.TheVariants.{Keeper};
    ghost use Rattle.call_queues.specs.Order.{no_log};
    ghost use Rattle.call_queues.specs.Rule.{IsKept};

    ghost holds = { IsKept };

    ghost first = { Keeper 1 (no_log ∷ []) [] };
}

/// A push: the pass has pushed the call, or has seen that the level was full.
pub struct Puts;

impl Outcome<Marked, QueueView> for Puts {
    ghost use Rattle.std.specs.Prelude.{◌≡◌};
    ghost use Rattle.call_queues.specs.Rule.{after_push};

    ghost then = { λ v x w. w ≡ after_push v x };
}

impl Lesson<Marked, QueueView> for Puts {
    ghost use Rattle.call_queues.specs.Rule.{SeesBy};

    ghost fact = { λ v items. SeesBy v items };
}

/// A pop: the pass has popped the call, or has seen that the level was empty.
pub struct Takes;

impl Outcome<Marked, QueueView> for Takes {
    ghost use Rattle.call_queues.specs.Rule.{Took};

    ghost then = { λ v x w. Took v x w };
}

impl Lesson<Marked, QueueView> for Takes {
    ghost use Rattle.call_queues.specs.Rule.{SeesBy};

    ghost fact = { λ v items. SeesBy v items };
}

/// A pop by the keeper, when all passes have come back: the call is drained.
pub struct Drains;

impl Outcome<Marked, QueueView> for Drains {
    ghost use Rattle.call_queues.specs.Rule.{Drained};

    ghost then = { λ v x w. Drained v x w };
}

impl Lesson<Marked, QueueView> for Drains {
    ghost use Rattle.call_queues.specs.Rule.{SeesAll};

    ghost fact = { λ v items. SeesAll v items };
}

/// The keeper gives the next number to a new pass, and takes a pass back by its number.
pub struct Numbering;

impl Split<QueueView> for Numbering {
    ghost use Rattle.call_queues.specs.Rule.{rest_of, next_of};

    ghost left = { λ v. rest_of v };

    ghost right = { λ v. next_of v };
}

impl Join<QueueView> for Numbering {
    ghost use Rattle.call_queues.specs.declared.marks.QueueView.TheVariants.{Spent};
    ghost use Rattle.call_queues.specs.Rule.{both_of};

    ghost both = { λ v w. both_of v w };

    ghost spent = { Spent };
}

/// The queue of a level.
pub type Queue = RuledArrayQueue<Marked, QueueView, Ordered>;

/// A pass of that queue.
pub type Seat = Pass<Marked, QueueView>;
