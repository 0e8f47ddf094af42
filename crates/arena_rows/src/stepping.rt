// How a slot's steps end, for every state that the parts stand for.
ghost use Rattle.std.specs.Prelude.{◌≡◌, ◌<◌, ◌==◌, ◌&&◌, ℕ, nat_lt, length, Some};
ghost use Rattle.tenant_model.specs.State.{State, row};
ghost use Rattle.tenant_model.specs.Walks.{top, height};
ghost use Rattle.tenant_model.specs.Changes.{faults, finish_step};
ghost use Rattle.arena_rows.specs.Represents.{Holds, HoldsSomehow, Rests, RestsSomehow, HasTop, Gives};

use crate::parts::Parts;
use job_language::{JobFault, Moved};

impl Parts {
    /// Whether a slot is a reserved one with nothing on it.
    fn is_freed(&self, slot: u8) -> bool
        requires { slot < length self.now.nests }
        ensures { (s : State) → Holds self.now s
            → result ≡ (nat_lt slot s.config.reserved && (height s.rows slot == 0)) }
    {
        if self.config().reserved <= slot {
            return false;
        }
        self.height(slot) == 0
    }

    /// Whether a slot's step left a reserved slot free, or just ran.
    fn moved(&self, slot: u8) -> Moved
        requires held { HoldsSomehow self.now }
        requires slot { slot < self.now.config.slots }
        ensures { (s : State) → Holds self.now s → result ≡ (finish_step slot s).0 }
    {
        if self.is_freed(slot) {
            Moved::Freed
        } else {
            Moved::Ran
        }
    }

    /// Ends a slot's step that cancelled nothing.
    pub fn finish_step(&mut self, slot: u8) -> Moved
        requires rests { RestsSomehow self.old }
        requires slot { slot < self.old.config.slots }
        requires room { self.old.entries < self.old.config.steps }
        ensures { (s : State) → Rests self.old s → Gives self.new result (finish_step slot s) }
    {
        let moved = self.moved(slot);
        self.enter();
        moved
    }

    /// Ends a slot's step that may have cancelled rows which wait: they are dropped.
    pub fn settle_step(&mut self, slot: u8) -> Moved
        requires held { HoldsSomehow self.old }
        requires slot { slot < self.old.config.slots }
        requires room { self.old.entries < self.old.config.steps }
        ensures { (s : State) → Holds self.old s → Gives self.new result (finish_step slot s) }
    {
        let moved = self.moved(slot);
        self.enter_and_settle();
        moved
    }

    /// Ends a slot's step by a fault: the topmost row ends, and those below it, down to and including
    /// the first that is not a region, and what their job still does is cancelled.
    pub fn fault(&mut self, slot: u8, fault: JobFault) -> Moved
        requires top { HasTop self.old slot }
        requires room { self.old.entries < self.old.config.steps }
        ensures { (s : State) (n : ℕ) → Holds self.old s → top s.rows slot ≡ Some n
            → Gives self.new result (faults slot (row s.rows n).job fault s) }
    {
        self.fault_job(slot, fault);
        self.fault_rows(slot);
        self.settle_step(slot)
    }
}
