// Workers that arrive, for every state that the parts stand for.
ghost use Rattle.std.specs.Prelude.{◌≡◌, ◌<◌, true, length};
ghost use Rattle.nest_stack.specs.Nest.{stack};
ghost use Rattle.tenant_model.specs.State.{State};
ghost use Rattle.tenant_model.specs.Advance.{arrive, is_open_to_workers};
ghost use Rattle.arena_rows.specs.Represents.{Rests, RestsSomehow, Gives};

use crate::parts::Parts;
use job_language::Came;

impl Parts {
    /// Whether a worker may arrive at a slot.
    pub fn is_open_to_workers(&self, slot: u8) -> bool
        requires { RestsSomehow self.now }
        ensures value { (s : State) → Rests self.now s → result ≡ is_open_to_workers s slot }
        ensures within { result ≡ true → slot < self.now.config.slots }
        ensures empty { result ≡ true → length (stack self.now.nests slot) ≡ 0 }
    {
        if slot < self.config().reserved || self.config().slots <= slot {
            return false;
        }
        self.height(slot) == 0
    }

    /// Lets a worker arrive at a slot; nothing happens at a slot that the tenant lacks.
    pub fn arrive(&mut self, slot: u8) -> Came
        requires { RestsSomehow self.old }
        ensures { (s : State) → Rests self.old s → Gives self.new result (arrive s slot) }
    {
        if !self.is_open_to_workers(slot) {
            return Came::Nothing;
        }
        let Some(row) = self.pick(slot) else {
            return Came::Nothing;
        };
        if self.is_full() {
            return Came::Full;
        }
        self.nest(slot, row);
        self.enter();
        Came::At(row.number)
    }
}
