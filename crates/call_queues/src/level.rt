// One level: a queue of marked calls that threads share.
ghost use Rattle.std.specs.Prelude.{◌≡◌, ◌≢◌, ◌+◌, ◌<◌, ◌≤◌, ◌^◌, ◌-◌, ◌⊎◌, List, [], ◌∷◌, ◌++◌, length, map, true, vec_capacity, IfOk, MatchResult, MatchOption};
ghost use Rattle.crossbeam_queue.specs.Fifo.{Held};
ghost use Rattle.call_queues.specs.declared.marks.Marked.{Marked};
ghost use Rattle.call_queues.specs.Order.{no_log, LevelOrder};
ghost use Rattle.call_queues.specs.declared.marks.TheConstants.{MAX_CALLS};
ghost use Rattle.call_queues.specs.Rule.{Sees, with_pushed, with_popped};

use crate::marks::Marked;
use crate::rule::{Drains, Numbering, Puts, Queue, Seat, Takes};
use market_config::Call;
use std::alloc::{AllocError, Global};
use std::marker::Model;
use std::sync::Wait;

/// A pass of one level. The first one makes the others.
#[derive(Drop)]
pub struct LevelPass {
    seat: Seat,
    number: usize,
    pushes: u64,
}

impl Model for LevelPass {
    ghost use Rattle.std.specs.Prelude.{◌≡◌, [], length};
    ghost use Rattle.call_queues.specs.Rule.{view_of};
    ghost use Rattle.call_queues.specs.Levels.{LevelPassSeen, log_in, made_in};

    ghost Value = { LevelPassSeen };

    ghost view = { λ p. record {
      queue = p.seat.table_id;
      number = p.number;
      made = made_in p.seat.me.0.client;
      log = log_in p.seat.me.0.client;
    } };

    ghost invariant = { λ p. (p.seat.me.1 ≡ [])
        × (p.seat.me.0.client ≡ view_of (made_in p.seat.me.0.client) p.number
        (log_in p.seat.me.0.client)) × (p.pushes ≡ length (log_in p.seat.me.0.client).pushed) };
}

/// The queue of one level.
#[derive(Drop)]
pub struct LevelQueue {
    queue: Queue,
}

impl Model for LevelQueue {
    ghost use Rattle.std.specs.Prelude.{◌≡◌, ◌≤◌};
    ghost use Rattle.crossbeam_queue.specs.Passes.{ruled_capacity};
    ghost use Rattle.call_queues.specs.declared.marks.TheConstants.{MAX_CALLS};
    ghost use Rattle.call_queues.specs.Levels.{LevelQueueSeen};

    ghost Value = { LevelQueueSeen };

    ghost view = { λ l. record {
      queue = l.queue.table.shared.table_id;
      room = ruled_capacity l.queue;
    } };

    ghost invariant = { λ l. ruled_capacity l.queue ≤ MAX_CALLS };
}

/// The passes of a level that have come back.
#[derive(Drop)]
pub struct LevelReturns {
    seat: Seat,
}

impl Model for LevelReturns {
    ghost use Rattle.std.specs.Prelude.{◌≡◌, []};
    ghost use Rattle.call_queues.specs.declared.marks.QueueView.TheVariants.{Keeper};
    ghost use Rattle.call_queues.specs.Levels.{LevelReturnsSeen, back_in, made_in};

    ghost Value = { LevelReturnsSeen };

    ghost view = { λ r. record {
      queue = r.seat.table_id;
      made = made_in r.seat.me.0.client;
      back = back_in r.seat.me.0.client;
    } };

    ghost invariant = { λ r. (r.seat.me.1 ≡ [])
        × (r.seat.me.0.client ≡ Keeper (made_in r.seat.me.0.client)
        (back_in r.seat.me.0.client) []) };
}

impl LevelQueue {
    /// A queue with so much room, and its first pass.
    pub fn new(alloc: Global, room: usize) -> Result<(LevelQueue, LevelPass), AllocError>
        requires some { 0 < room }
        requires few { room ≤ MAX_CALLS }
        ensures { IfOk result (λ l. (l.0.room ≡ room)
            × (l.1 ≡ record { queue = l.0.queue; number = 0; made = 1; log = no_log })) }
    {
        let (queue, seat) = Queue::ruled(alloc, room)?;
        let pass = LevelPass {
            seat,
            number: 0,
            pushes: 0,
        };
        Ok((LevelQueue { queue }, pass))
    }

    /// A pass with the next number, made by the first.
    pub fn pass(&self, first: &mut LevelPass, number: usize) -> LevelPass
        requires queue { first.old.queue ≡ self.now.queue }
        requires first { first.old.number ≡ 0 }
        requires next { (number ≡ first.old.made) × (0 < number) }
        ensures pass { result ≡ record {
          queue = self.now.queue;
          number = number;
          made = 0;
          log = no_log;
        } }
        ensures first { first.new ≡ record first.old { made = number + 1 } }
    {
        let seat = self.queue.another::<Numbering>(&mut first.seat);
        LevelPass {
            seat,
            number,
            pushes: 0,
        }
    }

    /// Adds a call at the end.
    pub fn push<R: Wait>(&self, rt: &R, pass: &mut LevelPass, call: Call) -> Result<(), Call>
        requires { pass.old.queue ≡ self.now.queue }
        ensures pass { (pass.new.queue ≡ pass.old.queue) × (pass.new.number ≡ pass.old.number)
            × (pass.new.made ≡ pass.old.made) }
        ensures pushed { MatchResult result
            (λ _. pass.new.log ≡ with_pushed pass.old.log
            (record { by = pass.old.number; at = length pass.old.log.pushed; call = call }))
            (λ back. (back ≡ call) × (pass.new.log ≡ pass.old.log)
            × ((length pass.old.log.pushed ≡ 2 ^ 64 - 1)
            ⊎ Held self.now.room (Sees pass.old.number pass.old.log))) }
    {
        if pass.pushes == u64::MAX {
            return Err(call);
        }
        let marked = Marked {
            by: pass.number,
            at: pass.pushes,
            call,
        };
        match self.queue.push_as::<Puts, R>(rt, &mut pass.seat, marked) {
            Ok(()) => {
                pass.pushes += 1;
                Ok(())
            }
            Err(back) => Err(back.call),
        }
    }

    /// Takes the first call.
    pub fn pop<R: Wait>(&self, rt: &R, pass: &mut LevelPass) -> Option<Call>
        requires { pass.old.queue ≡ self.now.queue }
        ensures pass { (pass.new.queue ≡ pass.old.queue) × (pass.new.number ≡ pass.old.number)
            × (pass.new.made ≡ pass.old.made) }
        ensures popped { MatchOption result
            ((pass.new.log ≡ pass.old.log) × Held 0 (Sees pass.old.number pass.old.log))
            (λ call. (marked : Marked) × (marked.call ≡ call)
            × (pass.new.log ≡ with_popped pass.old.log marked)
            × ((items : List Marked)
            × Sees pass.old.number (with_popped pass.old.log marked) items)) }
    {
        let marked = self.queue.pop_as::<Takes, R>(rt, &mut pass.seat)?;
        Some(marked.call)
    }

    /// Whether the level had no call at one moment of the call. Nothing is taken, and others may push
    /// and pop meanwhile.
    pub fn is_empty(&self, pass: &mut LevelPass) -> bool
        requires { pass.old.queue ≡ self.now.queue }
        ensures pass { pass.new ≡ pass.old }
        ensures empty { result ≡ true → Held 0 (Sees pass.old.number pass.old.log) }
    {
        self.queue.is_empty_as::<Takes>(&mut pass.seat)
    }

    /// A pass comes back.
    pub fn absorb(&self, returns: &mut LevelReturns, pass: LevelPass)
        requires queue { (pass.queue ≡ self.now.queue) × (returns.old.queue ≡ self.now.queue) }
        requires next { (pass.number ≡ length returns.old.back) × (0 < pass.number) }
        ensures { returns.new ≡ record returns.old { back = returns.old.back ++ pass.log ∷ [] } }
    {
        let LevelPass { seat, .. } = pass;
        self.queue.absorb::<Numbering>(&mut returns.seat, seat);
    }

    /// Takes all calls that are left, when all passes have come back.
    pub fn drain<R: Wait>(&self, rt: &R, returns: LevelReturns, into: &mut Vec<Call>)
        requires queue { returns.queue ≡ self.now.queue }
        requires all { length returns.back ≡ returns.made }
        requires room { length into.old.items + MAX_CALLS ≤ vec_capacity into.old }
        ensures drained { (past : List Marked) × (rest : List Marked)
            × LevelOrder returns.back past rest
            × (into.new.items ≡ into.old.items ++ map (λ m. m.call) rest)
            × (length rest ≤ MAX_CALLS) }
        ensures capacity { vec_capacity into.old ≤ vec_capacity into.new }
    {
        let LevelReturns { mut seat } = returns;
        for _ in rt.forever() {
            match self.queue.pop_as::<Drains, R>(rt, &mut seat) {
                Some(marked) => {
                    // There is room, so that the push does not fail.
                    let _ = into.push(marked.call);
                }
                None => return,
            }
        }
        unreachable!()
    }
}

impl LevelPass {
    /// The first pass, to which the others come back.
    pub fn returns(self) -> LevelReturns
        requires { self.number ≡ 0 }
        ensures { result ≡ record { queue = self.queue; made = self.made; back = self.log ∷ [] } }
    {
        let LevelPass { seat, .. } = self;
        LevelReturns { seat }
    }
}
