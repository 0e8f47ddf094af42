// The queues of all levels, which threads share.
ghost use Rattle.std.specs.Prelude.{◌≡◌, ◌+◌, ◌*◌, ◌^◌, ◌-◌, ◌<◌, ◌≤◌, ◌⊎◌, ℕ, List, ◌++◌, [], length, map, false, slice_index_or, IfOk, MatchResult, MatchOption};
ghost use Rattle.std.specs.List.{All};
ghost use Rattle.job_language.specs.declared.tenants.Level.{Level};
ghost use Rattle.call_queues.specs.declared.marks.Marked.{Marked};
ghost use Rattle.job_language.specs.declared.tenants.Level.TheVariants.{High, Normal, Low};
ghost use Rattle.market_config.specs.Config.{level_in, room_at};
ghost use Rattle.call_queues.specs.Rule.{with_pushed, with_popped};
ghost use Rattle.call_queues.specs.Queues.{Three, at, with_at, rank, PassSeen, fresh, marked, HeldAt, FoundNone, Found, AreNumbered, IsLeft};

use crate::level::{LevelPass, LevelQueue};
use crate::marks::MAX_CALLS;
use job_language::Level;
use market_config::{Call, MarketConfig};
use std::alloc::{AllocError, Global};
use std::marker::Model;
use std::sync::Wait;

/// The right of one thread to push and pop. The passes of some queues are numbered from 0.
#[derive(Drop)]
pub struct QueuePass {
    number: usize,
    passes: usize,
    high: LevelPass,
    normal: LevelPass,
    low: LevelPass,
}

impl Model for QueuePass {
    ghost use Rattle.std.specs.Prelude.{◌≡◌};
    ghost use Rattle.call_queues.specs.Queues.{PassSeen, three};

    ghost Value = { PassSeen };

    ghost view = { λ p. record {
      queues = record {
        levels = three p.high.queue p.normal.queue p.low.queue;
        passes = p.passes;
      };
      number = p.number;
      logs = three p.high.log p.normal.log p.low.log;
    } };

    ghost invariant = { λ p. (p.high.number ≡ p.number) × (p.normal.number ≡ p.number)
        × (p.low.number ≡ p.number)
        × (p.number ≡ 0 → (p.high.made ≡ p.passes) × (p.normal.made ≡ p.passes)
        × (p.low.made ≡ p.passes)) };
}

impl QueuePass {
    /// Its number among the passes of its queues.
    pub fn number(&self) -> usize
        ensures { result ≡ self.now.number }
    {
        self.number
    }
}

/// A queue of calls for each level of priority, which threads share.
pub struct CallQueues {
    config: MarketConfig,
    passes: usize,
    high: LevelQueue,
    normal: LevelQueue,
    low: LevelQueue,
    room: Vec<Call>,
}

impl Drop for CallQueues {
    // An owner drops it in one call, not part by part at each of its ways out.
    fn drop(self) {
        let CallQueues {
            config: _config,
            passes: _passes,
            high: _high,
            normal: _normal,
            low: _low,
            room: _room,
        } = self;
    }
}

impl Model for CallQueues {
    ghost use Rattle.std.specs.Prelude.{◌≡◌, ◌<◌, ◌≤◌, []};
    ghost use Rattle.std.specs.Vec.{vec_capacity};
    ghost use Rattle.job_language.specs.declared.tenants.Level.TheVariants.{High, Normal, Low};
    ghost use Rattle.market_config.specs.Config.{room_at};
    ghost use Rattle.call_queues.specs.Queues.{QueuesSeen, three};

    ghost Value = { QueuesSeen };

    ghost view = { λ q. record {
      queues = record {
        levels = three q.high.queue q.normal.queue q.low.queue;
        passes = q.passes;
      };
      config = q.config;
    } };

    ghost invariant = { λ q. (0 < q.passes) × (q.high.room ≡ room_at q.config High)
        × (q.normal.room ≡ room_at q.config Normal)
        × (q.low.room ≡ room_at q.config Low) × (q.room.items ≡ [])
        × (3072 ≤ vec_capacity q.room) };
}

/// A call was pushed, and a worker is to hear of it. Only `CallQueues::push_call` makes one, and it can't
/// be dropped: whoever has one hands it to a signal, or ends it by `rung`. So no ring comes before its
/// push, and none is forgotten unless somebody says that nobody listens.
#[derive(Debug)]
pub struct Pushed {
    _made_here: (),
}

impl Pushed {
    /// Ends it: the signal was given, or nobody listens.
    pub fn rung(self) {
        let Pushed { _made_here } = self;
    }
}

impl CallQueues {
    /// Adds a call at the end of its tenant's level. It comes back only if that level was full
    /// at one moment, or the pass had made `u64::MAX` pushes there.
    pub fn push_call<R: Wait>(
        &self,
        rt: &R,
        pass: &mut QueuePass,
        call: Call,
    ) -> Result<Pushed, Call>
        requires pass { pass.old.queues ≡ self.now.queues }
        requires tenant { call.tenant < length self.now.config }
        ensures pass { (pass.new.number ≡ pass.old.number) × (pass.new.queues ≡ pass.old.queues) }
        ensures pushed { let level = level_in self.now.config call.tenant in
            let log = at pass.old.logs level in
            MatchResult result
            (λ _. pass.new.logs ≡ with_at pass.old.logs level
            (with_pushed log (marked pass.old.number log call)))
            (λ back. (back ≡ call) × (pass.new.logs ≡ pass.old.logs)
            × ((length log.pushed ≡ 2 ^ 64 - 1)
            ⊎ HeldAt pass.old level (room_at self.now.config level))) }
    {
        match self.config.level(call.tenant) {
            Level::High => self.high.push(rt, &mut pass.high, call)?,
            Level::Normal => self.normal.push(rt, &mut pass.normal, call)?,
            Level::Low => self.low.push(rt, &mut pass.low, call)?,
        }
        Ok(Pushed { _made_here: () })
    }

    /// Takes the first call of the highest level that has one. It looks at one level after
    /// another, so each higher level was empty at some moment of the call.
    pub fn pop_call<R: Wait>(&self, rt: &R, pass: &mut QueuePass) -> Option<Call>
        requires { pass.old.queues ≡ self.now.queues }
        ensures pass { (pass.new.number ≡ pass.old.number) × (pass.new.queues ≡ pass.old.queues) }
        ensures popped { MatchOption result (FoundNone pass.old pass.new.logs)
            (λ call. Found pass.old pass.new.logs call) }
    {
        if let Some(call) = self.high.pop(rt, &mut pass.high) {
            return Some(call);
        }
        if let Some(call) = self.normal.pop(rt, &mut pass.normal) {
            return Some(call);
        }
        self.low.pop(rt, &mut pass.low)
    }

    /// Whether a call waits that is of a tenant's level or of a higher one. Nothing is taken. If it
    /// says no, each of these levels was empty at some moment of the call; if it says yes, others
    /// may have popped that call by now.
    pub fn has_call_for(&self, pass: &mut QueuePass, tenant: usize) -> bool
        requires pass { pass.old.queues ≡ self.now.queues }
        requires tenant { tenant < length self.now.config }
        ensures pass { pass.new ≡ pass.old }
        ensures none { result ≡ false → (level : Level)
            → rank level ≤ rank (level_in self.now.config tenant) → HeldAt pass.old level 0 }
    {
        let no_high = self.high.is_empty(&mut pass.high);
        match self.config.level(tenant) {
            Level::High => !no_high,
            Level::Normal => !(no_high && self.normal.is_empty(&mut pass.normal)),
            Level::Low => {
                let no_normal = self.normal.is_empty(&mut pass.normal);
                !(no_high && no_normal && self.low.is_empty(&mut pass.low))
            }
        }
    }
}

impl CallQueues {
    /// The queues of these tenants, and as many passes as asked for, by rising number.
    pub fn new(
        alloc: Global,
        config: MarketConfig,
        passes: usize,
    ) -> Result<(CallQueues, Vec<QueuePass>), AllocError>
        requires { 0 < passes }
        ensures queues { IfOk result (λ r. (r.0.config ≡ config) × (r.0.queues.passes ≡ passes)) }
        ensures passes { IfOk result (λ r. (length r.1.items ≡ passes)
            × ((k : ℕ) (d : PassSeen) → k < passes
            → slice_index_or r.1.items k d ≡ fresh r.0.queues k)) }
    {
        let (high, mut first_high) = LevelQueue::new(alloc, config.room(Level::High))?;
        let (normal, mut first_normal) = LevelQueue::new(alloc, config.room(Level::Normal))?;
        let (low, mut first_low) = LevelQueue::new(alloc, config.room(Level::Low))?;
        let room = Vec::with_capacity(alloc, 3 * MAX_CALLS)?;
        let mut out = Vec::with_capacity(alloc, passes)?;
        for number in 1..passes {
            let pass = QueuePass {
                number,
                passes,
                high: high.pass(&mut first_high, number),
                normal: normal.pass(&mut first_normal, number),
                low: low.pass(&mut first_low, number),
            };
            out.push(pass)?;
        }
        let first = QueuePass {
            number: 0,
            passes,
            high: first_high,
            normal: first_normal,
            low: first_low,
        };
        out.insert(0, first)?;
        let queues = CallQueues {
            config,
            passes,
            high,
            normal,
            low,
            room,
        };
        Ok((queues, out))
    }

    /// Ends the queues. It takes all passes back, by rising number, and gives the calls that are
    /// left, those of the high level first.
    pub fn drain<R: Wait>(self, rt: &R, mut passes: Vec<QueuePass>) -> Vec<Call>
        requires count { length passes.items ≡ self.queues.passes }
        requires numbers { AreNumbered passes.items }
        requires queues { (k : ℕ) (d : PassSeen) → k < length passes.items
            → (slice_index_or passes.items k d).queues ≡ self.queues }
        ensures { (high : List Marked) × (normal : List Marked) × (low : List Marked)
            × IsLeft passes.items High high × IsLeft passes.items Normal normal
            × IsLeft passes.items Low low
            × (result.items ≡ map (λ m. m.call) (high ++ normal ++ low)) }
    {
        let CallQueues {
            config: _config,
            passes: _passes,
            high,
            normal,
            low,
            mut room,
        } = self;
        let QueuePass {
            high: first_high,
            normal: first_normal,
            low: first_low,
            ..
        } = passes.remove(0);
        let mut high_back = first_high.returns();
        let mut normal_back = first_normal.returns();
        let mut low_back = first_low.returns();
        for pass in passes {
            let QueuePass {
                high: a,
                normal: b,
                low: c,
                ..
            } = pass;
            high.absorb(&mut high_back, a);
            normal.absorb(&mut normal_back, b);
            low.absorb(&mut low_back, c);
        }
        high.drain(rt, high_back, &mut room);
        normal.drain(rt, normal_back, &mut room);
        low.drain(rt, low_back, &mut room);
        room
    }
}
