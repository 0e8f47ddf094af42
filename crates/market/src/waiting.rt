// The calls that wait, by level.
ghost use Rattle.std.specs.Prelude.{◌≡◌, ◌<◌, ◌++◌, [], ◌∷◌, length, IfOk, IfNone};
ghost use Rattle.circular_buffer.specs.Buffer.{buffer};
ghost use Rattle.job_language.specs.declared.tenants.Level.{Level};
ghost use Rattle.market_config.specs.Config.{room_at};
ghost use Rattle.world_model.specs.Market.{Market, calls_at, with_calls, first_call};
ghost use Rattle.market.specs.Waiting.{ring_at, holding, leaving};

use circular_buffer::HeapCircularBuffer;
use job_language::Level;
use market_config::{Call, MarketConfig};
use std::alloc::{AllocError, Global};

/// A ring of calls for each level, the oldest first.
pub struct WaitingCalls {
    pub high: HeapCircularBuffer<Call>,
    pub normal: HeapCircularBuffer<Call>,
    pub low: HeapCircularBuffer<Call>,
}

impl Drop for WaitingCalls {
    // An owner drops it in one call, not part by part at each of its ways out.
    fn drop(self) {
        let WaitingCalls {
            high: _high,
            normal: _normal,
            low: _low,
        } = self;
    }
}

impl WaitingCalls {
    /// Empty rings, each with the room of its level.
    pub fn new(alloc: Global, config: &MarketConfig) -> Result<WaitingCalls, AllocError>
        ensures { IfOk result (λ w. (l : Level) → ring_at w l ≡ buffer [] (room_at config.now l)) }
    {
        Ok(WaitingCalls {
            high: HeapCircularBuffer::with_capacity(alloc, config.room(Level::High))?,
            normal: HeapCircularBuffer::with_capacity(alloc, config.room(Level::Normal))?,
            low: HeapCircularBuffer::with_capacity(alloc, config.room(Level::Low))?,
        })
    }

    /// Adds a call at the end of a level.
    #[tactic(auto, using(crate::proofs::Rings::kept_last))]
    pub fn push(&mut self, level: Level, call: Call)
        requires { length (ring_at self.old level).items < (ring_at self.old level).capacity }
        ensures calls { (m : Market) → holding m self.new
            ≡ with_calls (holding m self.old) level
            (calls_at (holding m self.old) level ++ call ∷ []) }
        ensures room { (l : Level) → (ring_at self.new l).capacity ≡ (ring_at self.old l).capacity }
    {
        // The ring has room, so that no call falls out at its front.
        let _ = match level {
            Level::High => self.high.push_back(call),
            Level::Normal => self.normal.push_back(call),
            Level::Low => self.low.push_back(call),
        };
    }

    /// Takes the first call of the highest level that has one.
    #[tactic(auto, using(crate::proofs::Rings::none_left))]
    pub fn pop(&mut self) -> Option<Call>
        ensures call { (m : Market)
            → first_call (holding m self.old)
            self.old.high.items self.old.normal.items self.old.low.items
            ≡ leaving (holding m self.new) result }
        ensures none { IfNone result (self.new ≡ self.old) }
        ensures room { (l : Level) → (ring_at self.new l).capacity ≡ (ring_at self.old l).capacity }
    {
        if let Some(call) = self.high.pop_front() {
            return Some(call);
        }
        if let Some(call) = self.normal.pop_front() {
            return Some(call);
        }
        self.low.pop_front()
    }
}
