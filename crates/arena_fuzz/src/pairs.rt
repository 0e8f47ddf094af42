// A tenant's arena beside its plain evaluator.
use crate::acts::Act;
use crate::differences::Difference;
use arena_core::Arena;
use job_language::{Answer, Moved, Step, TenantConfig};
use job_step::{Segment, View, segment_of};
use same_values::{is_same_answer, is_same_frame, is_same_program};
use solo_eval::Solo;
use std::alloc::{AllocError, Global};

/// A tenant's arena beside its plain evaluator, which take the same steps, and a private run that was
/// made away from the arena.
pub(crate) struct Pair {
    arena: Arena,
    solo: Solo,
    kept: Option<Segment>,
}

impl Drop for Pair {
    // An owner drops it in one call, not part by part at each of its ways out.
    fn drop(self) {
        let Pair {
            arena: _arena,
            solo: _solo,
            kept: _kept,
        } = self;
    }
}

/// What the arena and the evaluator answered.
#[derive(Clone, Copy)]
pub(crate) struct Both {
    pub(crate) arena: Answer,
    pub(crate) solo: Answer,
}

impl Both {
    fn moved(arena: Moved, solo: Moved) -> Both {
        Both {
            arena: Answer::Moved(arena),
            solo: Answer::Moved(solo),
        }
    }

    /// The difference of the two answers, if there is one.
    pub(crate) fn difference(&self) -> Option<Difference> {
        if is_same_answer(&self.arena, &self.solo) {
            return None;
        }
        let Both { arena, solo } = *self;
        Some(Difference::Answers { arena, solo })
    }
}

impl Pair {
    /// A tenant that has done nothing yet.
    pub(crate) fn new(alloc: Global, config: TenantConfig) -> Result<Pair, AllocError> {
        Ok(Pair {
            arena: Arena::new(alloc, config)?,
            solo: Solo::new(alloc, config),
            kept: None,
        })
    }

    /// How many slots the tenant has.
    pub(crate) fn slots(&self) -> u8 {
        self.arena.config().slots
    }

    /// Does something to both. What is only seen has no answer.
    pub(crate) fn take(&mut self, act: Act) -> Result<Option<Both>, AllocError> {
        match act {
            Act::Step(step) => Ok(Some(self.step(step)?)),
            Act::See(slot) => {
                self.kept = self.segment(slot);
                Ok(None)
            }
            Act::Commit(slot) => {
                let kept = self.kept.take();
                self.commit_some(slot, kept)
            }
            Act::SeeAndCommit(slot) => {
                let seen = self.segment(slot);
                self.commit_some(slot, seen)
            }
        }
    }

    /// Commits a private run if there is one.
    fn commit_some(
        &mut self,
        slot: u8,
        segment: Option<Segment>,
    ) -> Result<Option<Both>, AllocError> {
        match segment {
            Some(segment) => Ok(Some(self.commit(slot, &segment)?)),
            None => Ok(None),
        }
    }

    fn step(&mut self, step: Step) -> Result<Both, AllocError> {
        let solo = self.solo.step(&step)?;
        let arena = match step {
            Step::Ask(request) => Answer::Replied(self.arena.ask(request)),
            Step::Arrive(slot) => Answer::Came(self.arena.arrive(slot)),
            Step::Advance(slot) => Answer::Moved(self.arena.advance(slot)),
        };
        Ok(Both { arena, solo })
    }

    /// The private run of a slot's topmost frame.
    fn segment(&self, slot: u8) -> Option<Segment> {
        match self.arena.view(slot) {
            View::Top(top) => Some(segment_of(top)),
            View::Bare | View::Unshared => None,
        }
    }

    /// Commits a private run, which is an advance of the evaluator if it is that of the topmost frame;
    /// else it is stale, and the evaluator does nothing.
    fn commit(&mut self, slot: u8, segment: &Segment) -> Result<Both, AllocError> {
        if !self.is_topmost(slot, segment) {
            return Ok(Both::moved(self.arena.commit(slot, segment), Moved::Stale));
        }
        let solo = self.solo.advance(slot)?;
        Ok(Both::moved(self.arena.commit(slot, segment), solo))
    }

    /// Whether a private run is that of the frame that is now seen on a slot.
    fn is_topmost(&self, slot: u8, segment: &Segment) -> bool {
        let View::Top(top) = self.arena.view(slot) else {
            return false;
        };
        let of = segment.top();
        top.slot == of.slot
            && top.width == of.width
            && is_same_frame(&top.frame, &of.frame)
            && is_same_program(&top.program, &of.program)
    }

    /// Whether the evaluator has no open row.
    pub(crate) fn is_at_rest(&self) -> bool {
        for slot in 0..self.slots() {
            if self.solo.height(slot) > 0 {
                return false;
            }
        }
        !self.solo.has_unstarted()
    }

    /// What is seen to differ between two steps, if anything is.
    pub(crate) fn difference(&self) -> Option<Difference> {
        let (arena, solo) = (self.arena.has_unstarted(), self.solo.has_unstarted());
        if arena != solo {
            return Some(Difference::Unstarted { arena, solo });
        }
        for slot in 0..self.slots() {
            let difference = self.difference_at(slot);
            if difference.is_some() {
                return difference;
            }
        }
        None
    }

    /// What is seen to differ at a slot, if anything is.
    fn difference_at(&self, slot: u8) -> Option<Difference> {
        let (arena, solo) = (self.arena.height(slot) as u64, self.solo.height(slot));
        if arena != solo {
            return Some(Difference::Heights { slot, arena, solo });
        }
        match (self.arena.view(slot), solo) {
            (View::Bare, 0) => None,
            // No handle on a program is refused here.
            (View::Bare | View::Unshared, _) | (View::Top(_), 0) => Some(Difference::View { slot }),
            (View::Top(_), _) => None,
        }
    }
}
