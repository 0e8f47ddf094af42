// Doors in memory whose answers are given by tables.
ghost use Rattle.std.specs.Prelude.{◌≡◌, ◌≤◌};

use job_language::{Error, Moved, Reply, Request, TenantName};
use job_step::{Segment, View};
use nested_wait::{Door, MAX_HEIGHT};
use session_core::{Answered, Doors};

/// One tenant, `acme`. A job that is placed runs for some turns.
#[derive(Drop)]
pub(super) struct Desk<'t> {
    /// What asks other than collects are answered, and whether a job was placed.
    pub replies: &'t [(Reply, bool)],
    pub asked: usize,
    /// What collects are answered.
    pub outcomes: &'t [Reply],
    pub collected: usize,
    /// What the turns of the slot are answered.
    pub turns: &'t [Moved],
    pub turn: usize,
    /// How many pauses say to go on.
    pub pauses: u32,
    pub bound: usize,
}

impl Desk<'_> {
    pub(super) fn new<'t>(
        replies: &'t [(Reply, bool)],
        outcomes: &'t [Reply],
        turns: &'t [Moved],
        pauses: u32,
    ) -> Desk<'t> {
        Desk {
            replies,
            asked: 0,
            outcomes,
            collected: 0,
            turns,
            turn: 0,
            pauses,
            bound: 0,
        }
    }
}

impl Door for Desk<'_> {
    ghost views = { λ _ _. Unit {0} };

    ghost commits = { λ _ _ _ _. Unit {0} };

    ghost advances = { λ _ _ _. Unit {0} };

    ghost heights = { λ _ _. Unit {0} };

    ghost pauses = { λ _ _ _. Unit {0} };

    fn view(&self) -> View {
        View::Bare
    }

    fn commit(&mut self, _segment: Segment) -> Moved {
        self.advance()
    }

    fn advance(&mut self) -> Moved {
        let moved = self.turns.get(self.turn).copied().unwrap_or(Moved::Idle);
        self.turn = self.turn.wrapping_add(1);
        moved
    }

    fn height(&self) -> usize {
        let left = self.turns.len().saturating_sub(self.turn);
        left.min(MAX_HEIGHT).min(1)
    }

    fn pause(&mut self) -> bool {
        let stops = self.pauses == 0;
        self.pauses = self.pauses.saturating_sub(1);
        stops
    }
}

impl Doors for Desk<'_> {
    ghost finds = { λ _ _ _. Unit {0} };

    ghost binds = { λ _ _ _ _ _. Unit {0} };

    ghost asks = { λ _ _ _ _. Unit {0} };

    ghost waits = { λ _ _ _ _. Unit {0} };

    fn find(&self, name: TenantName) -> Option<usize> {
        if name.as_str() == "acme" {
            Some(0)
        } else {
            None
        }
    }

    fn bind(&mut self, _tenant: usize, _name: TenantName) -> Result<(), Error> {
        self.bound = self.bound.wrapping_add(1);
        Ok(())
    }

    fn ask(&mut self, request: Request) -> Answered {
        let none = Reply::Refused(Error::UnknownJob);
        let (reply, placed) = if let Request::Collect(_) = request {
            let outcome = self.outcomes.get(self.collected).copied();
            self.collected = self.collected.wrapping_add(1);
            (outcome.unwrap_or(none), false)
        } else {
            let answer = self.replies.get(self.asked).copied();
            self.asked = self.asked.wrapping_add(1);
            match answer {
                Some((Reply::Pending, _)) | None => (none, false),
                Some(answer) => answer,
            }
        };
        Answered { reply, placed }
    }

    fn pause_for(&mut self, _job: u64) -> bool {
        self.pause()
    }
}
