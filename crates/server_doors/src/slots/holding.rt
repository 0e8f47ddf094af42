// Which pass a thread takes, what it forgets of its slot, and what it gives back at its end.
ghost use Rattle.std.specs.Prelude.{◌≡◌, ◌<◌, length, IfSome, None};
ghost use Rattle.server_doors.specs.Slots.{AreFronts};
ghost use Rattle.server_doors.specs.SlotWays.{GoesHome};

use super::{HeldSlot, MANY_MOVES, MOST_MOVES};
use crate::places;
use job_step::View;
use std::mem;
use std::sync::Wait;
use tenant_book::{Front, Naming};
use tenant_record::Pass;

impl<'d, J: Naming, R: Wait> HeldSlot<'d, J, R> {
    /// Gives the slot home that it is at, and gives back what it has seen.
    pub fn end(self) -> Vec<Front<J>>
        ensures home { GoesHome self.entry
            (record { doors = self.entry.doors; fronts = result.items; pass = None }) }
        ensures fronts { AreFronts self.entry.doors result.items }
    {
        let HeldSlot {
            rt,
            doors,
            fronts,
            stop: _stop,
            pass,
            height: _height,
            view: _view,
            under_lock: _under_lock,
            short_moves: _short_moves,
        } = self;
        let mut fronts = fronts;
        if let Some(pass) = pass {
            places::give_home(rt, doors, &mut fronts, pass);
        }
        fronts
    }

    /// Takes a pass, if there is one, after a move. It has none. Where many of its moves were short, another slot that is
    /// moved so may go on first.
    pub(super) fn hold(&mut self, pass: Option<Pass>)
        requires none { self.old.pass ≡ None }
        requires there { IfSome pass (λ p. p.tenant < length self.old.doors) }
        ensures { self.new ≡ record self.old { pass = pass } }
    {
        self.short_moves = self.short_moves.saturating_add(1).min(MOST_MOVES);
        if let Some(pass) = &pass
            && self.short_moves >= MANY_MOVES
        {
            self.doors[pass.tenant()].give_way(pass);
        }
        if let Some(left) = mem::replace(&mut self.pass, pass) {
            places::give_home(self.rt, self.doors, &mut self.fronts, left);
        }
    }

    /// Takes a pass with which a row has just come to an empty slot, if there is one: one row is on the slot then.
    pub(super) fn begin(&mut self, pass: Option<Pass>)
        requires none { self.old.pass ≡ None }
        requires there { IfSome pass (λ p. p.tenant < length self.old.doors) }
        ensures { self.new ≡ record self.old { pass = pass } }
    {
        if pass.is_some() {
            self.height = Some(1);
        }
        self.short_moves = 0;
        self.hold(pass);
    }

    /// Forgets what its last move saw of its slot.
    pub(super) fn forget(&mut self)
        ensures { self.new ≡ self.old }
    {
        self.height = None;
        self.view.set(View::Bare);
        self.under_lock = 0;
    }
}
