// How a slot is moved under a tenant's lock, looked at after it, and left.
ghost use Rattle.std.specs.Prelude.{◌≡◌, ◌≤◌, ◌↔◌, IfSome, IsTrue, None};
ghost use Rattle.job_language.specs.declared.answers.Moved.{Moved};
ghost use Rattle.tenant_model.specs.declared.rows.TheConstants.{MAX_HEIGHT};
ghost use Rattle.tenant_record.specs.Cell.{IsRight};
ghost use Rattle.tenant_book.specs.Fronts.{Follows};
ghost use Rattle.tenant_lock.specs.Looks.{IsCountAfter, IsLook, IsLookAfter, IsShown, rows_on};
ghost use Rattle.tenant_lock.specs.Sleepers.{MayLeave};
ghost use Rattle.tenant_lock.specs.Under.{IsAdvanceOf, IsCommitOf, IsGivenHome, IsHandOverOf};
ghost use Rattle.tenant_lock.specs.Watch.{IsTurn};

use super::{Held, MovedAndSeen};
use crate::looks::by_length;
use crate::news::Done;
use job_language::{Answer, Moved};
use job_step::{Segment, View};
use std::sync::Wait;
use tenant_book::{Front, Naming};
use tenant_record::{Advanced, Pass};

impl<J: Naming> Held<J> {
    /// Advances the slot of a pass.
    pub(crate) fn advance<R: Wait>(
        &mut self,
        rt: &R,
        me: &mut Front<J>,
        pass: Pass,
    ) -> Done<Advanced>
        requires { me.old.life ≡ self.old.life }
        ensures front { Follows me.old me.new self.old.cell self.new.cell }
        ensures cell { IsAdvanceOf pass result.answer self.old.cell self.new.cell }
        ensures turn { IsTurn pass result.answer self.old self.new result.news }
    {
        // Proof hint: the cell is right.
        let _ = self.cell.history();
        if !self.cell.has_slot_of(&pass) {
            self.whole.follow(rt, me, &self.cell);
            return Done::nothing(stale(pass));
        }
        let advanced = self.cell.advance(pass);
        self.whole.follow(rt, me, &self.cell);
        let has_entered = Answer::Moved(advanced.moved).is_entry();
        Done::made(
            advanced,
            has_entered,
            &self.cell,
            self.is_stopped,
            &mut self.waiting,
            &mut self.awaited,
        )
    }

    /// Puts a private run in the place of an advance of the slot of a pass.
    pub(crate) fn commit<R: Wait>(
        &mut self,
        rt: &R,
        me: &mut Front<J>,
        pass: Pass,
        segment: Segment,
    ) -> Done<Advanced>
        requires { me.old.life ≡ self.old.life }
        ensures front { Follows me.old me.new self.old.cell self.new.cell }
        ensures cell { IsCommitOf pass segment result.answer self.old.cell self.new.cell }
        ensures turn { IsTurn pass result.answer self.old self.new result.news }
    {
        // Proof hint: the cell is right.
        let _ = self.cell.history();
        if !self.cell.has_slot_of(&pass) {
            self.whole.follow(rt, me, &self.cell);
            return Done::nothing(stale(pass));
        }
        let advanced = self.cell.commit(pass, segment);
        self.whole.follow(rt, me, &self.cell);
        let has_entered = Answer::Moved(advanced.moved).is_entry();
        Done::made(
            advanced,
            has_entered,
            &self.cell,
            self.is_stopped,
            &mut self.waiting,
            &mut self.awaited,
        )
    }

    /// Advances the slot of a pass, and looks at it.
    pub(crate) fn advance_and_look<R: Wait>(
        &mut self,
        rt: &R,
        me: &mut Front<J>,
        pass: Pass,
        view: &mut View,
    ) -> Done<MovedAndSeen>
        requires { me.old.life ≡ self.old.life }
        ensures front { Follows me.old me.new self.old.cell self.new.cell }
        ensures cell { IsAdvanceOf pass result.answer.advanced self.old.cell self.new.cell }
        ensures turn { IsTurn pass result.answer.advanced self.old self.new result.news }
        ensures look { IsLookAfter result.answer view.new self.new.cell }
        ensures most { IfSome result.answer.height (λ height. height ≤ MAX_HEIGHT) }
    {
        let Done {
            answer: advanced,
            news,
        } = self.advance(rt, me, pass);
        let height = self.look(&advanced.pass, view);
        Done {
            answer: MovedAndSeen { advanced, height },
            news,
        }
    }

    /// Advances the slot of a pass, and counts the rows on it.
    pub(crate) fn advance_and_count<R: Wait>(
        &mut self,
        rt: &R,
        me: &mut Front<J>,
        pass: Pass,
    ) -> Done<MovedAndSeen>
        requires { me.old.life ≡ self.old.life }
        ensures front { Follows me.old me.new self.old.cell self.new.cell }
        ensures cell { IsAdvanceOf pass result.answer.advanced self.old.cell self.new.cell }
        ensures turn { IsTurn pass result.answer.advanced self.old self.new result.news }
        ensures count { IsCountAfter result.answer self.new.cell }
        ensures most { IfSome result.answer.height (λ height. height ≤ MAX_HEIGHT) }
    {
        let Done {
            answer: advanced,
            news,
        } = self.advance(rt, me, pass);
        let height = self.rows_on(&advanced.pass);
        Done {
            answer: MovedAndSeen { advanced, height },
            news,
        }
    }

    /// How many rows are on the slot of a pass, if there is one.
    fn rows_on(&self, pass: &Option<Pass>) -> Option<usize>
        ensures count { result ≡ rows_on self.now.cell pass.now }
        ensures most { IfSome result (λ height. height ≤ MAX_HEIGHT) }
    {
        match pass {
            Some(pass) => Some(self.cell.height(pass)),
            None => None,
        }
    }

    /// Puts a private run in the place of an advance of the slot of a pass, and looks at the slot.
    pub(crate) fn commit_and_look<R: Wait>(
        &mut self,
        rt: &R,
        me: &mut Front<J>,
        pass: Pass,
        segment: Segment,
        view: &mut View,
    ) -> Done<MovedAndSeen>
        requires { me.old.life ≡ self.old.life }
        ensures front { Follows me.old me.new self.old.cell self.new.cell }
        ensures cell { IsCommitOf pass segment result.answer.advanced self.old.cell self.new.cell }
        ensures turn { IsTurn pass result.answer.advanced self.old self.new result.news }
        ensures look { IsLookAfter result.answer view.new self.new.cell }
        ensures most { IfSome result.answer.height (λ height. height ≤ MAX_HEIGHT) }
    {
        let Done {
            answer: advanced,
            news,
        } = self.commit(rt, me, pass, segment);
        let height = self.look(&advanced.pass, view);
        Done {
            answer: MovedAndSeen { advanced, height },
            news,
        }
    }

    /// Shows the slot of a pass, if there is one, and gives how many rows are on it.
    fn look(&self, pass: &Option<Pass>, view: &mut View) -> Option<usize>
        ensures look { IsLook self.now.cell pass.now view.new result }
        ensures most { IfSome result (λ height. height ≤ MAX_HEIGHT) }
    {
        let Some(pass) = pass else {
            *view = View::Bare;
            return None;
        };
        *view = self.show(pass);
        Some(self.cell.height(pass))
    }

    /// What the slot of a pass is to be moved by. If no other pass is out, nothing runs beside a
    /// private run, so the slot is to be advanced under the lock. So is one with a long program.
    fn show(&self, pass: &Pass) -> View
        ensures { IsShown self.now.cell pass.now result }
    {
        if self.cell.is_one_out(pass) {
            View::Unshared
        } else {
            by_length(self.cell.view(pass))
        }
    }

    /// Whether the slot of a pass may be left: nothing is on it, or those who wait for the tenant have to stop.
    pub(crate) fn may_leave(&self, pass: &Pass) -> bool
        ensures { IsTrue result ↔ MayLeave self.now pass.now }
    {
        self.cell.has_slot_of(pass) && (self.is_over() || self.cell.height(pass) == 0)
    }

    /// Puts a pass home.
    pub(crate) fn give_home<R: Wait>(&mut self, rt: &R, me: &mut Front<J>, pass: Pass)
        requires life { me.old.life ≡ self.old.life }
        requires may { MayLeave self.old pass }
        ensures front { Follows me.old me.new self.old.cell self.new.cell }
        ensures cell { IsGivenHome pass self.old.cell self.new.cell }
        ensures right { IsRight self.old.cell × IsRight self.new.cell }
        // Whoever is noted as asleep stays noted.
        ensures rest { self.new ≡ record self.old { cell = self.new.cell } }
    {
        // Proof hint: the cell is right.
        let _ = self.cell.history();
        self.cell.give_home(pass);
        self.whole.follow(rt, me, &self.cell);
        // Proof hint: it still is.
        let _ = self.cell.history();
    }

    /// Puts a pass home and calls a worker.
    pub(crate) fn hand_over<R: Wait>(&mut self, rt: &R, me: &mut Front<J>, pass: Pass) -> Option<u8>
        requires life { me.old.life ≡ self.old.life }
        requires may { MayLeave self.old pass }
        ensures front { Follows me.old me.new self.old.cell self.new.cell }
        ensures cell { IsHandOverOf pass result self.old.cell self.new.cell }
        ensures right { IsRight self.old.cell × IsRight self.new.cell }
        // Whoever is noted as asleep stays noted.
        ensures rest { self.new ≡ record self.old { cell = self.new.cell } }
    {
        // Proof hint: the cell is right.
        let _ = self.cell.history();
        let due = self.cell.hand_over(pass);
        self.whole.follow(rt, me, &self.cell);
        // Proof hint: it still is.
        let _ = self.cell.history();
        due
    }
}

/// Nothing was done for a pass.
fn stale(pass: Pass) -> Advanced
    ensures { result ≡ record { moved = Moved.Stale; due = None; pass = Some pass } }
{
    Advanced {
        moved: Moved::Stale,
        due: None,
        pass: Some(pass),
    }
}
